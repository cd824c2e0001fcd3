// What a call answers: a value, or the refusal that came first.
ghost use Rattle.std.specs.Prelude.{◌≡◌};
ghost use Rattle.answers.specs.Answers.{refusal_code, code_of};

// 01's refusals by their names. The number of each is its code.
#[derive(Clone, Copy, PartialEq, Eq)]
pub enum Refusal {
    BadSize = 1,
    NoRoom = 2,
    BadOffsets = 3,
    BadVertex = 4,
    BadRoot = 5,
    NotSymmetric = 6,
    Disconnected = 7,
    HasCycle = 8,
    BadTable = 9,
    TooFar = 10,
}

// The code of what is answered: a file's refusal has one too, but no call of the library gives it.
pub const DONE: u32 = 0;

// A vertex or another number.
pub type Answer = Result<usize, Refusal>;

// The numbers from the first up to the second, the second excluded.
pub type Interval = Result<(usize, usize), Refusal>;

// How many ranges were written.
pub type Listed = Result<usize, Refusal>;

impl Refusal {
    // The code of a refusal.
    pub fn code(self) -> u32
        ensures { result ≡ refusal_code self }
    {
        self as u32
    }
}

// The code of an answer: 0 where there is one, else that of its refusal.
pub fn code_of<T: Copy>(answer: Result<T, Refusal>) -> u32
    ensures { result ≡ code_of answer }
{
    match answer {
        Ok(_) => DONE,
        Err(refusal) => refusal.code(),
    }
}
