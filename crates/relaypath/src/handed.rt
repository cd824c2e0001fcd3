// An answer as a code and values.
ghost use Rattle.std.specs.Prelude.{◌≡◌};
ghost use Rattle.answers.specs.Answers.{code_of as code_in};
ghost use Rattle.relaypath.specs.Handed.{found_or, HandedEnds};

use answers::answer::{DONE, Interval, Refusal};

// The code of an answer. Its value goes into `answer`, which a refusal leaves as it was.
pub fn hand<T: Copy>(found: Result<T, Refusal>, answer: &mut T) -> u32
    ensures code { result ≡ code_in found }
    ensures value { answer.new ≡ found_or found answer.old }
{
    match found {
        Ok(value) => {
            *answer = value;
            DONE
        }
        Err(refusal) => refusal.code(),
    }
}

// The same for an interval, whose start and end go into a number each.
pub fn hand_ends(found: Interval, start: &mut usize, end: &mut usize) -> u32
    ensures { HandedEnds found start.old end.old start.new end.new result }
{
    match found {
        Ok((a, e)) => {
            *start = a;
            *end = e;
            DONE
        }
        Err(refusal) => refusal.code(),
    }
}
