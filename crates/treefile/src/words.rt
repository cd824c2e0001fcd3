// The numbers of a file, of two or of four bytes each.
ghost use Rattle.std.specs.Prelude.{◌≡◌, ◌+◌, ◌≤◌, ◌<◌, length, take, drop};
ghost use Rattle.paths.specs.Lists.{front};
ghost use Rattle.treefile.specs.Sections.{bytes_in, words_in, first_in, Little, Number};

// How wide the numbers are, in bytes: 16 bits or 32.
#[derive(Clone, Copy)]
pub enum Width {
    Narrow = 2,
    Wide = 4,
}

impl Width {
    // The bytes of one number.
    pub(crate) fn bytes(self) -> usize
        ensures { result ≡ bytes_in self }
    {
        self as usize
    }
}

// Numbers as the bytes that hold them; bytes behind the last whole number are no number.
#[derive(Clone, Copy)]
pub struct Words<'a> {
    pub bytes: &'a [u8],
    pub width: Width,
}

// The 16-bit number from index at on.
fn narrow_at(bytes: &[u8], at: usize) -> usize
    requires { at + 2 ≤ length bytes.now }
    ensures { Little 2 bytes.now at result }
{
    u16::from_le_bytes([bytes[at], bytes[at + 1]]) as usize
}

// The 32-bit number from index at on.
fn wide_at(bytes: &[u8], at: usize) -> usize
    requires { at + 4 ≤ length bytes.now }
    ensures { Little 4 bytes.now at result }
{
    u32::from_le_bytes([bytes[at], bytes[at + 1], bytes[at + 2], bytes[at + 3]]) as usize
}

impl<'a> Words<'a> {
    // How many whole numbers there are.
    pub fn count(self) -> usize
        ensures { result ≡ length (words_in self.entry) }
    {
        self.bytes.len() / self.width.bytes()
    }

    // The number at place i, its low byte first. Nothing else of the parser reads a byte.
    pub fn number(self, i: usize) -> usize
        requires { i < length (words_in self) }
        ensures { Number (bytes_in self.entry.width) self.entry.bytes.now i result }
    {
        match self.width {
            Width::Narrow => narrow_at(self.bytes, 2 * i),
            Width::Wide => wide_at(self.bytes, 4 * i),
        }
    }

    // The first n numbers, and those behind them.
    pub fn split_at(self, n: usize) -> (Words<'a>, Words<'a>)
        requires { n ≤ length (words_in self) }
        ensures front { words_in result.0 ≡ take n (words_in self.entry) }
        ensures back { words_in result.1 ≡ drop n (words_in self.entry) }
    {
        let width = self.width;
        let (front, back) = self.bytes.split_at(n * width.bytes());
        (
            Words {
                bytes: front,
                width,
            },
            Words { bytes: back, width },
        )
    }

    // The first number, and those behind it.
    pub fn split_first(self) -> Option<(usize, Words<'a>)>
        ensures { first_in result ≡ words_in self.entry }
    {
        if self.count() == 0 {
            return None;
        }
        let (_, rest) = self.split_at(1);
        Some((self.number(0), rest))
    }

    // Copies all numbers to the front of out.
    pub fn copy_to(self, out: &mut [u32])
        requires { length (words_in self) ≤ length out.old }
        ensures { out.new ≡ front (words_in self.entry) out.old }
    {
        for i in 0..self.count() {
            out[i] = self.number(i) as u32;
        }
    }
}
