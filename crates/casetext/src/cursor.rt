// A cursor over a line. Each reading takes what it reads off the front, and where it reads nothing the cursor stays.
ghost use Rattle.std.specs.Prelude.{◌≡◌, ◌+◌, ◌++◌, ◌≤◌, length, IfSome, IfNone};
ghost use Rattle.casetext.specs.Left.{left};

// The largest number, which is written `most`, or `none` where it says that there is none.
const LARGEST: u32 = u32::MAX;

// The largest number to which one more digit is added.
const MOST_BEFORE: u32 = 99_999_999;

// What is left of a line.
#[derive(Clone, Copy)]
pub struct Cursor<'a> {
    rest: &'a [u8],
}

impl<'a> Cursor<'a> {
    // All of the line.
    pub fn new(line: &'a [u8]) -> Self
        ensures { left result ≡ line.now }
    {
        Cursor { rest: line }
    }

    // What is left.
    pub fn rest(&self) -> &'a [u8]
        ensures { result.now ≡ left self.now }
    {
        self.rest
    }

    // Takes these words, where they stand next.
    pub fn words(&mut self, expected: &[u8]) -> Option<()>
        ensures stays { IfNone result (self.new ≡ self.old) }
        ensures taken { IfSome result (λ done. expected.now ++ left self.new ≡ left self.old) }
    {
        self.rest = self.rest.strip_prefix(expected)?;
        Some(())
    }

    // Takes what stands up to the first such byte, and that byte.
    pub fn until(&mut self, byte: u8) -> Option<&'a [u8]>
        ensures stays { IfNone result (self.new ≡ self.old) }
        ensures found { IfSome result (λ found. length found.now + length (left self.new) + 1 ≡ length (left self.old)) }
    {
        let at = self.rest.iter().position(|x| *x == byte)?;
        let found = &self.rest[..at];
        self.rest = &self.rest[at + 1..];
        Some(found)
    }

    // Takes a number, in digits or as a word.
    pub fn number(&mut self) -> Option<u32>
        ensures stays { IfNone result (self.new ≡ self.old) }
    {
        if self.words(b"most").is_some() || self.words(b"none").is_some() {
            return Some(LARGEST);
        }
        self.decimal()
    }

    // Takes a number in digits, to the last of them. A thousand million or more is none.
    fn decimal(&mut self) -> Option<u32>
        ensures stays { IfNone result (self.new ≡ self.old) }
    {
        let end = self.rest.iter().position(|byte| !byte.is_ascii_digit());
        let (digits, rest) = self.rest.split_at(end.unwrap_or(self.rest.len()));
        if digits.is_empty() {
            return None;
        }
        let mut value: u32 = 0;
        for byte in digits {
            if MOST_BEFORE < value {
                return None;
            }
            value = 10 * value + u32::from(byte.wrapping_sub(b'0'));
        }
        self.rest = rest;
        Some(value)
    }

    // Takes the next number of a list, with the space, or comma and space, before it.
    fn item(&mut self) -> Option<u32>
        ensures stays { IfNone result (self.new ≡ self.old) }
    {
        let mut after = *self;
        if after.words(b", ").is_none() {
            after.words(b" ")?;
        }
        let number = after.number()?;
        *self = after;
        Some(number)
    }

    // Takes a list, as far as there is room in out, and returns the part of out that has it.
    pub fn numbers<'o>(&mut self, out: &'o mut [u32]) -> &'o [u32]
        ensures { length result.now ≤ length out.old }
    {
        let count = self.fill(out);
        &out[..count]
    }

    // Takes a list to the front of out, as far as there is room, and returns how many numbers it has.
    fn fill(&mut self, out: &mut [u32]) -> usize
        ensures { result ≤ length out.new }
    {
        for (count, entry) in out.iter_mut().enumerate() {
            let Some(number) = self.item() else {
                return count;
            };
            *entry = number;
        }
        out.len()
    }

    // Takes what has this form, in which # stands for a number and any other byte for itself, as in `size(#)=#`, and returns the numbers: the first N,
    // or, where there are fewer, those and zeros.
    pub fn form<const N: usize>(&mut self, form: &[u8]) -> Option<[u32; N]>
        ensures stays { IfNone result (self.new ≡ self.old) }
    {
        let mut after = *self;
        let mut numbers = [0u32; N];
        let mut entries = numbers.iter_mut();
        for mark in form {
            if *mark == b'#' {
                let number = after.number()?;
                if let Some(entry) = entries.next() {
                    *entry = number;
                }
            } else {
                after.words(&[*mark])?;
            }
        }
        *self = after;
        Some(numbers)
    }
}
