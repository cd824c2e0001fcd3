// What the programs that replay a stored sample share. A sample is 16-bit numbers, the low byte first, and bytes between them; the first number is
// the count of cases. Each program says by `Replay` how one case is run and counted, and prints its counts by `Display`.
#![tactic(auto)]

ghost use Rattle.std.specs.Prelude.{◌≡◌, ◌≤◌, ◌<◌, ◌+◌, ◌*◌, ◌==◌, ◌++◌, length, IfSome, IfNone, IfOk, OnErr};
ghost use Rattle.sample.specs.Left.{left};

use std::fmt::Display;
use std::io;
use std::io::{Print, Read};

// One byte more than the longest sample, or text, that a program reads.
pub const MAX_SAMPLE: usize = 65_536;

// What is left of a sample. Each method takes what it returns off the front, and answers None where there is less than it takes.
#[derive(Clone, Copy)]
pub struct Sample<'a> {
    rest: &'a [u8],
}

impl<'a> Sample<'a> {
    // All of the bytes.
    pub fn new(bytes: &'a [u8]) -> Self
        ensures { left result ≡ bytes.now }
    {
        Sample { rest: bytes }
    }

    // Whether nothing is left.
    pub fn is_empty(&self) -> bool
        ensures { result ≡ (length (left self.now) == 0) }
    {
        self.rest.is_empty()
    }

    // The next number.
    pub fn number(&mut self) -> Option<u16>
        ensures stays { IfNone result (self.new ≡ self.old) }
        ensures taken { IfSome result (λ number. length (left self.new) + 2 ≡ length (left self.old)) }
    {
        let (bytes, rest) = self.rest.split_first_chunk()?;
        self.rest = rest;
        Some(u16::from_le_bytes(*bytes))
    }

    // As many numbers as out has entries, to out. Where there are fewer, out has those.
    pub fn numbers(&mut self, out: &mut [u32]) -> Option<()>
        ensures taken { IfSome result (λ done. length (left self.new) + 2 * length out.old ≡ length (left self.old)) }
    {
        for entry in out {
            *entry = u32::from(self.number()?);
        }
        Some(())
    }

    // The next bytes, so many.
    pub fn bytes(&mut self, count: usize) -> Option<&'a [u8]>
        ensures stays { IfNone result (self.new ≡ self.old) }
        ensures taken { IfSome result (λ bytes. bytes.now ++ left self.new ≡ left self.old) }
        ensures found { IfSome result (λ bytes. length bytes.now ≡ count) }
    {
        let (bytes, rest) = self.rest.split_at_checked(count)?;
        self.rest = rest;
        Some(bytes)
    }
}

// What a program counts over the cases of a sample; it is printed once all have been run.
pub trait Replay: Display {
    // Takes the next case off the sample, runs it and counts it. None where no case stands there: it ends early or is too large.
    fn replay_case(&mut self, sample: &mut Sample) -> Option<()>;
}

// Runs all cases of the sample. None where one does not stand there, or where bytes are left.
fn replay_cases<R: Replay>(bytes: &[u8], counts: &mut R) -> Option<()> {
    let mut sample = Sample::new(bytes);
    for _ in 0..sample.number()? {
        counts.replay_case(&mut sample)?;
    }
    if sample.is_empty() { Some(()) } else { None }
}

// Runs all cases of the sample that the reader has, and prints the counts, or that the sample is malformed.
pub fn replay_sample<R: Replay>(
    rt: &impl Print,
    reader: &mut impl Read,
    counts: &mut R,
) -> io::Result<()> {
    let mut buffer = [0u8; MAX_SAMPLE];
    let read = read_sample(reader, &mut buffer)?;
    let replayed = match read {
        Some(count) => replay_cases(&buffer[..count], counts),
        None => None,
    };
    match replayed {
        Some(()) => print!(rt; "{counts}"),
        None => println!(rt; "the sample is malformed"),
    }
}

// Reads to the front of the buffer, until it is full or the input ends, and returns how many bytes. The one error is that of a read.
pub fn read_full<R: Read>(reader: &mut R, buffer: &mut [u8]) -> io::Result<usize>
    ensures ok { IfOk result (λ count. count ≤ length buffer.new) }
    ensures err { OnErr result (length buffer.new ≡ length buffer.old) }
{
    let mut count: usize = 0;
    while count < buffer.len() {
        let more = reader.read(&mut buffer[count..])?;
        if more == 0 {
            return Ok(count);
        }
        count += more;
    }
    Ok(count)
}

// Reads the sample to the front of the buffer and returns its length. Where the buffer is full there may be more, and no length is returned: what is
// too long counts as malformed. The one error is that of a read.
pub fn read_sample<R: Read>(reader: &mut R, buffer: &mut [u8]) -> io::Result<Option<usize>>
    ensures ok { IfOk result (λ read. IfSome read (λ count. count < length buffer.new)) }
    ensures err { OnErr result (length buffer.new ≡ length buffer.old) }
{
    let count = read_full(reader, buffer)?;
    if count == buffer.len() {
        return Ok(None);
    }
    Ok(Some(count))
}
