// Reading cases that stand as text, one to a line, and printing them. A text need not be UTF-8: it is printed byte for byte.
#![tactic(auto)]

pub mod cursor;

ghost use Rattle.std.specs.Prelude.{◌≡◌};
ghost use Rattle.casetext.specs.Remark.{remark?};

use std::io;
use std::io::Print;

// Whether a line has no case: it is empty or a remark, which begins with #.
pub fn is_remark(line: &[u8]) -> bool
    ensures { result ≡ remark? line.now }
{
    matches!(line, [] | [b'#', ..])
}

// Prints a case and a colon, before the answer.
pub fn print_head(rt: &impl Print, case: &[u8]) -> io::Result<()> {
    rt.write_all(case)?;
    rt.write_all(b": ")
}

// Prints a line that does not follow the grammar, and that it does not.
pub fn print_malformed(rt: &impl Print, line: &[u8]) -> io::Result<()> {
    rt.write_all(line)?;
    rt.write_all(b": malformed\n")
}
