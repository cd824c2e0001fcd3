// Reads a tree file from standard input and writes its report to standard output. It takes about 160 KiB of stack: 64 KiB for the report, 7 KiB
// for the input, and the 80 KiB that `report` takes.
//
// A failed read writes nothing to standard output, a failed write stops it short, and each says so on standard error. The exit status is 0, but where
// that cannot be said either.
#![tactic(auto)]

use sample::read_full;
use std::io;
use std::io::Print;
use treereport::report::{REPORT_ROOM, report};

// One byte more than the largest well-formed file: 1,025 offsets, 2,048 targets, the root and 64 queries, with the four counts, are 3,334 numbers
// of two bytes. Where the buffer is full, the input is longer than any such file, and so is the buffer: both are bad files, whatever follows
// (law `long_bad` of treereport).
const MAX_INPUT: usize = 6_669;

fn main(rt: HostRuntime) -> io::Result<()> {
    let mut input = [0u8; MAX_INPUT];
    let Ok(count) = read_full(&mut rt.stdin(), &mut input) else {
        return rt
            .stderr()
            .write_all(b"treepaths: cannot read standard input\n");
    };
    let mut out = [0u8; REPORT_ROOM];
    let length = report(&input[..count], &mut out);
    let Ok(()) = rt.write_all(&out[..length]) else {
        return rt
            .stderr()
            .write_all(b"treepaths: cannot write the report\n");
    };
    Ok(())
}
