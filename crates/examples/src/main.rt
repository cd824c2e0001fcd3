// Runs validate_tree on the examples of the rules and on their neighbours, and prints a line for each: its name, the code, and whether work
// was left as the rules say. The cases stand on standard input, one to a line. A line is one of these; any other is printed as malformed.
//
//     nothing, or # and a remark
//     GRAPH root NUMBER work NUMBER: NAME        a case: the graph, the root, how many entries of work are lent, and the name that is printed
//
// A GRAPH is one of these. NUMBERS are none or more, each behind a space.
//
//     offsets NUMBERS targets NUMBERS
//     path NUMBER targets NUMBER                 the path of so many vertices, with its first so many targets, which go on past its end
//     vertices NUMBER list NUMBER times NUMBER   so many vertices, of which only the first has a list: a vertex, so many times
#![tactic(auto)]

mod run;
mod shapes;

use casetext::{is_remark, print_malformed};
use run::run_case;
use sample::{MAX_SAMPLE, read_sample};
use shapes::Room;
use std::io;
use std::io::Print;

// One vertex more than the limit, one target more, and the work of both limits and an entry.
const MAX_POINTS: usize = 32_770;

const MAX_ENTRIES: usize = 65_536;

const MAX_WORK: usize = 327_680;

// Runs the case of each line, all in the same room.
fn run_all(rt: &impl Print, text: &[u8]) -> io::Result<()> {
    let mut offsets = [0u32; MAX_POINTS];
    let mut targets = [0u32; MAX_ENTRIES];
    let mut work = [0u32; MAX_WORK];
    for line in text.split(|byte| *byte == b'\n') {
        if is_remark(line) {
            continue;
        }
        let room = Room {
            offsets: &mut offsets,
            targets: &mut targets,
        };
        match run_case(line, room, &mut work) {
            Some(outcome) => outcome.print(rt)?,
            None => print_malformed(rt, line)?,
        }
    }
    Ok(())
}

fn main(rt: HostRuntime) -> io::Result<()> {
    let mut buffer = [0u8; MAX_SAMPLE];
    match read_sample(&mut rt.stdin(), &mut buffer)? {
        Some(count) => run_all(&rt, &buffer[..count]),
        None => Ok(()),
    }
}
