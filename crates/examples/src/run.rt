// One case: the call, the look at work afterwards, and the line.
use crate::shapes::{Room, read_graph};
use answers::answer::{Refusal, code_of};
use casetext::cursor::Cursor;
use casetext::print_head;
use graph::lists::Graph;
use std::io;
use std::io::Print;
use validate::validate_tree;

// What stands in each entry of work before a call.
const BEFORE: u32 = 3_000_000_000;

// What came of a case: its name, the code, and whether work was left right.
#[derive(Clone, Copy)]
pub struct Outcome<'a> {
    name: &'a [u8],
    code: u32,
    right: bool,
}

impl Outcome<'_> {
    // Prints the case's line.
    pub fn print(self, rt: &impl Print) -> io::Result<()> {
        print_head(rt, self.name)?;
        let code = self.code;
        let left = if self.right { "ok" } else { "WRONG" };
        println!(rt; "{code}, work {left}")
    }
}

// What must stand in entry i of work after a call that clears the first `cleared` entries.
fn after(i: usize, cleared: usize) -> u32 {
    if i < cleared { 0 } else { BEFORE }
}

// Whether the first `cleared` entries of work are zero and all others as before the call.
fn left_right(work: &[u32], cleared: usize) -> bool {
    work.iter()
        .enumerate()
        .all(|(i, entry)| *entry == after(i, cleared))
}

// How many entries of work a call with this answer clears, for points offsets and entries targets: none on 1 and 2, else 8n + E.
fn cleared_by(judged: Result<(), Refusal>, points: usize, entries: usize) -> usize {
    if matches!(judged, Err(Refusal::BadSize | Refusal::NoRoom)) {
        return 0;
    }
    if points < 2 || 65_536 < points || 65_536 < entries {
        return 0;
    }
    8 * (points - 1) + entries
}

// Judges the graph from root, and answers the code and whether work was left right.
fn judge(graph: &Graph, root: usize, work: &mut [u32]) -> (u32, bool) {
    work.fill(BEFORE);
    let judged = validate_tree(graph, root, work);
    let cleared = cleared_by(judged, graph.offsets.len(), graph.targets.len());
    (code_of(judged), left_right(work, cleared))
}

// Runs the case of this line on the work that it says, in this room. None where the line has no case or the room is too small.
pub fn run_case<'a>(line: &'a [u8], room: Room, work: &mut [u32]) -> Option<Outcome<'a>> {
    let mut cursor = Cursor::new(line);
    let graph = read_graph(&mut cursor, room)?;
    let [root, lent] = cursor.form::<2>(b" root # work #: ")?;
    let work = work.get_mut(..lent as usize)?;
    let (code, right) = judge(&graph, root as usize, work);
    Some(Outcome {
        name: cursor.rest(),
        code,
        right,
    })
}
