// Runs try_hld on a stored sample of the Rust original's tables, and counts the cases on which all six tables agree. The sample stands on
// standard input: each case is n, the root, n + 1 offsets, 2(n - 1) targets, and n entries of each of the tables parent, depth, head, id, order
// and size, where 65535 stands for no parent.
#![tactic(auto)]

ghost use Rattle.std.specs.Prelude.{◌*◌, ◌≤◌, length};

use answers::limits::NO_PARENT;
use graph::lists::Graph;
use hld::build::try_hld;
use sample::{Replay, Sample, replay_sample};
use std::{fmt, io};
use tables::TablesMut;

// The largest case of the sample.
const MAX_VERTICES: usize = 40;

const MAX_TARGETS: usize = 78;

const MAX_ENTRIES: usize = 6 * MAX_VERTICES;

// What stands for no parent in the sample.
const NONE: u32 = 65_535;

// What stands in every table before the build.
const UNWRITTEN: u32 = 2_779_096_485;

// The cases so far, their vertices, and on how many the two agree.
#[derive(Clone, Copy, Default)]
struct Counts {
    cases: u64,
    vertices: u64,
    agree: u64,
}

impl Counts {
    // Counts a case of so many vertices.
    fn count(&mut self, vertices: u16, agree: bool) {
        self.cases = self.cases.saturating_add(1);
        self.vertices = self.vertices.saturating_add(u64::from(vertices));
        if agree {
            self.agree = self.agree.saturating_add(1);
        }
    }
}

impl Replay for Counts {
    // Builds the tables of the case and holds them to the stored ones.
    fn replay_case(&mut self, sample: &mut Sample) -> Option<()> {
        let vertices = sample.number()?;
        let n = usize::from(vertices);
        let root = usize::from(sample.number()?);
        let mut offsets = [0u32; MAX_VERTICES + 1];
        let mut targets = [0u32; MAX_TARGETS];
        let mut stored = [0u32; MAX_ENTRIES];
        let offsets = offsets.get_mut(..=n)?;
        let targets = targets.get_mut(..2 * n.checked_sub(1)?)?;
        let stored = stored.get_mut(..6 * n)?;
        sample.numbers(offsets)?;
        sample.numbers(targets)?;
        sample.numbers(stored)?;
        mark_none(stored);
        self.count(
            vertices,
            agrees(&Graph { offsets, targets }, root, n, stored),
        );
        Some(())
    }
}

impl fmt::Display for Counts {
    fn fmt<W: fmt::Write>(&self, f: &mut fmt::Formatter<W>) -> fmt::Result {
        writeln!(f, "cases {}", self.cases)?;
        writeln!(f, "vertices {}", self.vertices)?;
        writeln!(f, "agree {}", self.agree)
    }
}

// Turns what stands for no parent in the sample into what stands for it in a table.
fn mark_none(entries: &mut [u32]) {
    for entry in entries {
        if *entry == NONE {
            *entry = NO_PARENT;
        }
    }
}

// Whether the build answers 0 and writes the six tables of n entries that are stored one after the other.
fn agrees(graph: &Graph, root: usize, n: usize, stored: &[u32]) -> bool
    requires { n ≤ 40 }
{
    let mut entries = [UNWRITTEN; MAX_ENTRIES];
    if !build(graph, root, n, &mut entries) {
        return false;
    }
    &entries[..6 * n] == stored
}

// Builds the six tables of n entries, one after the other, and answers whether the build answers 0.
fn build(graph: &Graph, root: usize, n: usize, entries: &mut [u32]) -> bool
    requires { 6 * n ≤ length entries.old }
{
    let mut work = [UNWRITTEN; 8 * MAX_VERTICES + MAX_TARGETS];
    let (parent, rest) = entries.split_at_mut(n);
    let (depth, rest) = rest.split_at_mut(n);
    let (head, rest) = rest.split_at_mut(n);
    let (id, rest) = rest.split_at_mut(n);
    let (order, rest) = rest.split_at_mut(n);
    let (size, _) = rest.split_at_mut(n);
    let mut tables = TablesMut {
        parent,
        depth,
        head,
        id,
        order,
        size,
    };
    try_hld(graph, root, &mut tables, &mut work).is_ok()
}

fn main(rt: HostRuntime) -> io::Result<()> {
    replay_sample(&rt, &mut rt.stdin(), &mut Counts::default())
}
