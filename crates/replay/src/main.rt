// Runs validate_tree on a stored sample of the Rust original's answers, and counts the cases on which the two agree. The sample stands on
// standard input: 16-bit numbers, the low byte first. The first is the count of cases; each case is n, E, the root, the original's code,
// n + 1 offsets and E targets.
#![tactic(auto)]

use answers::answer::{DONE, Refusal, code_of};
use graph::lists::Graph;
use sample::{Replay, Sample, replay_sample};
use std::{fmt, io};
use validate::validate_tree;

// The largest case of the sample.
const MAX_VERTICES: usize = 64;

const MAX_TARGETS: usize = 256;

// The cases so far, by the original's code, and on how many the two agree.
#[derive(Clone, Copy, Default)]
struct Counts {
    cases: u64,
    trees: u64,
    disconnected: u64,
    cycles: u64,
    agree: u64,
}

impl Counts {
    // Counts a case with this code of the original.
    fn count(&mut self, code: u32, agree: bool) {
        self.cases = self.cases.saturating_add(1);
        if code == DONE {
            self.trees = self.trees.saturating_add(1);
        } else if code == Refusal::Disconnected.code() {
            self.disconnected = self.disconnected.saturating_add(1);
        } else if code == Refusal::HasCycle.code() {
            self.cycles = self.cycles.saturating_add(1);
        }
        if agree {
            self.agree = self.agree.saturating_add(1);
        }
    }
}

impl Replay for Counts {
    // Judges the case and holds the code to the original's.
    fn replay_case(&mut self, sample: &mut Sample) -> Option<()> {
        let vertices = usize::from(sample.number()?);
        let entries = usize::from(sample.number()?);
        let root = usize::from(sample.number()?);
        let code = u32::from(sample.number()?);
        let mut offsets = [0u32; MAX_VERTICES + 1];
        let mut targets = [0u32; MAX_TARGETS];
        let mut work = [0u32; 8 * MAX_VERTICES + MAX_TARGETS];
        let offsets = offsets.get_mut(..=vertices)?;
        let targets = targets.get_mut(..entries)?;
        sample.numbers(offsets)?;
        sample.numbers(targets)?;
        let graph = Graph { offsets, targets };
        let found = code_of(validate_tree(&graph, root, &mut work));
        self.count(code, found == code);
        Some(())
    }
}

impl fmt::Display for Counts {
    fn fmt<W: fmt::Write>(&self, f: &mut fmt::Formatter<W>) -> fmt::Result {
        writeln!(f, "cases {}", self.cases)?;
        writeln!(f, "trees {}", self.trees)?;
        writeln!(f, "disconnected {}", self.disconnected)?;
        writeln!(f, "with a cycle {}", self.cycles)?;
        writeln!(f, "agree {}", self.agree)
    }
}

fn main(rt: HostRuntime) -> io::Result<()> {
    replay_sample(&rt, &mut rt.stdin(), &mut Counts::default())
}
