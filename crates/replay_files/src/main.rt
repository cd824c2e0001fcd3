// Runs `report` on a stored sample of tree files, and counts those for which it writes the report that the Rust original's answers give. The
// sample stands on standard input: each case is the length of the file in bytes, the file, the length of the report in bytes and the report; one
// byte more follows a text of odd length. Files of its own come first: 01's examples without a mark, as far as they fit into a file.
#![tactic(auto)]

use sample::{Replay, Sample, replay_sample};
use std::{fmt, io};
use treereport::report::{REPORT_ROOM, report};

// "n=0 refused 1; one vertex in its own list once gives 8; two lone vertices give 7": each file is its offsets, its targets, the root 0 and no
// query.
const NO_OFFSET: [u8; 10] = [0, 0, 0, 0, 1, 0, 0, 0, 0, 0];

const ONE_OFFSET: [u8; 12] = [1, 0, 0, 0, 0, 0, 1, 0, 0, 0, 0, 0];

const OWN_LIST: [u8; 16] = [2, 0, 0, 0, 1, 0, 1, 0, 0, 0, 1, 0, 0, 0, 0, 0];

const TWO_LONE: [u8; 16] = [3, 0, 0, 0, 0, 0, 0, 0, 0, 0, 1, 0, 0, 0, 0, 0];

// The cases so far: those with a tree and those that are refused, and on how many the reports agree.
#[derive(Clone, Copy, Default)]
struct Counts {
    cases: u64,
    trees: u64,
    refused: u64,
    agree: u64,
}

impl Counts {
    // Those of the files of its own.
    fn of_own_files() -> Self {
        let mut counts = Counts::default();
        counts.count(&NO_OFFSET, b"tree 1\n");
        counts.count(&ONE_OFFSET, b"tree 1\n");
        counts.count(&OWN_LIST, b"tree 8\n");
        counts.count(&TWO_LONE, b"tree 7\n");
        counts
    }

    // Runs and counts the case of this file and its stored report, which is one of a tree where its code, after the word `tree`, is 0.
    fn count(&mut self, file: &[u8], stored: &[u8]) {
        self.cases = self.cases.saturating_add(1);
        if stored.get(5) == Some(&b'0') {
            self.trees = self.trees.saturating_add(1);
        } else {
            self.refused = self.refused.saturating_add(1);
        }
        if agrees(file, stored) {
            self.agree = self.agree.saturating_add(1);
        }
    }
}

impl Replay for Counts {
    fn replay_case(&mut self, sample: &mut Sample) -> Option<()> {
        let file = text(sample)?;
        let stored = text(sample)?;
        self.count(file, stored);
        Some(())
    }
}

impl fmt::Display for Counts {
    fn fmt<W: fmt::Write>(&self, f: &mut fmt::Formatter<W>) -> fmt::Result {
        writeln!(f, "cases {}", self.cases)?;
        writeln!(f, "trees {}", self.trees)?;
        writeln!(f, "refused {}", self.refused)?;
        writeln!(f, "agree {}", self.agree)
    }
}

// The next text of the sample, behind its length and without the byte that makes it even.
fn text<'a>(sample: &mut Sample<'a>) -> Option<&'a [u8]> {
    let length = usize::from(sample.number()?);
    let even = sample.bytes(length + length % 2)?;
    Some(&even[..length])
}

// Whether the report of this file is the stored one.
fn agrees(file: &[u8], stored: &[u8]) -> bool {
    let mut out = [0u8; REPORT_ROOM];
    let length = report(file, &mut out);
    &out[..length] == stored
}

fn main(rt: HostRuntime) -> io::Result<()> {
    replay_sample(&rt, &mut rt.stdin(), &mut Counts::of_own_files())
}
