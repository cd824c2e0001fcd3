// The lent graph: the list of a vertex, and the tests of sizes, offsets and targets.
ghost use Rattle.std.specs.Prelude.{◌≡◌, true, ◌≤◌};
ghost use Rattle.graph.specs.Judgement.{Decides};
ghost use Rattle.graph.specs.Lent.{vertices as vertices_of, list_of, Offsets, Targets};
ghost use Rattle.graph.specs.Validation.{Sized, room_of};

use answers::limits::{MAX_TARGETS, MAX_VERTICES};

// A graph as two lent slices, of any lengths and with any entries. They are lent apart: a list is a part of the targets, and may outlive the offsets.
#[derive(Clone, Copy)]
pub struct Graph<'o, 't> {
    pub offsets: &'o [u32],
    pub targets: &'t [u32],
}

// Whether what held so far still does: that a is at most b. A loop that goes on to its end whatever it finds lets the compiler look at several entries at
// once.
fn still(held: bool, a: usize, b: usize) -> bool
    ensures { Decides ((held ≡ true) × (a ≤ b)) result }
{
    if b < a {
        return false;
    }
    held
}

impl<'o, 't> Graph<'o, 't> {
    // The number of vertices that the offsets speak of, 0 where there are none.
    pub fn vertices(&self) -> usize
        ensures { result ≡ vertices_of self.now.offsets.now }
    {
        self.offsets.len().saturating_sub(1)
    }

    // The list of the vertex u as a part of the caller's targets: the targets from offset u up to offset u + 1, and empty where u or its
    // offsets are out of range or fall.
    pub fn neighbours(&self, u: usize) -> &'t [u32]
        ensures { result.now ≡ list_of self.now.offsets.now self.now.targets.now u }
    {
        let none = &self.targets[..0];
        if self.vertices() <= u {
            return none;
        }
        let from = self.offsets[u] as usize;
        let to = self.offsets[u + 1] as usize;
        self.targets.get(from..to).unwrap_or(none)
    }

    // Whether the numbers of vertices and of targets are within their limits.
    pub fn sized(&self) -> bool
        ensures { Decides (Sized self.now.offsets.now self.now.targets.now) result }
    {
        let n = self.vertices();
        if n < 1 || MAX_VERTICES < n {
            return false;
        }
        self.targets.len() <= MAX_TARGETS
    }

    // Whether the first offset is 0, no offset falls and the last is the number of targets.
    pub fn sound_offsets(&self) -> bool
        requires { 1 ≤ vertices_of self.now.offsets.now }
        ensures { Decides (Offsets self.now.offsets.now self.now.targets.now) result }
    {
        if self.offsets[0] != 0 {
            return false;
        }
        let n = self.vertices();
        let mut rises = true;
        for u in 0..n {
            rises = still(
                rises,
                self.offsets[u] as usize,
                self.offsets[u + 1] as usize,
            );
        }
        rises && self.offsets[n] as usize == self.targets.len()
    }

    // Whether every target is a vertex.
    pub fn sound_targets(&self) -> bool
        requires { 1 ≤ vertices_of self.now.offsets.now }
        ensures { Decides (Targets self.now.offsets.now self.now.targets.now) result }
    {
        let last = self.vertices() - 1;
        let mut below = true;
        for target in self.targets {
            below = still(below, *target as usize, last);
        }
        below
    }

    // How many entries of work a call on this graph uses: 8n + E.
    pub fn work_room(&self) -> usize
        requires { Sized self.now.offsets.now self.now.targets.now }
        ensures { result ≡ room_of self.now.offsets.now self.now.targets.now }
    {
        8 * self.vertices() + self.targets.len()
    }
}
