// The decomposition: from the starts that wait, first in, first out, one centroid after the other is removed.
ghost use Rattle.std.specs.Prelude.{◌≡◌, set};
ghost use Rattle.answers.specs.Answers.{code_of};
ghost use Rattle.graph.specs.Judgement.{Decides};
ghost use Rattle.centroid.specs.Calls.{two, TwoLong, Decomposes};
ghost use Rattle.centroid.specs.Parting.{StartAsks, Started, AddAsks, Added, RemoveAsks, Removed, DecomposeAsks, Decomposed, GraphAsks, GraphDecomposed};

use crate::regions::{LEVELS, PARENTS, QUEUE, REMOVED, STARTS};
use crate::search::find_centroid;
use answers::answer::Refusal;
use answers::limits::NO_PARENT;
use graph::call::{begin, finish};
use graph::lists::Graph;
use graph::marks::{mark, marked};
use graph::work::zero;
use validate::judge;

// Lets x wait as a start below the centroid c on the given level, where x is not removed. Answers how many starts there are.
fn add_start(n: usize, x: usize, c: usize, level: u32, tail: usize, work: &mut [u32]) -> usize
    requires { StartAsks n x c tail work.old }
    ensures { Started n x c level tail work.old work.new result }
{
    if marked(work, REMOVED * n, x) {
        return tail;
    }
    work[STARTS * n + tail] = x as u32;
    work[PARENTS * n + tail] = c as u32;
    work[LEVELS * n + tail] = level;
    tail + 1
}

// Lets the neighbours of c that are not removed wait as starts.
pub fn add_starts(
    graph: &Graph,
    n: usize,
    c: usize,
    level: u32,
    tail: usize,
    work: &mut [u32],
) -> usize
    requires { AddAsks graph.now.offsets.now graph.now.targets.now n c tail work.old }
    ensures { Added graph.now.offsets.now graph.now.targets.now n c level tail work.old work.new result }
{
    let mut count = tail;
    for x in graph.neighbours(c) {
        count = add_start(n, *x as usize, c, level, count, work);
    }
    count
}

// Writes the entry of c, where the table has one.
fn note(table: &mut [u32], c: usize, entry: u32)
    ensures { table.new ≡ set table.old c entry }
{
    if c < table.len() {
        table[c] = entry;
    }
}

// Takes the start at position head: removes the centroid of its component, writes its parent and level, and lets its neighbours wait.
fn remove_centroid(
    graph: &Graph,
    n: usize,
    head: usize,
    tail: usize,
    parent: &mut [u32],
    level: &mut [u32],
    work: &mut [u32],
) -> usize
    requires { RemoveAsks graph.now.offsets.now graph.now.targets.now n head tail parent.old level.old work.old }
    ensures { Removed graph.now.offsets.now graph.now.targets.now n head work.old parent.new level.new work.new result }
{
    let start = work[STARTS * n + head] as usize;
    let above = work[PARENTS * n + head];
    let depth = work[LEVELS * n + head];
    let c = find_centroid(graph, n, start, work);
    note(parent, c, above);
    level[c] = depth;
    mark(work, REMOVED * n, c);
    add_starts(graph, n, c, depth + 1, tail, work)
}

// Removes all vertices of the tree, one centroid after the other, and writes both tables. A caller that needs no parents lends an empty table for
// them.
pub fn decompose(graph: &Graph, n: usize, parent: &mut [u32], level: &mut [u32], work: &mut [u32])
    requires { DecomposeAsks graph.now.offsets.now graph.now.targets.now n level.old work.old }
    ensures { Decomposed graph.now.offsets.now graph.now.targets.now n parent.new level.new work.old work.new }
{
    zero(work, REMOVED * n, QUEUE * n);
    work[STARTS * n] = 0;
    work[PARENTS * n] = NO_PARENT;
    work[LEVELS * n] = 0;
    let mut tail: usize = 1;
    let mut head: usize = 0;
    while head < tail {
        tail = remove_centroid(graph, n, head, tail, parent, level, work);
        head += 1;
    }
}

// Whether both tables have n entries.
fn long(n: usize, parent: &[u32], level: &[u32]) -> bool
    ensures { Decides (TwoLong n (two parent.now level.now)) result }
{
    parent.len() == n && level.len() == n
}

// Judges the graph and, where it is a tree, decomposes it.
fn decompose_graph(
    graph: &Graph,
    parent: &mut [u32],
    level: &mut [u32],
    work: &mut [u32],
) -> Result<(), Refusal>
    requires { GraphAsks graph.now.offsets.now graph.now.targets.now parent.old level.old work.old }
    ensures { GraphDecomposed graph.now.offsets.now graph.now.targets.now parent.old level.old work.old parent.new level.new work.new (code_of result) }
{
    judge(graph, 0, work)?;
    decompose(graph, graph.vertices(), parent, level, work);
    Ok(())
}

// Decomposes the tree by centroids, the first search starting at 0: parent gets the centroid above each vertex,
// NO_PARENT for the first one, and level gets their number. The first of the tests 1 to 8 that is not passed, and then no table is written;
// nothing refused for a tree. Work needs 8n + E entries, which are zero afterwards. Time O(n log n + E).
pub fn try_centroid_decomposition(
    graph: &Graph,
    parent: &mut [u32],
    level: &mut [u32],
    work: &mut [u32],
) -> Result<(), Refusal>
    ensures { Decomposes graph.now.offsets.now graph.now.targets.now parent.old level.old work.old parent.new level.new work.new (code_of result) }
{
    let fits = long(graph.vertices(), parent, level);
    begin(graph, fits, work.len())?;
    let decomposed = decompose_graph(graph, parent, level, work);
    finish(graph, work);
    decomposed
}
