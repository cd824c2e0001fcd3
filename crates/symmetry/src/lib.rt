// 01, code 6: whether each v stands in u's list as often as u in v's, in time linear in n + E on every input. The lists are turned
// round twice: turned once they hold, for each x, the vertices u in whose lists x stands, in ascending order; turned again they must
// give the same lists.
#![tactic(auto)]

ghost use Rattle.symmetry.specs.Symmetry.{SymmetryAsks, SymmetryAnswers};
ghost use Rattle.symmetry.specs.Inner.{StartAsks, StartAnswers, TurnAsks, TurnAnswers, BackAsks, BackAnswers};
ghost use Rattle.symmetry.specs.Inner.{ListAsks, ListAnswers, ListBackAsks, ListBackAnswers};

use graph::lists::Graph;

// Sets the cursor of each vertex to the start of its list. The cursors are the n entries of work from base on.
fn start_cursors(offsets: &[u32], n: usize, base: usize, work: &mut [u32])
    requires { StartAsks offsets.now n base work.old }
    ensures { StartAnswers offsets.now n base work.old work.new }
{
    for u in 0..n {
        work[base + u] = offsets[u];
    }
}

// Puts u at x's cursor for each entry x of the list of u, in order, and moves the cursor; false where x's list is full.
fn turn_list(graph: &Graph, n: usize, base: usize, u: usize, work: &mut [u32]) -> bool
    requires { ListAsks graph.now.offsets.now graph.now.targets.now n base u work.old }
    ensures { ListAnswers graph.now.offsets.now graph.now.targets.now n base u work.old work.new result }
{
    for e in graph.offsets[u] as usize..graph.offsets[u + 1] as usize {
        let x = graph.targets[e] as usize;
        let next = work[base + x] as usize;
        if graph.offsets[x + 1] as usize <= next {
            return false;
        }
        work[base + n + next] = u as u32;
        work[base + x] = (next + 1) as u32;
    }
    true
}

// Turns all lists, in order; false where a list is full. The turned lists stand behind the cursors, from base + n on, and start where the
// caller's lists do.
fn turn(graph: &Graph, n: usize, base: usize, work: &mut [u32]) -> bool
    requires { TurnAsks graph.now.offsets.now graph.now.targets.now n base work.old }
    ensures { TurnAnswers graph.now.offsets.now graph.now.targets.now n base work.old work.new result }
{
    for u in 0..n {
        if !turn_list(graph, n, base, u, work) {
            return false;
        }
    }
    true
}

// For each entry x of the turned list of u, in order, u must stand at x's cursor, which then moves; false where it does not.
fn turn_list_back(offsets: &[u32], n: usize, base: usize, u: usize, work: &mut [u32]) -> bool
    requires { ListBackAsks offsets.now n base u work.old }
    ensures { ListBackAnswers offsets.now n base u work.old work.new result }
{
    for e in offsets[u] as usize..offsets[u + 1] as usize {
        let x = work[base + n + e] as usize;
        let next = work[base + x] as usize;
        if offsets[x + 1] as usize <= next || work[base + n + next] as usize != u {
            return false;
        }
        work[base + x] = (next + 1) as u32;
    }
    true
}

// Turns all turned lists back, in order; false where a vertex does not stand at its cursor.
fn turn_back(offsets: &[u32], n: usize, base: usize, work: &mut [u32]) -> bool
    requires { BackAsks offsets.now n base work.old }
    ensures { BackAnswers offsets.now n base work.old work.new result }
{
    for u in 0..n {
        if !turn_list_back(offsets, n, base, u, work) {
            return false;
        }
    }
    true
}

// Whether the lists are symmetric.
pub fn symmetric(graph: &Graph, n: usize, base: usize, work: &mut [u32]) -> bool
    requires { SymmetryAsks graph.now.offsets.now graph.now.targets.now n base work.old }
    ensures { SymmetryAnswers graph.now.offsets.now graph.now.targets.now n base work.old work.new result }
{
    start_cursors(graph.offsets, n, base, work);
    if !turn(graph, n, base, work) {
        return false;
    }
    start_cursors(graph.offsets, n, base, work);
    turn_back(graph.offsets, n, base, work)
}
