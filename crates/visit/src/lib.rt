// A breadth-first visit of the vertices that the root reaches, in lent work: from index base on n entries for the queue, n for the
// position from which each vertex was met, and marks of one bit to a vertex.
#![tactic(auto)]

ghost use Rattle.std.specs.Prelude.{◌+◌};
ghost use Rattle.visit.specs.Visit.{VisitAsks, VisitAnswers};
ghost use Rattle.visit.specs.Steps.{Meets, Met, ListAsks, ListAnswers};

use graph::lists::Graph;
use graph::marks::{mark, marked};
use graph::work::zero;

// Meets x from position i: where it is not marked, marks it and puts it into the queue. Answers how many are met.
fn meet(n: usize, base: usize, x: usize, i: usize, met: usize, work: &mut [u32]) -> usize
    requires { Meets n base x i met work.old }
    ensures { Met n base x i met work.old work.new result }
{
    if marked(work, base + 2 * n, x) {
        return met;
    }
    mark(work, base + 2 * n, x);
    work[base + met] = x as u32;
    work[base + n + met] = i as u32;
    met + 1
}

// Meets the entries of the list of the vertex at position i.
fn meet_list(graph: &Graph, n: usize, base: usize, i: usize, met: usize, work: &mut [u32]) -> usize
    requires { ListAsks graph.now.offsets.now graph.now.targets.now n base i met work.old }
    ensures { ListAnswers graph.now.offsets.now graph.now.targets.now n base i work.old work.new result }
{
    let u = work[base + i] as usize;
    let mut count = met;
    for x in graph.neighbours(u) {
        count = meet(n, base, *x as usize, i, count, work);
    }
    count
}

// Visits all that the root reaches, and answers how many vertices that are.
pub fn visit(graph: &Graph, n: usize, base: usize, root: usize, work: &mut [u32]) -> usize
    requires { VisitAsks graph.now.offsets.now graph.now.targets.now n base root work.old }
    ensures { VisitAnswers graph.now.offsets.now graph.now.targets.now n base root work.old work.new result }
{
    zero(work, base + 2 * n, base + 2 * n + n / 32 + 1);
    let mut count = meet(n, base, root, 0, 0, work);
    let mut i: usize = 0;
    while i < count {
        count = meet_list(graph, n, base, i, count, work);
        i += 1;
    }
    count
}
