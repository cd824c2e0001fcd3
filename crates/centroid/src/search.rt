// The search for the centroid of one component, in lent work: a visit that needs no visited marks, since in a tree "not removed and not the
// vertex it was met from" never repeats, and the sizes handed back along its positions.
ghost use Rattle.centroid.specs.Search.{EnterAsks, Entered, ListAsks, ListAnswers, WalkAsks, Walked, PickAsks, Picked, CentroidFound};

use crate::regions::{FROM, QUEUE, REMOVED, SIZES};
use graph::lists::Graph;
use graph::marks::marked;

// Enters x, met from position i: where it is not removed and not the vertex back, puts it into the queue. Answers how many are met.
fn enter(n: usize, x: usize, back: usize, i: usize, met: usize, work: &mut [u32]) -> usize
    requires { EnterAsks n x back i met work.old }
    ensures { Entered n x back i met work.old work.new result }
{
    if marked(work, REMOVED * n, x) || x == back {
        return met;
    }
    work[QUEUE * n + met] = x as u32;
    work[FROM * n + met] = i as u32;
    work[SIZES * n + met] = 1;
    met + 1
}

// Enters the neighbours of the vertex at position i.
#[tactic(auto, using(crate::proofs::Entering::asks_few))]
fn enter_list(graph: &Graph, n: usize, i: usize, met: usize, work: &mut [u32]) -> usize
    requires { ListAsks graph.now.offsets.now graph.now.targets.now n i met work.old }
    ensures { ListAnswers graph.now.offsets.now graph.now.targets.now n i work.old work.new result }
{
    let u = work[QUEUE * n + i] as usize;
    let from = work[FROM * n + i] as usize;
    let back = work[QUEUE * n + from] as usize;
    let mut count = met;
    for x in graph.neighbours(u) {
        count = enter(n, *x as usize, back, i, count, work);
    }
    count
}

// Visits the component of start breadth first, and answers how many vertices it has.
fn walk_component(graph: &Graph, n: usize, start: usize, work: &mut [u32]) -> usize
    requires { WalkAsks graph.now.offsets.now graph.now.targets.now n start work.old }
    ensures { Walked graph.now.offsets.now graph.now.targets.now n start work.old work.new result }
{
    work[QUEUE * n] = start as u32;
    work[FROM * n] = 0;
    work[SIZES * n] = 1;
    let mut count: usize = 1;
    let mut i: usize = 0;
    while i < count {
        count = enter_list(graph, n, i, count, work);
        i += 1;
    }
    count
}

// Hands the sizes back along the positions, and answers the vertex of the first position from the back with twice its size above the
// total.
fn pick_centroid(n: usize, total: usize, work: &mut [u32]) -> usize
    requires { PickAsks n total work.old }
    ensures { Picked n total work.old work.new result }
{
    for left in (0..total).rev() {
        let size = work[SIZES * n + left];
        if total < 2 * (size as usize) {
            return work[QUEUE * n + left] as usize;
        }
        let from = work[FROM * n + left] as usize;
        work[SIZES * n + from] += size;
    }
    total
}

// The centroid of the component of start. Time is the component's size and its lists together.
pub fn find_centroid(graph: &Graph, n: usize, start: usize, work: &mut [u32]) -> usize
    requires { WalkAsks graph.now.offsets.now graph.now.targets.now n start work.old }
    ensures { CentroidFound graph.now.offsets.now graph.now.targets.now n start work.old work.new result }
{
    let total = walk_component(graph, n, start, work);
    pick_centroid(n, total, work)
}
