// The public call.
ghost use Rattle.std.specs.Prelude.{◌≤◌, length};
ghost use Rattle.answers.specs.Answers.{code_of};
ghost use Rattle.graph.specs.Judgement.{Decides};
ghost use Rattle.graph.specs.Steps.{Begun};
ghost use Rattle.centroid.specs.Calls.{Lists};
ghost use Rattle.components.specs.Front.{Same};
ghost use Rattle.components.specs.Listing.{GraphListed};

use crate::levels::{find_levels, total_room};
use crate::listing::{Front, list_all};
use answers::answer::Refusal;
use graph::call::{begin, finish};
use graph::lists::Graph;
use validate::judge;

// Whether each of the three lists has room for the total.
fn fitting(total: usize, front: &Front) -> bool
    ensures { Decides ((total ≤ length front.now.vertices.now) × (total ≤ length front.now.distances.now) × (total ≤ length front.now.branches.now)) result }
{
    total <= front.vertices.len() && total <= front.distances.len() && total <= front.branches.len()
}

// Tests the room of starts, judges the graph and, where it is a tree and the lists fit, writes them.
fn list_graph(
    graph: &Graph,
    front: &mut Front,
    starts: &mut [u32],
    work: &mut [u32],
) -> Result<(), Refusal>
    requires { Begun graph.now.offsets.now graph.now.targets.now work.old }
    ensures same { Same front.old front.new }
    ensures lists { GraphListed graph.now.offsets.now graph.now.targets.now front.old.vertices.now front.old.distances.now front.old.branches.now starts.old work.old front.new.vertices.now front.new.distances.now front.new.branches.now starts.new work.new (code_of result) }
{
    let n = graph.vertices();
    if starts.len() < n + 1 {
        return Err(Refusal::NoRoom);
    }
    judge(graph, 0, work)?;
    find_levels(graph, n, work);
    if !fitting(total_room(n, work), front) {
        return Err(Refusal::NoRoom);
    }
    list_all(graph, n, front, starts, work);
    Ok(())
}

// Lists the components of the tree, decomposed by centroids from start 0: for c = 0 to n - 1 the vertices of c's component breadth first in list
// order, each with its distance from c and its branch, the neighbour of c that it hangs from, and c itself for c. The list of c stands from
// starts[c] up to starts[c + 1]. The first test that is not passed, and then nothing is written: BadSize, NoRoom for work or starts, the tests
// 3 to 8, NoRoom for the lists; nothing refused for a tree. Work needs 8n + E entries, which are zero afterwards; starts needs n + 1; the lists
// have together the sum of level + 1 entries, at most n (floor(log2 n) + 1). Time O(n log n + E).
pub fn component_lists(
    graph: &Graph,
    vertices: &mut [u32],
    distances: &mut [u32],
    branches: &mut [u32],
    starts: &mut [u32],
    work: &mut [u32],
) -> Result<(), Refusal>
    ensures { Lists graph.now.offsets.now graph.now.targets.now vertices.old distances.old branches.old starts.old work.old vertices.new distances.new branches.new starts.new work.new (code_of result) }
{
    begin(graph, true, work.len())?;
    let mut front = Front {
        vertices,
        distances,
        branches,
        count: 0,
    };
    let listed = list_graph(graph, &mut front, starts, work);
    finish(graph, work);
    listed
}
