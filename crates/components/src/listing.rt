// The lists themselves: the list of vertices is its own queue, and a neighbour is entered where its level is not below the centroid's and it is
// not the vertex that led here; in a tree that is once for each vertex of the component.
ghost use Rattle.std.specs.Prelude.{◌<◌, ◌^◌, ◌≡◌};
ghost use Rattle.components.specs.Front.{Same};
ghost use Rattle.components.specs.Entering.{beyond, EnterAsks, Entered, ListAsks, ListAnswers};
ghost use Rattle.components.specs.Listing.{ComponentAsks, ComponentListed, AllAsks, AllListed};

use centroid::regions::{LEVEL_OF, QUEUE};
use graph::lists::Graph;

// The lent room for the lists, place by place a vertex, its distance and its branch, and how many places are taken.
#[derive(Drop)]
pub(crate) struct Front<'a> {
    pub vertices: &'a mut [u32],
    pub distances: &'a mut [u32],
    pub branches: &'a mut [u32],
    pub count: usize,
}

// A vertex whose neighbours are entered: the one that led to it, the distance that they get, and its own branch.
#[derive(Clone, Copy)]
struct Lead {
    vertex: usize,
    back: usize,
    distance: u32,
    branch: u32,
}

// The branch of y, which x leads on to: y itself beside the centroid c, else the branch of x.
fn branch_beyond(c: usize, x: usize, branch: u32, y: usize) -> u32
    requires { y < 2 ^ 32 }
    ensures { result ≡ beyond c x branch y }
{
    if x == c {
        return y as u32;
    }
    branch
}

// Enters y, a neighbour of the lead, at the next place, where its level is not below that of c and it is not the vertex that led there.
fn enter(n: usize, c: usize, lead: Lead, y: usize, front: &mut Front, work: &mut [u32])
    requires { EnterAsks n c lead.vertex lead.back y front.old.count front.old.vertices.now front.old.distances.now front.old.branches.now work.old }
    ensures same { Same front.old front.new }
    ensures lists { Entered n c lead.vertex lead.back lead.distance lead.branch y front.old.count front.old.vertices.now front.old.distances.now front.old.branches.now work.old front.new.vertices.now front.new.distances.now front.new.branches.now work.new front.new.count }
{
    let own = work[LEVEL_OF * n + y];
    let least = work[LEVEL_OF * n + c];
    if own < least || y == lead.back {
        return;
    }
    front.vertices[front.count] = y as u32;
    front.distances[front.count] = lead.distance;
    front.branches[front.count] = branch_beyond(c, lead.vertex, lead.branch, y);
    work[QUEUE * n + y] = lead.vertex as u32;
    front.count += 1;
}

// Enters the neighbours of the vertex at place i.
fn enter_list(graph: &Graph, n: usize, c: usize, i: usize, front: &mut Front, work: &mut [u32])
    requires { ListAsks graph.now.offsets.now graph.now.targets.now n c i front.old.count front.old.vertices.now front.old.distances.now front.old.branches.now work.old }
    ensures same { Same front.old front.new }
    ensures lists { ListAnswers graph.now.offsets.now graph.now.targets.now n c i front.old.count front.old.vertices.now front.old.distances.now front.old.branches.now work.old front.new.vertices.now front.new.distances.now front.new.branches.now work.new front.new.count }
{
    let vertex = front.vertices[i] as usize;
    let lead = Lead {
        vertex,
        back: work[QUEUE * n + vertex] as usize,
        distance: front.distances[i] + 1,
        branch: front.branches[i],
    };
    for y in graph.neighbours(vertex) {
        enter(n, c, lead, *y as usize, front, work);
    }
}

// Lists the component of c breadth first, from the next place on.
fn list_component(graph: &Graph, n: usize, c: usize, front: &mut Front, work: &mut [u32])
    requires { ComponentAsks graph.now.offsets.now graph.now.targets.now n c front.old.count front.old.vertices.now front.old.distances.now front.old.branches.now work.old }
    ensures same { Same front.old front.new }
    ensures lists { ComponentListed graph.now.offsets.now graph.now.targets.now n c front.old.count front.old.vertices.now front.old.distances.now front.old.branches.now work.old front.new.vertices.now front.new.distances.now front.new.branches.now work.new front.new.count }
{
    let from = front.count;
    front.vertices[from] = c as u32;
    front.distances[from] = 0;
    front.branches[from] = c as u32;
    work[QUEUE * n + c] = c as u32;
    front.count = from + 1;
    let mut i = from;
    while i < front.count {
        enter_list(graph, n, c, i, front, work);
        i += 1;
    }
}

// Lists the components of all vertices one behind the other, and writes where each begins and where the last ends.
pub(crate) fn list_all(
    graph: &Graph,
    n: usize,
    front: &mut Front,
    starts: &mut [u32],
    work: &mut [u32],
)
    requires { AllAsks graph.now.offsets.now graph.now.targets.now n front.old.vertices.now front.old.distances.now front.old.branches.now starts.old work.old }
    ensures same { Same front.old front.new }
    ensures lists { AllListed graph.now.offsets.now graph.now.targets.now n front.old.vertices.now front.old.distances.now front.old.branches.now starts.old work.old front.new.vertices.now front.new.distances.now front.new.branches.now starts.new work.new }
{
    front.count = 0;
    for c in 0..n {
        starts[c] = front.count as u32;
        list_component(graph, n, c, front, work);
    }
    starts[n] = front.count as u32;
}
