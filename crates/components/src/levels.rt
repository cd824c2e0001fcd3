// The levels of the decomposition, in lent work: by vertex, behind the regions of the search.
ghost use Rattle.std.specs.Prelude.{◌≡◌};
ghost use Rattle.components.specs.Levels.{FindAsks, LevelsFound, TotalAsks, total_in};

use centroid::decompose::decompose;
use centroid::regions::LEVEL_OF;
use graph::lists::Graph;

// Decomposes the tree, and writes the level of each vertex. The lists need no parents, so no table is lent for them.
pub(crate) fn find_levels(graph: &Graph, n: usize, work: &mut [u32])
    requires { FindAsks graph.now.offsets.now graph.now.targets.now n work.old }
    ensures { LevelsFound graph.now.offsets.now graph.now.targets.now n work.old work.new }
{
    let (search, levels) = work.split_at_mut(LEVEL_OF * n);
    decompose(graph, n, &mut [], &mut levels[..n], search);
}

// The length of all lists together: the sum of level + 1 over the vertices.
pub(crate) fn total_room(n: usize, work: &[u32]) -> usize
    requires { TotalAsks n work.now }
    ensures { result ≡ total_in n work.now }
{
    let mut total: usize = 0;
    for v in 0..n {
        total += work[LEVEL_OF * n + v] as usize + 1;
    }
    total
}
