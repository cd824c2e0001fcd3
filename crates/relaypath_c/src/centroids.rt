// The centroid decomposition and the component lists under their C names.
ghost use Rattle.centroid.specs.Calls.{Decomposes, Lists};
ghost use Rattle.centroid.specs.Reads.{read_of};
ghost use Rattle.relaypath.specs.Handed.{Handed};

use answers::answer::code_of;
use graph::lists::Graph;
use relaypath::handed::hand;

// The centroid decomposition of the tree of offsets and targets, the first search starting at 0: the centroid above each vertex and its
// level. Answers 0, else the code of the first test that is not passed, and then writes no table. Work needs 8n + E entries, which are zero
// afterwards.
#[unsafe(no_mangle)]
pub extern "C" fn relaypath_try_centroid_decomposition(
    offsets: &[u32],
    targets: &[u32],
    parent: &mut [u32],
    level: &mut [u32],
    work: &mut [u32],
) -> u32
    ensures { Decomposes offsets.now targets.now parent.old level.old work.old parent.new level.new work.new result }
{
    let graph = Graph { offsets, targets };
    code_of(centroid::decompose::try_centroid_decomposition(&graph, parent, level, work))
}

// The centroid above v.
#[unsafe(no_mangle)]
pub extern "C" fn relaypath_centroid_parent(
    parent: &[u32],
    level: &[u32],
    v: usize,
    answer: &mut u32,
) -> u32
    ensures { Handed (read_of parent.now level.now v) answer.old answer.new result }
{
    hand(centroid::tables::centroid_parent(parent, level, v), answer)
}

// The level of v.
#[unsafe(no_mangle)]
pub extern "C" fn relaypath_centroid_level(
    parent: &[u32],
    level: &[u32],
    v: usize,
    answer: &mut u32,
) -> u32
    ensures { Handed (read_of level.now parent.now v) answer.old answer.new result }
{
    hand(centroid::tables::centroid_level(parent, level, v), answer)
}

// The components of the decomposition, for c = 0 to n - 1: c's component breadth first in list order, each vertex with its distance from c
// and its branch. The list of c stands from starts[c] up to starts[c + 1]. Answers 0, else the code of the first test that is not passed,
// and then writes no list. Work needs 8n + E entries, which are zero afterwards.
#[unsafe(no_mangle)]
pub extern "C" fn relaypath_component_lists(
    offsets: &[u32],
    targets: &[u32],
    vertices: &mut [u32],
    distances: &mut [u32],
    branches: &mut [u32],
    starts: &mut [u32],
    work: &mut [u32],
) -> u32
    ensures { Lists offsets.now targets.now vertices.old distances.old branches.old starts.old work.old vertices.new distances.new branches.new starts.new work.new result }
{
    let graph = Graph { offsets, targets };
    code_of(components::build::component_lists(&graph, vertices, distances, branches, starts, work))
}
