// Tree validation: a graph is accepted exactly when it is a tree.
#![tactic(auto)]

ghost use Rattle.answers.specs.Answers.{code_of};
ghost use Rattle.graph.specs.Judgement.{Decides};
ghost use Rattle.graph.specs.Validation.{Validates};
ghost use Rattle.graph.specs.Steps.{Begun};
ghost use Rattle.validate.specs.Judged.{Judged};
ghost use Rattle.validate.specs.Counts.{CountsAsk, TreeCounts};

use answers::answer::Refusal;
use graph::call::{begin, finish};
use graph::lists::Graph;
use parents::parents_listed;
use symmetry::symmetric;
use visit::visit;

// Whether all n vertices were met, and there are as many entries as a tree has: two for each of its n - 1 edges.
fn tree_counts(n: usize, met: usize, entries: usize) -> bool
    requires { CountsAsk n }
    ensures { Decides (TreeCounts n met entries) result }
{
    met == n && entries == 2 * (n - 1)
}

// The first of the tests 3 to 8 that is not passed, for a graph within its limits and work that is long enough. Symmetry need not be tested
// first: where the visit meets all n vertices, E is 2(n - 1) and each vertex but the root has in its list the one from which it was met,
// these are all the entries, and the lists are a tree's. Where nothing is refused the visit from the root stands in work, from index 0 on.
// The symmetry test uses the cursors' n entries from 7n on and the E entries behind them.
pub fn judge(graph: &Graph, root: usize, work: &mut [u32]) -> Result<(), Refusal>
    requires { Begun graph.now.offsets.now graph.now.targets.now work.old }
    ensures { Judged graph.now.offsets.now graph.now.targets.now root work.old work.new (code_of result) }
{
    if !graph.sound_offsets() {
        return Err(Refusal::BadOffsets);
    }
    if !graph.sound_targets() {
        return Err(Refusal::BadVertex);
    }
    let n = graph.vertices();
    if n <= root {
        return Err(Refusal::BadRoot);
    }
    let met = visit(graph, n, 0, root, work);
    if tree_counts(n, met, graph.targets.len()) {
        if !parents_listed(graph, n, work) {
            return Err(Refusal::NotSymmetric);
        }
        return Ok(());
    }
    if !symmetric(graph, n, 7 * n, work) {
        return Err(Refusal::NotSymmetric);
    }
    if met < n {
        return Err(Refusal::Disconnected);
    }
    Err(Refusal::HasCycle)
}

// Judges the graph, seen from root: the first of the tests 1 to 8 that is not passed, and nothing refused for a tree. Work needs 8n + E
// entries, which are zero afterwards. Time O(n + E) on every input.
pub fn validate_tree(graph: &Graph, root: usize, work: &mut [u32]) -> Result<(), Refusal>
    ensures { Validates graph.now.offsets.now graph.now.targets.now root work.old work.new (code_of result) }
{
    begin(graph, true, work.len())?;
    let judged = judge(graph, root, work);
    finish(graph, work);
    judged
}
