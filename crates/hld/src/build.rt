// The build of the six tables.
ghost use Rattle.answers.specs.Answers.{code_of};
ghost use Rattle.graph.specs.Judgement.{Decides};
ghost use Rattle.tables.specs.Tables.{Long, six_mut, SameTables};
ghost use Rattle.hld.specs.Build.{Builds};
ghost use Rattle.hld.specs.Steps.{BuildAsks, Built};

use answers::answer::Refusal;
use graph::call::{begin, finish};
use graph::lists::Graph;
use passes::weigh;
use ranks::number;
use scatter::scatter;
use tables::TablesMut;
use validate::judge;

// Whether each of the six tables has n entries.
fn long(n: usize, tables: &TablesMut) -> bool
    ensures { Decides (Long n (six_mut tables.now)) result }
{
    tables.parent.len() == n
        && tables.depth.len() == n
        && tables.head.len() == n
        && tables.id.len() == n
        && tables.order.len() == n
        && tables.size.len() == n
}

// Judges the graph and, where it is a tree, writes the six tables. The visit that the judgement leaves in work is weighed, numbered and
// scattered.
fn build(
    graph: &Graph,
    root: usize,
    tables: &mut TablesMut,
    work: &mut [u32],
) -> Result<(), Refusal>
    requires { BuildAsks graph.now.offsets.now graph.now.targets.now (six_mut tables.old) work.old }
    ensures built { Built graph.now.offsets.now graph.now.targets.now root (six_mut tables.old) work.old (six_mut tables.new) work.new (code_of result) }
    ensures same { SameTables tables.old tables.new }
{
    judge(graph, root, work)?;
    let n = graph.vertices();
    weigh(n, work);
    number(n, work);
    scatter(n, tables, work);
    Ok(())
}

// The heavy-light decomposition of the tree of the graph from root: parent, depth, head, id, order and size, each a table of n entries.
// Answers the first of the tests 1 to 8 that is not passed, and then writes no table. Work needs 8n + E entries, which are zero afterwards.
// Time O(n + E) on every input.
pub fn try_hld(
    graph: &Graph,
    root: usize,
    tables: &mut TablesMut,
    work: &mut [u32],
) -> Result<(), Refusal>
    ensures builds { Builds graph.now.offsets.now graph.now.targets.now root (six_mut tables.old) work.old (six_mut tables.new) work.new (code_of result) }
    ensures same { SameTables tables.old tables.new }
{
    let fits = long(graph.vertices(), tables);
    begin(graph, fits, work.len())?;
    let built = build(graph, root, tables, work);
    finish(graph, work);
    built
}
