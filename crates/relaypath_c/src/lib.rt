// The library that C and Rust link: each call is one call of the crate that proves it, under its C name, with its answer in the form that C takes.
// include/relaypath.h declares them for C. A slice is a pointer and a length there.
#![tactic(auto)]

pub mod asked;
pub mod centroids;
pub mod listing;

ghost use Rattle.graph.specs.Validation.{Validates};
ghost use Rattle.tables.specs.Tables.{six};
ghost use Rattle.hld.specs.Build.{Builds};

use answers::answer::code_of;
use graph::lists::Graph;
use tables::TablesMut;

// Judges the graph of offsets and targets, seen from root: 0 for a tree, else the code of the first test that is not passed. Work needs
// 8n + E entries, which are zero afterwards.
#[unsafe(no_mangle)]
pub extern "C" fn relaypath_validate_tree(
    offsets: &[u32],
    targets: &[u32],
    root: usize,
    work: &mut [u32],
) -> u32
    ensures { Validates offsets.now targets.now root work.old work.new result }
{
    let graph = Graph { offsets, targets };
    code_of(validate::validate_tree(&graph, root, work))
}

// The heavy-light decomposition of the tree of offsets and targets from root: parent, depth, head, id, order and size, each a table of n
// entries. Answers 0, else the code of the first test that is not passed, and then writes no table. Work needs 8n + E entries, which are zero
// afterwards.
#[unsafe(no_mangle)]
pub extern "C" fn relaypath_try_hld(
    offsets: &[u32],
    targets: &[u32],
    root: usize,
    parent: &mut [u32],
    depth: &mut [u32],
    head: &mut [u32],
    id: &mut [u32],
    order: &mut [u32],
    size: &mut [u32],
    work: &mut [u32],
) -> u32
    ensures { Builds offsets.now targets.now root (six parent.old depth.old head.old id.old order.old size.old) work.old (six parent.new depth.new head.new id.new order.new size.new) work.new result }
{
    let graph = Graph { offsets, targets };
    let mut tables = TablesMut {
        parent,
        depth,
        head,
        id,
        order,
        size,
    };
    code_of(hld::build::try_hld(&graph, root, &mut tables, work))
}
