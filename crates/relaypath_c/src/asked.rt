// Queries on six lent tables under their C names. Each answers its code; the value goes into `answer`, which a refusal leaves as it was.
ghost use Rattle.tables.specs.Tables.{lent};
ghost use Rattle.queries.specs.Queries.{vertex_count, root_of, depth_of, vertex_id, distance as distance_of, lca as lca_of, kth_ancestor, jump as jump_of, subtree_size, subtree_range};
ghost use Rattle.relaypath.specs.Handed.{Handed, HandedEnds};

use relaypath::handed::{hand, hand_ends};
use tables::Tables;

// The number of vertices.
#[unsafe(no_mangle)]
pub extern "C" fn relaypath_vertex_count(
    parent: &[u32],
    depth: &[u32],
    head: &[u32],
    id: &[u32],
    order: &[u32],
    size: &[u32],
    answer: &mut usize,
) -> u32
    ensures { Handed (vertex_count (lent parent depth head id order size)) answer.old answer.new result }
{
    let tables = Tables {
        parent,
        depth,
        head,
        id,
        order,
        size,
    };
    hand(queries::reads::vertex_count(&tables), answer)
}

// The root: the first vertex of the order.
#[unsafe(no_mangle)]
pub extern "C" fn relaypath_root(
    parent: &[u32],
    depth: &[u32],
    head: &[u32],
    id: &[u32],
    order: &[u32],
    size: &[u32],
    answer: &mut usize,
) -> u32
    ensures { Handed (root_of (lent parent depth head id order size)) answer.old answer.new result }
{
    let tables = Tables {
        parent,
        depth,
        head,
        id,
        order,
        size,
    };
    hand(queries::reads::root(&tables), answer)
}

// The depth of v below the root.
#[unsafe(no_mangle)]
pub extern "C" fn relaypath_depth(
    parent: &[u32],
    depth: &[u32],
    head: &[u32],
    id: &[u32],
    order: &[u32],
    size: &[u32],
    v: usize,
    answer: &mut usize,
) -> u32
    ensures { Handed (depth_of (lent parent depth head id order size) v) answer.old answer.new result }
{
    let tables = Tables {
        parent,
        depth,
        head,
        id,
        order,
        size,
    };
    hand(queries::reads::depth(&tables, v), answer)
}

// The number of v.
#[unsafe(no_mangle)]
pub extern "C" fn relaypath_vertex_id(
    parent: &[u32],
    depth: &[u32],
    head: &[u32],
    id: &[u32],
    order: &[u32],
    size: &[u32],
    v: usize,
    answer: &mut usize,
) -> u32
    ensures { Handed (vertex_id (lent parent depth head id order size) v) answer.old answer.new result }
{
    let tables = Tables {
        parent,
        depth,
        head,
        id,
        order,
        size,
    };
    hand(queries::reads::vertex_id(&tables, v), answer)
}

// The number of edges between u and v.
#[unsafe(no_mangle)]
pub extern "C" fn relaypath_distance(
    parent: &[u32],
    depth: &[u32],
    head: &[u32],
    id: &[u32],
    order: &[u32],
    size: &[u32],
    u: usize,
    v: usize,
    answer: &mut usize,
) -> u32
    ensures { Handed (distance_of (lent parent depth head id order size) u v) answer.old answer.new result }
{
    let tables = Tables {
        parent,
        depth,
        head,
        id,
        order,
        size,
    };
    hand(between::distance::distance(&tables, u, v), answer)
}

// The lowest common ancestor of u and v as if r were the root.
#[unsafe(no_mangle)]
pub extern "C" fn relaypath_lca(
    parent: &[u32],
    depth: &[u32],
    head: &[u32],
    id: &[u32],
    order: &[u32],
    size: &[u32],
    r: usize,
    u: usize,
    v: usize,
    answer: &mut usize,
) -> u32
    ensures { Handed (lca_of (lent parent depth head id order size) r u v) answer.old answer.new result }
{
    let tables = Tables {
        parent,
        depth,
        head,
        id,
        order,
        size,
    };
    hand(between::lca::lca(&tables, r, u, v), answer)
}

// The vertex k steps above v.
#[unsafe(no_mangle)]
pub extern "C" fn relaypath_kth_ancestor(
    parent: &[u32],
    depth: &[u32],
    head: &[u32],
    id: &[u32],
    order: &[u32],
    size: &[u32],
    v: usize,
    k: usize,
    answer: &mut usize,
) -> u32
    ensures { Handed (kth_ancestor (lent parent depth head id order size) v k) answer.old answer.new result }
{
    let tables = Tables {
        parent,
        depth,
        head,
        id,
        order,
        size,
    };
    hand(queries::ancestors::kth_ancestor(&tables, v, k), answer)
}

// The vertex k steps from u on the way to v.
#[unsafe(no_mangle)]
pub extern "C" fn relaypath_jump(
    parent: &[u32],
    depth: &[u32],
    head: &[u32],
    id: &[u32],
    order: &[u32],
    size: &[u32],
    u: usize,
    v: usize,
    k: usize,
    answer: &mut usize,
) -> u32
    ensures { Handed (jump_of (lent parent depth head id order size) u v k) answer.old answer.new result }
{
    let tables = Tables {
        parent,
        depth,
        head,
        id,
        order,
        size,
    };
    hand(between::jump::jump(&tables, u, v, k), answer)
}

// The number of vertices of v's subtree as if r were the root.
#[unsafe(no_mangle)]
pub extern "C" fn relaypath_subtree_size(
    parent: &[u32],
    depth: &[u32],
    head: &[u32],
    id: &[u32],
    order: &[u32],
    size: &[u32],
    r: usize,
    v: usize,
    answer: &mut usize,
) -> u32
    ensures { Handed (subtree_size (lent parent depth head id order size) r v) answer.old answer.new result }
{
    let tables = Tables {
        parent,
        depth,
        head,
        id,
        order,
        size,
    };
    hand(sizes::subtrees::subtree_size(&tables, r, v), answer)
}

// The numbers of v's subtree, from `start` up to `end`, the end excluded.
#[unsafe(no_mangle)]
pub extern "C" fn relaypath_subtree_range(
    parent: &[u32],
    depth: &[u32],
    head: &[u32],
    id: &[u32],
    order: &[u32],
    size: &[u32],
    v: usize,
    start: &mut usize,
    end: &mut usize,
) -> u32
    ensures { HandedEnds (subtree_range (lent parent depth head id order size) v) start.old end.old start.new end.new result }
{
    let tables = Tables {
        parent,
        depth,
        head,
        id,
        order,
        size,
    };
    hand_ends(sizes::subtrees::subtree_range(&tables, v), start, end)
}
