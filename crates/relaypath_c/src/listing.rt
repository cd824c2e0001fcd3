// The ranges of paths and rule parts under their C names.
ghost use Rattle.tables.specs.Tables.{lent};
ghost use Rattle.ranges.specs.Calls.{ranges_of, range_room};
ghost use Rattle.ranges.specs.declared.kinds.Kind.TheVariants.{Vertices, Edges, Both};
ghost use Rattle.relaypath.specs.Handed.{Handed};
ghost use Rattle.relaypath.specs.Listing.{HandedList, PartNamed};

use relaypath::handed::hand;
use tables::Tables;

// The vertices of the path from u to v as ranges, three numbers each; `count` gets how many. A refusal leaves both as they were.
#[unsafe(no_mangle)]
pub extern "C" fn relaypath_vertex_path_ranges(
    parent: &[u32],
    depth: &[u32],
    head: &[u32],
    id: &[u32],
    order: &[u32],
    size: &[u32],
    u: usize,
    v: usize,
    ranges: &mut [u32],
    count: &mut usize,
) -> u32
    ensures { HandedList (ranges_of Vertices (lent parent depth head id order size) u v) ranges.old ranges.new count.old count.new result }
{
    let tables = Tables {
        parent,
        depth,
        head,
        id,
        order,
        size,
    };
    hand(
        rangelists::lists::vertex_path_ranges(&tables, u, v, ranges),
        count,
    )
}

// The same for the edges of the path, each by its child.
#[unsafe(no_mangle)]
pub extern "C" fn relaypath_edge_path_ranges(
    parent: &[u32],
    depth: &[u32],
    head: &[u32],
    id: &[u32],
    order: &[u32],
    size: &[u32],
    u: usize,
    v: usize,
    ranges: &mut [u32],
    count: &mut usize,
) -> u32
    ensures { HandedList (ranges_of Edges (lent parent depth head id order size) u v) ranges.old ranges.new count.old count.new result }
{
    let tables = Tables {
        parent,
        depth,
        head,
        id,
        order,
        size,
    };
    hand(
        rangelists::lists::edge_path_ranges(&tables, u, v, ranges),
        count,
    )
}

// The same for vertices and edges in turn, in the doubled numbers.
#[unsafe(no_mangle)]
pub extern "C" fn relaypath_vertex_edge_path_ranges(
    parent: &[u32],
    depth: &[u32],
    head: &[u32],
    id: &[u32],
    order: &[u32],
    size: &[u32],
    u: usize,
    v: usize,
    ranges: &mut [u32],
    count: &mut usize,
) -> u32
    ensures { HandedList (ranges_of Both (lent parent depth head id order size) u v) ranges.old ranges.new count.old count.new result }
{
    let tables = Tables {
        parent,
        depth,
        head,
        id,
        order,
        size,
    };
    hand(
        rangelists::lists::vertex_edge_path_ranges(&tables, u, v, ranges),
        count,
    )
}

// How many ranges are enough for every path among n vertices.
#[unsafe(no_mangle)]
pub extern "C" fn relaypath_range_room(n: usize, answer: &mut usize) -> u32
    ensures { Handed (range_room n) answer.old answer.new result }
{
    hand(ranges::room::range_room(n), answer)
}

// The length of the part that a range names, of the first store for direction 0, of the second for 1; `place` gets where in its store it
// begins. An empty part begins at 0.
#[unsafe(no_mangle)]
pub extern "C" fn relaypath_rule_part(
    first: &[u32],
    second: &[u32],
    start: usize,
    end: usize,
    direction: u32,
    place: &mut usize,
) -> usize
    ensures { PartNamed first.now second.now start end direction place.new result }
{
    relaypath::parts::rule_part(first, second, start, end, direction, place)
}
