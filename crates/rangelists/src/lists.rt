// The path from u to v as ranges, written into a lent list. Every refusal comes before the test of room, and a refused call writes nothing.
ghost use Rattle.tables.specs.Tables.{six_in};
ghost use Rattle.ranges.specs.Calls.{ranges_of, ListedAs};
ghost use Rattle.ranges.specs.declared.kinds.Kind.TheVariants.{Vertices, Edges, Both};

use crate::writes::write_path;
use answers::answer::{Listed, Refusal};
use climb::asked::asked;
use climb::climbing::meet;
use climb::sound::reach;
use ranges::chains::{last_chain, last_count};
use ranges::kinds::{Kind, STRIDE};
use tables::Tables;

// The ranges of one kind. The first climb meets every refusal and counts the ranges.
pub fn path_ranges(kind: Kind, tables: &Tables, u: usize, v: usize, ranges: &mut [u32]) -> Listed
    ensures { ListedAs (ranges_of kind (six_in tables.now) u v) ranges.old ranges.new result }
{
    asked(tables, &[u, v])?;
    let p = reach(tables, u)?;
    let q = reach(tables, v)?;
    let climb = meet(tables, p, q)?;
    let count = climb.u_count + climb.v_count + last_count(last_chain(kind, climb));
    if ranges.len() < STRIDE * count {
        return Err(Refusal::NoRoom);
    }
    write_path(kind, tables, p, q, count, ranges);
    Ok(count)
}

// The numbers of the vertices of the path.
pub fn vertex_path_ranges(tables: &Tables, u: usize, v: usize, ranges: &mut [u32]) -> Listed
    ensures { ListedAs (ranges_of Vertices (six_in tables.now) u v) ranges.old ranges.new result }
{
    path_ranges(Kind::Vertices, tables, u, v, ranges)
}

// The numbers of the edges of the path, each by its child.
pub fn edge_path_ranges(tables: &Tables, u: usize, v: usize, ranges: &mut [u32]) -> Listed
    ensures { ListedAs (ranges_of Edges (six_in tables.now) u v) ranges.old ranges.new result }
{
    path_ranges(Kind::Edges, tables, u, v, ranges)
}

// Vertices and edges of the path in turn, in the doubled numbers.
pub fn vertex_edge_path_ranges(tables: &Tables, u: usize, v: usize, ranges: &mut [u32]) -> Listed
    ensures { ListedAs (ranges_of Both (six_in tables.now) u v) ranges.old ranges.new result }
{
    path_ranges(Kind::Both, tables, u, v, ranges)
}
