// The path from u to v as records, one to a range, written into a lent slice. Every refusal comes before the test of room, and a refused call
// writes nothing.
ghost use Rattle.tables.specs.Tables.{six_in};
ghost use Rattle.ranges.specs.Calls.{ranges_of};
ghost use Rattle.ranges.specs.declared.kinds.Kind.TheVariants.{Vertices, Edges, Both};
ghost use Rattle.records.specs.Records.{RecordedAs};

use crate::copies::copy_records;
use answers::answer::{Listed, Refusal};
use rangelists::values::ranges_by_value;
use ranges::kinds::{Kind, PathRange};
use tables::Tables;

// The ranges of one kind, as records.
fn path_records(kind: Kind, tables: &Tables, u: usize, v: usize, ranges: &mut [PathRange]) -> Listed
    ensures { RecordedAs (ranges_of kind (six_in tables.now) u v) ranges.old ranges.new result }
{
    let found = ranges_by_value(kind, tables, u, v)?;
    let count = found.count;
    if ranges.len() < count {
        return Err(Refusal::NoRoom);
    }
    copy_records(found, ranges);
    Ok(count)
}

// The numbers of the vertices of the path.
pub fn vertex_path_records(tables: &Tables, u: usize, v: usize, ranges: &mut [PathRange]) -> Listed
    ensures { RecordedAs (ranges_of Vertices (six_in tables.now) u v) ranges.old ranges.new result }
{
    path_records(Kind::Vertices, tables, u, v, ranges)
}

// The numbers of the edges of the path, each by its child.
pub fn edge_path_records(tables: &Tables, u: usize, v: usize, ranges: &mut [PathRange]) -> Listed
    ensures { RecordedAs (ranges_of Edges (six_in tables.now) u v) ranges.old ranges.new result }
{
    path_records(Kind::Edges, tables, u, v, ranges)
}

// Vertices and edges of the path in turn, in the doubled numbers.
pub fn vertex_edge_path_records(
    tables: &Tables,
    u: usize,
    v: usize,
    ranges: &mut [PathRange],
) -> Listed
    ensures { RecordedAs (ranges_of Both (six_in tables.now) u v) ranges.old ranges.new result }
{
    path_records(Kind::Both, tables, u, v, ranges)
}
