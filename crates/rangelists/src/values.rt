// The ranges of a path by value, in an array that every path fits into.
ghost use Rattle.tables.specs.Tables.{six_in};
ghost use Rattle.ranges.specs.Calls.{ranges_of};
ghost use Rattle.rangelists.specs.Values.{ByValue};

use crate::lists::path_ranges;
use answers::answer::Refusal;
use answers::limits::MOST_RANGES;
use ranges::kinds::{Kind, STRIDE};
use tables::Tables;

// The numbers of as many ranges as a path has at most.
pub const MOST_NUMBERS: usize = STRIDE * MOST_RANGES;

// How many ranges a path has, and their numbers from the front on.
#[derive(Clone, Copy)]
pub struct PathRanges {
    pub count: usize,
    pub numbers: [u32; MOST_NUMBERS],
}

// The ranges of one kind, or a refusal. It is never that of too little room.
pub fn ranges_by_value(
    kind: Kind,
    tables: &Tables,
    u: usize,
    v: usize,
) -> Result<PathRanges, Refusal>
    ensures { ByValue (ranges_of kind (six_in tables.now) u v) result }
{
    let mut numbers = [0; MOST_NUMBERS];
    let count = path_ranges(kind, tables, u, v, &mut numbers)?;
    Ok(PathRanges { count, numbers })
}
