// Writing the ranges of a path into the slots of a lent list.
ghost use Rattle.std.specs.Prelude.{◌≡◌};
ghost use Rattle.tables.specs.Tables.{six_in};
ghost use Rattle.ranges.specs.Inner.{last_list, written};
ghost use Rattle.rangelists.specs.Inner.{LastSlot, Writes, Wrote};

use climb::climbing::leave_chain;
use climb::places::{Climb, Place};
use ranges::chains::{chain_range, last_chain, u_piece, v_piece};
use ranges::flat::write_range;
use ranges::kinds::{Kind, PathRange};
use tables::Tables;

// Writes the range of the last chain, if there is one, into a slot.
fn write_last(ranges: &mut [u32], slot: usize, last: Option<PathRange>)
    requires { LastSlot ranges.old slot last }
    ensures { ranges.new ≡ written ranges.old slot (last_list last) }
{
    if let Some(range) = last {
        write_range(ranges, slot, range);
    }
}

// Climbs from p and q once more and writes the `count` ranges of their path: the u side from the front, the v side from the back. The first
// climb has met every refusal, so neither side is lost here.
#[inline(always)]
pub(crate) fn write_path(
    kind: Kind,
    tables: &Tables,
    p: Place,
    q: Place,
    count: usize,
    ranges: &mut [u32],
)
    requires { Writes kind (six_in tables.now) p q count ranges.old }
    ensures { Wrote kind (six_in tables.now) p.vertex q.vertex ranges.old ranges.new }
{
    let mut climb = Climb::new(p, q);
    while climb.u.head != climb.v.head {
        if climb.v.top <= climb.u.top {
            let Ok(next) = leave_chain(tables, climb.u, climb.u_count) else {
                return;
            };
            let range = chain_range(kind, u_piece(climb));
            write_range(ranges, climb.u_count, range);
            climb = climb.u_moved(next);
        } else {
            let Ok(next) = leave_chain(tables, climb.v, climb.v_count) else {
                return;
            };
            let range = chain_range(kind, v_piece(climb));
            write_range(ranges, count - 1 - climb.v_count, range);
            climb = climb.v_moved(next);
        }
    }
    write_last(ranges, climb.u_count, last_chain(kind, climb));
}
