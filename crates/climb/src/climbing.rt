// The climb of two ends until their heads are the same.
ghost use Rattle.tables.specs.Tables.{six_in};
ghost use Rattle.climb.specs.Inner.{LeaveAsks, Left, ClimbsFrom, ClimbedTo, Meets};

use crate::places::{Climb, Place};
use crate::sound::{hangs, reach_above};
use answers::answer::Refusal;
use tables::Tables;

// Leaves the chain of p for the head's parent, after its side has left `left` chains. One more may be left while n, halved that often, is 2 or
// more: so at most the floor of log2 n are.
pub fn leave_chain(tables: &Tables, p: Place, left: usize) -> Result<Place, Refusal>
    requires { LeaveAsks (six_in tables.now) p left }
    ensures { Left (six_in tables.now) p left result }
{
    if tables.parent.len() >> left < 2 {
        return Err(Refusal::BadTable);
    }
    reach_above(tables, p)
}

// Climbs from p and q, two places that were reached, chain by chain, until both sides are on one chain. Whether the head of that chain hangs is
// for the caller to test: every other head was seen to hang when its chain was left.
#[inline(always)]
pub fn climb_to_lca(tables: &Tables, p: Place, q: Place) -> Result<Climb, Refusal>
    requires { ClimbsFrom (six_in tables.now) p q }
    ensures { ClimbedTo (six_in tables.now) p.vertex q.vertex result }
{
    let mut climb = Climb::new(p, q);
    while climb.u.head != climb.v.head {
        if climb.v.top <= climb.u.top {
            let next = leave_chain(tables, climb.u, climb.u_count)?;
            climb = climb.u_moved(next);
        } else {
            let next = leave_chain(tables, climb.v, climb.v_count)?;
            climb = climb.v_moved(next);
        }
    }
    Ok(climb)
}

// Where p and q, two places that were reached, meet: on one chain, whose head hangs.
#[inline(always)]
pub fn meet(tables: &Tables, p: Place, q: Place) -> Result<Climb, Refusal>
    requires { ClimbsFrom (six_in tables.now) p q }
    ensures { Meets (six_in tables.now) p.vertex q.vertex result }
{
    let climb = climb_to_lca(tables, p, q)?;
    if !hangs(tables, climb.u) {
        return Err(Refusal::BadTable);
    }
    Ok(climb)
}
