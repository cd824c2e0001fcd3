// Sound entries: the tests of each vertex that a query stands on. That the head of its chain hangs can be tested apart: a climb that leaves the
// chain reads the entries of the head's parent, and then tests it with them, so that no entry is read twice.
ghost use Rattle.std.specs.Prelude.{◌≡◌};
ghost use Rattle.tables.specs.Tables.{six_in};
ghost use Rattle.climb.specs.Asked.{size_of};
ghost use Rattle.climb.specs.Inner.{hangs?, Hangs, StandAsks, ReadsHead, Rests, ReachedOn, ReachedAbove, StoodOn};

use crate::places::Place;
use answers::answer::Refusal;
use answers::limits::NO_PARENT;
use tables::Tables;

// Reaches the vertex x of depth d and number i, both below n: reads its head, and tests all that soundness asks but that the head hangs. That
// x lies as far below its head by number as by depth is tested without subtraction.
fn reach_at(tables: &Tables, x: usize, d: usize, i: usize) -> Result<Place, Refusal>
    requires { ReadsHead (six_in tables.now) x d i }
    ensures { ReachedOn (six_in tables.now) x result }
{
    let h = tables.head[x] as usize;
    if tables.parent.len() <= h {
        return Err(Refusal::BadTable);
    }
    let top = tables.depth[h] as usize;
    let first = tables.id[h] as usize;
    let up = tables.parent[h] as usize;
    if d < top {
        return Err(Refusal::BadTable);
    }
    if i + top != d + first {
        return Err(Refusal::BadTable);
    }
    Ok(Place {
        vertex: x,
        depth: d,
        id: i,
        head: h,
        top,
        first,
        up,
    })
}

// Reaches the vertex x: reads it and its head, and tests all that soundness asks but that the head hangs.
pub fn reach(tables: &Tables, x: usize) -> Result<Place, Refusal>
    requires { StandAsks (six_in tables.now) x }
    ensures { ReachedOn (six_in tables.now) x result }
{
    let d = tables.depth[x] as usize;
    let i = tables.id[x] as usize;
    if tables.parent.len() <= d {
        return Err(Refusal::BadTable);
    }
    if tables.parent.len() <= i {
        return Err(Refusal::BadTable);
    }
    reach_at(tables, x, d, i)
}

// Reaches the parent of the head of p's chain, from which the head must hang.
pub fn reach_above(tables: &Tables, p: Place) -> Result<Place, Refusal>
    requires { Rests (six_in tables.now) p }
    ensures { ReachedAbove (six_in tables.now) p result }
{
    let up = p.up;
    if tables.parent.len() <= up {
        return Err(Refusal::BadTable);
    }
    let d = tables.depth[up] as usize;
    if d + 1 != p.top {
        return Err(Refusal::BadTable);
    }
    let i = tables.id[up] as usize;
    if p.first <= i {
        return Err(Refusal::BadTable);
    }
    reach_at(tables, up, d, i)
}

// Whether the head of p's chain has no parent and depth 0, or hangs from its parent.
pub fn hangs(tables: &Tables, p: Place) -> bool
    requires { Hangs (six_in tables.now) }
    ensures { result ≡ hangs? (size_of (six_in tables.now)) (six_in tables.now) p }
{
    let up = p.up;
    if up == NO_PARENT as usize {
        return p.top == 0;
    }
    if tables.parent.len() <= up {
        return false;
    }
    if tables.depth[up] as usize + 1 != p.top {
        return false;
    }
    (tables.id[up] as usize) < p.first
}

// Stands on the vertex x: reads it and its head, and tests that it is sound.
pub fn stand(tables: &Tables, x: usize) -> Result<Place, Refusal>
    requires { StandAsks (six_in tables.now) x }
    ensures { StoodOn (six_in tables.now) x result }
{
    let place = reach(tables, x)?;
    if !hangs(tables, place) {
        return Err(Refusal::BadTable);
    }
    Ok(place)
}
