// Ancestors: k steps up from a place, one chain a call.
ghost use Rattle.std.specs.Prelude.{◌≡◌};
ghost use Rattle.numbering.specs.Log.{log2};
ghost use Rattle.tables.specs.Tables.{six_in};
ghost use Rattle.climb.specs.Asked.{size_of};
ghost use Rattle.queries.specs.Queries.{entry_at as entry_of, ancestor_in as found_above, kth_ancestor as ancestor_of};
ghost use Rattle.queries.specs.Inner.{Looks, Rises, rise_from, Finds};

use answers::answer::{Answer, Refusal};
use answers::limits::NO_PARENT;
use climb::asked::asked;
use climb::places::Place;
use climb::sound::{hangs, reach, reach_above};
use tables::Tables;

// The vertex of number i in the order, which must have that number and the depth d.
fn entry_at(tables: &Tables, i: usize, d: usize) -> Answer
    requires { Looks (six_in tables.now) i }
    ensures { result ≡ entry_of (size_of (six_in tables.now)) (six_in tables.now) i d }
{
    let y = tables.order[i] as usize;
    if tables.parent.len() <= y {
        return Err(Refusal::BadTable);
    }
    if tables.id[y] as usize != i {
        return Err(Refusal::BadTable);
    }
    if tables.depth[y] as usize != d {
        return Err(Refusal::BadTable);
    }
    Ok(y)
}

// k steps up from p, a place that was reached: on its chain, or off it while chains may be left; either way the head of the chain must hang.
// `room` is n, halved once for each chain that was left: one more may be left while it is 2 or more, so at most the floor of log2 n are.
pub fn ancestor_from(tables: &Tables, room: usize, p: Place, k: usize) -> Answer
    requires { Rises (six_in tables.now) p }
    ensures { result ≡ rise_from (log2 room) (size_of (six_in tables.now)) (six_in tables.now) p k }
{
    let steps = p.depth - p.top;
    if k <= steps {
        if !hangs(tables, p) {
            return Err(Refusal::BadTable);
        }
        return entry_at(tables, p.id - k, p.depth - k);
    }
    if p.up == NO_PARENT as usize {
        if p.top != 0 {
            return Err(Refusal::BadTable);
        }
        return Err(Refusal::TooFar);
    }
    if room < 2 {
        return Err(Refusal::BadTable);
    }
    let above = reach_above(tables, p)?;
    ancestor_from(tables, room / 2, above, k - (steps + 1))
}

// k steps up from the vertex v.
pub fn ancestor_in(tables: &Tables, v: usize, k: usize) -> Answer
    requires { Finds (six_in tables.now) v }
    ensures { result ≡ found_above (size_of (six_in tables.now)) (six_in tables.now) v k }
{
    let p = reach(tables, v)?;
    ancestor_from(tables, tables.parent.len(), p, k)
}

// The vertex k steps above v.
pub fn kth_ancestor(tables: &Tables, v: usize, k: usize) -> Answer
    ensures { result ≡ ancestor_of (six_in tables.now) v k }
{
    asked(tables, &[v])?;
    ancestor_in(tables, v, k)
}
