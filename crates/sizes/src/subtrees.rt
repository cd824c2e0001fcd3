// Subtrees: their numbers and sizes.
ghost use Rattle.std.specs.Prelude.{◌≡◌, Ok};
ghost use Rattle.tables.specs.Tables.{six_in};
ghost use Rattle.climb.specs.Asked.{size_of};
ghost use Rattle.sizes.specs.Inner.{Sizes, sound_size as sound_size_of, Counts, ReRoots};
ghost use Rattle.queries.specs.Queries.{subtree_range as range_of, without_child as left_without, re_rooted_size as re_rooted_of, subtree_size as size_from};

use answers::answer::{Answer, Interval, Refusal};
use climb::asked::asked;
use climb::places::Place;
use climb::sound::stand;
use queries::ancestors::ancestor_from;
use tables::Tables;

// The size of y, whose number is i: it must be 1 or more, and the subtree must end by n.
fn sound_size(tables: &Tables, y: usize, i: usize) -> Answer
    requires { Sizes (six_in tables.now) y i }
    ensures { result ≡ sound_size_of (six_in tables.now) y i }
{
    let count = tables.size[y] as usize;
    if count < 1 {
        return Err(Refusal::BadTable);
    }
    if tables.parent.len() < i + count {
        return Err(Refusal::BadTable);
    }
    Ok(count)
}

// The numbers of the subtree of v.
pub fn subtree_range(tables: &Tables, v: usize) -> Interval
    ensures { result ≡ range_of (six_in tables.now) v }
{
    asked(tables, &[v])?;
    let place = stand(tables, v)?;
    let first = place.id;
    let count = sound_size(tables, v, first)?;
    Ok((first, first + count))
}

// The size of the subtree of b's vertex where a's vertex, another one, is the root: its own size where the root lies outside of it, else
// all vertices but those below the child towards the root.
fn re_rooted_size(tables: &Tables, a: Place, b: Place) -> Answer
    requires { ReRoots (six_in tables.now) a b }
    ensures { result ≡ re_rooted_of (size_of (six_in tables.now)) (six_in tables.now) a.vertex b.vertex }
{
    let count = sound_size(tables, b.vertex, b.id)?;
    if a.id < b.id {
        return Ok(count);
    }
    if b.id + count <= a.id {
        return Ok(count);
    }
    if a.depth <= b.depth {
        return Err(Refusal::BadTable);
    }
    let found = ancestor_from(tables, tables.parent.len(), a, a.depth - b.depth - 1);
    let Ok(child) = found else {
        return found;
    };
    without_child(tables, child)
}

// All n vertices but those of the subtree of y.
fn without_child(tables: &Tables, y: usize) -> Answer
    requires { Counts (six_in tables.now) y }
    ensures { result ≡ left_without (size_of (six_in tables.now)) (six_in tables.now) (Ok y) }
{
    let count = sound_size(tables, y, tables.id[y] as usize)?;
    Ok(tables.parent.len() - count)
}

// The number of vertices of v's subtree as if r were the root.
pub fn subtree_size(tables: &Tables, r: usize, v: usize) -> Answer
    ensures { result ≡ size_from (six_in tables.now) r v }
{
    asked(tables, &[r, v])?;
    let a = stand(tables, r)?;
    let b = stand(tables, v)?;
    if r == v {
        return Ok(tables.parent.len());
    }
    re_rooted_size(tables, a, b)
}
