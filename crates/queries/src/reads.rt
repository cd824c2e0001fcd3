// Queries that read one vertex.
ghost use Rattle.std.specs.Prelude.{◌≡◌};
ghost use Rattle.tables.specs.Tables.{six_in};
ghost use Rattle.queries.specs.Queries.{vertex_count, root_of, depth_of, vertex_id};

use answers::answer::{Answer, Refusal};
use climb::asked::asked;
use climb::sound::stand;
use tables::Tables;

// The number of vertices.
pub fn vertex_count(tables: &Tables) -> Answer
    ensures { result ≡ vertex_count (six_in tables.now) }
{
    asked(tables, &[])?;
    Ok(tables.parent.len())
}

// The root: the first vertex of the order.
pub fn root(tables: &Tables) -> Answer
    ensures { result ≡ root_of (six_in tables.now) }
{
    asked(tables, &[])?;
    let r = tables.order[0] as usize;
    if tables.parent.len() <= r {
        return Err(Refusal::BadTable);
    }
    stand(tables, r)?;
    Ok(r)
}

// The depth of v below the root.
pub fn depth(tables: &Tables, v: usize) -> Answer
    ensures { result ≡ depth_of (six_in tables.now) v }
{
    asked(tables, &[v])?;
    let place = stand(tables, v)?;
    Ok(place.depth)
}

// The number of v.
pub fn vertex_id(tables: &Tables, v: usize) -> Answer
    ensures { result ≡ vertex_id (six_in tables.now) v }
{
    asked(tables, &[v])?;
    let place = stand(tables, v)?;
    Ok(place.id)
}
