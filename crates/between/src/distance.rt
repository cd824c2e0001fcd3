// The distance.
ghost use Rattle.std.specs.Prelude.{◌≡◌};
ghost use Rattle.tables.specs.Tables.{six_in};
ghost use Rattle.queries.specs.Queries.{distance as distance_of};

use answers::answer::Answer;
use climb::asked::asked;
use climb::climbing::meet;
use climb::sound::reach;
use tables::Tables;

// The number of edges between u and v.
pub fn distance(tables: &Tables, u: usize, v: usize) -> Answer
    ensures { result ≡ distance_of (six_in tables.now) u v }
{
    asked(tables, &[u, v])?;
    let p = reach(tables, u)?;
    let q = reach(tables, v)?;
    let climb = meet(tables, p, q)?;
    let w = climb.ancestor();
    Ok(p.depth + q.depth - 2 * w.depth)
}
