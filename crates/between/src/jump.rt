// Jumps along a path.
ghost use Rattle.std.specs.Prelude.{◌≡◌};
ghost use Rattle.tables.specs.Tables.{six_in};
ghost use Rattle.climb.specs.Asked.{size_of};
ghost use Rattle.queries.specs.Queries.{jump as jump_of, jump_in};
ghost use Rattle.between.specs.Inner.{Jumps};

use answers::answer::{Answer, Refusal};
use climb::asked::asked;
use climb::climbing::meet;
use climb::places::Place;
use climb::sound::reach;
use queries::ancestors::ancestor_from;
use tables::Tables;

// The vertex k steps from p on the way to q: up to the ancestor, then down, counted from q. A refusal of the lookup is passed on.
fn jump_from(tables: &Tables, p: Place, q: Place, k: usize) -> Answer
    requires { Jumps (six_in tables.now) p q }
    ensures { result ≡ jump_in (size_of (six_in tables.now)) (six_in tables.now) p.vertex q.vertex k }
{
    let n = tables.parent.len();
    let climb = meet(tables, p, q)?;
    let w = climb.ancestor();
    let up = p.depth - w.depth;
    let all = up + (q.depth - w.depth);
    if k <= up {
        let found = ancestor_from(tables, n, p, k);
        let Ok(x) = found else {
            return found;
        };
        return Ok(x);
    }
    if all < k {
        return Err(Refusal::TooFar);
    }
    let found = ancestor_from(tables, n, q, all - k);
    let Ok(x) = found else {
        return found;
    };
    Ok(x)
}

// The vertex k steps from u on the way to v.
pub fn jump(tables: &Tables, u: usize, v: usize, k: usize) -> Answer
    ensures { result ≡ jump_of (six_in tables.now) u v k }
{
    asked(tables, &[u, v])?;
    let p = reach(tables, u)?;
    let q = reach(tables, v)?;
    jump_from(tables, p, q, k)
}
