// The lowest common ancestor from any root: the last deepest of three climbs' ends.
ghost use Rattle.std.specs.Prelude.{◌≡◌};
ghost use Rattle.tables.specs.Tables.{six_in};
ghost use Rattle.climb.specs.Asked.{size_of};
ghost use Rattle.climb.specs.Climbing.{climb_to};
ghost use Rattle.climb.specs.Inner.{ClimbsFrom};
ghost use Rattle.queries.specs.Queries.{lca as lca_of};
ghost use Rattle.between.specs.Inner.{climb_end, deeper_candidate as deeper_of, Deepest};

use answers::answer::{Answer, Refusal};
use climb::asked::asked;
use climb::climbing::meet;
use climb::places::Place;
use climb::sound::reach;
use tables::Tables;

// What the choice of the LCA needs of the place where a climb ended.
#[derive(Clone, Copy)]
pub struct Candidate {
    pub vertex: usize,
    pub depth: usize,
}

// The place where p and q meet, as a candidate: only its vertex and depth are handed on.
fn meeting(tables: &Tables, p: Place, q: Place) -> Result<Candidate, Refusal>
    requires { ClimbsFrom (six_in tables.now) p q }
    ensures { result ≡ climb_end (climb_to (size_of (six_in tables.now)) (six_in tables.now) p.vertex q.vertex) }
{
    let climb = meet(tables, p, q)?;
    let w = climb.ancestor();
    Ok(Candidate {
        vertex: w.vertex,
        depth: w.depth,
    })
}

// The deeper of two candidates, the second at equal depth.
fn deeper(a: Candidate, b: Candidate) -> Candidate
    ensures { result ≡ deeper_of a b }
{
    if a.depth <= b.depth { b } else { a }
}

// The last deepest of the three candidates.
fn deepest(candidates: [Candidate; 3]) -> Candidate
    ensures { Deepest candidates result }
{
    let [a, b, c] = candidates;
    deeper(deeper(a, b), c)
}

// The lowest common ancestor of u and v as if r were the root.
pub fn lca(tables: &Tables, r: usize, u: usize, v: usize) -> Answer
    ensures { result ≡ lca_of (six_in tables.now) r u v }
{
    asked(tables, &[r, u, v])?;
    let s = reach(tables, r)?;
    let p = reach(tables, u)?;
    let q = reach(tables, v)?;
    let a = meeting(tables, p, q)?;
    let b = meeting(tables, s, p)?;
    let c = meeting(tables, s, q)?;
    Ok(deepest([a, b, c]).vertex)
}
