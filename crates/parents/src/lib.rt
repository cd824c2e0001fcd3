// Whether the vertices that a visit met have in their lists the vertices from which it met them.
#![tactic(auto)]

ghost use Rattle.std.specs.Prelude.{◌≡◌, ◌==◌};
ghost use Rattle.std.specs.List.{list_any};
ghost use Rattle.graph.specs.Judgement.{Decides};
ghost use Rattle.parents.specs.Listed.{ListedAsks, ParentsListed};

use graph::lists::Graph;

// Whether x stands in the list. The entries are looked at one by one, since most lists are short.
fn stands(list: &[u32], x: u32) -> bool
    ensures { result ≡ list_any (λ y. y == x) list.now }
{
    list.iter().any(|y| *y == x)
}

// Whether each vertex but the root has in its list the vertex from which it was met. The n vertices stand in work in the order in which
// they were met, and the positions from which they were met n entries behind them.
pub fn parents_listed(graph: &Graph, n: usize, work: &[u32]) -> bool
    requires { ListedAsks n work.now }
    ensures { Decides (ParentsListed graph.now.offsets.now graph.now.targets.now n work.now) result }
{
    for j in 1..n {
        let up = work[n + j] as usize;
        if !stands(graph.neighbours(work[j] as usize), work[up]) {
            return false;
        }
    }
    true
}
