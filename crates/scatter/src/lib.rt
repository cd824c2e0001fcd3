// The last pass of the build: from positions of the visit to tables by vertex.
#![tactic(auto)]

ghost use Rattle.std.specs.Prelude.{◌<◌, ◌≡◌};
ghost use Rattle.tables.specs.Tables.{six_mut, SameTables};
ghost use Rattle.scatter.specs.Scatter.{Parented, parent_at, scattered, ScatterAsks, Filled};

use answers::limits::NO_PARENT;
use passes::{DEEP, ID, SIZE, TOP, UP};
use tables::TablesMut;

// The parent of the vertex at position j, NO_PARENT at the first.
fn parent_at(n: usize, j: usize, work: &[u32]) -> u32
    requires { Parented n j work.now }
    ensures { result ≡ parent_at n work.now j }
{
    if j == 0 {
        return NO_PARENT;
    }
    let up = work[UP * n + j] as usize;
    work[up]
}

// Writes the entries of the vertex at position j.
fn scatter_one(n: usize, j: usize, tables: &mut TablesMut, work: &[u32])
    requires { (j < n) × ScatterAsks n work.now (six_mut tables.old) }
    ensures written { six_mut tables.new ≡ scattered n work.now j (six_mut tables.old) }
    ensures same { SameTables tables.old tables.new }
{
    let v = work[j] as usize;
    let top = work[TOP * n + j] as usize;
    let number = work[ID * n + j];
    tables.parent[v] = parent_at(n, j, work);
    tables.depth[v] = work[DEEP * n + j];
    tables.head[v] = work[top];
    tables.id[v] = number;
    tables.order[number as usize] = work[j];
    tables.size[v] = work[SIZE * n + j];
}

// Writes the six tables.
pub fn scatter(n: usize, tables: &mut TablesMut, work: &[u32])
    requires { ScatterAsks n work.now (six_mut tables.old) }
    ensures filled { Filled n work.now n (six_mut tables.new) }
    ensures same { SameTables tables.old tables.new }
{
    for j in 0..n {
        scatter_one(n, j, tables, work);
    }
}
