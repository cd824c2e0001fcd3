// Plain reads of the decomposition's two tables.
ghost use Rattle.std.specs.Prelude.{◌≡◌};
ghost use Rattle.centroid.specs.Reads.{read_of};

use answers::answer::Refusal;
use answers::asked::asked;

// The entry of v in one of the two tables, after the tests before every query.
fn read(table: &[u32], other: &[u32], v: usize) -> Result<u32, Refusal>
    ensures { result ≡ read_of table.now other.now v }
{
    asked(table.len(), &[other.len()], &[v])?;
    Ok(table[v])
}

// The centroid above v, NO_PARENT for the first one.
pub fn centroid_parent(parent: &[u32], level: &[u32], v: usize) -> Result<u32, Refusal>
    ensures { result ≡ read_of parent.now level.now v }
{
    read(parent, level, v)
}

// The level of v: how many centroids are above it.
pub fn centroid_level(parent: &[u32], level: &[u32], v: usize) -> Result<u32, Refusal>
    ensures { result ≡ read_of level.now parent.now v }
{
    read(level, parent, v)
}
