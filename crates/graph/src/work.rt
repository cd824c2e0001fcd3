// Lent work: clearing a part of it.
ghost use Rattle.std.specs.Prelude.{◌≤◌, length};
ghost use Rattle.graph.specs.Work.{Zeroed};

// Sets the entries from index a up to index e to zero.
pub fn zero(work: &mut [u32], a: usize, e: usize)
    requires { (a ≤ e) × (e ≤ length work.old) }
    ensures { Zeroed a e work.old work.new }
{
    work[a..e].fill(0);
}
