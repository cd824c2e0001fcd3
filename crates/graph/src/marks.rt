// Marks of one bit to a vertex, in 32-bit words of lent work from index base on.
ghost use Rattle.std.specs.Prelude.{◌≡◌, ◌+◌, ◌/◌, ◌<◌, eqb, length};
ghost use Rattle.graph.specs.Marks.{mark_of, Marks};

// Whether v is marked.
pub fn marked(work: &[u32], base: usize, v: usize) -> bool
    requires { base + v / 32 < length work.now }
    ensures { result ≡ eqb (mark_of work.now base v) 1 }
{
    let word = work[base + v / 32];
    (word >> (v % 32)) & 1 == 1
}

// Marks v.
pub fn mark(work: &mut [u32], base: usize, v: usize)
    requires { base + v / 32 < length work.old }
    ensures { Marks base v work.old work.new }
{
    let at = base + v / 32;
    let word = work[at];
    work[at] = word | (1u32 << (v % 32));
}
