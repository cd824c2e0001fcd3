// The tests before a query on six lent tables.
ghost use Rattle.std.specs.Prelude.{◌≡◌, Ok, Err};
ghost use Rattle.tables.specs.Tables.{six_in};
ghost use Rattle.climb.specs.Asked.{asked as asked_of};

use answers::answer::Refusal;
use tables::Tables;

// The tests of a query with these vertex arguments.
pub fn asked(tables: &Tables, vertices: &[usize]) -> Result<(), Refusal>
    ensures { result ≡ asked_of (six_in tables.now) vertices.now Err (Ok tt) }
{
    let others = [
        tables.depth.len(),
        tables.head.len(),
        tables.id.len(),
        tables.order.len(),
        tables.size.len(),
    ];
    answers::asked::asked(tables.parent.len(), &others, vertices)
}
