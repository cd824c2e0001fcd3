// The tests 1 and 4 that come before every query on lent tables, in this order and before any entry is read.
ghost use Rattle.std.specs.Prelude.{◌≡◌, Ok, Err};
ghost use Rattle.answers.specs.Asked.{lengths?, sized?, vertices?, asked_of};

use crate::answer::Refusal;
use crate::limits::MAX_VERTICES;

// Whether each of the lengths is n.
fn even(n: usize, lengths: &[usize]) -> bool
    ensures { result ≡ lengths? n lengths.now }
{
    lengths.iter().all(|length| *length == n)
}

// Whether n is from 1 to the limit, and the length of each further table.
fn sized(n: usize, lengths: &[usize]) -> bool
    ensures { result ≡ sized? n lengths.now }
{
    if n < 1 || MAX_VERTICES < n {
        return false;
    }
    even(n, lengths)
}

// Whether each of the vertices is below n.
fn below(n: usize, vertices: &[usize]) -> bool
    ensures { result ≡ vertices? n vertices.now }
{
    vertices.iter().all(|vertex| *vertex < n)
}

// The tests of a query on a table of n entries and further tables of these lengths, with these vertex arguments.
pub fn asked(n: usize, lengths: &[usize], vertices: &[usize]) -> Result<(), Refusal>
    ensures { result ≡ asked_of n lengths.now vertices.now Err (Ok tt) }
{
    if !sized(n, lengths) {
        return Err(Refusal::BadSize);
    }
    if !below(n, vertices) {
        return Err(Refusal::BadVertex);
    }
    Ok(())
}
