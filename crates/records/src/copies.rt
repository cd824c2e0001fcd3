// Copying records into a lent slice.
ghost use Rattle.std.specs.Prelude.{◌≡◌};
ghost use Rattle.records.specs.Inner.{Copies, copied};

use rangelists::values::PathRanges;
use ranges::flat::range_at;
use ranges::kinds::PathRange;

// Writes the records of a path into the first entries of a slice.
pub(crate) fn copy_records(found: PathRanges, ranges: &mut [PathRange])
    requires { Copies found ranges.old }
    ensures { ranges.new ≡ copied found.numbers 0 found.count ranges.old }
{
    let numbers = found.numbers;
    for i in 0..found.count {
        ranges[i] = range_at(&numbers, i);
    }
}
