// Rule parts: the part of two lent stores that a range names.
ghost use Rattle.std.specs.Prelude.{◌≡◌};
ghost use Rattle.ranges.specs.Parts.{named?, rule_part};

use crate::kinds::Direction;
use answers::limits::MAX_STORE;

// Whether two stores of m and k entries are a pair, and the numbers from start up to end a range of theirs.
pub fn names_part(m: usize, k: usize, start: usize, end: usize) -> bool
    ensures { result ≡ named? m k start end }
{
    if m < 1 || MAX_STORE < m || k != m || end <= start {
        return false;
    }
    end <= m
}

// The numbers from start up to end of the first store if Forward, of the second, which is the first turned round, if Reversed; empty where the
// stores are no such pair or the range is none of theirs.
pub fn rule_part<'a>(
    first: &'a [u32],
    second: &'a [u32],
    start: usize,
    end: usize,
    direction: Direction,
) -> &'a [u32]
    ensures { result.now ≡ rule_part first.now second.now start end direction }
{
    if !names_part(first.len(), second.len(), start, end) {
        return &[];
    }
    match direction {
        Direction::Forward => &first[start..end],
        Direction::Reversed => {
            let from = first.len() - end;
            let to = first.len() - start;
            &second[from..to]
        }
    }
}
