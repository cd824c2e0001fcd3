// The part of the rule stores that a range names, in the form that C takes.
ghost use Rattle.relaypath.specs.Listing.{PartNamed};

// The length of the part that a range names, of the first store for direction 0, of the second for 1; `place` gets where in its store it
// begins. An empty part begins at 0.
pub fn rule_part(
    first: &[u32],
    second: &[u32],
    start: usize,
    end: usize,
    direction: u32,
    place: &mut usize,
) -> usize
    ensures { PartNamed first.now second.now start end direction place.new result }
{
    *place = 0;
    if !ranges::parts::names_part(first.len(), second.len(), start, end) {
        return 0;
    }
    if 1 < direction {
        return 0;
    }
    if direction == 0 {
        *place = start;
        return end - start;
    }
    *place = first.len() - end;
    end - start
}
