// How every call that takes a graph begins and ends: it tests sizes and room, and it zeroes the work that it used.
ghost use Rattle.std.specs.Prelude.{◌≤◌, ◌≡◌, true, []};
ghost use Rattle.answers.specs.Answers.{code_of};
ghost use Rattle.graph.specs.Judgement.{First};
ghost use Rattle.graph.specs.Validation.{Fits, room_of, opening};
ghost use Rattle.graph.specs.Steps.{Begun};
ghost use Rattle.graph.specs.Work.{Zeroed};

use crate::lists::Graph;
use crate::work::zero;
use answers::answer::Refusal;

// The first of the tests 1 and 2 that is not passed. `fits` tells whether the tables that the call is lent have their length, and `room` is the length
// of work.
pub fn begin(graph: &Graph, fits: bool, room: usize) -> Result<(), Refusal>
    ensures { let g = graph.now in
        First (opening (Fits g.offsets.now g.targets.now (fits ≡ true)) (room_of g.offsets.now g.targets.now ≤ room) []) (code_of result) }
{
    if !fits || !graph.sized() {
        return Err(Refusal::BadSize);
    }
    if room < graph.work_room() {
        return Err(Refusal::NoRoom);
    }
    Ok(())
}

// Zeroes the entries of work that a call on this graph uses, on any answer.
pub fn finish(graph: &Graph, work: &mut [u32])
    requires { Begun graph.now.offsets.now graph.now.targets.now work.old }
    ensures { Zeroed 0 (room_of graph.now.offsets.now graph.now.targets.now) work.old work.new }
{
    let room = graph.work_room();
    zero(work, 0, room);
}
