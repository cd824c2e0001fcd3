// The second pass of the build: numbers, heads and depths of the positions, once they are weighed.
#![tactic(auto)]

ghost use Rattle.ranks.specs.Ranks.{NumberAsks, NumberAnswers};
ghost use Rattle.ranks.specs.Inner.{PlaceAsks, Placed, OneAsks, Numbers};

use passes::{DEEP, END, HEAVY, ID, SIZE, TOP, UP};

// What a position is given: its number, where the numbers end that its light children are given from the end on, the position of its
// head, and its depth.
#[derive(Clone, Copy)]
struct Rank {
    id: u32,
    end: u32,
    top: u32,
    deep: u32,
}

// Gives position j its rank.
fn place(n: usize, j: usize, rank: Rank, work: &mut [u32])
    requires { PlaceAsks n j work.old }
    ensures { Placed n j rank.id rank.end rank.top rank.deep work.old work.new }
{
    work[ID * n + j] = rank.id;
    work[END * n + j] = rank.end;
    work[TOP * n + j] = rank.top;
    work[DEEP * n + j] = rank.deep;
}

// Numbers position j, whose parent is numbered: a heavy child next to its parent on the parent's chain, a light one at the end of what is left of
// the parent's numbers, on a chain of its own.
fn number_one(n: usize, j: usize, up: usize, work: &mut [u32])
    requires { OneAsks n j up work.old }
    ensures { Numbers n j up work.old work.new }
{
    let size = work[SIZE * n + j];
    let deep = work[DEEP * n + up] + 1;
    if work[HEAVY * n + up] as usize == j {
        let id = work[ID * n + up] + 1;
        let end = id + size;
        let top = work[TOP * n + up];
        place(n, j, Rank { id, end, top, deep }, work);
        return;
    }
    let end = work[END * n + up];
    let id = end - size;
    let top = j as u32;
    work[END * n + up] = id;
    place(n, j, Rank { id, end, top, deep }, work);
}

// Numbers, heads and depths of all positions, from the first position to the last.
pub fn number(n: usize, work: &mut [u32])
    requires { NumberAsks n work.old }
    ensures { NumberAnswers n work.old work.new }
{
    let first = Rank {
        id: 0,
        end: work[SIZE * n],
        top: 0,
        deep: 0,
    };
    place(n, 0, first, work);
    for j in 1..n {
        let up = work[UP * n + j] as usize;
        number_one(n, j, up, work);
    }
}
