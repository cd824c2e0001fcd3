// The passes of the build over the positions of a breadth-first visit, and the first of them: sizes and heavy children. The children of a position stand
// together behind it, in list order, so each pass reads memory in order and no list is read again. Work holds regions of n entries; which is which, the
// constants say.
#![tactic(auto)]

ghost use Rattle.passes.specs.Passes.{WeighAsks, WeighAnswers, region};
ghost use Rattle.passes.specs.Inner.{StartAsks, StartAnswers, HeavierAsks, Heavier, HandAsks, HandAnswers};

// The vertices in the order of the visit: the queue stands at the front of work.
pub const QUEUE: usize = 0;
// The position of the parent.
pub const UP: usize = 1;
// The number of vertices in the subtree.
pub const SIZE: usize = 2;
// The position of the heavy child, 0 where there is none.
pub const HEAVY: usize = 3;
// The number.
pub const ID: usize = 4;
// Where the numbers end that are still to be given to light children.
pub const END: usize = 5;
// The position of the head of the chain.
pub const TOP: usize = 6;
// The depth.
pub const DEEP: usize = 7;

// Gives every position the size 1 and no heavy child.
fn start_weights(n: usize, work: &mut [u32])
    requires { StartAsks n work.old }
    ensures { StartAnswers n work.old work.new }
{
    work[SIZE * n..HEAVY * n].fill(1);
    work[HEAVY * n..ID * n].fill(0);
}

// The heavier of the heavy child so far, at position best, and position j, which stands before it in the list: of equals j.
fn heavier(n: usize, best: usize, j: usize, work: &[u32]) -> usize
    requires { HeavierAsks n best j work.now }
    ensures { Heavier (region 2 n work.now) best j result }
{
    if best != 0 && work[SIZE * n + j] < work[SIZE * n + best] {
        return best;
    }
    j
}

// Hands the size of position j on to its parent, and the place of the heavy child where j is heavier.
fn weigh_one(n: usize, j: usize, up: usize, work: &mut [u32])
    requires { HandAsks n j up work.old }
    ensures { HandAnswers n j up work.old work.new }
{
    let size = work[SIZE * n + up] + work[SIZE * n + j];
    let best = work[HEAVY * n + up] as usize;
    let heavy = heavier(n, best, j, work);
    work[HEAVY * n + up] = heavy as u32;
    work[SIZE * n + up] = size;
}

// Sizes and heavy children of all positions, from the last position to the first: a position's children stand behind it, so its size is
// complete when its turn comes.
pub fn weigh(n: usize, work: &mut [u32])
    requires { WeighAsks n work.old }
    ensures { WeighAnswers n work.old work.new }
{
    start_weights(n, work);
    for j in (1..n).rev() {
        let up = work[UP * n + j] as usize;
        weigh_one(n, j, up, work);
    }
}
