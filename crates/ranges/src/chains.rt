// The pieces of a path, one to a chain that it leaves and one to its last chain, and the range of each.
#![tactic(auto, using(answers::proofs::Bounds::vertices_small))]

ghost use Rattle.std.specs.Prelude.{◌≡◌, length};
ghost use Rattle.ranges.specs.Ranges.{u_piece, v_piece, last_piece, range, chain_range, last_range};
ghost use Rattle.ranges.specs.Inner.{Numbers, Chain, Ends, last_chain, last_list};

use crate::kinds::{Direction, Kind, PathRange, Piece};
use climb::places::Climb;

// The piece of the chain that the u side leaves: from the chain's head up to where the side stands, read high to low.
pub fn u_piece(climb: Climb) -> Piece
    requires { Ends climb }
    ensures { result ≡ u_piece climb.u }
{
    Piece::new(climb.u.first, climb.u.id + 1, Direction::Reversed)
}

// The piece of the chain that the v side leaves, read low to high.
pub fn v_piece(climb: Climb) -> Piece
    requires { Ends climb }
    ensures { result ≡ v_piece climb.v }
{
    Piece::new(climb.v.first, climb.v.id + 1, Direction::Forward)
}

// The piece of the last chain of a climb: on the u side where u lies below v, else on the v side.
pub fn last_piece(climb: Climb) -> Piece
    requires { Ends climb }
    ensures { result ≡ last_piece climb.u climb.v }
{
    let u = climb.u.id;
    let v = climb.v.id;
    if v < u {
        return Piece::new(v, u + 1, Direction::Reversed);
    }
    Piece::new(u, v + 1, Direction::Forward)
}

// A range with the numbers from start up to end, and the rest from the piece that it is of: the one place where a piece becomes a record.
fn range_of(start: usize, end: usize, piece: Piece) -> PathRange
    ensures { result ≡ range start end piece }
{
    PathRange {
        start,
        end,
        direction: piece.direction,
    }
}

// The range of a chain that is left.
pub fn chain_range(kind: Kind, piece: Piece) -> PathRange
    requires { Chain piece }
    ensures { result ≡ chain_range kind piece }
{
    let from = piece.from;
    let to = piece.to;
    match kind {
        Kind::Vertices => range_of(from, to, piece),
        Kind::Edges => range_of(from, to, piece),
        Kind::Both => range_of(2 * from - 1, 2 * to - 1, piece),
    }
}

// The range of the last chain, of whose numbers the first is the ancestor's, or none where it would be empty.
#[inline(always)]
fn last_range(kind: Kind, piece: Piece) -> Option<PathRange>
    requires { Numbers piece }
    ensures { last_list result ≡ last_range kind piece }
{
    let from = piece.from;
    let to = piece.to;
    match kind {
        Kind::Vertices => Some(range_of(from, to, piece)),
        Kind::Edges => {
            if from + 1 < to {
                Some(range_of(from + 1, to, piece))
            } else {
                None
            }
        }
        Kind::Both => Some(range_of(2 * from, 2 * to - 1, piece)),
    }
}

// The range of the last chain of a climb.
#[inline(always)]
pub fn last_chain(kind: Kind, climb: Climb) -> Option<PathRange>
    requires { Ends climb }
    ensures { last_list result ≡ last_chain kind climb }
{
    last_range(kind, last_piece(climb))
}

// How many ranges the last chain has.
pub fn last_count(last: Option<PathRange>) -> usize
    ensures { result ≡ length (last_list last) }
{
    usize::from(last.is_some())
}
