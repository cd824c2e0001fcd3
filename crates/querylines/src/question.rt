// What the kind of a query asks.
ghost use Rattle.std.specs.Prelude.{◌≡◌};
ghost use Rattle.querylines.specs.Answering.{question_of};

use ranges::kinds::Kind;

// The call that answers a query: five answer a number, and the others the ranges of a path.
#[derive(Clone, Copy)]
pub enum Question {
    Distance,
    Lca,
    KthAncestor,
    Jump,
    SubtreeSize,
    Ranges(Kind),
}

// The kinds of a file are 1 to 8, and 8 asks for both.
impl From<usize> for Question {
    ghost from_gives = { λ kind question. question ≡ question_of kind };

    fn from(kind: usize) -> Self {
        match kind {
            1 => Question::Distance,
            2 => Question::Lca,
            3 => Question::KthAncestor,
            4 => Question::Jump,
            5 => Question::SubtreeSize,
            6 => Question::Ranges(Kind::Vertices),
            7 => Question::Ranges(Kind::Edges),
            _ => Question::Ranges(Kind::Both),
        }
    }
}
