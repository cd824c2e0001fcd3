// A file's offsets, targets and queries, copied to the program's buffers.
ghost use Rattle.std.specs.Prelude.{◌≡◌};
ghost use Rattle.paths.specs.Lists.{front};
ghost use Rattle.treefile.specs.File.{narrow};
ghost use Rattle.treefile.specs.Parsing.{Buffers, Parses};
ghost use Rattle.treefile.specs.Sections.{bytes_in, words_in, Fits};

use crate::judge::{Sections, judge};
use crate::query::{Query, query_count, read_queries};
use crate::words::{Width, Words};

// How many offsets, targets and queries a file has, and its root.
#[derive(Clone, Copy)]
pub struct Shape {
    pub offsets: usize,
    pub targets: usize,
    pub root: usize,
    pub queries: usize,
}

// Copies the offsets and the targets of a tree, which may stand anywhere in the input.
pub fn copy_tree(tree: Sections, offsets: &mut [u32], targets: &mut [u32])
    requires { Fits (words_in tree.offsets) offsets.old × Fits (words_in tree.targets) targets.old }
    ensures offsets { offsets.new ≡ front (words_in tree.entry.offsets) offsets.old }
    ensures targets { targets.new ≡ front (words_in tree.entry.targets) targets.old }
{
    tree.offsets.copy_to(offsets);
    tree.targets.copy_to(targets);
}

// Judges the numbers, and copies only what is well-formed: a bad file leaves the buffers as they were.
pub fn parse_as(
    words: Words,
    offsets: &mut [u32],
    targets: &mut [u32],
    queries: &mut [Query],
) -> Option<Shape>
    requires { Buffers offsets.old targets.old queries.old }
    ensures { Parses (bytes_in words.entry.width) words.entry.bytes.now offsets.old targets.old queries.old offsets.new targets.new queries.new result }
{
    let (tree, asked) = judge(words)?;
    copy_tree(tree, offsets, targets);
    read_queries(asked, queries);
    Some(Shape {
        offsets: tree.offsets.count(),
        targets: tree.targets.count(),
        root: tree.root,
        queries: query_count(asked),
    })
}

// A file of the program has narrow numbers.
pub fn parse(
    bytes: &[u8],
    offsets: &mut [u32],
    targets: &mut [u32],
    queries: &mut [Query],
) -> Option<Shape>
    requires { Buffers offsets.old targets.old queries.old }
    ensures { Parses narrow bytes.now offsets.old targets.old queries.old offsets.new targets.new queries.new result }
{
    let words = Words {
        bytes,
        width: Width::Narrow,
    };
    parse_as(words, offsets, targets, queries)
}
