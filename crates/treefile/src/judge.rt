// Whether a file is well-formed, and the sections that it has.
ghost use Rattle.std.specs.Prelude.{◌≡◌};
ghost use Rattle.treefile.specs.File.{section as section_of, read_tree, parse_as};
ghost use Rattle.treefile.specs.Sections.{bytes_in, words_in, section_in, tree_in, parsed_in};

use crate::query::judge_queries;
use crate::words::Words;

// The program's own limits.
pub const MAX_OFFSETS: usize = 1_025;

pub const MAX_TARGETS: usize = 2_048;

// The most numbers of a root section.
const MAX_ROOTS: usize = 1;

// A tree's offsets and targets, its root, and the numbers behind its sections.
#[derive(Clone, Copy)]
pub struct Sections<'a> {
    pub offsets: Words<'a>,
    pub targets: Words<'a>,
    pub root: usize,
    pub rest: Words<'a>,
}

// The section that stands first, of at most so many numbers, and what follows it.
fn section(words: Words, most: usize) -> Option<(Words, Words)>
    ensures { section_in result ≡ section_of most (words_in words.entry) }
{
    let (count, rest) = words.split_first()?;
    if most < count || rest.count() < count {
        return None;
    }
    Some(rest.split_at(count))
}

// The sections of the tree that stands first. Trees may follow one another.
pub fn judge_tree(words: Words) -> Option<Sections>
    ensures { tree_in result ≡ read_tree (words_in words.entry) }
{
    let (offsets, rest) = section(words, MAX_OFFSETS)?;
    let (targets, rest) = section(rest, MAX_TARGETS)?;
    let (roots, rest) = section(rest, MAX_ROOTS)?;
    let (root, _) = roots.split_first()?;
    Some(Sections {
        offsets,
        targets,
        root,
        rest,
    })
}

// The sections of the tree and the numbers of the queries. The whole file is judged before anything else is done with it.
pub fn judge(words: Words) -> Option<(Sections, Words)>
    ensures { parsed_in result ≡ parse_as (bytes_in words.entry.width) words.entry.bytes.now }
{
    if words.bytes.len() % words.width.bytes() != 0 {
        return None;
    }
    let tree = judge_tree(words)?;
    let queries = judge_queries(tree.rest)?;
    Some((tree, queries))
}
