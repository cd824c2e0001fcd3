// A query of a file, and the queries that its last numbers are.
ghost use Rattle.std.specs.Prelude.{◌≡◌, ◌+◌, ◌*◌, ◌≤◌, length};
ghost use Rattle.paths.specs.Lists.{front};
ghost use Rattle.treefile.specs.File.{query?, queries_in, query_section, max_queries};
ghost use Rattle.treefile.specs.Sections.{words_in, query_at, queries_from, is_all, asked_in};

use crate::words::Words;

// The most queries of a file.
pub const MAX_QUERIES: usize = 64;

// The kinds of queries are 1 to 8.
const LAST_KIND: usize = 8;

// How many numbers a query is.
const QUERY_NUMBERS: usize = 4;

// A query: its kind and three numbers, of which a kind that does not use the last has 0 there.
#[derive(Clone, Copy, Default)]
pub struct Query {
    pub kind: usize,
    pub a: usize,
    pub b: usize,
    pub c: usize,
}

impl Query {
    // Whether the kind is known, and the last number 0 where it is not used: only the kinds 2 and 4 use it.
    fn is_good(self) -> bool
        ensures { result ≡ query? self }
    {
        if self.kind < 1 || LAST_KIND < self.kind {
            return false;
        }
        self.kind == 2 || self.kind == 4 || self.c == 0
    }
}

// The query that the four numbers from place p on are.
#[tactic(auto, using(crate::proofs::FileNumbers::numbers_few))]
fn query_at(words: Words, p: usize) -> Query
    requires { p + 4 ≤ length (words_in words) }
    ensures { result ≡ query_at (words_in words.entry) p }
{
    Query {
        kind: words.number(p),
        a: words.number(p + 1),
        b: words.number(p + 2),
        c: words.number(p + 3),
    }
}

// Whether the numbers are just so many good queries.
fn good_queries(words: Words, count: usize) -> bool
    requires { count ≤ max_queries }
    ensures { result ≡ is_all (queries_in count (words_in words.entry)) }
{
    if words.count() != QUERY_NUMBERS * count {
        return false;
    }
    for i in 0..count {
        if !query_at(words, QUERY_NUMBERS * i).is_good() {
            return false;
        }
    }
    true
}

// The numbers of the queries whose section stands first: it is the last of a file.
pub fn judge_queries(words: Words) -> Option<Words>
    ensures { asked_in result ≡ query_section (words_in words.entry) }
{
    let (count, rest) = words.split_first()?;
    if MAX_QUERIES < count || !good_queries(rest, count) {
        return None;
    }
    Some(rest)
}

// How many queries the numbers are.
pub(crate) fn query_count(words: Words) -> usize
    ensures { result ≡ length (queries_from (words_in words.entry)) }
{
    words.count() / QUERY_NUMBERS
}

// Reads all queries into the front of out.
pub fn read_queries(words: Words, out: &mut [Query])
    requires { length (queries_from (words_in words)) ≤ length out.old }
    ensures { out.new ≡ front (queries_from (words_in words.entry)) out.old }
{
    for i in 0..query_count(words) {
        out[i] = query_at(words, QUERY_NUMBERS * i);
    }
}
