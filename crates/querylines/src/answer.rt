// The answer to one query, as text.
ghost use Rattle.tables.specs.Tables.{six_in};
ghost use Rattle.ranges.specs.Calls.{ranges_of};
ghost use Rattle.treefile.specs.Report.{list_text, answer_text};
ghost use Rattle.treefile.specs.Writing.{Prints};
ghost use Rattle.querylines.specs.Answering.{asked_text, PathAsks, AskedAsks, AnswerAsks};

use crate::question::Question;
use between::distance::distance;
use between::jump::jump;
use between::lca::lca;
use queries::ancestors::kth_ancestor;
use rangelists::lists::path_ranges;
use ranges::kinds::{Kind, STRIDE};
use sizes::subtrees::subtree_size;
use tables::Tables;
use treefile::page::Page;
use treefile::query::Query;

// The most ranges of a path among the 1,024 vertices that a file's tree can have.
const FILE_RANGES: usize = 21;

// The numbers of so many ranges.
const RANGE_NUMBERS: usize = STRIDE * FILE_RANGES;

// The code and the ranges of a path. The list is long enough for every path, so no query is refused for want of room.
fn put_path(tables: &Tables, kind: Kind, u: usize, v: usize, page: &mut Page)
    requires { PathAsks (six_in tables.now) kind u v page.old }
    ensures { Prints (list_text (ranges_of kind (six_in tables.now) u v)) page.old page.new }
{
    let mut flat = [0u32; RANGE_NUMBERS];
    let listed = path_ranges(kind, tables, u, v, &mut flat);
    page.put_list(listed, &flat);
}

// The code of what a query asks and its answer.
fn put_asked(tables: &Tables, question: Question, query: Query, page: &mut Page)
    requires { AskedAsks (six_in tables.now) question query page.old }
    ensures { Prints (asked_text question (six_in tables.now) query) page.old page.new }
{
    let Query { a, b, c, .. } = query;
    match question {
        Question::Distance => page.put_answer(distance(tables, a, b)),
        Question::Lca => page.put_answer(lca(tables, a, b, c)),
        Question::KthAncestor => page.put_answer(kth_ancestor(tables, a, b)),
        Question::Jump => page.put_answer(jump(tables, a, b, c)),
        Question::SubtreeSize => page.put_answer(subtree_size(tables, a, b)),
        Question::Ranges(kind) => put_path(tables, kind, a, b, page),
    }
}

// The code of a query and its answer.
pub(crate) fn put_answer(tables: &Tables, query: Query, page: &mut Page)
    requires { AnswerAsks (six_in tables.now) query page.old }
    ensures { Prints (answer_text (six_in tables.now) query) page.old page.new }
{
    put_asked(tables, Question::from(query.kind), query, page);
}
