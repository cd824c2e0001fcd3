// The lines of a file's queries.
ghost use Rattle.std.specs.Prelude.{◌+◌};
ghost use Rattle.tables.specs.Tables.{six_in};
ghost use Rattle.treefile.specs.Report.{query_line, query_lines};
ghost use Rattle.treefile.specs.Writing.{Prints};
ghost use Rattle.querylines.specs.Lines.{LineAsks, LinesAsk};

use crate::answer::put_answer;
use tables::Tables;
use treefile::page::Page;
use treefile::query::Query;

// The line of a query: its place, its kind, its code and its answer.
fn put_query(tables: &Tables, place: usize, query: Query, page: &mut Page)
    requires { LineAsks (six_in tables.now) place query page.old }
    ensures { Prints (query_line (six_in tables.now) place query) page.old page.new }
{
    page.put_query_head(place, query.kind);
    put_answer(tables, query, page);
    page.put_byte(b'\n');
}

// The lines of all queries, which count from 1.
pub fn put_queries(tables: &Tables, queries: &[Query], page: &mut Page)
    requires { LinesAsk (six_in tables.now) queries.now page.old }
    ensures { Prints (query_lines (six_in tables.now) 1 queries.now) page.old page.new }
{
    for (i, query) in queries.iter().enumerate() {
        put_query(tables, 1 + i, *query, page);
    }
}
