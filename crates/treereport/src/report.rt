// The report of a whole file.
ghost use Rattle.tables.specs.Tables.{six_mut};
ghost use Rattle.treereport.specs.Reports.{Reports};
ghost use Rattle.treereport.specs.Filing.{file_of, TreeAsks, FileAsks, Filed};

use answers::answer::code_of;
use graph::lists::Graph;
use hld::build::try_hld;
use querylines::lines::put_queries;
use tables::{Tables, TablesMut};
use treefile::judge::{MAX_OFFSETS, MAX_TARGETS};
use treefile::page::Page;
use treefile::parse::parse;
use treefile::query::{MAX_QUERIES, Query};

// Bytes that hold every report.
pub const REPORT_ROOM: usize = 65_536;

// The most vertices of a file's tree.
const MAX_VERTICES: usize = 1_024;

// A well-formed file: its tree, from the root, and its queries.
#[derive(Clone, Copy)]
pub struct File<'a> {
    pub graph: Graph<'a, 'a>,
    pub root: usize,
    pub queries: &'a [Query],
}

// Builds the tables of a tree, each lent with n entries, and puts its line and, where there is a tree, the lines of the queries.
fn report_tree(file: &File, mut tables: TablesMut, page: &mut Page)
    requires { TreeAsks (file_of file.now) (six_mut tables) page.old }
    ensures { Filed (file_of file.now) page.old page.new }
{
    let mut work = [0u32; 8 * MAX_VERTICES + MAX_TARGETS];
    let built = try_hld(&file.graph, file.root, &mut tables, &mut work);
    page.put_tree_line(code_of(built), file.graph.vertices(), file.root);
    if built.is_err() {
        return;
    }
    let TablesMut {
        parent,
        depth,
        head,
        id,
        order,
        size,
    } = tables;
    let read = Tables {
        parent,
        depth,
        head,
        id,
        order,
        size,
    };
    put_queries(&read, file.queries, page);
}

// The report of a well-formed file, on tables of its own.
#[tactic(auto, unfolding(treefile::specs::File::max_offsets))]
fn report_file(file: &File, page: &mut Page)
    requires { FileAsks (file_of file.now) page.old }
    ensures { Filed (file_of file.now) page.old page.new }
{
    let n = file.graph.vertices();
    let mut parent = [0u32; MAX_VERTICES];
    let mut depth = [0u32; MAX_VERTICES];
    let mut head = [0u32; MAX_VERTICES];
    let mut id = [0u32; MAX_VERTICES];
    let mut order = [0u32; MAX_VERTICES];
    let mut size = [0u32; MAX_VERTICES];
    let tables = TablesMut {
        parent: &mut parent[..n],
        depth: &mut depth[..n],
        head: &mut head[..n],
        id: &mut id[..n],
        order: &mut order[..n],
        size: &mut size[..n],
    };
    report_tree(file, tables, page);
}

// Writes the report of a file's bytes to the front of out and returns its length. Where out has less than REPORT_ROOM bytes it writes nothing and
// returns 0. It takes about 80 KiB of stack.
#[tactic(auto, unfolding(crate::specs::Reports::report_room))]
pub fn report(bytes: &[u8], out: &mut [u8]) -> usize
    ensures { Reports bytes.now out.old out.new result }
{
    if out.len() < REPORT_ROOM {
        return 0;
    }
    let mut page = Page { out, at: 0 };
    let mut offsets = [0u32; MAX_OFFSETS];
    let mut targets = [0u32; MAX_TARGETS];
    let mut queries = [Query::default(); MAX_QUERIES];
    let Some(shape) = parse(bytes, &mut offsets, &mut targets, &mut queries) else {
        page.put_bad_file();
        return page.at;
    };
    let file = File {
        graph: Graph {
            offsets: &offsets[..shape.offsets],
            targets: &targets[..shape.targets],
        },
        root: shape.root,
        queries: &queries[..shape.queries],
    };
    report_file(&file, &mut page);
    page.at
}
