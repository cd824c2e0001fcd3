// The calls of the queries, and the answers' print.
use crate::given::Given;
use crate::query::Query;
use answers::answer::{Answer, Interval, code_of};
use between::distance::distance;
use between::jump::jump;
use between::lca::lca;
use queries::ancestors::kth_ancestor;
use queries::reads::{depth, root, vertex_id};
use sizes::subtrees::{subtree_range, subtree_size};
use std::io;
use std::io::Print;
use tables::Tables;

// Prints the code of an answer, and its number where it has one.
fn print_answer(rt: &impl Print, answer: Answer) -> io::Result<()> {
    let code = code_of(answer);
    match answer {
        Ok(x) => println!(rt; "{code} {x}"),
        Err(_) => println!(rt; "{code}"),
    }
}

// Prints the code of an interval, and its ends where it has them.
fn print_interval(rt: &impl Print, interval: Interval) -> io::Result<()> {
    let code = code_of(interval);
    match interval {
        Ok((start, end)) => println!(rt; "{code} {start} {end}"),
        Err(_) => println!(rt; "{code}"),
    }
}

// Asks the tables that are given, and prints the answer.
pub fn ask(rt: &impl Print, query: Query, given: Given) -> io::Result<()> {
    let n = given.n;
    let (parent, rest) = given.entries.split_at(n);
    let (depths, rest) = rest.split_at(n);
    let (head, rest) = rest.split_at(n);
    let (id, rest) = rest.split_at(n);
    let (order, rest) = rest.split_at(n);
    let (size, _) = rest.split_at(n);
    let tables = Tables {
        parent,
        depth: depths,
        head,
        id,
        order,
        size,
    };
    let answer = match query {
        Query::Root => root(&tables),
        Query::Range(v) => return print_interval(rt, subtree_range(&tables, v)),
        Query::Depth(v) => depth(&tables, v),
        Query::Id(v) => vertex_id(&tables, v),
        Query::Distance(u, v) => distance(&tables, u, v),
        Query::Ancestor(v, k) => kth_ancestor(&tables, v, k),
        Query::Size(r, v) => subtree_size(&tables, r, v),
        Query::Lca(r, u, v) => lca(&tables, r, u, v),
        Query::Jump(u, v, k) => jump(&tables, u, v, k),
    };
    print_answer(rt, answer)
}
