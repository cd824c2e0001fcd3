// Queries on tables with a damaged entry, each next to its sound neighbour. The cases stand on standard input, one to a line, and each is printed
// with its code behind it, and the answer where the code is 0. A line is one of these; any other is printed as malformed.
//
//     nothing, or # and a remark
//     tables: NUMBERS              the tables of the cases below: parent, depth, head, id, order and size, one after the other
//     tables NAME: NUMBERS         the same, where each case below begins with `NAME, `
//     CHANGES QUERY                a case: up to eight changes, each followed by ` and ` or `, `, then the query
//
//     a change   TABLE(VERTEX)=NUMBER, with TABLE one of parent depth head id order size
//     a query    distance U V | lca R U V | ancestor V K | jump U V K | size R V | range V | root | depth V | id V
//     NUMBERS    each behind a space, or a comma and a space; n of each table, and n at most 8
//     a number   up to nine digits, or `most` or `none`, which are 4,294,967,295
#![tactic(auto)]

mod ask;
mod given;
mod query;

use ask::ask;
use casetext::cursor::Cursor;
use casetext::{is_remark, print_head, print_malformed};
use given::Given;
use query::Query;
use sample::{MAX_SAMPLE, read_sample};
use std::io;
use std::io::Print;

// Takes the word that a line with tables begins with, and the space that may part it from a name.
fn pass_tables(cursor: &mut Cursor) -> Option<()> {
    cursor.words(b"tables")?;
    let _space = cursor.words(b" ");
    Some(())
}

// Makes the changes of the case on this line, and returns the changed tables and the query.
fn read_case<'a>(given: Option<Given<'a>>, line: &[u8]) -> Option<(Given<'a>, Query)> {
    let mut given = given?;
    let mut cursor = Cursor::new(line);
    given.pass_name(&mut cursor)?;
    given.change(&mut cursor);
    let query = Query::read(&mut cursor)?;
    if cursor.rest().is_empty() {
        Some((given, query))
    } else {
        None
    }
}

// Runs the case of this line on the tables given last.
fn run_case(rt: &impl Print, given: Option<Given>, line: &[u8]) -> io::Result<()> {
    match read_case(given, line) {
        Some((changed, query)) => {
            print_head(rt, line)?;
            ask(rt, query, changed)
        }
        None => print_malformed(rt, line),
    }
}

// Runs a line, and returns the tables that are given last: none where those are malformed.
fn run_line<'a>(
    rt: &impl Print,
    given: Option<Given<'a>>,
    line: &'a [u8],
) -> io::Result<Option<Given<'a>>> {
    let mut cursor = Cursor::new(line);
    if pass_tables(&mut cursor).is_none() {
        run_case(rt, given, line)?;
        return Ok(given);
    }
    let read = Given::read(cursor);
    if read.is_none() {
        print_malformed(rt, line)?;
    }
    Ok(read)
}

// Runs each line with the tables above it.
fn run_all(rt: &impl Print, text: &[u8]) -> io::Result<()> {
    let mut given: Option<Given> = None;
    for line in text.split(|byte| *byte == b'\n') {
        if !is_remark(line) {
            given = run_line(rt, given, line)?;
        }
    }
    Ok(())
}

fn main(rt: HostRuntime) -> io::Result<()> {
    let mut buffer = [0u8; MAX_SAMPLE];
    match read_sample(&mut rt.stdin(), &mut buffer)? {
        Some(count) => run_all(&rt, &buffer[..count]),
        None => Ok(()),
    }
}
