// The queries.
use casetext::cursor::Cursor;

// A query and its numbers.
#[derive(Clone, Copy)]
pub enum Query {
    Root,
    Range(usize),
    Depth(usize),
    Id(usize),
    Distance(usize, usize),
    Ancestor(usize, usize),
    Size(usize, usize),
    Lca(usize, usize, usize),
    Jump(usize, usize, usize),
}

// Takes what has this form, and returns its number.
fn one(cursor: &mut Cursor, form: &[u8]) -> Option<usize> {
    let [u] = cursor.form::<1>(form)?;
    Some(u as usize)
}

// The same with two numbers.
fn two(cursor: &mut Cursor, form: &[u8]) -> Option<(usize, usize)> {
    let [u, v] = cursor.form::<2>(form)?;
    Some((u as usize, v as usize))
}

// The same with three.
fn three(cursor: &mut Cursor, form: &[u8]) -> Option<(usize, usize, usize)> {
    let [u, v, w] = cursor.form::<3>(form)?;
    Some((u as usize, v as usize, w as usize))
}

impl Query {
    // Takes the query that stands next.
    pub fn read(cursor: &mut Cursor) -> Option<Self> {
        if cursor.words(b"root").is_some() {
            return Some(Query::Root);
        }
        if let Some(v) = one(cursor, b"range #") {
            return Some(Query::Range(v));
        }
        if let Some(v) = one(cursor, b"depth #") {
            return Some(Query::Depth(v));
        }
        if let Some(v) = one(cursor, b"id #") {
            return Some(Query::Id(v));
        }
        if let Some((u, v)) = two(cursor, b"distance # #") {
            return Some(Query::Distance(u, v));
        }
        if let Some((v, k)) = two(cursor, b"ancestor # #") {
            return Some(Query::Ancestor(v, k));
        }
        if let Some((r, v)) = two(cursor, b"size # #") {
            return Some(Query::Size(r, v));
        }
        if let Some((r, u, v)) = three(cursor, b"lca # # #") {
            return Some(Query::Lca(r, u, v));
        }
        let (u, v, k) = three(cursor, b"jump # # #")?;
        Some(Query::Jump(u, v, k))
    }
}
