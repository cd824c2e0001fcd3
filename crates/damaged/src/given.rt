// The tables that a line gives, and the changes that a case makes to them.
ghost use Rattle.std.specs.Prelude.{◌<◌, ◌≤◌, IfSome};

use casetext::cursor::Cursor;

// The most changes that a case makes.
const MOST_CHANGES: usize = 8;

// The entries of six tables of eight vertices, the most that a case has.
const ENTRIES: usize = 48;

// Six tables of n vertices, one after the other, and the name that their cases begin with.
#[derive(Clone, Copy)]
pub struct Given<'a> {
    name: &'a [u8],
    pub entries: [u32; ENTRIES],
    pub n: usize,
    ghost within: { n ≤ 8 },
}

impl<'a> Given<'a> {
    // Reads the tables behind the word that a line with tables begins with.
    pub fn read(mut cursor: Cursor<'a>) -> Option<Self> {
        let name = cursor.until(b':')?;
        let mut entries = [0u32; ENTRIES];
        let count = cursor.numbers(&mut entries).len();
        if count % 6 != 0 || !cursor.rest().is_empty() {
            return None;
        }
        let n = count / 6;
        Some(Given { name, entries, n })
    }

    // Takes the name and what parts it from the case. As in a form a # of the name stands for a number.
    pub fn pass_name(&self, cursor: &mut Cursor) -> Option<()> {
        if self.name.is_empty() {
            return Some(());
        }
        let _numbers = cursor.form::<0>(self.name)?;
        cursor.words(b", ")
    }

    // Makes the changes that stand next.
    pub fn change(&mut self, cursor: &mut Cursor) {
        for _ in 0..MOST_CHANGES {
            if self.change_entry(cursor).is_none() {
                return;
            }
        }
    }

    // Makes the change that stands next, and takes it and what parts it from what follows.
    fn change_entry(&mut self, cursor: &mut Cursor) -> Option<()> {
        let mut after = *cursor;
        let table = table_named(&mut after)?;
        let [v, entry] = after.form::<2>(b"(#)=#")?;
        if after.words(b" and ").is_none() {
            after.words(b", ")?;
        }
        self.set(table, v as usize, entry)?;
        *cursor = after;
        Some(())
    }

    // Sets the entry of vertex v in a table, where there is one.
    fn set(&mut self, table: usize, v: usize, entry: u32) -> Option<()>
        requires { table < 6 }
    {
        if self.n <= v {
            return None;
        }
        let at = table * self.n + v;
        *self.entries.get_mut(at)? = entry;
        Some(())
    }
}

// Takes the name of a table, and returns which it is of parent, depth, head, id, order and size.
fn table_named(cursor: &mut Cursor) -> Option<usize>
    ensures { IfSome result (λ table. table < 6) }
{
    let names: [&[u8]; 6] = [b"parent", b"depth", b"head", b"id", b"order", b"size"];
    for (table, name) in names.iter().enumerate() {
        if cursor.words(name).is_some() {
            return Some(table);
        }
    }
    None
}
