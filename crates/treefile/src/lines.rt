// The lines of a report.
ghost use Rattle.treefile.specs.Report.{bad_report, number_text, built_text, tree_line};
ghost use Rattle.treefile.specs.Flat.{listed_text, ListRoom, query_head};
ghost use Rattle.treefile.specs.Writing.{Room, Prints};

use crate::page::Page;
use answers::answer::{Answer, Listed};

impl<'a> Page<'a> {
    // A query's code, and its number where it has one.
    pub fn put_answer(&mut self, answer: Answer)
        requires { Room (number_text answer) self.old }
        ensures { Prints (number_text answer) self.old self.new }
    {
        match answer {
            Ok(x) => self.put_fields(0, x),
            Err(refusal) => self.put_decimal(refusal.code() as usize),
        }
    }

    // A query's code, and its ranges from the flat list.
    #[tactic(auto, using(crate::proofs::Writing::room_then))]
    pub fn put_list(&mut self, answer: Listed, flat: &[u32])
        requires { ListRoom answer flat.now self.old }
        ensures { Prints (listed_text answer flat.now) self.old self.new }
    {
        match answer {
            Ok(count) => {
                self.put_decimal(0);
                self.put_ranges(flat, count);
            }
            Err(refusal) => self.put_decimal(refusal.code() as usize),
        }
    }

    // The code of a build, and for code 0 the number of vertices and the root of its tree.
    fn put_built(&mut self, code: u32, n: usize, root: usize)
        requires { Room (built_text code n root) self.old }
        ensures { Prints (built_text code n root) self.old self.new }
    {
        if code != 0 {
            self.put_decimal(code as usize);
            return;
        }
        self.put_decimal(0);
        self.put_next(n);
        self.put_next(root);
    }

    // The line of a tree: its code, whatever it is, and for code 0 its number of vertices and its root.
    pub fn put_tree_line(&mut self, code: u32, n: usize, root: usize)
        requires { Room (tree_line code n root) self.old }
        ensures { Prints (tree_line code n root) self.old self.new }
    {
        self.put_bytes(b"tree ");
        self.put_built(code, n, root);
        self.put_byte(b'\n');
    }

    // A query's place and kind, up to its code.
    pub fn put_query_head(&mut self, place: usize, kind: usize)
        requires { Room (query_head place kind) self.old }
        ensures { Prints (query_head place kind) self.old self.new }
    {
        self.put_decimal(place);
        self.put_next(kind);
        self.put_byte(b' ');
    }

    // The report of a bad file.
    pub fn put_bad_file(&mut self)
        requires { Room bad_report self.old }
        ensures { Prints bad_report self.old self.new }
    {
        self.put_bytes(b"file 11\n");
    }
}
