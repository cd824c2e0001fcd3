// Bytes and decimal numbers, put one behind the other into lent bytes.
ghost use Rattle.std.specs.Prelude.{[], ◌∷◌, ◌++◌, ◌≡◌};
ghost use Rattle.treefile.specs.Report.{decimal, space, fields};
ghost use Rattle.treefile.specs.Writing.{Room, Prints};

// Lent bytes, and the place of the next one that is put.
#[derive(Drop)]
pub struct Page<'a> {
    pub out: &'a mut [u8],
    pub at: usize,
}

impl<'a> Page<'a> {
    // One byte.
    pub fn put_byte(&mut self, byte: u8)
        requires { Room (byte ∷ []) self.old }
        ensures { Prints (byte ∷ []) self.old self.new }
    {
        self.out[self.at] = byte;
        self.at += 1;
    }

    // A number in decimal: its tenth first, and then its last digit.
    pub fn put_decimal(&mut self, x: usize)
        requires { Room (decimal x) self.old }
        ensures { Prints (decimal x) self.old self.new }
    {
        if x < 10 {
            self.put_byte((48 + x) as u8);
            return;
        }
        self.put_decimal(x / 10);
        self.put_byte((48 + x % 10) as u8);
    }

    // A space, and a number behind it.
    pub fn put_next(&mut self, x: usize)
        requires { Room (space ++ decimal x) self.old }
        ensures { Prints (space ++ decimal x) self.old self.new }
    {
        self.put_byte(b' ');
        self.put_decimal(x);
    }

    // Two numbers with a space between them.
    pub fn put_fields(&mut self, code: usize, x: usize)
        requires { Room (fields (code ∷ x ∷ [])) self.old }
        ensures { Prints (fields (code ∷ x ∷ [])) self.old self.new }
    {
        self.put_decimal(code);
        self.put_next(x);
    }

    // All bytes of a text.
    pub fn put_bytes(&mut self, text: &[u8])
        requires { Room text.now self.old }
        ensures { Prints text.now self.old self.new }
    {
        let end = self.at + text.len();
        self.out[self.at..end].copy_from_slice(text);
        self.at = end;
    }
}
