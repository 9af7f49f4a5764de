// A page: the caller's slice, and how far it is filled. What is put stands behind what stood before, and changes nothing else.
ghost use Rattle.std.specs.Prelude.{◌+◌, ◌≤◌, length, nat_abs};
ghost use Rattle.rules.specs.Text.{decimal};
ghost use Rattle.rules.specs.Statement.{column};
ghost use Rattle.rules.specs.Explanation.{signed_decimal};
ghost use Rattle.printing.specs.Page.{Adds, Opens, HasRoom};

#[derive(Drop)]
pub struct Page<'a> {
    pub out: &'a mut [u8],
    pub at: usize,
}

impl<'a> Page<'a> {
    pub fn new(out: &'a mut [u8]) -> Page<'a>
        ensures { Opens out.entry result }
    {
        Page { out, at: 0 }
    }

    pub(crate) fn text(&mut self, text: &[u8])
        requires { HasRoom self.old (length text.now) }
        ensures { Adds self.old self.new (length text.now) text.now }
    {
        let end = self.at + text.len();
        self.out[self.at..end].copy_from_slice(text);
        self.at = end;
    }

    // The room is for the twenty digits that no number of 64 bits exceeds.
    pub(crate) fn number(&mut self, number: u64)
        requires { HasRoom self.old 20 }
        ensures { Adds self.old self.new 20 (decimal number) }
    {
        self.at += amount::decimal::digits(number);
        amount::decimal::put_digits(self.out, self.at, number);
    }

    // A number whole, `-` first if it is negative.
    pub(crate) fn signed(&mut self, number: i64)
        requires { HasRoom self.old 21 }
        ensures { Adds self.old self.new 21 (signed_decimal number) }
    {
        if number < 0 {
            self.text(b"-");
        }
        self.number(number.unsigned_abs());
    }

    // An amount in 14 columns, into the part of the slice that is its field. It is in range and fits, so writing never refuses it.
    pub(crate) fn column(&mut self, cents: i64)
        requires { HasRoom self.old 14 × (nat_abs cents ≤ 999999999999) }
        ensures { Adds self.old self.new 14 (column cents) }
    {
        let end = self.at + 14;
        let _ = amount::write(cents, &mut self.out[self.at..end]);
        self.at = end;
    }
}
