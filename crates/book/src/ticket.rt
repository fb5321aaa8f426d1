ghost use Rattle.std.specs.Prelude.{◌≡◌, true, false};

// The right to settle the order that a claim names, unless it is void. It may be let go only when it is spent: a rule of the
// project, which `drop` asks of the mark `spent`.
pub struct Ticket {
    // its book and number are shown also where it is void
    void: bool,
    book: u32,
    number: u32,
    spent: bool,
}

impl Drop for Ticket {
    fn drop(self)
        requires { self.spent ≡ true }
    {
        let Ticket {
            void: _,
            book: _,
            number: _,
            spent: _,
        } = self;
    }
}

impl Ticket {
    pub(crate) fn new(void: bool, book: u32, number: u32) -> Ticket
        ensures { result ≡ record { void = void; book = book; number = number; spent = false } }
    {
        Ticket {
            void,
            book,
            number,
            spent: false,
        }
    }

    pub(crate) fn spend(&mut self)
        ensures { self.new ≡ record { void = self.old.void; book = self.old.book; number = self.old.number; spent = true } }
    {
        self.spent = true;
    }

    pub fn is_void(&self) -> bool
        ensures { result ≡ self.now.void }
    {
        self.void
    }

    // The number of the book that gave it.
    pub fn book(&self) -> u32
        ensures { result ≡ self.now.book }
    {
        self.book
    }

    // The number of the order that was claimed.
    pub fn number(&self) -> u32
        ensures { result ≡ self.now.number }
    {
        self.number
    }
}
