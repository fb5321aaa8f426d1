ghost use Rattle.std.specs.Prelude.{◌≡◌};
ghost use Rattle.rules.specs.Numbers.{state_number};

// How an order stands in the book.
#[derive(Clone, Copy, PartialEq, Eq, Debug)]
pub enum OrderState {
    Watching = 1,
    // a slip of it was sent and awaits settlement
    Waiting = 2,
    // it waits, and a ticket for its settlement is out
    Claimed = 3,
    // it ended while its ticket was out, and leaves once that is settled
    EndedUnderClaim = 4,
}

impl OrderState {
    // The number by which a state is known, as its definition has it.
    pub fn number(&self) -> u8
        ensures { result ≡ state_number self.now }
    {
        *self as u8
    }
}
