// Calls that name one order by its number.
ghost use Rattle.std.specs.Prelude.{◌≡◌, ◌+◌, ◌<◌, false, ◌++◌, take, drop};
ghost use Rattle.rules.specs.Book.{step};
ghost use Rattle.rules.specs.Calls.{gives, in_state, cancelling, claiming, settling, asking, single};
ghost use Rattle.rules.specs.Market.{Market as Table};
ghost use Rattle.book.specs.View.{view, setup_of, orders_of, Steps, right_of, done_reply};

use crate::book::Book;
use crate::ticket::Ticket;
use conditions::condition::Condition;
use rules::fault::PlacingFault;
use rules::state::OrderState;
use values::price::Price;

impl<'a, C: Condition> Book<'a, C> {
    // How the order of that number stands; none where it is not in the book.
    pub fn state(&self, number: u32) -> Option<OrderState>
        ensures { (mk : Table) → (view C.Condition.meaning mk self.now, in_state result) ≡ step (setup_of self.now) (view C.Condition.meaning mk self.now) (single (asking number)) }
    {
        let at = self.place_of(number)?;
        Some(self.orders()[at].state())
    }

    // Takes an order out of the book that is not under a claim.
    pub fn cancel(&mut self, number: u32) -> Result<(), PlacingFault>
        ensures { (mk : Table) → Steps C.Condition.meaning mk mk self.old self.new (single (cancelling number)) (done_reply result) }
    {
        let at = self.place_of(number).ok_or(PlacingFault::NoOrder)?;
        if self.orders()[at].is_claimed() {
            return Err(PlacingFault::UnderClaim);
        }
        self.lift(at);
        Ok(())
    }

    // Gives a ticket, void unless the order waits; an order that waits is then claimed.
    pub fn claim(&mut self, number: u32) -> Ticket
        ensures step { (mk : Table) → Steps C.Condition.meaning mk mk self.old self.new (single (claiming number)) (gives (right_of result)) }
        ensures unspent { result.spent ≡ false }
    {
        let Some(at) = self.place_of(number) else {
            return Ticket::new(true, self.number, number);
        };
        // lent whole: the book's invariant is of these rows
        let rows = &mut *self.rows;
        let claimed = rows[at].claim();
        Ticket::new(!claimed, self.number, number)
    }

    // Spends a ticket, also where it is refused. A claimed order's condition is told the fill price, or the market price of its
    // newest slip, and watches again; one that ended under the claim leaves.
    pub fn settle(&mut self, mut ticket: Ticket, fill: Option<Price>) -> Result<(), PlacingFault>
        ensures { (mk : Table) → Steps C.Condition.meaning mk mk self.old self.new (single (settling (right_of ticket) fill)) (done_reply result) }
    {
        ticket.spend();
        if ticket.is_void() {
            return Err(PlacingFault::VoidTicket);
        }
        if ticket.book() != self.number {
            return Err(PlacingFault::WrongTicket);
        }
        self.settle_order(ticket.number(), fill)
    }

    // Ends the claim of the order of that number.
    fn settle_order(&mut self, number: u32, fill: Option<Price>) -> Result<(), PlacingFault>
        ensures { (mk : Table) → Steps C.Condition.meaning mk mk self.old self.new (single (settling (record { void = false; book = self.old.number; number = number }) fill)) (done_reply result) }
    {
        let at = self.place_of(number).ok_or(PlacingFault::WrongTicket)?;
        if !self.orders()[at].is_claimed() {
            return Err(PlacingFault::WrongTicket);
        }
        // as in `claim`
        let rows = &mut *self.rows;
        if !rows[at].settle(fill) {
            self.lift(at);
        }
        Ok(())
    }

    // Takes the order at a place out of the book: those after it move up.
    fn lift(&mut self, at: usize)
        requires { at < self.old.count }
        ensures orders { orders_of self.new ≡ take at (orders_of self.old) ++ drop (at + 1) (orders_of self.old) }
        ensures setup { setup_of self.new ≡ setup_of self.old }
    {
        self.rows[at..self.count].rotate_left(1);
        self.count -= 1;
    }
}
