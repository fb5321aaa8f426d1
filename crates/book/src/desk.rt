// A book with a market of its own. Each call extends every run of calls that led to where it began by one step of the book's meaning,
// and the run with it keeps the whole law.
ghost use Rattle.std.specs.Prelude.{◌≡◌, ◌≤◌, false, length, drop};
ghost use Rattle.rules.specs.Book.{new};
ghost use Rattle.rules.specs.Calls as call;
ghost use Rattle.book.specs.Carrying.{desk_of, Carried};
ghost use Rattle.book.specs.View.{desk_view, desk_setup, right_of, day_reply, done_reply, quote_reply, count_in, burst_reply};

use crate::book::Book;
use crate::burst::Burst;
use crate::row::Row;
use crate::ticket::Ticket;
use conditions::condition::Condition;
use market::market::Market;
use rules::fault::{MarketFault, PlacingFault};
use rules::opening::Opening;
use rules::order::Terms;
use rules::quote::Quote;
use rules::slip::Slip;
use rules::state::OrderState;
use values::limit::Limit;
use values::price::Price;

#[derive(Drop)]
pub struct Desk<'a, C> {
    market: Market,
    book: Book<'a, C>,
}

impl<'a, C: Condition> Desk<'a, C> {
    // A new book over the rows, and a new market: where every run begins.
    pub fn new(rows: &'a mut [Row<C>], number: u32, limit: Limit) -> Desk<'a, C>
        ensures begins { desk_view C.Condition.meaning result ≡ new }
        ensures setup { desk_setup result ≡ record { rows = length rows.entry.now; limit = limit.value; book = number } }
    {
        Desk {
            market: Market::new(),
            book: Book::new(rows, number, limit),
        }
    }

    // Lists a share with its closes, the oldest first.
    pub fn list(&mut self, share: u8, closes: &[u32]) -> Result<(), MarketFault>
        ensures carried { Carried (desk_of C.Condition.meaning self.old) (desk_of C.Condition.meaning self.new) (call.single (call.listing share closes.now)) (day_reply result) }
    {
        self.market.list(share, closes)
    }

    // Begins a share's new day: the orders that watch it are told.
    pub fn open_day(&mut self, opening: Opening) -> Result<(), MarketFault>
        ensures carried { Carried (desk_of C.Condition.meaning self.old) (desk_of C.Condition.meaning self.new) (call.single (call.opening opening)) (day_reply result) }
    {
        self.book.open_day(&mut self.market, opening)
    }

    // Takes a quote, writes the slips of the orders that fire from the first place on, and answers their count.
    pub fn quote(&mut self, quote: Quote, slips: &mut [Slip]) -> Result<usize, PlacingFault>
        ensures carried { Carried (desk_of C.Condition.meaning self.old) (desk_of C.Condition.meaning self.new) (call.single (call.quoting quote (length slips.old))) (quote_reply result slips.new) }
        ensures count { count_in result ≤ length slips.old }
        ensures rest { drop (count_in result) slips.new ≡ drop (count_in result) slips.old }
    {
        self.book.quote(&mut self.market, quote, slips)
    }

    // Takes quotes in turn and stops before the first that is refused.
    pub fn burst(&mut self, quotes: &[Quote], slips: &mut [Slip]) -> Burst
        ensures carried { Carried (desk_of C.Condition.meaning self.old) (desk_of C.Condition.meaning self.new) (call.burst quotes.now (length slips.old)) (burst_reply result slips.new) }
        ensures count { result.written ≤ length slips.old }
        ensures rest { drop result.written slips.new ≡ drop result.written slips.old }
    {
        self.book.burst(&mut self.market, quotes, slips)
    }

    // Takes an order out of the book that is not under a claim.
    pub fn cancel(&mut self, number: u32) -> Result<(), PlacingFault>
        ensures carried { Carried (desk_of C.Condition.meaning self.old) (desk_of C.Condition.meaning self.new) (call.single (call.cancelling number)) (done_reply result) }
    {
        self.book.cancel(number)
    }

    // Gives a ticket, void unless the order waits; an order that waits is then claimed.
    pub fn claim(&mut self, number: u32) -> Ticket
        ensures carried { Carried (desk_of C.Condition.meaning self.old) (desk_of C.Condition.meaning self.new) (call.single (call.claiming number)) (call.gives (right_of result)) }
        ensures unspent { result.spent ≡ false }
    {
        self.book.claim(number)
    }

    // Spends a ticket, with the fill price or nothing filled.
    pub fn settle(&mut self, ticket: Ticket, fill: Option<Price>) -> Result<(), PlacingFault>
        ensures carried { Carried (desk_of C.Condition.meaning self.old) (desk_of C.Condition.meaning self.new) (call.single (call.settling (right_of ticket) fill)) (done_reply result) }
    {
        self.book.settle(ticket, fill)
    }

    // How the order of that number stands; none where it is not in the book.
    pub fn state(&self, number: u32) -> Option<OrderState>
        ensures { Carried (desk_of C.Condition.meaning self.now) (desk_of C.Condition.meaning self.now) (call.single (call.asking number)) (call.in_state result) }
    {
        self.book.state(number)
    }
}

impl<'a, C: Condition + Drop> Desk<'a, C> {
    // Places an order with its condition, which is told the watched share's day. A condition that is refused is let go.
    pub fn place(&mut self, terms: Terms, condition: C) -> Result<(), PlacingFault>
        ensures carried { Carried (desk_of C.Condition.meaning self.old) (desk_of C.Condition.meaning self.new) (call.single (call.placing (record { terms = terms; meaning = C.Condition.meaning condition }))) (done_reply result) }
    {
        self.book.place(&self.market, terms, condition)
    }
}
