ghost use Rattle.std.specs.Prelude.{◌≡◌, false, if◌then◌else◌, Some, None};
ghost use Rattle.conditions.specs.Meaning.{ends};
ghost use Rattle.conditions.specs.declared.event.Answer.TheVariants as answer;
ghost use Rattle.market.specs.View.{market_of};
ghost use Rattle.rules.specs.Book.{standing};
ghost use Rattle.rules.specs.Machine.{follows, sent_with, answered};
ghost use Rattle.rules.specs.Market.{Market as Table, prices_of};
ghost use Rattle.rules.specs.SlipRule.{exceeds};
ghost use Rattle.rules.specs.declared.slip.Outcome.TheVariants as sort;
ghost use Rattle.rules.specs.declared.state.OrderState.TheVariants as state;
ghost use Rattle.book.specs.Turning.{kept, slip_list, ticked_left, ticked_row, dayed_row, settled_row};
ghost use Rattle.book.specs.View.{claimed_in, waiting_in, claimed_state, with_state, with_notes, watches_now, notes_of, row_view};

use crate::slip_rule::{outcome_of, slip_of};
use conditions::condition::Condition;
use conditions::event::{Answer, Day, Event, Fire, Next, Tick};
use market::market::Market;
use rules::order::Terms;
use rules::quote::Levels;
use rules::slip::{Outcome, Slip};
use rules::state::OrderState;
use values::limit::Limit;
use values::price::Price;

// One order of a book. The traded share's prices stand in the market.
#[derive(Clone, Copy, Drop)]
pub struct Row<C> {
    // as they came in: the rules' definitions take just these
    terms: Terms,
    state: OrderState,
    // what was sent, counted where the order allows a total
    sent: u32,
    // the market price of the newest slip
    market: Option<Price>,
    condition: C,
}

// What telling a row led to.
#[derive(Clone, Copy)]
pub(crate) struct Told {
    pub(crate) slip: Option<Slip>,
    pub(crate) stays: bool,
}

// Whether an answer is a condition's last.
fn is_last(answer: Answer) -> bool
    ensures { result ≡ ends answer }
{
    match answer {
        Answer::Wait => false,
        Answer::Fires(fire) => fire.next == Next::Over,
        Answer::Lapses => true,
    }
}

impl<C> Row<C> {
    // An order that is newly placed.
    pub(crate) fn new(terms: Terms, condition: C) -> Row<C>
        ensures { result ≡ record { terms = terms; state = state.Watching; sent = 0; market = None; condition = condition } }
    {
        Row {
            terms,
            state: OrderState::Watching,
            sent: 0,
            market: None,
            condition,
        }
    }

    // A row for a book's table: what stands in it is of no use until an order is placed there.
    pub fn vacant(condition: C) -> Row<C>
        ensures { result.condition ≡ condition }
    {
        Row::new(Terms::default(), condition)
    }

    pub(crate) fn number(&self) -> u32
        ensures { result ≡ self.now.terms.number }
    {
        self.terms.number
    }

    pub(crate) fn state(&self) -> OrderState
        ensures { result ≡ self.now.state }
    {
        self.state
    }

    // Whether a ticket for the order is out.
    pub(crate) fn is_claimed(&self) -> bool
        ensures { result ≡ claimed_in self.now.state }
    {
        matches!(
            self.state,
            OrderState::Claimed | OrderState::EndedUnderClaim
        )
    }

    // Puts an order that waits under a claim, and answers whether it did.
    pub(crate) fn claim(&mut self) -> bool
        ensures claimed { result ≡ waiting_in self.old.state }
        ensures row { self.new ≡ with_state self.old (claimed_state self.old.state) }
    {
        let waits = self.state == OrderState::Waiting;
        if waits {
            self.state = OrderState::Claimed;
        }
        waits
    }

    // Writes down what a slip with this outcome and market price leaves.
    fn note(&mut self, outcome: Outcome, price: Price)
        requires { outcome ≡ sort.Sent → exceeds self.old.terms self.old.sent ≡ false }
        ensures { self.new ≡ with_notes self.old (sent_with self.old.terms outcome self.old.sent) (Some price) }
    {
        if self.terms.total != 0 && outcome == Outcome::Sent {
            self.sent += self.terms.quantity;
        }
        self.market = Some(price);
    }
}

impl<C: Condition> Row<C> {
    pub(crate) fn watches(&self, share: u8) -> bool
        ensures { result ≡ watches_now share self.now }
    {
        self.terms.watched == share && self.state == OrderState::Watching
    }

    // Does what follows a fire of an order that watched, and answers whether the order stays.
    fn follow(&mut self, next: Next, outcome: Outcome, price: Price) -> bool
        requires { self.old.state ≡ state.Watching }
        ensures machine { (mk : Table) → (if result then (row_view C.Condition.meaning mk self.new).machine else None) ≡ follows next outcome (C.Condition.meaning self.old.condition) (notes_of mk self.old) price }
        ensures terms { self.new.terms ≡ self.old.terms }
        ensures unclaimed { claimed_in self.new.state ≡ false }
    {
        match (next, outcome) {
            (Next::Over, _) => false,
            (_, Outcome::Exceeded) => false,
            (Next::GoesOn, _) => true,
            (Next::AwaitsSettlement, Outcome::Sent) => {
                self.state = OrderState::Waiting;
                true
            }
            (Next::AwaitsSettlement, _) => !is_last(self.condition.tell(Event::Settlement(price))),
        }
    }

    // One slip for a fire of an order that watched.
    fn fire(&mut self, fire: Fire, tick: Tick, limit: Limit, prices: Option<Levels>) -> Told
        requires { self.old.state ≡ state.Watching }
        ensures machine { (mk : Table) → prices_of (mk self.old.terms.traded) ≡ prices → (if result.stays then (row_view C.Condition.meaning mk self.new).machine else None) ≡ (answered self.old.terms limit.value (answer.Fires fire) (C.Condition.meaning self.old.condition) (notes_of mk self.old) tick).machine }
        ensures slips { (mk : Table) → prices_of (mk self.old.terms.traded) ≡ prices → slip_list result.slip ≡ (answered self.old.terms limit.value (answer.Fires fire) (C.Condition.meaning self.old.condition) (notes_of mk self.old) tick).slips }
        ensures terms { self.new.terms ≡ self.old.terms }
        ensures unclaimed { claimed_in self.new.state ≡ false }
    {
        let outcome = outcome_of(&self.terms, limit, self.sent, prices, &fire);
        let slip = slip_of(&self.terms, outcome, prices, &fire, &tick);
        self.note(outcome, tick.price);
        let stays = self.follow(fire.next, outcome, tick.price);
        Told {
            slip: Some(slip),
            stays,
        }
    }

    // Tells an order that watches the share a tick. Share, tick and limit come one by one, as the definitions of the turn take them.
    pub(crate) fn tell_tick(&mut self, share: u8, tick: Tick, limit: Limit, market: &Market) -> Told
        ensures row { kept result.stays (row_view C.Condition.meaning (market_of market.now.shares) self.new) ≡ ticked_row share limit.value tick (row_view C.Condition.meaning (market_of market.now.shares) self.old) }
        ensures slips { slip_list result.slip ≡ (ticked_left share limit.value tick (row_view C.Condition.meaning (market_of market.now.shares) self.old)).slips }
    {
        if !self.watches(share) {
            return Told {
                slip: None,
                stays: true,
            };
        }
        match self.condition.tell(Event::Tick(tick)) {
            Answer::Fires(fire) => {
                let prices = market.prices_of(self.terms.traded);
                self.fire(fire, tick, limit, prices)
            }
            answer => Told {
                slip: None,
                stays: !is_last(answer),
            },
        }
    }

    // Tells an order a day of the share that it watches, and answers whether it stays.
    pub(crate) fn tell_day(&mut self, share: u8, day: Day) -> bool
        ensures { (mk : Table) → kept result (row_view C.Condition.meaning mk self.new) ≡ standing (dayed_row share day (row_view C.Condition.meaning mk self.old)) }
    {
        if self.terms.watched != share {
            return true;
        }
        match self.state {
            OrderState::EndedUnderClaim => true,
            OrderState::Claimed => {
                if is_last(self.condition.tell(Event::Day(day))) {
                    self.state = OrderState::EndedUnderClaim;
                }
                true
            }
            _ => !is_last(self.condition.tell(Event::Day(day))),
        }
    }

    // Ends an order's claim, and answers whether the order stays: its condition is told the fill price, or the market price of the newest slip.
    pub(crate) fn settle(&mut self, fill: Option<Price>) -> bool
        ensures { (mk : Table) → kept result (row_view C.Condition.meaning mk self.new) ≡ standing (settled_row fill (row_view C.Condition.meaning mk self.old)) }
    {
        if self.state == OrderState::EndedUnderClaim {
            return false;
        }
        self.state = OrderState::Watching;
        // by match: telling the condition changes the row, which a closure would have to capture
        match fill.or(self.market) {
            Some(price) => !is_last(self.condition.tell(Event::Settlement(price))),
            None => true,
        }
    }
}
