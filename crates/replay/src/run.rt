// A whole run: a list of requests carried out on a new book and market, and all that was answered.
ghost use Rattle.std.specs.Prelude.{◌≡◌, ◌+◌, ◌<◌, ◌≤◌, List, [], ◌++◌, map, length, vec_len, vec_capacity, MatchResult};
ghost use Rattle.std.specs.VecDeque.{deque_len, deque_capacity};
ghost use Rattle.rules.specs.Calls as call;
ghost use Rattle.rules.specs.declared.slip.Slip.{Slip as Place};
ghost use Rattle.replay.specs.Replaying.{point_of, reply_of, count_of, outcomes, Quiet, Turned, Passed, Replays};
ghost use Rattle.book.specs.Carrying.{desk_of};
ghost use Rattle.book.specs.View.{desk_setup, right_of};
ghost use Rattle.replay.specs.declared.run.Request.TheVariants as ask;
ghost use Rattle.replay.specs.declared.run.Refusal.TheVariants as why;

use book::burst::Burst;
use book::desk::Desk;
use book::row::Row;
use book::ticket::Ticket;
use conditions::condition::Condition;
use rules::fault::{MarketFault, PlacingFault};
use rules::opening::Opening;
use rules::order::Terms;
use rules::quote::Quote;
use rules::slip::Slip;
use rules::state::OrderState;
use std::alloc::{AllocError, Global};
use std::collections::VecDeque;
use values::limit::Limit;
use values::price::Price;

// A call that is asked for. A claim's ticket is held for its settlement.
#[derive(Clone, Copy)]
pub enum Request<'r, C> {
    ListShare { share: u8, closes: &'r [u32] },
    OpenDay(Opening),
    Place { terms: Terms, condition: C },
    TakeQuote(Quote),
    TakeBurst(&'r [Quote]),
    Cancel(u32),
    Claim(u32),
    // spends the ticket at that place among those held, the oldest first
    Settle { ticket: usize, fill: Option<Price> },
    AskState(u32),
}

// What a request was answered; the slips of all requests stand together.
#[derive(Clone, Copy)]
pub enum Answer {
    Done,
    // how many slips a quote wrote
    Wrote(usize),
    Burst(Burst),
    Ticket { void: bool },
    State(Option<OrderState>),
}

// Why a request was refused.
#[derive(Clone, Copy)]
pub enum Refusal {
    // no ticket is held at that place: no call was made
    NoTicket,
    ByMarket(MarketFault),
    ByBook(PlacingFault),
}

pub type Reply = Result<Answer, Refusal>;

// All that was answered: to each request in turn, and then to the settlements at the end; and how many slips were written.
#[derive(Drop)]
pub struct Replayed {
    pub replies: Vec<Reply>,
    // how many slips were written, into the caller's places
    pub written: usize,
}

// Both by hand: clauses name the fault that `?` makes, and a derived `From` says nothing of it.
impl From<MarketFault> for Refusal {
    ghost from_gives = { λ f r. r ≡ why.ByMarket f };

    fn from(f: MarketFault) -> Refusal {
        Refusal::ByMarket(f)
    }
}

impl From<PlacingFault> for Refusal {
    ghost from_gives = { λ f r. r ≡ why.ByBook f };

    fn from(f: PlacingFault) -> Refusal {
        Refusal::ByBook(f)
    }
}

// How many slips a reply speaks of.
fn count(reply: &Reply) -> usize
    ensures { result ≡ count_of reply.now }
{
    match reply {
        Ok(Answer::Wrote(n)) => *n,
        Ok(Answer::Burst(burst)) => burst.written,
        _ => 0,
    }
}

// A desk at work, with the tickets that are held, the oldest first.
struct Runner<'a, C> {
    desk: Desk<'a, C>,
    held: VecDeque<Ticket>,
}

impl<'a, C: Condition + Copy> Runner<'a, C> {
    // Claims an order, and holds the ticket.
    fn claim(&mut self, number: u32) -> Reply
        requires { deque_len self.old.held < deque_capacity self.old.held }
        ensures { (ps : List Place) → Turned C.Condition.meaning self.old (ask.Claim number) self.new result ps ps }
    {
        let ticket = self.desk.claim(number);
        let void = ticket.is_void();
        self.held.push_back_reserved(ticket);
        Ok(Answer::Ticket { void })
    }

    // Spends the ticket that is held at that place, if there is one.
    fn settle(&mut self, at: usize, fill: Option<Price>) -> Reply
        ensures { (ps : List Place) → Turned C.Condition.meaning self.old (ask.Settle at fill) self.new result ps ps }
    {
        let ticket = self.held.remove(at).ok_or(Refusal::NoTicket)?;
        self.spend(ticket, fill)
    }

    // Spends a ticket that is no longer held.
    fn spend(&mut self, ticket: Ticket, fill: Option<Price>) -> Reply
        ensures held { self.new.held ≡ self.old.held }
        ensures told { Quiet (desk_of C.Condition.meaning self.old.desk) (desk_of C.Condition.meaning self.new.desk) (call.single (call.settling (right_of ticket) fill)) result }
    {
        self.desk.settle(ticket, fill)?;
        Ok(Answer::Done)
    }

    // Carries out one request; a ticket that it gives has a place among those held.
    fn carry_out<'r>(&mut self, request: &Request<'r, C>, slips: &mut [Slip]) -> Reply
        requires { deque_len self.old.held < deque_capacity self.old.held }
        ensures { Turned C.Condition.meaning self.old request.now self.new result slips.old slips.new }
    {
        match request {
            Request::ListShare { share, closes } => {
                self.desk.list(*share, closes)?;
                Ok(Answer::Done)
            }
            Request::OpenDay(opening) => {
                self.desk.open_day(*opening)?;
                Ok(Answer::Done)
            }
            Request::Place { terms, condition } => {
                self.desk.place(*terms, *condition)?;
                Ok(Answer::Done)
            }
            Request::TakeQuote(quote) => Ok(Answer::Wrote(self.desk.quote(*quote, slips)?)),
            Request::TakeBurst(quotes) => Ok(Answer::Burst(self.desk.burst(quotes, slips))),
            Request::Cancel(number) => {
                self.desk.cancel(*number)?;
                Ok(Answer::Done)
            }
            Request::Claim(number) => self.claim(*number),
            Request::Settle { ticket, fill } => self.settle(*ticket, *fill),
            Request::AskState(number) => Ok(Answer::State(self.desk.state(*number))),
        }
    }

    // Carries out the requests in turn, each writing into the places after the slips already there, and answers how many there are.
    fn carry_out_all<'r>(
        &mut self,
        requests: &[Request<'r, C>],
        slips: &mut [Slip],
        replies: &mut Vec<Reply>,
    ) -> usize
        requires tickets { deque_len self.old.held + length requests.now ≤ deque_capacity self.old.held }
        requires answers { vec_len replies.old + length requests.now ≤ vec_capacity replies.old }
        ensures passed { Passed C.Condition.meaning self.old requests.now self.new result replies.old.items replies.new.items slips.old slips.new }
        ensures room { vec_capacity replies.new ≡ vec_capacity replies.old }
        ensures grown { vec_len replies.new ≡ vec_len replies.old + length requests.now }
    {
        // added up here: each request is lent the places after those already written
        let mut written = 0;
        for request in requests {
            let reply = self.carry_out(request, &mut slips[written..]);
            written += count(&reply);
            replies.push_reserved(reply);
        }
        written
    }

    // Settles the tickets that are held with nothing filled, the oldest first.
    fn settle_all(mut self, replies: &mut Vec<Reply>)
        requires { vec_len replies.old + deque_len self.held ≤ vec_capacity replies.old }
        ensures { replies.new.items ≡ replies.old.items ++ map reply_of (outcomes C.Condition.meaning (desk_setup self.entry.desk) (point_of C.Condition.meaning self.entry 0) []) }
    {
        // No `for`: its iterator would drop the tickets that are left, and only a spent ticket may be let go.
        while let Some(ticket) = self.held.pop_front() {
            let reply = self.spend(ticket, None);
            replies.push_reserved(reply);
        }
        let Runner { desk: _, held } = self;
        held.destroy_empty();
    }
}

// Carries out the requests on a new book over the rows, and a new market. The slips fill from the first place on; each request has the
// places that are left. Tickets still held after the last request are settled with nothing filled. It refuses only for want of memory,
// and then before the first request. Each parameter is one that its caller has.
pub fn replay<'r, C: Condition + Copy>(
    heap: Global,
    rows: &mut [Row<C>],
    number: u32,
    limit: Limit,
    requests: &[Request<'r, C>],
    slips: &mut [Slip],
) -> Result<Replayed, AllocError>
    ensures { MatchResult result (λ x. Replays C.Condition.meaning (record { rows = length rows.entry.now; limit = limit.value; book = number }) requests.now x.replies.items x.written slips.old slips.new) (λ _. slips.new ≡ slips.old) }
{
    // a reply for each request, and one for each ticket that may then still be held
    let n = requests.len();
    let room = n.checked_add(n).ok_or(AllocError)?;
    let mut replies = Vec::with_capacity(heap, room)?;
    let held = VecDeque::with_capacity(heap, n)?;
    let mut runner = Runner {
        desk: Desk::new(rows, number, limit),
        held,
    };
    let written = runner.carry_out_all(requests, slips, &mut replies);
    runner.settle_all(&mut replies);
    Ok(Replayed { replies, written })
}
