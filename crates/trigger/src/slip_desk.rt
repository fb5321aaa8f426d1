// One book of the house: its desk, and the places that its slips are written to.
ghost use Rattle.std.specs.Prelude.{◌<◌};
ghost use Rattle.std.specs.Option.{IfSome};
ghost use Rattle.std.specs.VecDeque.{deque_len};

use crate::answering::{Answer, Granted, Refusal};
use crate::line::{Ask, BookName, OrderLine, OrderName};
use book::book::GREATEST_ROWS;
use book::desk::Desk;
use book::row::Row;
use book::ticket::Ticket;
use conditions::condition::Condition;
use conditions::event::Side;
use rules::opening::Opening;
use rules::order::Terms;
use rules::quote::Quote;
use rules::slip::{Outcome, Slip};
use std::alloc::{AllocError, Global};
use std::collections::VecDeque;
use values::limit::Limit;
use values::price::Price;
use values::range::PriceRange;

// Rows for a book, as many as are asked for, but none that it would not use.
pub(crate) fn vacant_rows<C: Copy>(
    heap: Global,
    rows: usize,
    condition: C,
) -> Result<Vec<Row<C>>, AllocError> {
    let mut table = Vec::new(heap);
    table.resize(GREATEST_ROWS.min(rows), Row::vacant(condition))?;
    Ok(table)
}

fn blank_slip() -> Slip {
    let price = PriceRange::whole().low();
    Slip {
        number: 0,
        moment: 0,
        side: Side::Buy,
        trigger: price,
        market: price,
        price: 0,
        quantity: 0,
        outcome: Outcome::Unpriced,
    }
}

// A call that is made of both books. It is named here and made in `hear`: no one closure could serve both desks, which hold
// conditions of different types, and a trait object for the desk would only repeat the calls.
#[derive(Clone, Copy)]
pub(crate) enum Call<'a> {
    List(u8, &'a [u32]),
    Day(Opening),
    Quote(Quote),
    Burst(&'a [Quote]),
}

// What a call is answered with, and the slips that it wrote.
#[derive(Clone, Copy)]
pub(crate) struct Heard<'a> {
    pub(crate) answer: Answer,
    pub(crate) slips: &'a [Slip],
}

fn without_slips<'a>(answer: Answer) -> Heard<'a> {
    Heard { answer, slips: &[] }
}

#[derive(Drop)]
pub(crate) struct SlipDesk<'a, C> {
    desk: Desk<'a, C>,
    // the places, which stay for the next call
    slips: Vec<Slip>,
    // how many orders were placed so far
    orders: usize,
}

impl<'a, C: Condition + Drop> SlipDesk<'a, C> {
    pub(crate) fn new(
        heap: Global,
        rows: &'a mut [Row<C>],
        book: BookName,
        limit: Limit,
    ) -> SlipDesk<'a, C> {
        SlipDesk {
            desk: Desk::new(rows, book.number(), limit),
            slips: Vec::new(heap),
            orders: 0,
        }
    }

    pub(crate) fn place(&mut self, terms: Terms, condition: C) -> Answer {
        self.desk.place(terms, condition)?;
        self.orders = self.orders.saturating_add(1);
        Ok(Granted::Done)
    }

    // Provides the places that are asked for, but none that no order could fill: each writes at most one slip a quote.
    fn provide(&mut self, places: usize, quotes: usize) -> Result<(), AllocError> {
        let most = self.orders.min(GREATEST_ROWS).saturating_mul(quotes);
        self.slips.resize(places.min(most), blank_slip())
    }

    fn list(&mut self, share: u8, closes: &[u32]) -> Answer {
        self.desk.list(share, closes)?;
        Ok(Granted::Done)
    }

    fn open_day(&mut self, opening: Opening) -> Answer {
        self.desk.open_day(opening)?;
        Ok(Granted::Done)
    }

    fn quote(&mut self, quote: Quote) -> Heard<'_> {
        match self.desk.quote(quote, self.slips.as_mut_slice()) {
            Ok(written) => Heard {
                answer: Ok(Granted::Slips(written)),
                slips: &self.slips[..written],
            },
            Err(fault) => without_slips(Err(fault.into())),
        }
    }

    fn burst(&mut self, quotes: &[Quote]) -> Heard<'_> {
        let burst = self.desk.burst(quotes, self.slips.as_mut_slice());
        Heard {
            answer: Ok(Granted::Burst(burst)),
            slips: &self.slips[..burst.written],
        }
    }

    pub(crate) fn hear(&mut self, call: Call, places: usize) -> Result<Heard<'_>, AllocError> {
        match call {
            Call::List(share, closes) => Ok(without_slips(self.list(share, closes))),
            Call::Day(opening) => Ok(without_slips(self.open_day(opening))),
            Call::Quote(quote) => {
                self.provide(places, 1)?;
                Ok(self.quote(quote))
            }
            Call::Burst(quotes) => {
                self.provide(places, quotes.len())?;
                Ok(self.burst(quotes))
            }
        }
    }

    fn cancel(&mut self, number: u32) -> Answer {
        self.desk.cancel(number)?;
        Ok(Granted::Done)
    }

    // Settles a ticket, with the price of what was filled, if anything was.
    fn spend(&mut self, ticket: Ticket, fill: Option<Price>) -> Answer {
        self.desk.settle(ticket, fill)?;
        Ok(Granted::Done)
    }

    // Settles a ticket with nothing filled.
    pub(crate) fn give_up(&mut self, ticket: Ticket) -> Answer {
        self.spend(ticket, None)
    }

    // Claims an order, and holds its ticket. A ticket for which there is no memory is given up.
    fn claim(
        &mut self,
        tickets: &mut VecDeque<Ticket>,
        order: OrderName,
    ) -> Result<Granted, AllocError> {
        let ticket = self.desk.claim(order.number);
        let granted = if ticket.is_void() {
            Granted::VoidTicket
        } else {
            Granted::Ticket
        };
        match tickets.push_back(ticket) {
            Ok(()) => Ok(granted),
            Err(back) => {
                let _ = self.give_up(back.value);
                Err(AllocError)
            }
        }
    }

    // Settles by the oldest ticket for the order.
    fn settle(
        &mut self,
        tickets: &mut VecDeque<Ticket>,
        order: OrderName,
        fill: Option<u32>,
    ) -> Answer {
        let at = oldest(tickets, order).ok_or(Refusal::NoTicket)?;
        let price = fill.map(Price::new).transpose()?;
        let ticket = tickets.remove(at).unwrap();
        self.spend(ticket, price)
    }

    fn state(&self, number: u32) -> Answer {
        Ok(Granted::State(self.desk.state(number)))
    }

    pub(crate) fn ask(
        &mut self,
        tickets: &mut VecDeque<Ticket>,
        line: &OrderLine,
    ) -> Result<Answer, AllocError> {
        let order = line.order;
        match line.ask {
            Ask::Cancel => Ok(self.cancel(order.number)),
            Ask::Claim => self.claim(tickets, order).map(Ok),
            Ask::Settle(fill) => Ok(self.settle(tickets, order, fill)),
            Ask::State => Ok(self.state(order.number)),
        }
    }
}

// The place of the oldest ticket for the order.
fn oldest(tickets: &VecDeque<Ticket>, order: OrderName) -> Option<usize>
    ensures { IfSome result (λ at. at < deque_len tickets.now) }
{
    tickets
        .iter()
        .position(|ticket| OrderName::of(ticket) == order)
}
