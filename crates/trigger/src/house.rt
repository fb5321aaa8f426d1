// The house's two books, what the lines make of them, and the tickets that it holds.
use crate::answering::{Answer, Granted, Head, Shown, print_answer, print_slips, print_unreadable};
use crate::line::{BookName, Line, OrderLine, OrderName, PlaceLine};
use crate::making::{Made, condition_of};
use crate::settings::Settings;
use crate::slip_desk::{Call, SlipDesk};
use crate::unreadable::Unreadable;
use book::row::Row;
use book::ticket::Ticket;
use conditions::layer::pile::Pile;
use kinds::book_kinds::{Repeating, SingleShot};
use rules::quote::Quote;
use std::alloc::{AllocError, Global};
use std::collections::VecDeque;
use std::io;

// A burst that is being read.
#[derive(Drop)]
struct Gathering {
    quotes: Vec<Quote>,
    // how many of its lines are still to come
    coming: u32,
}

impl Gathering {
    // Takes one of the burst's lines.
    fn gather(
        &mut self,
        rt: &HostRuntime,
        number: u64,
        read: Result<Line, Unreadable>,
    ) -> io::Result<()> {
        match read {
            Ok(Line::Quote(quote)) => self.quotes.push(quote)?,
            Ok(_) => print_unreadable(rt, number, Unreadable::NotQuote)?,
            Err(reason) => print_unreadable(rt, number, reason)?,
        }
        self.coming = self.coming.saturating_sub(1);
        Ok(())
    }
}

// It names the two books' conditions, since its lines are made into just these.
// It cannot be let go: `close` settles the tickets that it still holds.
pub(crate) struct House<'a> {
    single: SlipDesk<'a, Pile<SingleShot>>,
    grid: SlipDesk<'a, Pile<Repeating>>,
    // slip places for each call of each book
    places: usize,
    // how many slips were printed
    printed: u64,
    // kept from line to line: if a burst pulled its own lines, the loop over the lines would need a proof that it still ends
    gathering: Option<Gathering>,
    // the oldest first
    tickets: VecDeque<Ticket>,
}

impl<'a> House<'a> {
    pub(crate) fn new(
        heap: Global,
        single: &'a mut [Row<Pile<SingleShot>>],
        grid: &'a mut [Row<Pile<Repeating>>],
        settings: Settings,
    ) -> House<'a> {
        House {
            single: SlipDesk::new(heap, single, BookName::Single, settings.limit),
            grid: SlipDesk::new(heap, grid, BookName::Grid, settings.limit),
            places: settings.places,
            printed: 0,
            gathering: None,
            tickets: VecDeque::new(heap),
        }
    }

    // Makes a call of both books, and prints their answers and then their slips.
    fn call_both(&mut self, rt: &HostRuntime, head: Head, call: Call) -> io::Result<()> {
        let single = self.single.hear(call, self.places)?;
        let grid = self.grid.hear(call, self.places)?;
        println!(rt;
            "{head}: single {}, grid {}",
            Shown(single.answer),
            Shown(grid.answer)
        )?;
        print_slips(rt, BookName::Single, single.slips)?;
        print_slips(rt, BookName::Grid, grid.slips)?;
        self.printed = self
            .printed
            .saturating_add(single.slips.len() as u64)
            .saturating_add(grid.slips.len() as u64);
        Ok(())
    }

    fn place(&mut self, line: &PlaceLine) -> Answer {
        match condition_of(line)? {
            Made::Single(condition) => self.single.place(line.terms, condition),
            Made::Repeating(condition) => self.grid.place(line.terms, condition),
        }
    }

    fn ask(&mut self, line: &OrderLine) -> Result<Answer, AllocError> {
        match line.order.book {
            BookName::Single => self.single.ask(&mut self.tickets, line),
            BookName::Grid => self.grid.ask(&mut self.tickets, line),
        }
    }

    fn burst(&mut self, rt: &HostRuntime, quotes: &[Quote]) -> io::Result<()> {
        self.call_both(rt, Head::Word("burst"), Call::Burst(quotes))
    }

    // Goes on with a burst: makes it after the last of its lines, and until then keeps it.
    fn go_on(&mut self, rt: &HostRuntime, gathering: Gathering) -> io::Result<()> {
        if gathering.coming == 0 {
            return self.burst(rt, gathering.quotes.as_slice());
        }
        self.gathering = Some(gathering);
        Ok(())
    }

    fn answer(&mut self, rt: &HostRuntime, number: u64, line: &Line) -> io::Result<()> {
        match line {
            Line::Limit(_) | Line::Rows(_) => print_unreadable(rt, number, Unreadable::TooLate),
            Line::Places(places) => {
                self.places = *places as usize;
                print_answer(rt, Head::Word("places"), Ok(Granted::Done))
            }
            Line::List { share, closes } => self.call_both(
                rt,
                Head::Share("list", *share),
                Call::List(*share, closes.as_slice()),
            ),
            Line::Day(day) => self.call_both(rt, Head::Day(day.share, day.number), Call::Day(*day)),
            Line::Place(place) => {
                let answer = self.place(place);
                print_answer(rt, Head::Place(place.order()), answer)
            }
            Line::Quote(quote) => self.call_both(
                rt,
                Head::Share("quote", quote.share),
                Call::Quote(*quote),
            ),
            Line::Burst(lines) => self.go_on(
                rt,
                Gathering {
                    quotes: Vec::new(rt.alloc()),
                    coming: *lines,
                },
            ),
            Line::Order(asked) => {
                let answer = self.ask(asked)?;
                print_answer(rt, Head::Order(*asked), answer)
            }
        }
    }

    // Takes a line that has words.
    pub(crate) fn take(
        &mut self,
        rt: &HostRuntime,
        number: u64,
        read: Result<Line, Unreadable>,
    ) -> io::Result<()> {
        if let Some(mut gathering) = self.gathering.take() {
            gathering.gather(rt, number, read)?;
            return self.go_on(rt, gathering);
        }
        match read {
            Ok(line) => self.answer(rt, number, &line),
            Err(reason) => print_unreadable(rt, number, reason),
        }
    }

    // Makes the burst that the end of the input cut short, if there is one.
    pub(crate) fn end_burst(&mut self, rt: &HostRuntime) -> io::Result<()> {
        match self.gathering.take() {
            Some(gathering) => self.burst(rt, gathering.quotes.as_slice()),
            None => Ok(()),
        }
    }

    // Settles each ticket still held with nothing filled, the oldest first. What follows is printed only if all went well before.
    pub(crate) fn close(self, rt: &HostRuntime, before: io::Result<()>) -> io::Result<()> {
        let House {
            mut single,
            mut grid,
            places: _,
            printed,
            gathering: _,
            mut tickets,
        } = self;
        let mut done = before;
        while let Some(ticket) = tickets.pop_front() {
            let order = OrderName::of(&ticket);
            let answer = match order.book {
                BookName::Single => single.give_up(ticket),
                BookName::Grid => grid.give_up(ticket),
            };
            done = done.and_then(|()| print_answer(rt, Head::End(order), answer));
        }
        tickets.destroy_empty();
        done?;
        println!(rt; "slips {printed}")
    }
}
