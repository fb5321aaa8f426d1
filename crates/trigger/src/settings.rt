// What is set before the first call: the books' limit, and how many rows and slip places each book is provided with.
use crate::answering::{Answer, Granted, Head, Refusal};
use crate::line::{Ask, Line};
use crate::making::condition_of;
use book::book::GREATEST_ROWS;
use values::limit::Limit;

#[derive(Clone, Copy)]
pub(crate) struct Settings {
    pub(crate) limit: Limit,
    pub(crate) rows: usize,
    pub(crate) places: usize,
}

impl Settings {
    // A limit of 2.00%, and room for a full book.
    pub(crate) fn new() -> Settings {
        Settings {
            limit: Limit::new(200).unwrap(),
            rows: GREATEST_ROWS,
            places: GREATEST_ROWS,
        }
    }

    fn set_limit(&mut self, value: u32) -> Answer {
        self.limit = Limit::new(value)?;
        Ok(Granted::Done)
    }

    // What is printed for a line that makes no call; none where it makes one.
    pub(crate) fn answer(&mut self, line: &Line) -> Option<(Head, Answer)> {
        match line {
            Line::Limit(value) => Some((Head::Word("limit"), self.set_limit(*value))),
            Line::Rows(rows) => {
                self.rows = *rows as usize;
                Some((Head::Word("rows"), Ok(Granted::Done)))
            }
            Line::Places(places) => {
                self.places = *places as usize;
                Some((Head::Word("places"), Ok(Granted::Done)))
            }
            Line::Place(place) => {
                let fault = condition_of(place).err()?;
                Some((Head::Place(place.order()), Err(fault.into())))
            }
            Line::Order(asked) if matches!(asked.ask, Ask::Settle(_)) => Some((
                Head::Order(*asked),
                Err(Refusal::NoTicket),
            )),
            _ => None,
        }
    }
}
