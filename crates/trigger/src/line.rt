// The lines of a day file: what each asks for, in plain numbers. Whether the numbers are good is for the core to say.
ghost use Rattle.std.specs.Prelude.{◌≡◌};
ghost use Rattle.trigger.specs.Reading.{uncommented};

use crate::cutting::cut_at;
use crate::kind::{KindLine, read_kind};
use crate::unreadable::{ReadFault, Unreadable};
use crate::words::{
    Words, read_byte, read_day, read_moment, read_number, read_percent, read_price,
};
use book::ticket::Ticket;
use rules::opening::Opening;
use rules::order::Terms;
use rules::quote::{Levels, Quote};
use std::alloc::Global;
use std::fmt;

// The house keeps single-shot orders apart from grids and batches.
#[derive(Clone, Copy, PartialEq, Eq)]
pub(crate) enum BookName {
    Single = 1,
    Grid = 2,
}

impl BookName {
    pub(crate) fn number(&self) -> u32 {
        *self as u32
    }
}

impl fmt::Display for BookName {
    fn fmt<W: fmt::Write>(&self, f: &mut fmt::Formatter<W>) -> fmt::Result {
        f.write_str(match self {
            BookName::Single => "single",
            BookName::Grid => "grid",
        })
    }
}

// An order is known by its book and its number there.
#[derive(Clone, Copy, PartialEq, Eq)]
pub(crate) struct OrderName {
    pub(crate) book: BookName,
    pub(crate) number: u32,
}

impl OrderName {
    // The order that a ticket is for, which the ticket itself shows: so a ticket is held without its name beside it.
    pub(crate) fn of(ticket: &Ticket) -> OrderName {
        let book = if ticket.book() == BookName::Grid.number() {
            BookName::Grid
        } else {
            BookName::Single
        };
        OrderName {
            book,
            number: ticket.number(),
        }
    }
}

impl fmt::Display for OrderName {
    fn fmt<W: fmt::Write>(&self, f: &mut fmt::Formatter<W>) -> fmt::Result {
        write!(f, "{} {}", self.book, self.number)
    }
}

// What is asked of one order.
#[derive(Clone, Copy)]
pub(crate) enum Ask {
    Cancel,
    Claim,
    // with the price of what was filled, if anything was
    Settle(Option<u32>),
    State,
}

impl fmt::Display for Ask {
    fn fmt<W: fmt::Write>(&self, f: &mut fmt::Formatter<W>) -> fmt::Result {
        f.write_str(match self {
            Ask::Cancel => "cancel",
            Ask::Claim => "claim",
            Ask::Settle(_) => "settle",
            Ask::State => "state",
        })
    }
}

#[derive(Clone, Copy)]
pub(crate) struct OrderLine {
    pub(crate) ask: Ask,
    pub(crate) order: OrderName,
}

// A range as the line says it, in numbers that nothing has checked yet.
#[derive(Clone, Copy)]
pub(crate) struct RangeLine {
    pub(crate) low: u32,
    pub(crate) high: u32,
    // whether the switch is on
    pub(crate) switch: bool,
}

#[derive(Clone, Copy)]
pub(crate) struct PlaceLine {
    pub(crate) terms: Terms,
    pub(crate) until: Option<u16>,
    pub(crate) range: Option<RangeLine>,
    pub(crate) kind: KindLine,
}

impl PlaceLine {
    pub(crate) fn order(&self) -> OrderName {
        OrderName {
            book: self.kind.book(),
            number: self.terms.number,
        }
    }
}

// What a line asks for.
#[derive(Drop)]
pub(crate) enum Line {
    // in hundredths of a percent
    Limit(u32),
    Rows(u32),
    Places(u32),
    List { share: u8, closes: Vec<u32> },
    Day(Opening),
    Place(PlaceLine),
    Quote(Quote),
    Burst(u32),
    Order(OrderLine),
}

fn read_list(heap: Global, words: &mut Words) -> Result<Line, ReadFault> {
    let share = words.field("share", read_byte)?;
    let mut closes = Vec::new(heap);
    for word in &mut words.left {
        let close = read_price(word).map_err(|fault| Unreadable::Field("close", fault))?;
        closes.push(close)?;
    }
    Ok(Line::List { share, closes })
}

fn read_opening(words: &mut Words) -> Result<Opening, Unreadable> {
    Ok(Opening {
        share: words.field("share", read_byte)?,
        number: words.field("day", read_day)?,
        close: words.field("close", read_price)?,
        upper: words.field("upper", read_price)?,
        lower: words.field("lower", read_price)?,
    })
}

fn read_range(words: &mut Words) -> Result<RangeLine, Unreadable> {
    Ok(RangeLine {
        low: words.field("low", read_price)?,
        high: words.field("high", read_price)?,
        switch: words.either("switch", ("on", true), ("off", false))?,
    })
}

// The terms, but for the limit's mark: that is the kind's to say, which comes later on the line.
fn read_terms(words: &mut Words) -> Result<Terms, Unreadable> {
    Ok(Terms {
        number: words.field("number", read_number)?,
        watched: words.field("watched", read_byte)?,
        traded: words.field("traded", read_byte)?,
        quantity: words.field("quantity", read_number)?,
        total: words.field("total", read_number)?,
        choice: words.field("choice", read_byte)?,
        own_price: words.field("own", read_price)?,
        limit_mark: false,
    })
}

fn read_place(words: &mut Words) -> Result<PlaceLine, Unreadable> {
    let terms = read_terms(words)?;
    let until = words
        .takes("until")
        .then(|| words.field("until", read_day))
        .transpose()?;
    let range = words.takes("range").then(|| read_range(words)).transpose()?;
    let kind = read_kind(words)?;
    Ok(PlaceLine {
        terms: Terms {
            limit_mark: kind.order_kind().limit_mark(),
            ..terms
        },
        until,
        range,
        kind,
    })
}

// The five levels of one side.
fn read_levels(words: &mut Words, field: &'static str) -> Result<[u32; 5], Unreadable> {
    let mut levels = [0; 5];
    for level in levels.iter_mut() {
        *level = words.field(field, read_price)?;
    }
    Ok(levels)
}

fn read_quote(words: &mut Words) -> Result<Quote, Unreadable> {
    Ok(Quote {
        share: words.field("share", read_byte)?,
        phase: words.field("phase", read_byte)?,
        moment: words.field("moment", read_moment)?,
        levels: Levels {
            last: words.field("last", read_price)?,
            bids: read_levels(words, "bid")?,
            asks: read_levels(words, "ask")?,
        },
    })
}

fn read_book(words: &mut Words) -> Result<BookName, Unreadable> {
    words.either(
        "book",
        ("single", BookName::Single),
        ("grid", BookName::Grid),
    )
}

fn read_name(words: &mut Words) -> Result<OrderName, Unreadable> {
    Ok(OrderName {
        book: read_book(words)?,
        number: words.field("number", read_number)?,
    })
}

fn read_order(words: &mut Words, ask: Ask) -> Result<Line, Unreadable> {
    let order = read_name(words)?;
    Ok(Line::Order(OrderLine { ask, order }))
}

fn read_fill(words: &mut Words) -> Result<Option<u32>, Unreadable> {
    if words.takes("none") {
        return Ok(None);
    }
    words.field("price", read_price).map(Some)
}

fn read_settle(words: &mut Words) -> Result<Line, Unreadable> {
    let order = read_name(words)?;
    let ask = Ask::Settle(read_fill(words)?);
    Ok(Line::Order(OrderLine { ask, order }))
}

// The line that begins with the word, from the words after it: all lines but `list`, which alone wants memory.
fn read_form(first: &str, words: &mut Words) -> Result<Line, Unreadable> {
    match first {
        "limit" => words.field("limit", read_percent).map(Line::Limit),
        "rows" => words.field("rows", read_number).map(Line::Rows),
        "places" => words.field("places", read_number).map(Line::Places),
        "day" => read_opening(words).map(Line::Day),
        "place" => read_place(words).map(Line::Place),
        "quote" => read_quote(words).map(Line::Quote),
        "burst" => words.field("burst", read_number).map(Line::Burst),
        "cancel" => read_order(words, Ask::Cancel),
        "claim" => read_order(words, Ask::Claim),
        "settle" => read_settle(words),
        "state" => read_order(words, Ask::State),
        _ => Err(Unreadable::UnknownWord),
    }
}

// What stands before the comment, if there is one.
fn without_comment(text: &str) -> &str
    ensures { result.now ≡ uncommented text.now }
{
    cut_at(text, '#').map_or(text, |(before, _)| before)
}

// What a line asks for: nothing where it has no word.
pub(crate) fn read_line(heap: Global, text: &str) -> Result<Option<Line>, ReadFault> {
    let mut words = Words::new(without_comment(text));
    let Some(first) = words.left.next() else {
        return Ok(None);
    };
    if first == "list" {
        // it takes all words, so none is left; to look for one more would go over the blanks at the line's end again
        return read_list(heap, &mut words).map(Some);
    }
    let line = read_form(first, &mut words)?;
    words.end()?;
    Ok(Some(line))
}
