// What is printed: the answers to the lines, and the slips.
use crate::line::{BookName, OrderLine, OrderName};
use crate::unreadable::Unreadable;
use book::burst::Burst;
use conditions::event::Side;
use rules::fault::{MarketFault, PlacingFault};
use rules::slip::{Outcome, Slip};
use rules::state::OrderState;
use std::{fmt, io};
use thiserror::Error;
use values::decimal::Yuan;
use values::fault::MakingFault;

// What an answer is to.
#[derive(Clone, Copy)]
pub(crate) enum Head {
    Word(&'static str),
    Share(&'static str, u8),
    Day(u8, u16),
    Place(OrderName),
    Order(OrderLine),
    // a ticket that is settled at the end
    End(OrderName),
}

impl fmt::Display for Head {
    fn fmt<W: fmt::Write>(&self, f: &mut fmt::Formatter<W>) -> fmt::Result {
        match self {
            Head::Word(word) => f.write_str(word),
            Head::Share(word, share) => write!(f, "{word} {share}"),
            Head::Day(share, number) => write!(f, "day {share} {number}"),
            Head::Place(order) => write!(f, "place {order}"),
            Head::Order(line) => write!(f, "{} {}", line.ask, line.order),
            Head::End(order) => write!(f, "end: settle {order}"),
        }
    }
}

// What a line is answered with where nothing refuses it.
#[derive(Clone, Copy)]
pub(crate) enum Granted {
    Done,
    // how many slips a quote wrote
    Slips(usize),
    Burst(Burst),
    Ticket,
    VoidTicket,
    // nothing where the order is not in the book
    State(Option<OrderState>),
}

impl fmt::Display for Granted {
    fn fmt<W: fmt::Write>(&self, f: &mut fmt::Formatter<W>) -> fmt::Result {
        match self {
            Granted::Done => f.write_str("ok"),
            Granted::Slips(count) => write!(f, "{count}"),
            Granted::Burst(burst) => write!(
                f,
                "taken {} slips {} stop {}",
                burst.taken,
                burst.written,
                burst.stop.map_or(0, |fault| fault.number())
            ),
            Granted::Ticket => f.write_str("ticket"),
            Granted::VoidTicket => f.write_str("void"),
            Granted::State(state) => write!(f, "{}", state.map_or(0, |state| state.number())),
        }
    }
}

// Why a line is refused.
#[derive(Clone, Copy, Debug, Error)]
pub(crate) enum Refusal {
    // a value could not be made, and so no call was
    #[error("refused {}: {}", .0.number(), .0)]
    Making(#[from] MakingFault),
    #[error("refused {}: {}", .0.number(), .0)]
    Market(#[from] MarketFault),
    #[error("refused {}: {}", .0.number(), .0)]
    Placing(#[from] PlacingFault),
    #[error("no ticket")]
    NoTicket,
}

// What a line is answered with. The crate `replay` has an Answer and a Refusal of its own, which stand under its theorem; these are
// what is printed.
pub(crate) type Answer = Result<Granted, Refusal>;

// An answer as it is printed.
#[derive(Clone, Copy)]
pub(crate) struct Shown(pub(crate) Answer);

impl fmt::Display for Shown {
    fn fmt<W: fmt::Write>(&self, f: &mut fmt::Formatter<W>) -> fmt::Result {
        match &self.0 {
            Ok(granted) => write!(f, "{granted}"),
            Err(refusal) => write!(f, "{refusal}"),
        }
    }
}

pub(crate) fn print_answer(rt: &HostRuntime, head: Head, answer: Answer) -> io::Result<()> {
    let answer = Shown(answer);
    println!(rt; "{head}: {answer}")
}

pub(crate) fn print_unreadable(
    rt: &HostRuntime,
    number: u64,
    reason: Unreadable,
) -> io::Result<()> {
    println!(rt; "line {number}: unreadable: {reason}")
}

// The words of a side and of an outcome. They are functions, since a Display for a type of another crate cannot stand here.
fn side_word(side: Side) -> &'static str {
    match side {
        Side::Buy => "buy",
        Side::Sell => "sell",
    }
}

fn outcome_word(outcome: Outcome) -> &'static str {
    match outcome {
        Outcome::Sent => "sent",
        Outcome::Withheld => "withheld",
        Outcome::Unpriced => "unpriced",
        Outcome::Exceeded => "exceeded",
    }
}

fn print_slip(rt: &HostRuntime, book: BookName, slip: &Slip) -> io::Result<()> {
    println!(rt;
        "slip {book} {} at {} {} trigger {} market {} price {} quantity {} {}",
        slip.number,
        slip.moment,
        side_word(slip.side),
        slip.trigger,
        slip.market,
        Yuan(slip.price),
        slip.quantity,
        outcome_word(slip.outcome)
    )
}

pub(crate) fn print_slips(rt: &HostRuntime, book: BookName, slips: &[Slip]) -> io::Result<()> {
    for slip in slips {
        print_slip(rt, book, slip)?;
    }
    Ok(())
}
