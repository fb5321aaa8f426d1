ghost use Rattle.std.specs.Prelude.{◌≤◌};

use conditions::event::Day;
use rules::quote::Quote;
use values::price::Price;

mod listing;
mod opening;
mod quoting;
mod reading;

// How many of its newest closes a share keeps.
const CLOSES_KEPT: usize = 59;

// What is known of a share that is listed.
#[derive(Clone, Copy)]
struct Listed {
    // the newest closes stand first, the oldest of them at 0; what stands past them is of no use;
    // an array with a count, since a share keeps its closes itself, without a heap
    closes: [Price; CLOSES_KEPT],
    count: usize,
    day: Option<Day>,
    // the latest quote of the day
    latest: Option<Quote>,
    ghost few: { count ≤ 59 },
}

// One share of the market, listed or not.
#[derive(Clone, Copy)]
pub struct Share {
    listed: Option<Listed>,
}
