// The rows of a book, in order of placing.
ghost use Rattle.std.specs.Prelude.{◌≡◌, ◌+◌, ◌<◌, ◌≤◌, [], ◌++◌, length, take, drop, if◌then◌else◌, count_by};
ghost use Rattle.market.specs.View.{market_of};
ghost use Rattle.rules.specs.Book.{watches_share};
ghost use Rattle.rules.specs.Market.{Market as Table};
ghost use Rattle.book.specs.Turning.{slip_list, ticked_rows, ticked_slips, dayed_rows};
ghost use Rattle.book.specs.View.{rows_view};

use crate::row::Row;
use conditions::condition::Condition;
use conditions::event::{Day, Tick};
use market::market::Market;
use rules::slip::Slip;
use values::limit::Limit;

// What a tick led to: how many rows stay, and how many slips were written. Counts, since rows and places are the caller's.
#[derive(Clone, Copy)]
pub(crate) struct Quoted {
    pub(crate) stay: usize,
    pub(crate) written: usize,
}

// Writes the slip, if there is one, at the place `at`, and answers the next free place.
fn write(slips: &mut [Slip], at: usize, slip: Option<Slip>) -> usize
    requires { at + length (slip_list slip) ≤ length slips.old }
    ensures next { result ≡ at + length (slip_list slip) }
    ensures written { take result slips.new ≡ take at slips.old ++ slip_list slip }
    ensures rest { drop result slips.new ≡ drop result slips.old }
{
    match slip {
        Some(s) => {
            slips[at] = s;
            at + 1
        }
        None => at,
    }
}

// Moves the row at `i` up to `at`, if it stays, and answers the next free row.
fn keep<C>(rows: &mut [Row<C>], at: usize, i: usize, stays: bool) -> usize
    requires behind { at ≤ i }
    requires within { i < length rows.old }
    ensures next { result ≡ at + (if stays then 1 else 0) }
    ensures front { take result rows.new ≡ take at rows.old ++ (if stays then take 1 (drop i rows.old) else []) }
    ensures rest { drop (i + 1) rows.new ≡ drop (i + 1) rows.old }
{
    if stays {
        rows.swap(at, i);
        at + 1
    } else {
        at
    }
}

// Tells the orders that watch the share a tick, in order of placing: the slips fill from the first place, and rows move up where an order leaves.
// Share, tick and limit come one by one, as in the rows' `tell_tick`.
pub(crate) fn tell_tick<C: Condition>(
    rows: &mut [Row<C>],
    share: u8,
    tick: Tick,
    limit: Limit,
    market: &Market,
    slips: &mut [Slip],
) -> Quoted
    requires { count_by (watches_share share) (rows_view C.Condition.meaning (market_of market.now.shares) rows.old) ≤ length slips.old }
    ensures within { result.stay ≤ length rows.old }
    ensures table { rows_view C.Condition.meaning (market_of market.now.shares) (take result.stay rows.new) ≡ ticked_rows share limit.value tick (rows_view C.Condition.meaning (market_of market.now.shares) rows.old) }
    ensures written { result.written ≡ length (ticked_slips share limit.value tick (rows_view C.Condition.meaning (market_of market.now.shares) rows.old)) }
    ensures slips { slips.new ≡ ticked_slips share limit.value tick (rows_view C.Condition.meaning (market_of market.now.shares) rows.old) ++ drop result.written slips.old }
{
    // rows move while they are told, so the loop goes over places
    let mut stay = 0;
    let mut written = 0;
    for i in 0..rows.len() {
        let told = rows[i].tell_tick(share, tick, limit, market);
        written = write(slips, written, told.slip);
        stay = keep(rows, stay, i, told.stays);
    }
    Quoted { stay, written }
}

// Tells the orders that watch the share a day, and answers how many rows stay.
pub(crate) fn tell_day<C: Condition>(rows: &mut [Row<C>], share: u8, day: Day) -> usize
    ensures within { result ≤ length rows.old }
    ensures table { (mk : Table) → rows_view C.Condition.meaning mk (take result rows.new) ≡ dayed_rows share day (rows_view C.Condition.meaning mk rows.old) }
{
    // over places, as in `tell_tick`; one loop for both would tell the rows by a closure that holds the market and the slips, which
    // is no plainer than these three lines
    let mut stay = 0;
    for i in 0..rows.len() {
        let stays = rows[i].tell_day(share, day);
        stay = keep(rows, stay, i, stays);
    }
    stay
}
