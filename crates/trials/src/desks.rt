// Desks at work: rows, places, claims, settlements and bursts.
use crate::help::percent;
use book::desk::Desk;
use book::row::Row;
use conditions::condition::Condition;
use conditions::event::Side;
use conditions::layer::pile::{Pile, pile};
use conditions::layer::range::Range;
use kinds::batch::Batch;
use kinds::grid::Grid;
use kinds::making;
use rules::fault::PlacingFault;
use rules::opening::Opening;
use rules::order::Terms;
use rules::quote::{Levels, Quote};
use rules::slip::{Outcome, Slip};
use rules::state::OrderState;
use std::test::Fail;
use values::direction::Falling;
use values::fault::MakingFault;
use values::limit::Limit;
use values::price::Price;
use values::range::PriceRange;

// The number of a refusal, or 0: by number, so that the tests pin the numbers too.
fn refusal(answer: Result<(), PlacingFault>) -> u8 {
    answer.err().map_or(0, |fault| fault.number())
}

// The number of a state, or 0: by number as well.
fn state_number(state: Option<OrderState>) -> u8 {
    state.map_or(0, |state| state.number())
}

// 100 of share 3 at its last price, without a total.
fn terms(number: u32) -> Terms {
    Terms {
        number,
        watched: 3,
        traded: 3,
        choice: 1,
        own_price: 0,
        quantity: 100,
        total: 0,
        limit_mark: false,
    }
}

fn quote(moment: u32, last: u32) -> Quote {
    Quote {
        share: 3,
        phase: 1,
        moment,
        levels: Levels {
            last,
            bids: [0; 5],
            asks: [0; 5],
        },
    }
}

fn day(number: u16) -> Opening {
    Opening {
        share: 3,
        number,
        close: 200_000,
        upper: 220_000,
        lower: 180_000,
    }
}

// What stands in a place before a slip does.
fn no_slip() -> Result<Slip, MakingFault> {
    let any = Price::new(1_000)?;
    Ok(Slip {
        number: 0,
        moment: 0,
        side: Side::Sell,
        trigger: any,
        market: any,
        price: 0,
        quantity: 0,
        outcome: Outcome::Exceeded,
    })
}

// Buys at 2% below its base, which becomes the tick's price.
fn batch() -> Result<Batch<Falling>, MakingFault> {
    Ok(making::buy_batch(Price::new(200_000)?, percent(200)?))
}

// A grid from 20.00 by 8% that awaits its fills, until day 1.
fn fill_grid() -> Result<Pile<Range<Grid>>, MakingFault> {
    let range = PriceRange::new(Price::new(160_000)?, Price::new(240_000)?)?;
    let grid = making::fill_grid(range, Price::new(200_000)?, percent(800)?, percent(800)?);
    Ok(pile(Some(1), None, grid))
}

// A desk on day 1 of share 3.
fn ready<'a, C: Condition>(rows: &'a mut [Row<C>], limit: Limit) -> Desk<'a, C> {
    let mut desk = Desk::new(rows, 1, limit);
    let _ = desk.list(3, &[]);
    let _ = desk.open_day(day(1));
    desk
}

#[test]
fn a_freed_row_and_its_number_serve_again(rt: HostRuntime) -> Result<(), Fail> {
    let limit = Limit::new(200)?;
    let order = batch()?;
    let mut none = [];
    let mut full = ready(&mut none, limit);
    let mut one = [Row::vacant(order)];
    let mut desk = ready(&mut one, limit);
    let numbers = [
        refusal(full.place(terms(7), order)),
        refusal(desk.place(terms(7), order)),
        refusal(desk.place(terms(7), order)),
        refusal(desk.place(terms(8), order)),
        refusal(desk.cancel(8)),
        refusal(desk.cancel(7)),
        state_number(desk.state(7)),
        refusal(desk.place(terms(7), order)),
        state_number(desk.state(7)),
    ];
    assert!(rt; numbers == [22, 0, 21, 22, 27, 0, 0, 0, 1]);
    Ok(())
}

#[test]
fn rows_past_4096_are_never_used(rt: HostRuntime) -> Result<(), Fail> {
    let order = batch()?;
    let mut rows = [Row::vacant(order); 4097];
    let mut desk = ready(&mut rows, Limit::new(200)?);
    for number in 1..4097 {
        assert_eq!(rt; refusal(desk.place(terms(number), order)), 0);
    }
    assert_eq!(rt; refusal(desk.place(terms(4097), order)), 22);
    Ok(())
}

#[test]
fn an_order_that_waits_is_claimed_once(rt: HostRuntime) -> Result<(), Fail> {
    let order = fill_grid()?;
    let mut rows = [Row::vacant(order)];
    let mut desk = ready(&mut rows, Limit::new(200)?);
    let mut slips = [no_slip()?];
    let placed = refusal(desk.place(terms(7), order));
    let _ = desk.quote(quote(34_200, 184_000), &mut slips);
    let waits = state_number(desk.state(7));
    let first = desk.claim(7);
    let second = desk.claim(7);
    let good = !first.is_void() && second.is_void();
    let held = state_number(desk.state(7));
    let cancelled = refusal(desk.cancel(7));
    let spent = refusal(desk.settle(second, None));
    let _ = desk.open_day(day(2));
    let ended = state_number(desk.state(7));
    let settled = refusal(desk.settle(first, None));
    let left = state_number(desk.state(7));
    assert!(rt; good);
    assert!(rt;
        [placed, waits, held, cancelled, spent, ended, settled, left] == [0, 2, 3, 28, 29, 4, 0, 0]
    );
    Ok(())
}

// The slips of quotes in two bursts.
fn told(
    limit: Limit,
    order: Batch<Falling>,
    blank: Slip,
    first: &[Quote],
    second: &[Quote],
) -> [Slip; 4] {
    let mut rows = [Row::vacant(order)];
    let mut desk = ready(&mut rows, limit);
    let mut slips = [blank; 4];
    let _ = desk.place(terms(7), order);
    let before = desk.burst(first, &mut slips);
    let _ = desk.burst(second, &mut slips[before.written..]);
    slips
}

#[test]
fn a_burst_may_be_cut_anywhere(rt: HostRuntime) -> Result<(), Fail> {
    let limit = Limit::new(200)?;
    let order = batch()?;
    let blank = no_slip()?;
    let quotes = [
        quote(34_200, 200_000),
        quote(34_201, 196_000),
        quote(34_201, 196_000),
        quote(34_202, 190_000),
    ];
    let whole = told(limit, order, blank, &quotes, &[]);
    assert!(rt; whole[1].market.value() == 190_000 && whole[2] == blank);
    for at in 0..=quotes.len() {
        let (first, second) = quotes.split_at(at);
        let cut = told(limit, order, blank, first, second);
        assert!(rt; cut[0] == whole[0] && cut[1] == whole[1] && cut[2] == blank);
    }
    Ok(())
}
