// The layers, and the kinds made of them.
use crate::help::{fires, percent, plain_day, tick};
use conditions::condition::Condition;
use conditions::event::{Answer, Next, Side};
use conditions::layer::pile::{Bounds, pile};
use kinds::making;
use kinds::test::move_of_day::Distance;
use std::test::Fail;
use values::direction::{Falling, Rising};
use values::fault::MakingFault;
use values::price::Price;
use values::range::PriceRange;
use values::step::Percentage;

#[test]
fn a_level_waits_for_a_day_and_lapses_after_its_last(rt: HostRuntime) -> Result<(), Fail> {
    let mut order = pile(
        Some(7),
        None,
        making::level(Rising, Price::new(105_000)?, Side::Buy),
    );
    assert_eq!(rt; tick(&mut order, 1, 105_000)?, Answer::Wait);
    assert_eq!(rt; order.tell(plain_day(7, 100_000)?), Answer::Wait);
    assert_eq!(rt; tick(&mut order, 2, 104_999)?, Answer::Wait);
    let mut late = order;
    assert_eq!(rt; late.tell(plain_day(8, 100_000)?), Answer::Lapses);
    assert_eq!(rt;
        tick(&mut order, 3, 106_000)?,
        fires(Side::Buy, 105_000, Next::Over)?
    );
    Ok(())
}

#[test]
fn a_switch_lets_the_last_fire_pass(rt: HostRuntime) -> Result<(), Fail> {
    let range = PriceRange::new(Price::new(100_000)?, Price::new(104_000)?)?;
    for (switch, price, trigger) in [
        (true, 105_000, Some(105_000)),
        (true, 104_500, None),
        (false, 105_000, None),
    ] {
        let mut order = pile(
            None,
            Some(Bounds { range, switch }),
            making::level(Rising, Price::new(105_000)?, Side::Sell),
        );
        assert_eq!(rt; order.tell(plain_day(1, 100_000)?), Answer::Wait);
        assert_eq!(rt; tick(&mut order, 1, 104_000)?, Answer::Wait);
        let answer = match trigger {
            Some(trigger) => fires(Side::Sell, trigger, Next::Over)?,
            None => Answer::Lapses,
        };
        assert_eq!(rt; tick(&mut order, 2, price)?, answer);
    }
    Ok(())
}

#[test]
fn a_move_of_the_day_goes_by_the_close_or_to_the_limit(rt: HostRuntime) -> Result<(), Fail> {
    let mut by_percent = making::move_of_day(
        Falling,
        Distance::Percent(Percentage::new(500)?),
        Side::Buy,
    );
    let mut to_limit = making::move_of_day(Falling, Distance::Limit, Side::Buy);
    assert_eq!(rt; by_percent.tell(plain_day(1, 100_000)?), Answer::Wait);
    assert_eq!(rt; to_limit.tell(plain_day(1, 100_000)?), Answer::Wait);
    assert_eq!(rt; tick(&mut by_percent, 1, 95_001)?, Answer::Wait);
    assert_eq!(rt;
        tick(&mut by_percent, 2, 94_000)?,
        fires(Side::Buy, 95_000, Next::Over)?
    );
    assert_eq!(rt; tick(&mut to_limit, 3, 80_001)?, Answer::Wait);
    assert_eq!(rt;
        tick(&mut to_limit, 4, 80_000)?,
        fires(Side::Buy, 80_000, Next::Over)?
    );
    Ok(())
}

#[test]
fn a_stop_goes_before_a_profit(rt: HostRuntime) -> Result<(), Fail> {
    let base = Price::new(100_000)?;
    let mut plain = making::stop_or_profit(base, percent(500)?, percent(1_000)?, None)?;
    assert_eq!(rt; plain.tell(plain_day(1, 100_000)?), Answer::Wait);
    assert_eq!(rt; tick(&mut plain, 1, 109_999)?, Answer::Wait);
    let mut stopped = plain;
    assert_eq!(rt;
        tick(&mut plain, 2, 110_000)?,
        fires(Side::Sell, 110_000, Next::Over)?
    );
    assert_eq!(rt;
        tick(&mut stopped, 2, 94_000)?,
        fires(Side::Sell, 95_000, Next::Over)?
    );
    let mut trailing = making::stop_or_profit(
        base,
        percent(500)?,
        percent(1_000)?,
        Some(percent(200)?),
    )?;
    assert_eq!(rt; trailing.tell(plain_day(1, 100_000)?), Answer::Wait);
    assert_eq!(rt; tick(&mut trailing, 1, 120_000)?, Answer::Wait);
    assert_eq!(rt;
        tick(&mut trailing, 2, 117_600)?,
        fires(Side::Sell, 117_600, Next::Over)?
    );
    Ok(())
}

#[test]
fn a_target_that_is_no_price_is_refused(rt: HostRuntime) -> Result<(), Fail> {
    let low = making::stop_or_profit(Price::new(1_000)?, percent(10)?, percent(10)?, None);
    assert!(rt; matches!(low, Err(MakingFault::StopTarget)));
    let high = making::stop_or_profit(Price::new(999_999_999)?, percent(10)?, percent(10)?, None);
    assert!(rt; matches!(high, Err(MakingFault::ProfitTarget)));
    Ok(())
}
