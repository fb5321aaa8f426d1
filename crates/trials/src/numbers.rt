// The ends of the checked numbers, ranges, targets, and prices read and shown.
use crate::help::percent;
use std::test::Fail;
use values::days::AveragingDays;
use values::direction::{Direction, Falling, Rising};
use values::fault::MakingFault;
use values::hold::Hold;
use values::limit::Limit;
use values::price::Price;
use values::range::PriceRange;
use values::step::{Difference, Percentage, Step};

// The number of a fault, or 0: by number, so that the tests pin the numbers too.
fn number_of<T: Drop>(made: Result<T, MakingFault>) -> u8 {
    made.err().map_or(0, |fault| fault.number())
}

#[test]
fn ends_are_taken_and_what_lies_past_them_is_refused(rt: HostRuntime) {
    for (raw, number) in [
        (0, 1),
        (999, 1),
        (1_000, 0),
        (999_999_999, 0),
        (1_000_000_000, 1),
        (u32::MAX, 1),
    ] {
        assert_eq!(rt; number_of(Price::new(raw)), number);
    }
    for (raw, number) in [
        (0, 2),
        (9, 2),
        (10, 0),
        (5_000, 0),
        (5_001, 2),
        (u32::MAX, 2),
    ] {
        assert_eq!(rt; number_of(Percentage::new(raw)), number);
    }
    for (raw, number) in [
        (0, 2),
        (1, 0),
        (999_999_999, 0),
        (1_000_000_000, 2),
        (u32::MAX, 2),
    ] {
        assert_eq!(rt; number_of(Difference::new(raw)), number);
    }
    for (raw, number) in [(0, 0), (10_000, 0), (10_001, 7), (u32::MAX, 7)] {
        assert_eq!(rt; number_of(Limit::new(raw)), number);
    }
    for (raw, number) in [(0, 4), (1, 0), (14_400, 0), (14_401, 4), (u32::MAX, 4)] {
        assert_eq!(rt; number_of(Hold::new(raw)), number);
    }
    for (raw, number) in [
        (0, 5),
        (5, 0),
        (6, 5),
        (10, 0),
        (20, 0),
        (30, 0),
        (60, 0),
        (61, 5),
        (u32::MAX, 5),
    ] {
        assert_eq!(rt; number_of(AveragingDays::new(raw)), number);
    }
}

#[test]
fn ranges_are_ordered_and_hold_their_ends(rt: HostRuntime) -> Result<(), Fail> {
    let low = Price::new(160_000)?;
    let high = Price::new(240_000)?;
    assert_eq!(rt; number_of(PriceRange::new(high, low)), 3);
    assert_eq!(rt; number_of(PriceRange::new(low, low)), 0);
    let range = PriceRange::new(low, high)?;
    assert!(rt; range.contains(low) && range.contains(high));
    assert!(rt; !range.contains(Price::new(159_999)?) && !range.contains(Price::new(240_001)?));
    Ok(())
}

#[test]
fn targets_are_cut_and_reach_past_the_prices(rt: HostRuntime) -> Result<(), Fail> {
    let base = Price::new(88_800)?;
    assert_eq!(rt; Rising::target_of(percent(800)?, base), 95_904);
    assert_eq!(rt; Falling::target_of(percent(800)?, base), 81_696);
    let least = Price::new(1_000)?;
    let greatest = Price::new(999_999_999)?;
    assert_eq!(rt; Rising::target_of(percent(10)?, least), 1_001);
    assert_eq!(rt; Falling::target_of(percent(10)?, least), 999);
    assert_eq!(rt; Rising::target_of(percent(5_000)?, greatest), 1_499_999_998);
    assert_eq!(rt; Falling::target_of(percent(5_000)?, greatest), 499_999_999);
    let most = Step::Difference(Difference::new(999_999_999)?);
    assert_eq!(rt; Rising::target_of(most, greatest), 1_999_999_998);
    assert_eq!(rt; Falling::target_of(most, greatest), 0);
    assert_eq!(rt; Falling::target_of(most, least), 0);
    Ok(())
}

#[test]
fn prices_are_read_and_shown(rt: HostRuntime) -> Result<(), Fail> {
    for (text, shown) in [
        ("18", "18.0000"),
        ("18.4", "18.4000"),
        ("16.9280", "16.9280"),
        ("0.1", "0.1000"),
        ("99999.9999", "99999.9999"),
    ] {
        let price = Price::read(text)?;
        assert_eq!(rt; price.to_string(rt.alloc())?.as_str(), shown);
        assert!(rt; Price::read(shown)? == price);
    }
    for text in ["0.0999", "100000", "18.40000", "18.", "", "-1", "9,5"] {
        assert!(rt; Price::read(text).is_err(), "{}", text);
    }
    Ok(())
}
