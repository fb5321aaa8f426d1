ghost use Rattle.std.specs.Prelude.{◌≡◌, ℕ, Bool, is_some};
ghost use Rattle.values.specs.Directions.{TotalOrder, Beyond, Between, rising_order, falling_order, rising_target, falling_target};
ghost use Rattle.values.specs.Prices.{reached_target};
ghost use Rattle.values.specs.declared.price.Price.{Price};
ghost use Rattle.values.specs.declared.step.Step.{Step};
ghost use Rattle.values.specs.Targets.{rising_total, rising_beyond, falling_total, falling_beyond};
ghost use Rattle.std.proofs.Common.{rules};

use crate::price::Price;
use crate::step::Step;

// One of the two ways in which a price can go. What is written over a direction uses its laws alone,
// so that it serves both ways.
pub trait Direction {
    // the order of prices: order a b says that b lies at a, or beyond it in this direction
    ghost order: { ℕ → ℕ → Bool };

    // the number that a price has to reach, by a step from its base
    ghost target: { Step → ℕ → ℕ };

    // of a low and a high, the one that lies furthest in this direction
    ghost furthest: { Price → Price → Price };

    // Whether an amount lies at another or beyond it.
    fn reaches(amount: u64, goal: u64) -> bool
        ensures { result ≡ order goal amount };

    // The end of a low and a high in this direction.
    fn end_of(low: Price, high: Price) -> Price
        ensures { result ≡ furthest low high };

    // Whether a price lies at another or beyond it.
    fn passes(price: Price, goal: Price) -> bool
        ensures { result ≡ order goal.value price.value }
    {
        Self::reaches(price.value as u64, goal.value as u64)
    }

    // The target of a base; it may lie outside the prices.
    fn target_of(step: Step, base: Price) -> u32
        ensures { result ≡ target step base.value };

    // The target of a base, if the price has reached it: it is then a price itself.
    fn reached(step: Step, base: Price, price: Price) -> Option<Price>
        ensures value { result ≡ reached_target order target step base price }
        ensures found { is_some result ≡ order (target step base.value) price.value }
    {
        let goal = Self::target_of(step, base);
        // The target is known to be a price only where it is reached: `then_some` would make the price first,
        // and the closure of a `then` would need that in a clause of its own.
        if Self::reaches(price.value as u64, goal as u64) {
            Some(Price { value: goal })
        } else {
            None
        }
    }

    ghost total: { TotalOrder order };

    ghost beyond: { (s : Step) → (p : Price) → Beyond order p.value (target s p.value) };

    ghost between: { Between order };
}

#[derive(Clone, Copy, PartialEq, Eq, Debug)]
pub struct Rising;

#[derive(Clone, Copy, PartialEq, Eq, Debug)]
pub struct Falling;

impl Direction for Rising {
    ghost order = { rising_order };

    ghost target = { rising_target };

    ghost furthest = { λ low high. high };

    ghost total = { rising_total };

    ghost beyond = { λ s p. rising_beyond s p };

    ghost between = { Prim.search rules };

    fn reaches(amount: u64, goal: u64) -> bool {
        amount >= goal
    }

    fn end_of(_low: Price, high: Price) -> Price {
        high
    }

    fn target_of(step: Step, base: Price) -> u32 {
        let b = base.value;
        match step {
            Step::Percent(r) => (b as u64 * (10_000 + r.value as u64) / 10_000) as u32,
            Step::Difference(d) => b + d.value,
        }
    }
}

impl Direction for Falling {
    ghost order = { falling_order };

    ghost target = { falling_target };

    ghost furthest = { λ low high. low };

    ghost total = { falling_total };

    ghost beyond = { λ s p. falling_beyond s p };

    ghost between = { Prim.search rules };

    fn reaches(amount: u64, goal: u64) -> bool {
        amount <= goal
    }

    fn end_of(low: Price, _high: Price) -> Price {
        low
    }

    fn target_of(step: Step, base: Price) -> u32 {
        let b = base.value;
        match step {
            Step::Percent(r) => (b as u64 * (10_000 - r.value as u64) / 10_000) as u32,
            Step::Difference(d) => b.saturating_sub(d.value),
        }
    }
}
