ghost use Rattle.std.specs.Prelude.{◌≡◌, ◌-◌, ◌*◌, ◌≤◌, T, length, sum_by};
ghost use Rattle.values.specs.Bounds.{least_price, greatest_price};
ghost use Rattle.values.specs.Days.{day_count};
ghost use Rattle.values.specs.declared.days.AveragingDays.{AveragingDays as DaysOf};
ghost use Rattle.conditions.specs.Closes.{newest_sum, sum_before};
ghost use Rattle.conditions.specs.Sums.{sums};

use crate::sums::Sums;
use values::days::AveragingDays;
use values::price::Price;

// By a rule of the project the sums are taken by a `for` loop.
fn total(closes: &[Price]) -> u64
    requires { length closes.now ≤ 59 }
    ensures value { result ≡ sum_by (λ p. p.value) closes.now }
    ensures low { length closes.now * least_price ≤ result }
    ensures high { result ≤ length closes.now * greatest_price }
{
    let mut sum: u64 = 0;
    for close in closes {
        sum += close.value() as u64;
    }
    sum
}

// The sum of the newest n closes, or 0 where there are fewer.
fn newest(closes: &[Price], n: usize) -> u64
    requires { n ≤ 59 }
    ensures value { result ≡ newest_sum n closes.now }
    ensures fits { T (sums n result) }
{
    if closes.len() < n {
        return 0;
    }
    total(&closes[closes.len() - n..])
}

impl Sums {
    // The sums of a share's closes, the oldest first.
    pub fn of(closes: &[Price]) -> Sums
        ensures { (n : DaysOf) → sum_before n result ≡ newest_sum (day_count n - 1) closes.now }
    {
        Sums {
            four: newest(closes, 4),
            nine: newest(closes, 9),
            nineteen: newest(closes, 19),
            twentynine: newest(closes, 29),
            fiftynine: newest(closes, 59),
        }
    }

    // The sum of the closes that an average over some days takes beside the price of the day, 0 where there are fewer.
    pub fn before(&self, days: AveragingDays) -> u64
        ensures value { result ≡ sum_before days self.now }
        ensures fits { T (sums (day_count days - 1) result) }
    {
        match days {
            AveragingDays::Five => self.four,
            AveragingDays::Ten => self.nine,
            AveragingDays::Twenty => self.nineteen,
            AveragingDays::Thirty => self.twentynine,
            AveragingDays::Sixty => self.fiftynine,
        }
    }
}
