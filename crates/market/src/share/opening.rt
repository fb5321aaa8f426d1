ghost use Rattle.std.specs.Prelude.{◌≡◌, IfOk, None, Some};
ghost use Rattle.std.specs.Result.{result_err, result_ok};
ghost use Rattle.rules.specs.Checks.{first_fault};
ghost use Rattle.rules.specs.Market.{no_later, opened, day_of};
ghost use Rattle.market.specs.Asking.{opening_refusal, new_day_checks, limit_checks, Limited, begun, on_its_day, with_close, when_granted};
ghost use Rattle.market.specs.View.{held, share_view};

use crate::prices::price_of;
use crate::share::{CLOSES_KEPT, Listed, Share};
use conditions::event::Day;
use conditions::sums::Sums;
use rules::fault::MarketFault;
use rules::opening::Opening;
use values::price::Price;

// The prices that a day begins with.
#[derive(Clone, Copy)]
struct Limits {
    close: Price,
    upper: Price,
    lower: Price,
}

impl Limits {
    fn of(opening: Opening) -> Result<Limits, MarketFault>
        ensures answer { result_err result ≡ first_fault (limit_checks opening) }
        ensures made { IfOk result (λ l. Limited opening l) }
    {
        let close = price_of(opening.close)?;
        let upper = price_of(opening.upper)?;
        let lower = price_of(opening.lower)?;
        if (opening.lower..=opening.upper).contains(&opening.close) {
            Ok(Limits {
                close,
                upper,
                lower,
            })
        } else {
            Err(MarketFault::DayLimits)
        }
    }
}

// Whether a day's number is not above the last day's.
fn is_no_later(number: u16, last: Option<Day>) -> bool
    ensures { result ≡ no_later last number }
{
    last.is_some_and(|day| number <= day.number)
}

impl Listed {
    // Appends a close and keeps the newest.
    #[tactic(auto, using(crate::proofs::Rows::row_full))]
    fn append(&mut self, close: Price)
        ensures { held self.new ≡ with_close (held self.old) close }
    {
        let n = self.count;
        if n < CLOSES_KEPT {
            self.closes[n] = close;
            self.count = n + 1;
        } else {
            self.closes.rotate_left(1);
            self.closes[CLOSES_KEPT - 1] = close;
        }
    }

    // Begins a day: its previous close is the newest of the closes that it is summed over, and there is no quote yet.
    fn begin(&mut self, number: u16, limits: Limits) -> Day
        ensures day { result ≡ begun (held self.old) number limits }
        ensures after { held self.new ≡ on_its_day (held self.old) result }
    {
        self.append(limits.close);
        let day = Day {
            number,
            close: limits.close,
            upper: limits.upper,
            lower: limits.lower,
            sums: Sums::of(&self.closes[..self.count]),
        };
        self.day = Some(day);
        self.latest = None;
        day
    }

    fn open_day(&mut self, opening: Opening) -> Result<Day, MarketFault>
        ensures answer { result_err result ≡ first_fault (new_day_checks (held self.old) opening) }
        ensures after { Some (held self.new) ≡ when_granted result (opened opening (Some (held self.old))) (Some (held self.old)) }
        ensures day { result_ok result ≡ when_granted result (day_of (Some (held self.new))) None }
    {
        if is_no_later(opening.number, self.day) {
            return Err(MarketFault::DayNumber);
        }
        let limits = Limits::of(opening)?;
        Ok(self.begin(opening.number, limits))
    }
}

impl Share {
    // A new day of a listed share, as it began.
    pub fn open_day(&mut self, opening: Opening) -> Result<Day, MarketFault>
        ensures answer { result_err result ≡ opening_refusal (share_view self.old) opening }
        ensures after { share_view self.new ≡ when_granted result (opened opening (share_view self.old)) (share_view self.old) }
        ensures day { result_ok result ≡ when_granted result (day_of (share_view self.new)) None }
    {
        self.listed
            .as_mut()
            .ok_or(MarketFault::NotListed)?
            .open_day(opening)
    }
}
