ghost use Rattle.std.specs.Prelude.{T};
ghost use Rattle.conditions.specs.Sums.{sums};

pub mod making;

// The sums of a share's newest 4, 9, 19, 29 and 59 closes, each 0 where there are fewer.
// Not an `Option` each: no prices sum to 0, and the rules' laws of a day's sums say it as 0.
// Five fields and no const parameter: those laws name each of them. What a sum can be is said by one definition, here and in clauses.
#[derive(Clone, Copy, PartialEq, Eq, Debug)]
pub struct Sums {
    four: u64,
    nine: u64,
    nineteen: u64,
    twentynine: u64,
    fiftynine: u64,
    ghost fours: { T (sums 4 four) },
    ghost nines: { T (sums 9 nine) },
    ghost nineteens: { T (sums 19 nineteen) },
    ghost twentynines: { T (sums 29 twentynine) },
    ghost fiftynines: { T (sums 59 fiftynine) },
}
