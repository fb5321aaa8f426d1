// The law of every run, each statement asked for by a function's contract: without its proof the crate fails.
ghost use Rattle.rules.specs.Law.{Faithful, NoStray, RefusedByCheck, Answered, BurstsOneByOne, ClaimsHeld, WithinTotal, Lawful, EveryRun, Independent, Read, RefusalAltersNothing, CutAnywhere, NotesOfSlips, WaitsSilently, RepeatsStruck, DaySums, NoSumLost, OneOfANumber};
ghost use Rattle.rules.specs.WorkedPrices.{WorkedPrices};

// Every run keeps the whole law.
pub fn lawful()
    ensures { EveryRun Lawful }
{}

// Every granted order's slips are what its machine writes for its own events, and no slip belongs to no order.
pub fn faithful()
    ensures slips { EveryRun Faithful }
    ensures stray { EveryRun NoStray }
{}

// Two runs that agree on an order's own events but for repeats give it the same slips; a quote that comes twice in a row counts once.
pub fn independent()
    ensures slips { Independent }
    ensures repeats { RepeatsStruck }
{}

// A call is refused only by a check, and every answer follows from the calls and answers before it.
pub fn refused_by_check()
    ensures refused { EveryRun RefusedByCheck }
    ensures answered { EveryRun Answered }
    ensures read { Read }
    ensures numbers { OneOfANumber }
    ensures unaltered { RefusalAltersNothing }
{}

// A burst takes its quotes one by one, stops only where one is refused, and may be cut anywhere.
pub fn bursts_one_by_one()
    ensures taken { EveryRun BurstsOneByOne }
    ensures cut { CutAnywhere }
{}

// A claim of an order that waits and is not claimed is never void.
pub fn claims_held()
    ensures { EveryRun ClaimsHeld }
{}

// What an order sends stays within its total, and one that waits writes nothing.
pub fn within_total()
    ensures total { EveryRun WithinTotal }
    ensures waits { WaitsSilently }
{}

// What a machine notes of its slips, and the sums of a day, are what their words say.
pub fn kept_as_said()
    ensures notes { NotesOfSlips }
    ensures sums { DaySums }
    ensures closes { NoSumLost }
{}

// The prices worked by hand.
pub fn worked_prices()
    ensures { WorkedPrices }
{}
