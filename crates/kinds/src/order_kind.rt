// The names of the order kinds, and what the house decides by the name alone.
ghost use Rattle.std.specs.Prelude.{◌≡◌};
ghost use Rattle.kinds.specs.LimitMarks.{limit_mark};

#[derive(Clone, Copy)]
pub enum OrderKind {
    Level,
    Linked,
    DayMove,
    Average,
    Rebound,
    FallBack,
    StopOrProfit,
    Batch,
    Grid,
}

impl OrderKind {
    // Whether the limit holds back a price too far on the worse side of the trigger price.
    pub fn limit_mark(&self) -> bool
        ensures { result ≡ limit_mark self.now }
    {
        !matches!(self, OrderKind::Linked | OrderKind::Batch | OrderKind::Grid)
    }
}
