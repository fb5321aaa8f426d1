// The prices of a share at a moment, in ten-thousandths of a yuan, as they come in: the call that takes a quote checks them.
#[derive(Clone, Copy, PartialEq, Eq, Debug)]
pub struct Levels {
    pub last: u32,
    // the best five each way, the best first; a level of 0 is missing
    pub bids: [u32; 5],
    pub asks: [u32; 5],
}

// A quote in plain numbers, as it comes in: its phase too is a number that the call checks.
#[derive(Clone, Copy, PartialEq, Eq, Debug)]
pub struct Quote {
    pub share: u8,
    // 0 call auction, 1 continuous, 2 after hours
    pub phase: u8,
    // second of the day
    pub moment: u32,
    pub levels: Levels,
}
