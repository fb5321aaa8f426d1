// What the call of a share's new day brings, as it comes in: the call checks it.
#[derive(Clone, Copy, PartialEq, Eq, Debug)]
pub struct Opening {
    pub share: u8,
    // the day's number
    pub number: u16,
    // the previous day's close
    pub close: u32,
    // the prices beyond which the share may not trade that day
    pub upper: u32,
    pub lower: u32,
}
