// The market: which shares are listed, their closes, days and latest quotes.
#![tactic(auto)]

pub mod market;
mod prices;
pub mod share;
