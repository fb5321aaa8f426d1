// What an order waits for: the events that it is told, its answers, and the layers over any condition.
#![tactic(auto)]

pub mod condition;
pub mod event;
pub mod layer;
pub mod sums;
