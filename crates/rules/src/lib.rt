// The market and the book of clients' conditional orders: their plain types, what they mean, and the law of every run.
#![tactic(auto)]

pub mod fault;
pub mod law;
pub mod opening;
pub mod order;
pub mod quote;
pub mod slip;
pub mod state;
