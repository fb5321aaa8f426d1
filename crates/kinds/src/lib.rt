// The order kinds, each a condition whose meaning is the kind's definition.
#![tactic(auto)]

pub mod batch;
pub mod book_kinds;
pub mod grid;
pub mod making;
pub mod one_of;
pub mod order_kind;
pub mod test;
pub mod trail;
