// The book of clients' conditional orders: who stands in it, who is told what, and the slips that are written.
#![tactic(auto)]

pub mod book;
pub mod burst;
pub mod desk;
pub mod row;
mod slip_rule;
mod table;
pub mod ticket;
