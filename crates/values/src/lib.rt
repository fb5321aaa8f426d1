// The checked numbers of the trade, the two directions in which a price can go, and prices as text.
#![tactic(auto)]

mod bounds;
pub mod days;
pub mod decimal;
pub mod direction;
pub mod fault;
pub mod hold;
pub mod limit;
pub mod price;
pub mod range;
pub mod step;
