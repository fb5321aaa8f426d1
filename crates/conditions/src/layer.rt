// The layers: each holds any condition below it, and is a condition itself.
pub mod either;
pub mod pile;
pub mod range;
pub mod until;
