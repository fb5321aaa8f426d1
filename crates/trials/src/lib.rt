// Worked prices and edges of the checked numbers, the kinds, the layers and the desks, as tests. They stand apart from the crates
// that they try, since a crate with tests is proved twice.
#![tactic(auto)]

#[cfg(test)]
mod decimals;
#[cfg(test)]
mod desks;
#[cfg(test)]
mod help;
#[cfg(test)]
mod kinds_at_work;
#[cfg(test)]
mod layers_at_work;
#[cfg(test)]
mod numbers;
