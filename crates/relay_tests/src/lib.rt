// Tests of the relay's refusals. They stand in a crate of their own, since a crate that has tests is proved twice.
#![tactic(auto)]

#[cfg(test)]
mod doubled;
#[cfg(test)]
mod office;
#[cfg(test)]
mod openings;
#[cfg(test)]
mod refusals;
