// Tests of banks of mixed makes, and two makes of provider that are small enough to test with.
#![tactic(auto)]

pub mod closed;
#[cfg(test)]
mod mixed;
pub mod slot;
#[cfg(test)]
mod tests;
