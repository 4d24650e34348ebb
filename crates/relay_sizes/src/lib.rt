// Tests of the smallest and the largest relays, in a crate of their own beside the other tests of the relay, so that the
// two are proved side by side.
#![tactic(auto)]

#[cfg(test)]
mod sizes;
