// Worked cases and edges of the journal, as tests. They stand in a crate of their own, since a crate that has tests is
// proved twice.
#![tactic(auto)]

#[cfg(test)]
mod journal_cases;
