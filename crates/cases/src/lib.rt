// Worked cases and edges of the other crates, as tests. They stand in a crate of their own, since a crate that has
// tests is proved twice.
#![tactic(auto)]

#[cfg(test)]
mod table_cases;
#[cfg(test)]
mod value_cases;
