// Worked cases of the definitions that the other crates' contracts cite.
#![tactic(auto)]

pub mod cases;
