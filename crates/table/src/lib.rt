// The table driver: a provider over a lent slice of entries.
#![tactic(auto)]

mod entries;
pub mod entry;
pub mod table;
