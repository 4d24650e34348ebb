// The journal: a provider that keeps its map as a log of records in plain bytes. A put, and a remove of a present key,
// append one record each; where a record does not fit, the log is packed first.
#![tactic(auto)]

mod append;
pub mod codec;
pub mod driver;
mod form;
mod forms;
pub mod journal;
mod keys;
mod new_record;
mod pack;
mod record;
mod records;
mod usage;
mod walk;
mod write;
