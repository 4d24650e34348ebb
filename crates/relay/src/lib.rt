// The relay: one register over a bank of providers. Its seats and lines lie in sheets that each call is handed.
#![tactic(auto)]

mod admission;
mod beginning;
pub mod calling;
pub mod calls;
mod checks;
mod finding;
pub mod inner;
mod judging;
pub mod landing;
pub mod losing;
pub mod opening;
mod outcome;
mod place;
pub mod relay;
mod sheets;
mod steps;
