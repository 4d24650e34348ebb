// Banks: rows of providers of mixed makes, behind one set of operations by number.
#![tactic(auto)]

pub mod bank;
pub mod one;
mod side;
pub mod two;
pub mod whole;
