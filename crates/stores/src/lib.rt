// What a provider is: a map with a capacity, behind one set of operations that every make of provider has.
#![tactic(auto)]

pub mod copying;
pub mod law;
pub mod store;
pub mod stored;
