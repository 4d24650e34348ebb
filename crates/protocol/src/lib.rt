// The protocol of the register: what each call of a relay does, over meanings alone, and the law that every run obeys.
#![tactic(auto)]

pub mod examples;
pub mod law;
pub mod operation;
pub mod phase;
pub mod stage;
