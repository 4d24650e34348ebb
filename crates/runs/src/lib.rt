// A whole run of a relay: open, and then a list of calls. The law of the register stands on its contract.
#![tactic(auto)]

pub mod run;
