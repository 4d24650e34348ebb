// What providers store: versions, which also serve as keys, and kinds of value. And the refusals of all layers.
#![tactic(auto)]

pub mod hold;
pub mod kind;
pub mod refusal;
pub mod secret;
pub mod version;
