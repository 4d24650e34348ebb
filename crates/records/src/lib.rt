// The records of a relay: seats, and lines with their requests and replies. They lie in sheets that callers hand in, so a
// record has no invariant, and every record means something.
#![tactic(auto)]

pub mod answer;
pub mod call;
pub mod key_list;
pub mod line;
pub mod moves;
pub mod requests;
pub mod seat;
