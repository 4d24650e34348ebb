use records::answer::Answer;
use stores::stored::Stored;

// What a seat comes to once an answer is taken: its phase goes on; its operation ends with an answer; or it stores a pair,
// for a write or else for a settled read. (Which of the two is a yes or no, as in the protocol's `storing`.)
#[derive(Clone, Copy)]
pub enum Outcome<V> {
    GoesOn,
    Ends(Answer<V>),
    Stores { write: bool, pair: Stored<V> },
}
