use crate::answer::Answer;
use values::refusal::Refusal;

// A call of a relay, with the numbers of a seat and a provider, from 1 on. Any numbers may be given. (Whether a read is
// settled is a yes or no, as in the protocol's calls.)
#[derive(Clone, Copy, PartialEq, Eq, Debug)]
pub enum Call<V> {
    // a seat, and the value that it writes
    BeginWrite(usize, V),
    // a seat, and whether the read is settled
    BeginRead(usize, bool),
    // a line's request is sent, arrives at its provider, and its answer is taken: a seat and a provider
    Post(usize, usize),
    Land(usize, usize),
    Fetch(usize, usize),
    // a seat stops for good; a provider is lost for good
    Stop(usize),
    Lose(usize),
}

// A call, and what it answered.
#[derive(Clone, Copy, PartialEq, Eq, Debug)]
pub struct Exchange<V> {
    pub call: Call<V>,
    pub answer: Result<Answer<V>, Refusal>,
}
