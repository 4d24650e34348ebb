use records::answer::Answer;
use records::call::{Call, Exchange};
use std::alloc::AllocError;
use values::kind::Kind;
use values::secret::Secret;

// One step of a story. Each request to a provider goes with words that say what is asked. (A step is told, counted and turned
// into calls, so it is data: as a closure it could do only one of these.)
#[derive(Clone, Copy)]
pub(crate) enum Step {
    // words of the teller
    Say(&'static str),
    // a seat begins to write a secret
    Write(usize, &'static str),
    // a seat begins a plain read
    Read(usize),
    // a seat begins a settled read
    SettledRead(usize),
    // a seat's next request is sent to a provider, carried out there, and its answer is taken, at once
    Ask(usize, usize, &'static str),
    // the same, one by one
    Send(usize, usize, &'static str),
    Arrive(usize, usize),
    Take(usize, usize),
    // a provider stops for good
    Lose(usize),
}

// The secret of a text, or the blank one if it is too long.
fn secret_of(text: &str) -> Secret {
    Secret::new(text.as_bytes()).unwrap_or(Secret::blank())
}

// Adds a call. Until it is made, it has the answer of an accepted one.
fn push(calls: &mut Vec<Exchange<Secret>>, call: Call<Secret>) -> Result<(), AllocError> {
    let answer = Ok(Answer::Accepted);
    calls.push(Exchange { call, answer })?;
    Ok(())
}

impl Step {
    // How many calls of the relay the step makes.
    pub(crate) fn call_count(self) -> usize {
        match self {
            Step::Say(_) => 0,
            Step::Ask(..) => 3,
            _ => 1,
        }
    }

    // Adds the calls that the step makes.
    pub(crate) fn push_calls(self, calls: &mut Vec<Exchange<Secret>>) -> Result<(), AllocError> {
        match self {
            Step::Say(_) => Ok(()),
            Step::Write(seat, text) => push(calls, Call::BeginWrite(seat, secret_of(text))),
            Step::Read(seat) => push(calls, Call::BeginRead(seat, false)),
            Step::SettledRead(seat) => push(calls, Call::BeginRead(seat, true)),
            Step::Ask(seat, provider, _) => {
                push(calls, Call::Post(seat, provider))?;
                push(calls, Call::Land(seat, provider))?;
                push(calls, Call::Fetch(seat, provider))
            }
            Step::Send(seat, provider, _) => push(calls, Call::Post(seat, provider)),
            Step::Arrive(seat, provider) => push(calls, Call::Land(seat, provider)),
            Step::Take(seat, provider) => push(calls, Call::Fetch(seat, provider)),
            Step::Lose(provider) => push(calls, Call::Lose(provider)),
        }
    }
}
