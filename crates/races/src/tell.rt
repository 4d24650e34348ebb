use crate::step::Step;
use records::answer::Answer;
use records::call::Exchange;
use std::str::from_utf8;
use std::{fmt, io};
use values::refusal::Refusal;
use values::secret::Secret;
use values::version::Version;

// What a step does.
impl fmt::Display for Step {
    fn fmt<W: fmt::Write>(&self, f: &mut fmt::Formatter<W>) -> fmt::Result {
        match *self {
            Step::Say(words) => f.write_str(words),
            Step::Write(seat, text) => write!(f, "  seat {seat} begins to write {text}"),
            Step::Read(seat) => write!(f, "  seat {seat} begins a plain read"),
            Step::SettledRead(seat) => write!(f, "  seat {seat} begins a settled read"),
            Step::Ask(seat, provider, what) => {
                write!(f, "  seat {seat} to provider {provider}: {what}")
            }
            Step::Send(seat, provider, what) => {
                write!(f, "  seat {seat} to provider {provider}: {what} (sent)")
            }
            Step::Arrive(seat, provider) => {
                write!(
                    f,
                    "  the request of seat {seat} arrives at provider {provider}"
                )
            }
            Step::Take(seat, provider) => {
                write!(f, "  seat {seat} takes the answer of provider {provider}")
            }
            Step::Lose(provider) => write!(f, "  provider {provider} is lost"),
        }
    }
}

// What became of a step. That a call was accepted, or that an operation goes on, is not said. (A version is told by its parts:
// a pattern that takes it apart is as short as `Display`, and the script program writes it in another form.)
#[derive(Drop)]
struct Outcome(Result<Answer<Secret>, Refusal>);

impl fmt::Display for Outcome {
    fn fmt<W: fmt::Write>(&self, f: &mut fmt::Formatter<W>) -> fmt::Result {
        match self.0 {
            Ok(Answer::Accepted | Answer::On) => Ok(()),
            Ok(Answer::Dropped) => f.write_str(" -> it is stale, and dropped"),
            Ok(Answer::Wrote(Version { number, seat })) => {
                write!(f, " -> the write is done, version ({number}, {seat})")
            }
            Ok(Answer::Read(Version { number, seat }, secret)) => {
                let text = from_utf8(secret.as_bytes()).unwrap_or("");
                write!(f, " -> the read shows {text}, version ({number}, {seat})")
            }
            Ok(Answer::Nothing) => f.write_str(" -> the read shows nothing"),
            Ok(Answer::Used) => f.write_str(" -> the versions are used up"),
            Err(refusal) => write!(f, " -> refused: {refusal}"),
        }
    }
}

// Prints a step, and the answer to the first of its calls that was refused, or else to the last.
pub(crate) fn tell(rt: &HostRuntime, step: Step, calls: &[Exchange<Secret>]) -> io::Result<()> {
    let told = calls
        .iter()
        .find(|call| call.answer.is_err())
        .or(calls.last());
    let outcome = Outcome(told.map_or(Ok(Answer::Accepted), |call| call.answer));
    println!(rt; "{step}{outcome}")
}
