// Plays a script of calls on a relay of two seats and three providers, and prints the answer to each line.
#![tactic(auto)]

mod parse;

use banks::one::One;
use banks::two::Two;
use journal::journal::Journal;
use parse::parse;
use records::answer::Answer;
use records::call::Exchange;
use records::line::Line;
use records::seat::Seat;
use runs::run::run;
use std::io::{BufRead, BufReader, BufWriter, Write};
use std::str::from_utf8;
use std::{fmt, io};
use table::entry::Entry;
use table::table::Table;
use values::kind::Kind;
use values::refusal::Refusal;
use values::secret::Secret;
use values::version::Version;

const SEATS: usize = 2;

const PROVIDERS: usize = 3;

// how many keys each provider holds
const CAPACITY: usize = 4;

// the fewest bytes in which a log of secrets holds so many keys: a longest record, of 62 bytes, for each and one more
const LOG_BYTES: usize = 310;

// What a line of a script is: a call, or of another form.
#[derive(Clone, Copy)]
enum Form {
    Call,
    Bad,
}

// A script: what each of its lines is, and the calls in their order. (The calls stand by themselves, since `run` takes them
// as one slice.)
#[derive(Drop)]
struct Script {
    forms: Vec<Form>,
    exchanges: Vec<Exchange<Secret>>,
}

// Reads the script from standard input. A call that was not made yet has the answer of an accepted one.
fn read_script(rt: &HostRuntime) -> io::Result<Script> {
    let mut forms = Vec::new(rt.alloc());
    let mut exchanges = Vec::new(rt.alloc());
    for line in BufReader::new(rt.alloc(), rt.stdin())?.split(rt.alloc(), b'\n') {
        match parse(line?.as_slice()) {
            Some(call) => {
                let answer = Ok(Answer::Accepted);
                exchanges.push(Exchange { call, answer })?;
                forms.push(Form::Call)?;
            }
            None => forms.push(Form::Bad)?,
        }
    }
    Ok(Script { forms, exchanges })
}

// Makes the calls on a relay over three empty providers, and writes each answer beside its call. (Each program lends memory
// of its own, in sizes of its own, so `races` has such a function too.)
fn play(exchanges: &mut [Exchange<Secret>]) -> Result<(), Refusal> {
    let mut first = [Entry::blank(); CAPACITY];
    let mut second = [0; LOG_BYTES];
    let mut third = [Entry::blank(); CAPACITY];
    let mut first = Table::new(&mut first);
    let mut second = Journal::new::<Secret>(&mut second);
    let mut third = Table::new(&mut third);
    let bank = Two {
        left: One(&mut first),
        right: Two {
            left: One(&mut second),
            right: One(&mut third),
        },
    };
    let mut seats = [Seat::blank(); SEATS];
    let mut lines = [Line::blank(); SEATS * PROVIDERS];
    let (relay, opened) = run(bank, SEATS, &mut seats, &mut lines, exchanges);
    let _ = relay.shut();
    opened
}

// An answer, as a script's output tells it. (A version has no `Display`: a pattern that takes it apart is as short, and the
// stories of `races` write it in another form.)
#[derive(Drop)]
struct Said(Result<Answer<Secret>, Refusal>);

impl fmt::Display for Said {
    fn fmt<W: fmt::Write>(&self, f: &mut fmt::Formatter<W>) -> fmt::Result {
        match self.0 {
            Ok(Answer::Accepted) => f.write_str("ok"),
            Ok(Answer::On) => f.write_str("on"),
            Ok(Answer::Dropped) => f.write_str("dropped"),
            Ok(Answer::Wrote(Version { number, seat })) => write!(f, "wrote {number} {seat}"),
            Ok(Answer::Read(Version { number, seat }, secret)) => {
                // The text is printable, since every secret came from a line of the script.
                let text = from_utf8(secret.as_bytes()).unwrap_or("");
                write!(f, "read {number} {seat} {text}")
            }
            Ok(Answer::Nothing) => f.write_str("none"),
            Ok(Answer::Used) => f.write_str("used"),
            Err(refusal) => write!(f, "no {}", refusal.number()),
        }
    }
}

// Prints a line for each line of the script, many in one write.
fn print_answers(rt: &HostRuntime, script: &Script) -> io::Result<()> {
    let mut out = BufWriter::new(rt.alloc(), rt.stdout())?;
    let mut exchanges = script.exchanges.iter();
    for form in &script.forms {
        match form {
            Form::Bad => writeln!(out, "bad")?,
            Form::Call => {
                if let Some(exchange) = exchanges.next() {
                    writeln!(out, "{}", Said(exchange.answer))?;
                }
            }
        }
    }
    out.flush()
}

// A refused open would be the answer to each call; it is not told apart.
fn main(rt: HostRuntime) -> io::Result<()> {
    let mut script = read_script(&rt)?;
    let _ = play(script.exchanges.as_mut_slice());
    print_answers(&rt, &script)
}
