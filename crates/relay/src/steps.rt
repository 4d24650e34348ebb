// The steps of the calls on one seat and its own lines, once these are known to be there. (A seat and its lines lie in two
// sheets, and are lent with other rights: post reads the seat, stop changes it alone. A struct of the two borrows would be
// made at each call and taken apart at each step.)
ghost use Rattle.std.specs.Prelude.{◌≡◌, ℕ, ◌<◌, true, map, length, is_ok, is_err, if◌then◌else◌};
ghost use Rattle.protocol.specs.Lines.{restart_line};
ghost use Rattle.protocol.specs.Phases.{phase_result};
ghost use Rattle.protocol.specs.Seats.{activity, stopped, turned_to};
ghost use Rattle.protocol.specs.Steps.{post_line, begin_at, conclude as conclude_as, unless_full, take_answer as take_as};
ghost use Rattle.values.specs.Refusals.{numbered};
ghost use Rattle.records.specs.Means.{progress_means, answer_means, accepted_as, told, line_means, seat_means};
ghost use Rattle.relay.specs.Checks.{post_check, stop_check};
ghost use Rattle.relay.specs.Effects.{Steps, beginning_means};
ghost use Rattle.relay.specs.Sheets.{lines_mean, line_in, acknowledged, outcome_means, fetch_on};

use crate::beginning::Beginning;
use crate::checks::{may_begin, may_post};
use crate::judging::judge;
use crate::outcome::Outcome;
use crate::sheets::restart;
use records::answer::Answer;
use records::line::{Line, Reply, Transit};
use records::seat::Seat;
use values::kind::Kind;
use values::refusal::Refusal;

// A seat's line gets its stage's request, and is sent.
pub(crate) fn post_line<V: Kind>(seat: &Seat<V>, line: &mut Line<V>) -> Result<(), Refusal>
    ensures answer { numbered result ≡ post_check (activity (seat_means V.Kind.code seat.now)) (line_means V.Kind.code line.old) }
    ensures means { line_means V.Kind.code line.new ≡ (if is_ok result then post_line (activity (seat_means V.Kind.code seat.now)) (line_means V.Kind.code line.old) else line_means V.Kind.code line.old) }
    ensures refusal { is_err result ≡ true → line.new ≡ line.old }
{
    may_post(seat, line)?;
    *line = line.sent(line.request_of(seat));
    Ok(())
}

// A seat gets another record, and its lines restart.
fn turn<V: Kind>(seat: &mut Seat<V>, own: &mut [Line<V>], next: Seat<V>)
    ensures seat { seat.new ≡ next }
    ensures lines { lines_mean V.Kind.code own.new ≡ map restart_line (lines_mean V.Kind.code own.old) }
{
    *seat = next;
    restart(own);
}

impl<V: Kind> Beginning<V> {
    // The record of a seat that begins this.
    fn of(self, seat: Seat<V>) -> Seat<V>
        ensures { seat_means V.Kind.code result ≡ turned_to (beginning_means V.Kind.code self) (seat_means V.Kind.code seat) }
    {
        match self {
            Beginning::Write(value) => seat.listing(value),
            Beginning::Read(settled) => seat.gathering(settled),
        }
    }
}

// A seat begins an operation.
pub(crate) fn begin<V: Kind>(
    seat: &mut Seat<V>,
    own: &mut [Line<V>],
    what: Beginning<V>,
) -> Result<(), Refusal>
    ensures step { (s : ℕ) (looks : ℕ) → Steps V.Kind.code s (begin_at (length own.old) s (beginning_means V.Kind.code what)) seat.old own.old looks seat.new own.new looks (acknowledged result) }
    ensures refusal { is_err result ≡ true → (seat.new ≡ seat.old) × (own.new ≡ own.old) }
{
    may_begin(seat)?;
    turn(seat, own, what.of(*seat));
    Ok(())
}

// What becomes of a seat and its lines, and what the call answers.
fn conclude<V: Kind>(seat: &mut Seat<V>, own: &mut [Line<V>], outcome: Outcome<V>) -> Answer<V>
    ensures { (s : ℕ) (looks : ℕ) → Steps V.Kind.code s (conclude_as (length own.old) s (outcome_means V.Kind.code outcome)) seat.old own.old looks seat.new own.new looks (accepted_as V.Kind.code result) }
{
    match outcome {
        Outcome::GoesOn => Answer::On,
        Outcome::Ends(answer) => {
            turn(seat, own, seat.rested());
            answer
        }
        Outcome::Stores { write, pair } => {
            turn(seat, own, seat.storing(write, pair));
            Answer::On
        }
    }
}

// What a seat comes to. A put that was refused for want of room leaves everything where it is.
fn outcome_of<V: Kind>(
    own: &[Line<V>],
    number: u16,
    seat: &Seat<V>,
    answer: Result<Reply<V>, Refusal>,
) -> Outcome<V>
    ensures { outcome_means V.Kind.code result ≡ unless_full (answer_means V.Kind.code answer) (phase_result (length own.now) number (line_in (lines_mean V.Kind.code own.now)) (activity (seat_means V.Kind.code seat.now))) }
{
    match answer {
        Err(_) => Outcome::GoesOn,
        Ok(_) => judge(own, number, seat),
    }
}

// An answer of seat s's line at place i is taken: the line moves, and with it perhaps its seat.
fn take_answer<V: Kind>(
    seat: &mut Seat<V>,
    own: &mut [Line<V>],
    looks: &mut u32,
    s: u8,
    i: usize,
    line: Line<V>,
    answer: Result<Reply<V>, Refusal>,
) -> Answer<V>
    requires { i < length own.old }
    ensures { Steps V.Kind.code s (take_as (length own.old) s i (activity (seat_means V.Kind.code seat.old)) (answer_means V.Kind.code answer) (progress_means V.Kind.code line)) seat.old own.old looks.old seat.new own.new looks.new (accepted_as V.Kind.code result) }
{
    let next = line.advanced(seat, answer);
    own[i] = next;
    *looks = line.looks_after(&next, *looks);
    let outcome = outcome_of(own, s as u16 + 1, seat, answer);
    conclude(seat, own, outcome)
}

// The answer of seat s's line at place i is fetched, or dropped if it is stale.
pub(crate) fn fetch_line<V: Kind>(
    seat: &mut Seat<V>,
    own: &mut [Line<V>],
    looks: &mut u32,
    s: u8,
    i: usize,
) -> Result<Answer<V>, Refusal>
    requires { i < length own.old }
    ensures step { Steps V.Kind.code s (fetch_on (length own.old) s i) seat.old own.old looks.old seat.new own.new looks.new (told V.Kind.code result) }
    ensures refusal { is_err result ≡ true → (seat.new ≡ seat.old) × (own.new ≡ own.old) × (looks.new ≡ looks.old) }
{
    if seat.is_stopped() {
        return Err(Refusal::SeatStopped);
    }
    let line = own[i];
    let transit = line.transit;
    match transit {
        Transit::Free | Transit::Sent { .. } => Err(Refusal::NoAnswer),
        Transit::Answered { stale, answer } => {
            if stale {
                own[i] = line.freed();
                return Ok(Answer::Dropped);
            }
            if line.foreign(seat) {
                return Err(Refusal::NoAnswer);
            }
            Ok(take_answer(seat, own, looks, s, i, line, answer))
        }
    }
}

// A seat stops for good.
pub(crate) fn stop_seat<V: Kind>(seat: &mut Seat<V>) -> Result<(), Refusal>
    ensures answer { numbered result ≡ stop_check (activity (seat_means V.Kind.code seat.old)) }
    ensures means { seat_means V.Kind.code seat.new ≡ (if is_ok result then turned_to stopped (seat_means V.Kind.code seat.old) else seat_means V.Kind.code seat.old) }
    ensures refusal { is_err result ≡ true → seat.new ≡ seat.old }
{
    if seat.is_stopped() {
        return Err(Refusal::SeatStopped);
    }
    *seat = seat.stopped();
    Ok(())
}
