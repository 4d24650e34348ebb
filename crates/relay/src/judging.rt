// How a phase ends, once a majority of a seat's lines are done.
ghost use Rattle.std.specs.Prelude.{◌≡◌, length};
ghost use Rattle.std.specs.Option.{option_map};
ghost use Rattle.values.specs.Rank.{rank};
ghost use Rattle.stores.specs.Operations.{pair_means};
ghost use Rattle.protocol.specs.Phases.{end_listing, end_gathering, end_storing, result_of, phase_result};
ghost use Rattle.protocol.specs.Seats.{activity, is_write};
ghost use Rattle.records.specs.Means.{seat_means};
ghost use Rattle.relay.specs.Sheets.{lines_mean, line_in, outcome_means};

use crate::outcome::Outcome;
use crate::sheets::{count_done, largest_key, newest};
use protocol::operation::OperationKind;
use protocol::phase::Phase;
use records::answer::Answer;
use records::line::Line;
use records::seat::Seat;
use stores::stored::Stored;
use values::kind::Kind;
use values::version::{Key, Version};

// Listing ends: the write gets the version after the largest key listed, unless the numbers are used up.
fn end_listing<V: Kind>(largest: Key, seat: u16, value: V) -> Outcome<V>
    ensures { outcome_means V.Kind.code result ≡ end_listing (rank largest) seat (V.Kind.code value) }
{
    if largest.number >= 999_999 {
        return Outcome::Ends(Answer::Used);
    }
    let version = Version {
        number: largest.number + 1,
        seat,
    };
    Outcome::Stores {
        write: true,
        pair: Stored { version, value },
    }
}

// Gathering ends: a read of nothing ends; a settled read stores what it found; a plain read ends.
fn end_gathering<V: Kind>(settled: bool, found: Option<Stored<V>>) -> Outcome<V>
    ensures { outcome_means V.Kind.code result ≡ end_gathering settled (option_map (pair_means V.Kind.code) found) }
{
    match found {
        None => Outcome::Ends(Answer::Nothing),
        Some(pair) if settled => Outcome::Stores { write: false, pair },
        Some(pair) => Outcome::Ends(Answer::Read(pair.version, pair.value)),
    }
}

// Storing ends, and with it the operation.
fn end_storing<V: Kind>(seat: &Seat<V>) -> Outcome<V>
    ensures { outcome_means V.Kind.code result ≡ end_storing (is_write seat.now.operation) (rank seat.now.version) (V.Kind.code seat.now.value) }
{
    match seat.operation {
        OperationKind::Write => Outcome::Ends(Answer::Wrote(seat.version)),
        OperationKind::PlainRead | OperationKind::SettledRead => Outcome::Ends(Answer::Read(
            seat.version,
            seat.value,
        )),
    }
}

// What a seat, by its number, comes to when its phase ends, from its own lines.
fn end_phase<V: Kind>(own: &[Line<V>], number: u16, seat: &Seat<V>) -> Outcome<V>
    ensures { outcome_means V.Kind.code result ≡ result_of (length own.now) number (line_in (lines_mean V.Kind.code own.now)) (activity (seat_means V.Kind.code seat.now)) }
{
    match seat.phase {
        Phase::Listing => end_listing(largest_key(own), number, seat.value),
        Phase::Gathering => end_gathering(
            seat.operation == OperationKind::SettledRead,
            newest(own),
        ),
        Phase::Storing => end_storing(seat),
        Phase::Idle | Phase::Stopped => Outcome::GoesOn,
    }
}

// What a seat comes to: its phase ends with a majority of its lines done.
pub(crate) fn judge<V: Kind>(own: &[Line<V>], number: u16, seat: &Seat<V>) -> Outcome<V>
    ensures { outcome_means V.Kind.code result ≡ phase_result (length own.now) number (line_in (lines_mean V.Kind.code own.now)) (activity (seat_means V.Kind.code seat.now)) }
{
    if count_done(own) < own.len() / 2 + 1 {
        return Outcome::GoesOn;
    }
    end_phase(own, number, seat)
}
