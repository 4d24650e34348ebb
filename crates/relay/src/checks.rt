// The checks of the calls.
ghost use Rattle.std.specs.Prelude.{◌≡◌};
ghost use Rattle.values.specs.Refusals.{numbered};
ghost use Rattle.protocol.specs.Seats.{activity};
ghost use Rattle.records.specs.Means.{line_means, seat_means};
ghost use Rattle.relay.specs.Checks.{begin_check, post_check};

use records::line::Line;
use records::seat::Seat;
use values::kind::Kind;
use values::refusal::Refusal;

// Whether a seat may begin an operation.
pub(crate) fn may_begin<V: Kind>(seat: &Seat<V>) -> Result<(), Refusal>
    ensures { numbered result ≡ begin_check (activity (seat_means V.Kind.code seat.now)) }
{
    if seat.is_stopped() {
        return Err(Refusal::SeatStopped);
    }
    if !seat.is_idle() {
        return Err(Refusal::SeatBusy);
    }
    Ok(())
}

// Whether a seat may post a line.
pub(crate) fn may_post<V: Kind>(seat: &Seat<V>, line: &Line<V>) -> Result<(), Refusal>
    ensures { numbered result ≡ post_check (activity (seat_means V.Kind.code seat.now)) (line_means V.Kind.code line.now) }
{
    if seat.is_stopped() {
        return Err(Refusal::SeatStopped);
    }
    if seat.is_idle() || line.foreign(seat) {
        return Err(Refusal::NothingToPost);
    }
    if line.done {
        return Err(Refusal::LineDone);
    }
    if !line.is_free() {
        return Err(Refusal::LineNotFree);
    }
    Ok(())
}
