// Which seat, line or provider a call is about, by number, where the sheets have so many places. (These two counts, and
// the numbers of a seat and a provider, are only passed on: a struct of either would be made by each caller and taken apart at
// once.)
ghost use Rattle.std.specs.Prelude.{◌≡◌, length, ◌<◌, IfOk};
ghost use Rattle.values.specs.Refusals.{numbered};
ghost use Rattle.relay.specs.Checks.{Within};
ghost use Rattle.relay.specs.RelayState.{admission_of, line_of, seat_of, provider_of, bank_of, inner_of};

use crate::admission::place_of;
use crate::place::{Place, SeatPlace};
use crate::relay::Relay;
use banks::bank::Bank;
use values::kind::Kind;
use values::refusal::Refusal;

impl<V: Kind, B: Bank<V>> Relay<V, B> {
    // The line of a seat and a provider.
    pub(crate) fn find(
        &self,
        seats: usize,
        lines: usize,
        seat: usize,
        provider: usize,
    ) -> Result<Place, Refusal>
        ensures answer { numbered result ≡ line_of (admission_of (B.Bank.row (bank_of self.now)) (inner_of self.now) seats lines) (inner_of self.now).seats seat provider }
        ensures within { IfOk result (λ at. Within (inner_of self.now).seats (length (B.Bank.row (bank_of self.now))) seats lines at.seat) }
        ensures provider { IfOk result (λ at. at.provider < at.seat.providers) }
    {
        let seat = self.find_seat(seats, lines, seat)?;
        let provider = place_of(provider, seat.providers, Refusal::NoSuchProvider)?;
        Ok(Place { seat, provider })
    }

    // The seat of a number.
    pub(crate) fn find_seat(
        &self,
        seats: usize,
        lines: usize,
        seat: usize,
    ) -> Result<SeatPlace, Refusal>
        ensures answer { numbered result ≡ seat_of (admission_of (B.Bank.row (bank_of self.now)) (inner_of self.now) seats lines) (inner_of self.now).seats seat }
        ensures within { IfOk result (Within (inner_of self.now).seats (length (B.Bank.row (bank_of self.now))) seats lines) }
    {
        let providers = self.admit(seats, lines)?;
        let seat = place_of(seat, self.inner.seats as usize, Refusal::NoSuchSeat)?;
        Ok(SeatPlace {
            seat,
            start: seat * providers,
            providers,
        })
    }

    // The place of the provider of a number.
    pub(crate) fn find_provider(
        &self,
        seats: usize,
        lines: usize,
        provider: usize,
    ) -> Result<usize, Refusal>
        ensures { numbered result ≡ provider_of (admission_of (B.Bank.row (bank_of self.now)) (inner_of self.now) seats lines) provider }
    {
        let providers = self.admit(seats, lines)?;
        place_of(provider, providers, Refusal::NoSuchProvider)
    }
}
