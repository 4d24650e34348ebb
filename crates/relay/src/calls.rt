// The calls of a relay. Each makes exactly the protocol's step, or is refused, and then changes nothing. (The sheets of seats
// and lines are two slices that the caller lends to each call. Post and land only read the seats, stop only reads the lines,
// and lose changes neither: a struct of both would ask for more than a call needs.)
ghost use Rattle.std.specs.Prelude.{◌≡◌, length, ◌-◌, ◌*◌, true, drop, is_err, OnOk};
ghost use Rattle.protocol.specs.Answers.{begin_write as write_call, begin_read as read_call, post as post_call, fetch as fetch_call, stop as stop_call};
ghost use Rattle.records.specs.Means.{told};
ghost use Rattle.relay.specs.Effects.{BeyondAll, WrittenAt, SeatWritten, LineWritten, begin_call};
ghost use Rattle.relay.specs.RelayState.{relay_means, relay_step, bank_of, inner_of};
ghost use Rattle.relay.specs.Sheets.{acknowledged};

use crate::beginning::Beginning;
use crate::relay::Relay;
use crate::steps::{begin, fetch_line, post_line, stop_seat};
use banks::bank::Bank;
use records::answer::Answer;
use records::line::Line;
use records::seat::Seat;
use values::kind::Kind;
use values::refusal::Refusal;

impl<V: Kind, B: Bank<V>> Relay<V, B> {
    // A line gets its stage's request, and is sent.
    pub fn post(
        &self,
        seats: &[Seat<V>],
        lines: &mut [Line<V>],
        seat: usize,
        provider: usize,
    ) -> Result<(), Refusal>
        ensures step { (relay_means V.Kind.code B.Bank.row self.now seats.now lines.new, acknowledged result) ≡ relay_step (relay_means V.Kind.code B.Bank.row self.now seats.now lines.old) (post_call seat provider) }
        ensures beyond { drop ((inner_of self.now).seats * length (B.Bank.row (bank_of self.now))) lines.new ≡ drop ((inner_of self.now).seats * length (B.Bank.row (bank_of self.now))) lines.old }
        ensures others { OnOk result (LineWritten (length (B.Bank.row (bank_of self.now))) seat provider lines.old lines.new) }
        ensures refusal { is_err result ≡ true → lines.new ≡ lines.old }
    {
        let at = self.find(seats.len(), lines.len(), seat, provider)?;
        post_line(
            &seats[at.seat.seat],
            &mut lines[at.seat.start + at.provider],
        )
    }

    // The answer of a line is taken, or dropped if it is stale; the seat's phase or operation may end.
    pub fn fetch(
        &mut self,
        seats: &mut [Seat<V>],
        lines: &mut [Line<V>],
        seat: usize,
        provider: usize,
    ) -> Result<Answer<V>, Refusal>
        ensures step { (relay_means V.Kind.code B.Bank.row self.new seats.new lines.new, told V.Kind.code result) ≡ relay_step (relay_means V.Kind.code B.Bank.row self.old seats.old lines.old) (fetch_call seat provider) }
        ensures beyond { BeyondAll (inner_of self.old).seats (length (B.Bank.row (bank_of self.old))) seats.old lines.old seats.new lines.new }
        ensures others { OnOk result (SeatWritten (length (B.Bank.row (bank_of self.old))) seat seats.old lines.old seats.new lines.new) }
        ensures refusal { is_err result ≡ true → (seats.new ≡ seats.old) × (lines.new ≡ lines.old) × (inner_of self.new ≡ inner_of self.old) }
        ensures bank { bank_of self.new ≡ bank_of self.old }
    {
        let at = self.find(seats.len(), lines.len(), seat, provider)?;
        let own = &mut lines[at.seat.start..at.seat.start + at.seat.providers];
        fetch_line(
            &mut seats[at.seat.seat],
            own,
            &mut self.inner.looks,
            at.seat.seat as u8,
            at.provider,
        )
    }

    // A seat begins an operation. (`beyond` and `refusal` stand here and at the two calls below: they are what each of them
    // promises, in full, and a name for both would have to be looked up at each. It is put into its callers: by itself it would copy
    // the seat's record to make another of it, whichever operation begins.)
    #[inline(always)]
    fn begin(
        &self,
        seats: &mut [Seat<V>],
        lines: &mut [Line<V>],
        seat: usize,
        what: Beginning<V>,
    ) -> Result<(), Refusal>
        ensures step { (relay_means V.Kind.code B.Bank.row self.now seats.new lines.new, acknowledged result) ≡ relay_step (relay_means V.Kind.code B.Bank.row self.now seats.old lines.old) (begin_call V.Kind.code seat what) }
        ensures beyond { BeyondAll (inner_of self.now).seats (length (B.Bank.row (bank_of self.now))) seats.old lines.old seats.new lines.new }
        ensures others { OnOk result (SeatWritten (length (B.Bank.row (bank_of self.now))) seat seats.old lines.old seats.new lines.new) }
        ensures refusal { is_err result ≡ true → (seats.new ≡ seats.old) × (lines.new ≡ lines.old) }
    {
        let at = self.find_seat(seats.len(), lines.len(), seat)?;
        let own = &mut lines[at.start..at.start + at.providers];
        begin(&mut seats[at.seat], own, what)
    }

    // A seat begins a write of a value.
    pub fn begin_write(
        &self,
        seats: &mut [Seat<V>],
        lines: &mut [Line<V>],
        seat: usize,
        value: V,
    ) -> Result<(), Refusal>
        ensures step { (relay_means V.Kind.code B.Bank.row self.now seats.new lines.new, acknowledged result) ≡ relay_step (relay_means V.Kind.code B.Bank.row self.now seats.old lines.old) (write_call seat (V.Kind.code value)) }
        ensures beyond { BeyondAll (inner_of self.now).seats (length (B.Bank.row (bank_of self.now))) seats.old lines.old seats.new lines.new }
        ensures others { OnOk result (SeatWritten (length (B.Bank.row (bank_of self.now))) seat seats.old lines.old seats.new lines.new) }
        ensures refusal { is_err result ≡ true → (seats.new ≡ seats.old) × (lines.new ≡ lines.old) }
    {
        self.begin(seats, lines, seat, Beginning::Write(value))
    }

    // A seat begins a read, plain or settled.
    pub fn begin_read(
        &self,
        seats: &mut [Seat<V>],
        lines: &mut [Line<V>],
        seat: usize,
        settled: bool,
    ) -> Result<(), Refusal>
        ensures step { (relay_means V.Kind.code B.Bank.row self.now seats.new lines.new, acknowledged result) ≡ relay_step (relay_means V.Kind.code B.Bank.row self.now seats.old lines.old) (read_call seat settled) }
        ensures beyond { BeyondAll (inner_of self.now).seats (length (B.Bank.row (bank_of self.now))) seats.old lines.old seats.new lines.new }
        ensures others { OnOk result (SeatWritten (length (B.Bank.row (bank_of self.now))) seat seats.old lines.old seats.new lines.new) }
        ensures refusal { is_err result ≡ true → (seats.new ≡ seats.old) × (lines.new ≡ lines.old) }
    {
        self.begin(seats, lines, seat, Beginning::Read(settled))
    }

    // A seat stops for good. Its lines stay.
    pub fn stop(&self, seats: &mut [Seat<V>], lines: &[Line<V>], seat: usize) -> Result<(), Refusal>
        ensures step { (relay_means V.Kind.code B.Bank.row self.now seats.new lines.now, acknowledged result) ≡ relay_step (relay_means V.Kind.code B.Bank.row self.now seats.old lines.now) (stop_call seat) }
        ensures beyond { drop (inner_of self.now).seats seats.new ≡ drop (inner_of self.now).seats seats.old }
        ensures others { OnOk result (WrittenAt (seat - 1) seats.old seats.new) }
        ensures refusal { is_err result ≡ true → seats.new ≡ seats.old }
    {
        let at = self.find_seat(seats.len(), lines.len(), seat)?;
        stop_seat(&mut seats[at.seat])
    }
}
