// Any call, as a value.
ghost use Rattle.std.specs.Prelude.{◌≡◌, length, true, is_err, OnOk};
ghost use Rattle.records.specs.Means.{call_means, told};
ghost use Rattle.relay.specs.BankSteps.{BankStep};
ghost use Rattle.relay.specs.Effects.{BeyondAll, CallWrites};
ghost use Rattle.relay.specs.RelayState.{relay_means, relay_step, bank_of, inner_of};
ghost use Rattle.relay.specs.Sheets.{acknowledged};

use crate::relay::Relay;
use banks::bank::Bank;
use records::answer::Answer;
use records::call::Call;
use records::line::Line;
use records::seat::Seat;
use values::kind::Kind;
use values::refusal::Refusal;

// The answer of a call that is only accepted or refused.
fn accepted<V: Kind>(answer: Result<(), Refusal>) -> Result<Answer<V>, Refusal>
    ensures answer { told V.Kind.code result ≡ acknowledged answer }
    ensures alike { is_err result ≡ is_err answer }
{
    answer.map(|()| Answer::Accepted)
}

impl<V: Kind, B: Bank<V>> Relay<V, B> {
    // Makes a call. (Each kind of call has arguments of its own and lends other sheets, so this is a match.)
    pub fn call(
        &mut self,
        seats: &mut [Seat<V>],
        lines: &mut [Line<V>],
        call: Call<V>,
    ) -> Result<Answer<V>, Refusal>
        ensures step { (relay_means V.Kind.code B.Bank.row self.new seats.new lines.new, told V.Kind.code result) ≡ relay_step (relay_means V.Kind.code B.Bank.row self.old seats.old lines.old) (call_means V.Kind.code call) }
        ensures beyond { BeyondAll (inner_of self.old).seats (length (B.Bank.row (bank_of self.old))) seats.old lines.old seats.new lines.new }
        ensures others { OnOk result (CallWrites (length (B.Bank.row (bank_of self.old))) (call_means V.Kind.code call) seats.old lines.old seats.new lines.new) }
        ensures refusal { is_err result ≡ true → (seats.new ≡ seats.old) × (lines.new ≡ lines.old) × (inner_of self.new ≡ inner_of self.old) × (bank_of self.new ≡ bank_of self.old) }
        ensures bank { BankStep B.Bank.puts B.Bank.removes (relay_means V.Kind.code B.Bank.row self.old seats.old lines.old) (call_means V.Kind.code call) (bank_of self.old) (bank_of self.new) }
    {
        match call {
            Call::BeginWrite(seat, value) => accepted(self.begin_write(seats, lines, seat, value)),
            Call::BeginRead(seat, settled) => accepted(self.begin_read(
                seats, lines, seat, settled,
            )),
            Call::Post(seat, provider) => accepted(self.post(seats, lines, seat, provider)),
            Call::Land(seat, provider) => accepted(self.land(seats, lines, seat, provider)),
            Call::Fetch(seat, provider) => self.fetch(seats, lines, seat, provider),
            Call::Stop(seat) => accepted(self.stop(seats, lines, seat)),
            Call::Lose(provider) => accepted(self.lose(seats, lines, provider)),
        }
    }
}
