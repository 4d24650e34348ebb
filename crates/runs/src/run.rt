ghost use Rattle.std.specs.Prelude.{◌≡◌, ◌<◌, true, length, is_some, is_err, OnOk};
ghost use Rattle.values.specs.Refusals.{numbered};
ghost use Rattle.banks.specs.Row.{size_of};
ghost use Rattle.relay.specs.Effects.{BeyondAll};
ghost use Rattle.relay.specs.Opening.{open_check, opened};
ghost use Rattle.relay.specs.RelayState.{relay_means, bank_of, inner_of};
ghost use Rattle.relay.specs.Sheets.{seats_mean, lines_mean};
ghost use Rattle.runs.specs.Runs.{calls_in, calls_mean, answers_mean, run_answers, run_end, BankSteps, AlwaysLawful};

use banks::bank::Bank;
use records::call::Exchange;
use records::line::Line;
use records::seat::Seat;
use relay::opening::open;
use relay::relay::Relay;
use values::kind::Kind;
use values::refusal::Refusal;

// Makes the calls, in their order, and writes each answer beside its call.
fn make_calls<V: Kind, B: Bank<V>>(
    relay: &mut Relay<V, B>,
    seats: &mut [Seat<V>],
    lines: &mut [Line<V>],
    exchanges: &mut [Exchange<V>],
)
    ensures calls { calls_in exchanges.new ≡ calls_in exchanges.old }
    ensures answers { answers_mean V.Kind.code exchanges.new ≡ run_answers (relay_means V.Kind.code B.Bank.row relay.old seats.old lines.old) (calls_mean V.Kind.code exchanges.old) }
    ensures ended { relay_means V.Kind.code B.Bank.row relay.new seats.new lines.new ≡ run_end (relay_means V.Kind.code B.Bank.row relay.old seats.old lines.old) (calls_mean V.Kind.code exchanges.old) }
    ensures bank { BankSteps B.Bank.puts B.Bank.removes (relay_means V.Kind.code B.Bank.row relay.old seats.old lines.old) (calls_mean V.Kind.code exchanges.old) (bank_of relay.old) (bank_of relay.new) }
    ensures beyond { BeyondAll (inner_of relay.old).seats (length (B.Bank.row (bank_of relay.old))) seats.old lines.old seats.new lines.new }
    ensures refusal { is_some (inner_of relay.old).refused ≡ true → (seats.new ≡ seats.old) × (lines.new ≡ lines.old) × (inner_of relay.new ≡ inner_of relay.old) × (bank_of relay.new ≡ bank_of relay.old) }
{
    for exchange in exchanges.iter_mut() {
        let answer = relay.call(seats, lines, exchange.call);
        exchange.answer = answer;
    }
}

// Opens a relay of m seats over a bank, makes the calls in their order, and writes each answer beside its call. Hands over
// the relay, and whether open was accepted. If it was, what the calls answered and what they left obey, at every moment, the
// law of the register; if it was refused, each call's answer is that refusal, and nothing else changes.
pub fn run<V: Kind, B: Bank<V>>(
    bank: B,
    m: usize,
    seats: &mut [Seat<V>],
    lines: &mut [Line<V>],
    exchanges: &mut [Exchange<V>],
) -> (Relay<V, B>, Result<(), Refusal>)
    ensures accepted { numbered result.1 ≡ open_check m (B.Bank.row bank) (length seats.old) (length lines.old) }
    ensures calls { calls_in exchanges.new ≡ calls_in exchanges.old }
    ensures answers { answers_mean V.Kind.code exchanges.new ≡ run_answers (opened (numbered result.1) m (V.Kind.code V.Kind.nothing) (B.Bank.row bank) (seats_mean V.Kind.code seats.old) (lines_mean V.Kind.code lines.old)) (calls_mean V.Kind.code exchanges.old) }
    ensures ended { relay_means V.Kind.code B.Bank.row result.0 seats.new lines.new ≡ run_end (opened (numbered result.1) m (V.Kind.code V.Kind.nothing) (B.Bank.row bank) (seats_mean V.Kind.code seats.old) (lines_mean V.Kind.code lines.old)) (calls_mean V.Kind.code exchanges.old) }
    ensures bank { BankSteps B.Bank.puts B.Bank.removes (opened (numbered result.1) m (V.Kind.code V.Kind.nothing) (B.Bank.row bank) (seats_mean V.Kind.code seats.old) (lines_mean V.Kind.code lines.old)) (calls_mean V.Kind.code exchanges.old) bank (bank_of result.0) }
    ensures beyond { BeyondAll m (size_of (B.Bank.row bank)) seats.old lines.old seats.new lines.new }
    ensures refusal { is_err result.1 ≡ true → (seats.new ≡ seats.old) × (lines.new ≡ lines.old) × (bank_of result.0 ≡ bank) }
    ensures lawful { OnOk result.1 (AlwaysLawful m (length (B.Bank.row bank)) (opened (numbered result.1) m (V.Kind.code V.Kind.nothing) (B.Bank.row bank) (seats_mean V.Kind.code seats.old) (lines_mean V.Kind.code lines.old)) (calls_mean V.Kind.code exchanges.old) (answers_mean V.Kind.code exchanges.new)) }
{
    let (mut relay, accepted) = open(bank, m, seats, lines);
    make_calls(&mut relay, seats, lines, exchanges);
    (relay, accepted)
}
