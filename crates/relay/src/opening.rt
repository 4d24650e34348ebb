// Opening a relay.
ghost use Rattle.std.specs.Prelude.{◌≡◌, ◌-◌, ◌*◌, ◌≤◌, true, length, drop, is_err, replicate, OnOk, slice_index_or};
ghost use Rattle.values.specs.Refusals.{numbered};
ghost use Rattle.banks.specs.Row.{has, absent, size_of};
ghost use Rattle.relay.specs.Opening.{suits, is_empty, first_are, open_check, opened, FirstRecordsBlank};
ghost use Rattle.relay.specs.RelayState.{relay_means, bank_of};
ghost use Rattle.relay.specs.Sheets.{seats_mean, lines_mean};

use crate::inner::Inner;
use crate::relay::Relay;
use banks::bank::Bank;
use records::line::Line;
use records::seat::Seat;
use std::marker::PhantomData;
use values::kind::Kind;
use values::refusal::Refusal;

// Whether open accepts the capacity of provider i for m seats. (That there is a provider i is asked for here and in
// `is_unused`: each is called in one place, in a loop over the numbers that there are.)
fn is_suitable<V: Kind, B: Bank<V>>(bank: &B, i: usize, m: usize) -> bool
    requires has { has i (B.Bank.row bank.now) ≡ true }
    requires seats { m ≤ 16 }
    ensures { result ≡ suits m (slice_index_or (B.Bank.row bank.now) (i - 1) absent) }
{
    bank.capacity(i)
        .is_ok_and(|capacity| m + 2 <= capacity && capacity <= 32)
}

// Whether provider i holds no key.
fn is_unused<V: Kind, B: Bank<V>>(bank: &B, i: usize) -> bool
    requires { has i (B.Bank.row bank.now) ≡ true }
    ensures { result ≡ is_empty (slice_index_or (B.Bank.row bank.now) (i - 1) absent) }
{
    bank.count(i).is_ok_and(|count| count == 0)
}

// Whether open accepts the capacity of each provider for m seats.
fn all_suitable<V: Kind, B: Bank<V>>(bank: &B, m: usize) -> bool
    requires { m ≤ 16 }
    ensures { result ≡ first_are (suits m) (B.Bank.row bank.now) (size_of (B.Bank.row bank.now)) }
{
    (0..bank.size()).all(|i| is_suitable::<V, B>(bank, i + 1, m))
}

// Whether no provider holds a key. (The two are functions of their own: with the tests as closures of `may_open` the proof
// did not close.)
fn all_unused<V: Kind, B: Bank<V>>(bank: &B) -> bool
    ensures { result ≡ first_are is_empty (B.Bank.row bank.now) (size_of (B.Bank.row bank.now)) }
{
    (0..bank.size()).all(|i| is_unused::<V, B>(bank, i + 1))
}

// Whether open accepts m seats over a bank, with sheets of so many places.
fn may_open<V: Kind, B: Bank<V>>(
    bank: &B,
    m: usize,
    seats: usize,
    lines: usize,
) -> Result<(), Refusal>
    ensures answer { numbered result ≡ open_check m (B.Bank.row bank.now) seats lines }
    ensures within { OnOk result ((m ≤ 16) × (m ≤ seats) × (m * size_of (B.Bank.row bank.now) ≤ lines)) }
{
    let n = bank.size();
    if m == 0 || m > 16 || n > 7 {
        return Err(Refusal::UnsupportedSize);
    }
    if seats < m || lines < m * n {
        return Err(Refusal::SheetTooShort);
    }
    if !all_suitable::<V, B>(bank, m) {
        return Err(Refusal::UnsuitableCapacity);
    }
    if !all_unused::<V, B>(bank) {
        return Err(Refusal::ProviderNotEmpty);
    }
    Ok(())
}

// Opens a relay of m seats over a bank, which it takes, and clears the first m seats and the first m × n lines. A refused
// open hands over a relay too, that answers the refusal to every call but shut.
pub fn open<V: Kind, B: Bank<V>>(
    bank: B,
    m: usize,
    seats: &mut [Seat<V>],
    lines: &mut [Line<V>],
) -> (Relay<V, B>, Result<(), Refusal>)
    ensures answer { numbered result.1 ≡ open_check m (B.Bank.row bank) (length seats.old) (length lines.old) }
    ensures bank { bank_of result.0 ≡ bank }
    ensures state { relay_means V.Kind.code B.Bank.row result.0 seats.new lines.new ≡ opened (open_check m (B.Bank.row bank) (length seats.old) (length lines.old)) m (V.Kind.code V.Kind.nothing) (B.Bank.row bank) (seats_mean V.Kind.code seats.old) (lines_mean V.Kind.code lines.old) }
    ensures cleared { OnOk result.1 (FirstRecordsBlank V.Kind.nothing m (m * size_of (B.Bank.row bank)) seats.new lines.new) }
    ensures beyond { (drop m seats.new ≡ drop m seats.old) × (drop (m * size_of (B.Bank.row bank)) lines.new ≡ drop (m * size_of (B.Bank.row bank)) lines.old) }
    ensures refusal { is_err result.1 ≡ true → (seats.new ≡ seats.old) × (lines.new ≡ lines.old) }
{
    match may_open::<V, B>(&bank, m, seats.len(), lines.len()) {
        Ok(()) => {
            let seat = Seat::blank();
            let line = Line::blank();
            seats[..m].fill_with(|| seat);
            lines[..m * bank.size()].fill_with(|| line);
            let inner = Inner::new(None, m as u8);
            let kind = PhantomData;
            (Relay { bank, inner, kind }, Ok(()))
        }
        Err(refusal) => {
            let inner = Inner::new(Some(refusal), 0);
            let kind = PhantomData;
            (Relay { bank, inner, kind }, Err(refusal))
        }
    }
}
