// What every call checks first: the relay itself, the sheets, and the numbers of a seat and a provider.
ghost use Rattle.std.specs.Prelude.{◌≡◌, ◌-◌, ◌*◌, not, ◌||◌, if◌then◌else◌, Ok, Err, nat_lt};
ghost use Rattle.values.specs.Refusals.{refusal_number, numbered};
ghost use Rattle.protocol.specs.Steps.{outside};
ghost use Rattle.relay.specs.RelayState.{admission_of, bank_of, inner_of};

use crate::relay::Relay;
use banks::bank::Bank;
use values::kind::Kind;
use values::refusal::Refusal;

// The place, from 0 on, of number `number` of `count`, which are numbered from 1.
pub(crate) fn place_of(number: usize, count: usize, refusal: Refusal) -> Result<usize, Refusal>
    ensures { numbered result ≡ (if outside number count then Err (refusal_number refusal) else Ok (number - 1)) }
{
    if (1..=count).contains(&number) {
        Ok(number - 1)
    } else {
        Err(refusal)
    }
}

// Whether the sheets have a place for each of m seats and m × n lines.
fn sheets_fit(m: usize, n: usize, seats: usize, lines: usize) -> bool
    ensures { not result ≡ (nat_lt seats m || nat_lt lines (m * n)) }
{
    m.checked_mul(n)
        .is_some_and(|places| m <= seats && places <= lines)
}

impl<V: Kind, B: Bank<V>> Relay<V, B> {
    // The number of providers, if the relay takes calls and the sheets are long enough.
    pub(crate) fn admit(&self, seats: usize, lines: usize) -> Result<usize, Refusal>
        ensures { numbered result ≡ admission_of (B.Bank.row (bank_of self.now)) (inner_of self.now) seats lines }
    {
        if let Some(refusal) = self.inner.refused {
            return Err(refusal);
        }
        let n = self.bank.size();
        if !sheets_fit(self.inner.seats as usize, n, seats, lines) {
            return Err(Refusal::SheetTooShort);
        }
        Ok(n)
    }
}
