// What is done at every provider of a bank, through the bank's interface alone: by number, from 1 on, as a bank has no slice
// of its providers. (A loop over `1..=n` was tried: it ends in two ways, which its proof has to tell apart.)

ghost use Rattle.std.specs.Prelude.{◌≡◌};
ghost use Rattle.values.specs.Rank.{rank};
ghost use Rattle.stores.specs.Operations.{remove_after};
ghost use Rattle.banks.specs.Row.{size_of};
ghost use Rattle.banks.specs.Whole.{all_after, total_keys, RemoveEach};

use crate::bank::Bank;
use values::kind::Kind;
use values::version::Key;

// How many keys the bank holds, at all its providers together.
pub fn total_count<V: Kind, B: Bank<V>>(bank: &B) -> usize
    ensures { result ≡ total_keys (B.Bank.row bank.now) }
{
    let mut total: usize = 0;
    for i in 0..bank.size() {
        total = total.saturating_add(bank.count(i + 1).unwrap_or(0));
    }
    total
}

// Takes a key out at every provider, once at each.
pub fn remove_everywhere<V: Kind, B: Bank<V>>(bank: &mut B, key: Key)
    ensures after { B.Bank.row bank.new ≡ all_after (B.Bank.row bank.old) (remove_after (rank key)) }
    ensures once { RemoveEach B.Bank.removes (rank key) (size_of (B.Bank.row bank.old)) bank.old bank.new }
{
    for place in 0..bank.size() {
        let _ = bank.remove(place + 1, key);
    }
}
