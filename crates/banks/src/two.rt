ghost use Rattle.std.specs.Prelude.{◌-◌, ◌++◌, length};
ghost use Rattle.std.proofs.ByRecursion.{All-append};
ghost use Rattle.banks.specs.Sides.{Leads, OneSide};
ghost use Rattle.banks.specs.Sound.{Sound, some_joined};

use crate::bank::Bank;
use crate::side::Side;
use stores::stored::Stored;
use values::kind::Kind;
use values::refusal::Refusal;
use values::version::{Key, Version};

// Two banks as one. The providers of the left one come first, and those of the right one are numbered on from there.
#[derive(Drop)]
pub struct Two<L, R> {
    pub left: L,
    pub right: R,
}

// Where number i of two banks leads. A number that no provider has leads to a bank that refuses it. (Each operation goes
// on by a match: a function that took the operation as a closure for each side would be no shorter at its calls.)
fn side<V: Kind, L: Bank<V>, R: Bank<V>>(bank: &Two<L, R>, i: usize) -> Side
    ensures { Leads result i (L.Bank.row bank.now.left) (R.Bank.row bank.now.right) }
{
    let n = bank.left.size();
    if i <= n {
        Side::Left
    } else {
        Side::Right(i - n)
    }
}

impl<V: Kind, L: Bank<V>, R: Bank<V>> Bank<V> for Two<L, R> {
    ghost row = { λ b. L.Bank.row b.left ++ R.Bank.row b.right };

    ghost puts = { λ b i c d. OneSide (λ l. L.Bank.puts l i c) (λ r. R.Bank.puts r (i - length (L.Bank.row b.left)) c) b d };

    ghost removes = { λ b i k d. OneSide (λ l. L.Bank.removes l i k) (λ r. R.Bank.removes r (i - length (L.Bank.row b.left)) k) b d };

    ghost some = { λ b. some_joined (L.Bank.row b.left) (R.Bank.row b.right) (L.Bank.some b.left) };

    ghost sound = { λ b. All-append Sound (L.Bank.row b.left) (R.Bank.row b.right) (L.Bank.sound b.left) (R.Bank.sound b.right) };

    fn size(&self) -> usize {
        self.left.size().saturating_add(self.right.size())
    }

    fn capacity(&self, i: usize) -> Result<usize, Refusal> {
        match side::<V, L, R>(self, i) {
            Side::Left => self.left.capacity(i),
            Side::Right(k) => self.right.capacity(k),
        }
    }

    fn count(&self, i: usize) -> Result<usize, Refusal> {
        match side::<V, L, R>(self, i) {
            Side::Left => self.left.count(i),
            Side::Right(k) => self.right.count(k),
        }
    }

    fn get(&self, i: usize, key: Key) -> Result<Option<Stored<V>>, Refusal> {
        match side::<V, L, R>(self, i) {
            Side::Left => self.left.get(i, key),
            Side::Right(k) => self.right.get(k, key),
        }
    }

    fn list(&self, i: usize, sheet: &mut [Key]) -> Result<usize, Refusal> {
        match side::<V, L, R>(self, i) {
            Side::Left => self.left.list(i, sheet),
            Side::Right(k) => self.right.list(k, sheet),
        }
    }

    fn put(&mut self, i: usize, key: Key, version: Version, value: V) -> Result<(), Refusal> {
        match side::<V, L, R>(self, i) {
            Side::Left => self.left.put(i, key, version, value),
            Side::Right(k) => self.right.put(k, key, version, value),
        }
    }

    fn remove(&mut self, i: usize, key: Key) -> Result<(), Refusal> {
        match side::<V, L, R>(self, i) {
            Side::Left => self.left.remove(i, key),
            Side::Right(k) => self.right.remove(k, key),
        }
    }
}
