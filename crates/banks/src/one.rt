ghost use Rattle.std.specs.Prelude.{◌≡◌, [], ◌∷◌, if◌then◌else◌, Ok, Err, nat_eq};
ghost use Rattle.std.proofs.Common.{rules};
ghost use Rattle.values.specs.Refusals.{numbered};

use crate::bank::Bank;
use stores::store::Store;
use stores::stored::Stored;
use values::kind::Kind;
use values::refusal::Refusal;
use values::version::{Key, Version};

// A bank of one provider.
#[derive(Drop)]
pub struct One<S>(pub S);

// The one provider has number 1.
fn only(i: usize) -> Result<(), Refusal>
    ensures { numbered result ≡ (if nat_eq i 1 then Ok tt else Err 6) }
{
    if i == 1 {
        Ok(())
    } else {
        Err(Refusal::NoSuchProvider)
    }
}

impl<V: Kind, S: Store<V>> Bank<V> for One<S> {
    ghost row = { λ b. S.Store.provider b.0 ∷ [] };

    ghost puts = { λ b i c d. (i ≡ 1) × S.Store.puts b.0 c d.0 };

    ghost removes = { λ b i k d. (i ≡ 1) × S.Store.removes b.0 k d.0 };

    ghost some = { λ b. Prim.search rules };

    ghost sound = { λ b. (record { few = S.Store.few b.0; sorted = S.Store.sorted b.0 }, tt) };

    fn size(&self) -> usize {
        1
    }

    fn capacity(&self, i: usize) -> Result<usize, Refusal> {
        only(i)?;
        Ok(self.0.capacity())
    }

    fn count(&self, i: usize) -> Result<usize, Refusal> {
        only(i)?;
        Ok(self.0.count())
    }

    fn get(&self, i: usize, key: Key) -> Result<Option<Stored<V>>, Refusal> {
        only(i)?;
        Ok(self.0.get(key))
    }

    fn list(&self, i: usize, sheet: &mut [Key]) -> Result<usize, Refusal> {
        only(i)?;
        self.0.list(sheet)
    }

    fn put(&mut self, i: usize, key: Key, version: Version, value: V) -> Result<(), Refusal> {
        only(i)?;
        self.0.put(key, version, value)
    }

    fn remove(&mut self, i: usize, key: Key) -> Result<(), Refusal> {
        only(i)?;
        self.0.remove(key);
        Ok(())
    }
}
