ghost use Rattle.std.specs.Prelude.{◌≡◌, [], refl};
ghost use Rattle.std.proofs.Common.{rules};

use stores::store::Store;
use stores::stored::Stored;
use values::kind::Kind;
use values::refusal::Refusal;
use values::version::{Key, Version};

// A provider that can hold no key.
#[derive(Clone, Copy)]
pub struct Closed;

impl<V: Kind> Store<V> for Closed {
    ghost provider = { λ _. record { capacity = 0; cells = [] } };

    ghost puts = { λ _ _ _. ⊥ };

    ghost removes = { λ s _ t. t ≡ s };

    ghost few = { λ _. Prim.search rules };

    ghost sorted = { λ _. refl };

    fn capacity(&self) -> usize {
        0
    }

    fn count(&self) -> usize {
        0
    }

    fn get(&self, key: Key) -> Option<Stored<V>> {
        None
    }

    fn list(&self, sheet: &mut [Key]) -> Result<usize, Refusal> {
        Ok(0)
    }

    fn put(&mut self, key: Key, version: Version, value: V) -> Result<(), Refusal> {
        Err(Refusal::StoreFull)
    }

    fn remove(&mut self, key: Key) {}
}
