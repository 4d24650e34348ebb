ghost use Rattle.std.specs.Prelude.{◌≡◌, [], ◌∷◌};
ghost use Rattle.stores.specs.Keyed.{without};
ghost use Rattle.stores.specs.Provider.{cell_key};
ghost use Rattle.banks_tests.specs.Slots.{slot_cells, slot_few, slot_sorted};

use stores::store::Store;
use stores::stored::Stored;
use values::kind::Kind;
use values::refusal::Refusal;
use values::version::{Key, Version};

// A key with what is stored under it.
#[derive(Clone, Copy, PartialEq, Eq)]
pub struct Held<V> {
    pub key: Key,
    pub stored: Stored<V>,
}

// A provider that can hold one key.
#[derive(Clone, Copy, PartialEq, Eq)]
pub struct Slot<V> {
    pub held: Option<Held<V>>,
}

impl<V: Kind> Store<V> for Slot<V> {
    ghost provider = { λ s. record { capacity = 1; cells = slot_cells V.Kind.code s.held } };

    ghost puts = { λ _ c t. slot_cells V.Kind.code t.held ≡ c ∷ [] };

    ghost removes = { λ s k t. slot_cells V.Kind.code t.held ≡ without cell_key k (slot_cells V.Kind.code s.held) };

    ghost few = { λ s. slot_few V.Kind.code s.held };

    ghost sorted = { λ s. slot_sorted V.Kind.code s.held };

    fn capacity(&self) -> usize {
        1
    }

    fn count(&self) -> usize {
        usize::from(self.held.is_some())
    }

    fn get(&self, key: Key) -> Option<Stored<V>> {
        self.held
            .filter(|held| held.key.same(key))
            .map(|held| held.stored)
    }

    fn list(&self, sheet: &mut [Key]) -> Result<usize, Refusal> {
        let Some(held) = self.held else {
            return Ok(0);
        };
        if sheet.is_empty() {
            return Err(Refusal::KeySheetTooShort);
        }
        sheet[0] = held.key.ranked();
        Ok(1)
    }

    fn put(&mut self, key: Key, version: Version, value: V) -> Result<(), Refusal> {
        if self.held.is_some_and(|held| !held.key.same(key)) {
            return Err(Refusal::StoreFull);
        }
        let stored = Stored { version, value };
        self.held = Some(Held { key, stored });
        Ok(())
    }

    fn remove(&mut self, key: Key) {
        if self.held.is_some_and(|held| held.key.same(key)) {
            self.held = None;
        }
    }
}
