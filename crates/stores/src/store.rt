ghost use Rattle.std.specs.Prelude.{◌≡◌, ◌≤◌, ℕ, true, length, OnOk, OnErr};
ghost use Rattle.std.specs.Option.{option_map};
ghost use Rattle.values.specs.Rank.{rank};
ghost use Rattle.values.specs.Refusals.{numbered};
ghost use Rattle.stores.specs.Keyed.{ascending};
ghost use Rattle.stores.specs.Provider.{Provider, Cell, keys, cell};
ghost use Rattle.stores.specs.Operations.{put_answer, put_after, remove_after, get_answer, list_answer, list_sheet, pair_means};

use crate::stored::Stored;
use values::kind::Kind;
use values::refusal::Refusal;
use values::version::{Key, Version};

// A provider that stores values of one kind under keys. Its meaning, `provider`, is a capacity and a map.
pub trait Store<V: Kind> {
    ghost provider: { Self → Provider };

    // what one put of a cell that is carried out makes of the store itself
    ghost puts: { Self → Cell → Self → Type 0 };

    // what one remove of a key makes of it
    ghost removes: { Self → ℕ → Self → Type 0 };

    // How many keys the provider can hold.
    fn capacity(&self) -> usize
        ensures { result ≡ (provider self.now).capacity };

    // How many keys it holds.
    fn count(&self) -> usize
        ensures { result ≡ length (provider self.now).cells };

    // What it holds under a key, if anything.
    fn get(&self, key: Key) -> Option<Stored<V>>
        ensures { option_map (pair_means V.Kind.code) result ≡ get_answer (rank key) (provider self.now) };

    // Writes all keys, ascending, into the first places of the sheet, and answers how many there are. (There is no heap: the
    // caller lends the sheet.)
    fn list(&self, sheet: &mut [Key]) -> Result<usize, Refusal>
        ensures answer { numbered result ≡ list_answer (provider self.now) sheet.old }
        ensures after { sheet.new ≡ list_sheet (provider self.now) sheet.old };

    // Puts a version and a value under a key: over what it holds there, or as a new key if there is room. (They are two
    // parameters and no `Stored<V>`: with that, the check asked each implementation to write these clauses out again.)
    fn put(&mut self, key: Key, version: Version, value: V) -> Result<(), Refusal>
        ensures answer { numbered result ≡ put_answer (cell key version (V.Kind.code value)) (provider self.old) }
        ensures after { provider self.new ≡ put_after (cell key version (V.Kind.code value)) (provider self.old) }
        ensures refusal { OnErr result (self.new ≡ self.old) }
        ensures once { OnOk result (puts self.old (cell key version (V.Kind.code value)) self.new) };

    // Takes a key out, if it is there.
    fn remove(&mut self, key: Key)
        ensures after { provider self.new ≡ remove_after (rank key) (provider self.old) }
        ensures once { removes self.old (rank key) self.new };

    // Its map is no larger than its capacity, and ascending.
    ghost few: { (s : Self) → length (provider s).cells ≤ (provider s).capacity };

    ghost sorted: { (s : Self) → ascending (keys (provider s)) ≡ true };
}

// A provider that is lent is a provider.
impl<'r, V: Kind, S: Store<V>> Store<V> for &'r mut S {
    ghost provider = { λ s. S.Store.provider s.now };

    ghost puts = { λ s c t. S.Store.puts s.now c t.now };

    ghost removes = { λ s k t. S.Store.removes s.now k t.now };

    ghost few = { λ s. S.Store.few s.now };

    ghost sorted = { λ s. S.Store.sorted s.now };

    fn capacity(&self) -> usize {
        (**self).capacity()
    }

    fn count(&self) -> usize {
        (**self).count()
    }

    fn get(&self, key: Key) -> Option<Stored<V>> {
        (**self).get(key)
    }

    fn list(&self, sheet: &mut [Key]) -> Result<usize, Refusal> {
        (**self).list(sheet)
    }

    fn put(&mut self, key: Key, version: Version, value: V) -> Result<(), Refusal> {
        (**self).put(key, version, value)
    }

    fn remove(&mut self, key: Key) {
        (**self).remove(key)
    }
}
