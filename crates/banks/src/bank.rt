ghost use Rattle.std.specs.Prelude.{◌≡◌, ◌≤◌, ℕ, List, length, Ok, OnOk, OnErr};
ghost use Rattle.std.specs.Option.{option_map};
ghost use Rattle.std.specs.List.{AllByRecursion};
ghost use Rattle.values.specs.Rank.{rank};
ghost use Rattle.values.specs.Refusals.{numbered, outcome};
ghost use Rattle.stores.specs.Provider.{Provider, Cell, cell};
ghost use Rattle.stores.specs.Operations.{put_answer, put_after, remove_after, get_answer, list_answer, list_sheet, pair_means};
ghost use Rattle.banks.specs.Row.{picked, answer_of, row_after, size_of};
ghost use Rattle.banks.specs.Sound.{Sound};

use stores::stored::Stored;
use values::kind::Kind;
use values::refusal::Refusal;
use values::version::{Key, Version};

// A row of providers, numbered from 1, that store values of one kind. Its meaning is the list of the providers' meanings.
// A call on a number that no provider has is refused by 6; a provider's own refusal comes up as it is. A call on one
// provider leaves the others unchanged.
pub trait Bank<V: Kind> {
    ghost row: { Self → List Provider };

    // what one put of a cell at provider i that is carried out makes of the bank itself
    ghost puts: { Self → ℕ → Cell → Self → Type 0 };

    // what one remove of a key at provider i makes of it
    ghost removes: { Self → ℕ → ℕ → Self → Type 0 };

    // How many providers there are.
    fn size(&self) -> usize
        ensures { result ≡ size_of (row self.now) };

    // How many keys provider i can hold.
    fn capacity(&self, i: usize) -> Result<usize, Refusal>
        ensures { numbered result ≡ answer_of i (row self.now) (λ p. Ok p.capacity) };

    // How many keys provider i holds.
    fn count(&self, i: usize) -> Result<usize, Refusal>
        ensures { numbered result ≡ answer_of i (row self.now) (λ p. Ok (length p.cells)) };

    // What provider i holds under a key, if anything.
    fn get(&self, i: usize, key: Key) -> Result<Option<Stored<V>>, Refusal>
        ensures { outcome (option_map (pair_means V.Kind.code)) result ≡ answer_of i (row self.now) (λ p. Ok (get_answer (rank key) p)) };

    // Writes all keys of provider i, ascending, into the first places of the sheet, and answers how many there are.
    fn list(&self, i: usize, sheet: &mut [Key]) -> Result<usize, Refusal>
        ensures answer { numbered result ≡ answer_of i (row self.now) (λ p. list_answer p sheet.old) }
        ensures after { sheet.new ≡ picked i (row self.now) (λ p. list_sheet p sheet.old) sheet.old };

    // Puts a version and a value under a key at provider i.
    fn put(&mut self, i: usize, key: Key, version: Version, value: V) -> Result<(), Refusal>
        ensures answer { numbered result ≡ answer_of i (row self.old) (put_answer (cell key version (V.Kind.code value))) }
        ensures after { row self.new ≡ row_after i (row self.old) (put_after (cell key version (V.Kind.code value))) }
        ensures refusal { OnErr result (self.new ≡ self.old) }
        ensures once { OnOk result (puts self.old i (cell key version (V.Kind.code value)) self.new) };

    // Takes a key out at provider i, if it is there.
    fn remove(&mut self, i: usize, key: Key) -> Result<(), Refusal>
        ensures answer { numbered result ≡ answer_of i (row self.old) (λ _. Ok tt) }
        ensures after { row self.new ≡ row_after i (row self.old) (remove_after (rank key)) }
        ensures refusal { OnErr result (self.new ≡ self.old) }
        ensures once { OnOk result (removes self.old i (rank key) self.new) };

    // It has a provider, and each provider's map is ascending and no larger than its capacity.
    ghost some: { (b : Self) → 1 ≤ length (row b) };

    ghost sound: { (b : Self) → AllByRecursion Sound (row b) };
}
