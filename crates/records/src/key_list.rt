ghost use Rattle.std.specs.Prelude.{◌≡◌, ◌+◌, ◌<◌, ◌≤◌, ◌||◌, [], ◌∷◌, ◌++◌, map, length, take, drop, ◌==◌, slice_index};
ghost use Rattle.values.specs.Rank.{rank};
ghost use Rattle.protocol.specs.Moves.{largest_key, keys_but};
ghost use Rattle.protocol.specs.Stages.{any_left};
ghost use Rattle.std.specs.Cmp.{on_equiv, and_equiv, nat_eq_equiv, partial_equiv_from_equiv};
ghost use Rattle.std.specs.Cmp.Lexicographic.{pointwise, lists_equiv};
ghost use Rattle.records.specs.Blanks.{no_keys};
ghost use Rattle.records.specs.Means.{keys_of, listed};

use values::version::Key;

// At most 32 keys: those from place `from` on and before place `end`. (A line is copied and has no heap, so they lie in an
// array; `as_slice` gives them.)
#[derive(Clone, Copy, Debug)]
pub struct KeyList {
    pub keys: [Key; 32],
    pub from: usize,
    pub end: usize,
}

// Whether a key is the standing key, or the other one.
fn skips(key: Key, other: Key) -> bool
    ensures { result ≡ (rank key == 0 || rank key == rank other) }
{
    key == Key::STANDING || key == other
}

impl KeyList {
    // No key, and the standing key in all 32 places.
    pub fn empty() -> KeyList
        ensures { result ≡ no_keys }
    {
        KeyList {
            keys: [Key::STANDING; 32],
            from: 0,
            end: 0,
        }
    }

    // The first so many of 32 keys.
    pub fn of(keys: [Key; 32], count: usize) -> KeyList
        ensures { listed result ≡ map rank (take count keys) }
    {
        KeyList {
            keys,
            from: 0,
            end: count,
        }
    }

    // The keys of the list, in order. A place past the 32 keys counts as their end.
    pub fn as_slice(&self) -> &[Key]
        ensures keys { result.now ≡ keys_of self.now }
        ensures ranks { map rank result.now ≡ listed self.now }
        ensures few { length result.now ≤ 32 }
    {
        let keys = &self.keys[..self.end.min(self.keys.len())];
        &keys[self.from.min(keys.len())..]
    }

    // Whether there is a key.
    pub fn any(&self) -> bool
        ensures { result ≡ any_left (listed self.now) }
    {
        !self.as_slice().is_empty()
    }

    // The first key, or the standing key where there is none.
    pub fn first(&self) -> Key
        ensures { rank result ≡ slice_index (listed self.now) 0 }
    {
        self.as_slice().first().copied().unwrap_or(Key::STANDING)
    }

    // The keys after the first.
    #[tactic(auto, using(crate::proofs::Dropping::place_further))]
    pub fn rest(self) -> KeyList
        ensures { listed result ≡ drop 1 (listed self) }
    {
        if self.from < self.end {
            KeyList {
                from: self.from + 1,
                ..self
            }
        } else {
            self
        }
    }

    // The largest key, or the standing key where there is none.
    pub fn largest(&self) -> Key
        ensures { rank result ≡ largest_key (listed self.now) }
    {
        let mut best = Key::STANDING;
        for key in self.as_slice() {
            best = best.later(*key);
        }
        best
    }

    // Adds a key, where there is a place for it.
    fn push(&mut self, key: Key)
        requires order { self.old.from ≤ self.old.end }
        requires room { self.old.end < 32 }
        ensures from { self.new.from ≡ self.old.from }
        ensures end { self.new.end ≡ self.old.end + 1 }
        ensures listed { listed self.new ≡ listed self.old ++ (rank key ∷ []) }
    {
        self.keys[self.end] = key;
        self.end += 1;
    }

    // The temporary keys but one.
    pub fn temporary_but(&self, other: Key) -> KeyList
        ensures { listed result ≡ keys_but (rank other) (listed self.now) }
    {
        let mut kept = KeyList::empty();
        for key in self.as_slice() {
            if !skips(*key, other) {
                kept.push(*key);
            }
        }
        kept
    }
}

// Two lists are equal where they list the same keys. (A derived `==` would compare the places too, and the keys past them.)
impl PartialEq for KeyList {
    ghost eq = { λ a b. pointwise ⟦<Key as PartialEq>⟧.eq (keys_of a) (keys_of b) };

    ghost laws = { partial_equiv_from_equiv (on_equiv keys_of (lists_equiv (and_equiv (on_equiv (λ k. k.number) nat_eq_equiv) (on_equiv (λ k. k.seat) nat_eq_equiv)))) };

    fn eq(&self, other: &KeyList) -> bool {
        self.as_slice() == other.as_slice()
    }
}

impl Eq for KeyList {
    ghost laws = { on_equiv keys_of (lists_equiv (and_equiv (on_equiv (λ k. k.number) nat_eq_equiv) (on_equiv (λ k. k.seat) nat_eq_equiv))) };
}
