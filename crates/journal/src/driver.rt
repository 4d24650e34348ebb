ghost use Rattle.std.specs.Prelude.{◌≡◌, ℕ, List, length, OnOk, OnErr};
ghost use Rattle.values.specs.Rank.{rank};
ghost use Rattle.values.specs.Refusals.{numbered};
ghost use Rattle.stores.specs.Provider.{cell};
ghost use Rattle.stores.specs.Operations.{put_answer, put_after, remove_after};
ghost use Rattle.journal.specs.Contents.{room_in, Largest, empty, serves, put_contents, remove_contents, pack_contents};
ghost use Rattle.journal.specs.Normal.{normal, provider_of};
ghost use Rattle.journal.specs.Held.{contents_of, Holds};
ghost use Rattle.journal.specs.Lawful.{few_cells, sorted_cells};

use crate::journal::Journal;
use crate::keys::list_in;
use crate::pack::pack;
use crate::walk::find;
use stores::store::Store;
use stores::stored::Stored;
use values::kind::Kind;
use values::refusal::Refusal;
use values::version::{Key, Version};

// How many keys `n` bytes can hold with values of a kind.
fn room_in<V: Kind>(n: usize) -> usize
    ensures is { result ≡ room_in V.Kind.WIDTH n }
    ensures most { Largest V.Kind.WIDTH n result }
{
    (n / (13 + V::WIDTH)).saturating_sub(1).min(32)
}

// The value that the bytes mean, or the blank value where they mean none.
fn restore<V: Kind>(bytes: &[u8]) -> V
    requires { length bytes.now ≡ V.Kind.WIDTH }
    ensures { V.Kind.code result ≡ normal V.Kind.decoded V.Kind.coded (V.Kind.code V.Kind.nothing) bytes.now }
{
    V::read(bytes).unwrap_or(V::blank())
}

impl<'a> Journal<'a> {
    // A journal without records for values of one kind, over bytes that it makes zero.
    pub fn new<V: Kind>(bytes: &'a mut [u8]) -> Journal<'a>
        ensures log { Holds result (empty V.Kind.WIDTH (length bytes.old)) }
        ensures room { Largest V.Kind.WIDTH (length bytes.old) (contents_of result).room }
    {
        let room = room_in::<V>(bytes.len());
        bytes.fill(0);
        Journal {
            bytes,
            width: V::WIDTH,
            room,
            used: 0,
            count: 0,
        }
    }

    // Packs the log: only the live records stay. A put or a remove does this itself where its record does not fit.
    pub fn pack(&mut self)
        ensures log { Holds self.new (pack_contents (contents_of self.old)) }
        ensures same { (wide : ℕ) (f : List ℕ → List ℕ) → provider_of wide f (contents_of self.new) ≡ provider_of wide f (contents_of self.old) }
    {
        self.used = pack(self.bytes, self.used, self.width);
    }

    // Whether it serves the values of a kind.
    fn serves<V: Kind>(&self) -> bool
        ensures { result ≡ serves V.Kind.WIDTH (contents_of self.now) }
    {
        self.width == V::WIDTH
    }
}

// The same bytes serve every kind of the journal's width. For a kind of another width the journal has capacity 0, holds
// nothing, refuses every put, and stays as it is.
impl<'a, V: Kind> Store<V> for Journal<'a> {
    ghost provider = { λ j. provider_of V.Kind.WIDTH (normal V.Kind.decoded V.Kind.coded (V.Kind.code V.Kind.nothing)) (contents_of j) };

    ghost puts = { λ j c k. Holds k (put_contents V.Kind.WIDTH c (contents_of j)) };

    ghost removes = { λ j key k. Holds k (remove_contents V.Kind.WIDTH key (contents_of j)) };

    ghost few = { λ j. few_cells V.Kind.WIDTH (normal V.Kind.decoded V.Kind.coded (V.Kind.code V.Kind.nothing)) j };

    ghost sorted = { λ j. sorted_cells V.Kind.WIDTH (normal V.Kind.decoded V.Kind.coded (V.Kind.code V.Kind.nothing)) j };

    fn capacity(&self) -> usize {
        if self.serves::<V>() { self.room } else { 0 }
    }

    fn count(&self) -> usize {
        if self.serves::<V>() { self.count } else { 0 }
    }

    fn get(&self, key: Key) -> Option<Stored<V>> {
        if !self.serves::<V>() {
            return None;
        }
        let record = find(self.records(), key)?;
        Some(Stored {
            version: record.version(),
            value: restore(record.value()),
        })
    }

    fn list(&self, sheet: &mut [Key]) -> Result<usize, Refusal> {
        if !self.serves::<V>() {
            return Ok(0);
        }
        if sheet.len() < self.count {
            return Err(Refusal::KeySheetTooShort);
        }
        list_in(self.records(), sheet);
        Ok(self.count)
    }

    fn put(&mut self, key: Key, version: Version, value: V) -> Result<(), Refusal>
        ensures answer { numbered result ≡ put_answer (cell key version (V.Kind.code value)) (⟦<Self as Store<V>>⟧.provider self.old) }
        ensures after { ⟦<Self as Store<V>>⟧.provider self.new ≡ put_after (cell key version (V.Kind.code value)) (⟦<Self as Store<V>>⟧.provider self.old) }
        ensures refusal { OnErr result (self.new ≡ self.old) }
        ensures once { OnOk result (⟦<Self as Store<V>>⟧.puts self.old (cell key version (V.Kind.code value)) self.new) }
        ensures log { Holds self.new (put_contents V.Kind.WIDTH (cell key version (V.Kind.code value)) (contents_of self.old)) }
    {
        if !self.serves::<V>() {
            return Err(Refusal::StoreFull);
        }
        // There is no heap, and a value has at most 64 bytes.
        let mut buffer = [0; 64];
        let sheet = &mut buffer[..V::WIDTH];
        let _ = value.write(sheet);
        self.put_bytes(key, version, sheet)
    }

    fn remove(&mut self, key: Key)
        ensures after { ⟦<Self as Store<V>>⟧.provider self.new ≡ remove_after (rank key) (⟦<Self as Store<V>>⟧.provider self.old) }
        ensures once { Holds self.new (remove_contents V.Kind.WIDTH (rank key) (contents_of self.old)) }
    {
        if self.serves::<V>() {
            self.remove_key(key);
        }
    }
}
