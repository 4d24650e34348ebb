// Appending a record to a log, and what a put and a remove append.
ghost use Rattle.std.specs.Prelude.{◌≡◌, ◌≤◌, true, length, is_some, OnErr};
ghost use Rattle.values.specs.Rank.{rank};
ghost use Rattle.values.specs.Refusals.{outcome};
ghost use Rattle.stores.specs.Keyed.{element_of};
ghost use Rattle.stores.specs.Provider.{cell, cell_key};
ghost use Rattle.stores.specs.Operations.{put_answer};
ghost use Rattle.journal.specs.Record.{whole};
ghost use Rattle.journal.specs.Log.{step, replay, appended};
ghost use Rattle.journal.specs.Contents.{raw, with_records, put_log, remove_log};
ghost use Rattle.journal.specs.Held.{contents_of};
ghost use Rattle.journal.specs.Walk.{encoding};

use crate::journal::Journal;
use crate::new_record::NewRecord;
use crate::walk::find;
use values::refusal::Refusal;
use values::version::{Key, Version};

impl<'a> Journal<'a> {
    // Appends a record, after packing if it does not fit. The map then has `count` keys.
    fn append(&mut self, new: &NewRecord, count: usize)
        requires whole { whole self.old.width (encoding new.now) ≡ true }
        requires counted { count ≡ length (step (encoding new.now) (replay (contents_of self.old).records)) }
        requires few { count ≤ self.old.room }
        requires some { 1 ≤ self.old.room }
        ensures { contents_of self.new ≡ with_records (contents_of self.old) (appended (contents_of self.old).size (encoding new.now) (contents_of self.old).records) }
    {
        if self.bytes.len() - self.used < new.len() {
            self.pack();
        }
        self.used = new.write(self.bytes, self.used);
        self.count = count;
    }

    // Whether the map has the key.
    fn is_present(&self, key: Key) -> bool
        ensures { result ≡ is_some (element_of cell_key (rank key) (replay (contents_of self.now).records)) }
    {
        find(self.records(), key).is_some()
    }

    // Puts a version and a value, by its bytes, under a key.
    pub(crate) fn put_bytes(
        &mut self,
        key: Key,
        version: Version,
        value: &[u8],
    ) -> Result<(), Refusal>
        requires { length value.now ≡ self.old.width }
        ensures answer { outcome (λ _. tt) result ≡ put_answer (cell key version value.now) (raw (contents_of self.old)) }
        ensures refusal { OnErr result (self.new ≡ self.old) }
        ensures after { contents_of self.new ≡ with_records (contents_of self.old) (put_log (cell key version value.now) (contents_of self.old)) }
    {
        let present = self.is_present(key);
        if !present && self.count == self.room {
            return Err(Refusal::StoreFull);
        }
        let count = if present { self.count } else { self.count + 1 };
        self.append(&NewRecord::of_put(key, version, value), count);
        Ok(())
    }

    // Takes a key out, if it is there.
    pub(crate) fn remove_key(&mut self, key: Key)
        ensures { contents_of self.new ≡ with_records (contents_of self.old) (remove_log (rank key) (contents_of self.old)) }
    {
        if self.is_present(key) {
            self.append(&NewRecord::of_remove(key), self.count - 1);
        }
    }
}
