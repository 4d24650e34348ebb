ghost use Rattle.std.specs.Prelude.{length};
ghost use Rattle.values.specs.Rank.{rank};
ghost use Rattle.stores.specs.Provider.{cell};
ghost use Rattle.journal.specs.Forms.{TableOfBits};
ghost use Rattle.journal.specs.Record.{put_record, remove_record};
ghost use Rattle.journal.specs.Codec.{ReadsPut, ReadsRemove};

use values::version::{Key, Version};

// Does nothing. Its contract says that a record that is written and then read is that record, for every key, version and
// value, and that its length is the table's; and that the table is what the bits of the bit maps say.
pub fn codec_lawful(key: Key, version: Version, value: &[u8])
    ensures put { ReadsPut (length value.now) (put_record (cell key version value.now)) (cell key version value.now) }
    ensures remove { ReadsRemove (length value.now) (remove_record (rank key)) (rank key) }
    ensures table { TableOfBits }
{}
