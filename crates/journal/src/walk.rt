// Walks over the records of a log.
ghost use Rattle.std.specs.Prelude.{◌≡◌, length, IfSome};
ghost use Rattle.std.specs.Option.{option_map};
ghost use Rattle.values.specs.Rank.{rank};
ghost use Rattle.stores.specs.Keyed.{element_of};
ghost use Rattle.stores.specs.Provider.{cell_key};
ghost use Rattle.journal.specs.Log.{log, mentions, replay};
ghost use Rattle.journal.specs.Record.{record_cell, record_value};
ghost use Rattle.journal.specs.Walk.{is_live};

use crate::record::Record;
use crate::records::Records;
use values::version::Key;

// The last record with the key, if it is a put.
pub(crate) fn find<'a>(records: Records<'a>, key: Key) -> Option<Record<'a>>
    ensures seen { option_map (λ r. record_cell r.bytes.now) result ≡ element_of cell_key (rank key) (replay (log records.entry.width records.entry.bytes.now)) }
    ensures wide { IfSome result (λ r. length (record_value r.bytes.now) ≡ records.entry.width) }
{
    let mut found = None;
    for record in records {
        if record.has_key(key) {
            found = record.is_put().then_some(record);
        }
    }
    found
}

// Whether one of the records has the key.
fn is_mentioned(mut records: Records, key: Key) -> bool
    ensures { result ≡ mentions (rank key) (log records.entry.width records.entry.bytes.now) }
{
    records.any(|record| record.has_key(key))
}

// Whether a record is live: a put, and none of the later records has its key.
pub(crate) fn is_live(record: &Record, later: Records) -> bool
    ensures { result ≡ is_live «record».now.bytes.now (log later.entry.width later.entry.bytes.now) }
{
    record.is_put() && !is_mentioned(later, record.key())
}
