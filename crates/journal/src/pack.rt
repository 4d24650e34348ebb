// Packing: the live records move to the front, in their order, and the bytes after them become zero.
ghost use Rattle.std.specs.Prelude.{◌≡◌, ◌+◌, ◌≤◌, true, length, take};
ghost use Rattle.journal.specs.Log.{log, sound, live};
ghost use Rattle.journal.specs.Walk.{packed, Logged};

use crate::records::Records;

// Moves the live records to the front, in their order, and answers where they end. A record is live if it is a put and
// no later record has its key. (The walk goes by place, and not over one iterator, since it writes the bytes it walks over. The
// search of the later records stands here, left by a label at the first hit, though `is_live` says the same: the project keeps
// this form of packing.)
fn compact(bytes: &mut [u8], w: usize) -> usize
    requires narrow { w ≤ 64 }
    requires whole { sound w (log w bytes.old) ≡ true }
    ensures within { result ≤ length bytes.old }
    ensures front { take result bytes.new ≡ packed w bytes.old }
{
    let mut to = 0;
    let mut at = 0;
    'records: while let Some(record) = Records::new(&bytes[at..], w).next() {
        let from = at;
        at += record.bytes.len();
        if !record.is_put() {
            continue 'records;
        }
        let key = record.key();
        for later in Records::new(&bytes[at..], w) {
            if later.has_key(key) {
                continue 'records;
            }
        }
        bytes.copy_within(from..at, to);
        to += at - from;
    }
    to
}

// Packs the log in the first `used` bytes, and answers where it then ends.
pub(crate) fn pack(bytes: &mut [u8], used: usize, w: usize) -> usize
    requires narrow { w ≤ 64 }
    requires log { Logged w used bytes.old (log w (take used bytes.old)) }
    ensures { Logged w result bytes.new (live (log w (take used bytes.old))) }
{
    let to = compact(&mut bytes[..used], w);
    bytes[to..].fill(0);
    to
}
