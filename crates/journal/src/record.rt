ghost use Rattle.std.specs.Prelude.{◌≡◌, ◌+◌, ◌≤◌, true, length, ◌==◌};
ghost use Rattle.values.specs.Rank.{rank};
ghost use Rattle.journal.specs.Forms.{known, form};
ghost use Rattle.journal.specs.Record.{bit_map, rank_at, record_key, record_version, record_value, is_put};

use crate::form::Form;
use crate::forms::form_of;
use values::version::{Key, Version};

// A record of a log, as its bytes. It begins with a bit map that is one, and has the key and the version that this names.
#[derive(Clone, Copy, Drop)]
pub(crate) struct Record<'a> {
    pub(crate) bytes: &'a [u8],
    ghost begun: { known (bit_map bytes.now) ≡ true },
    ghost long: { 1 + (form (bit_map bytes.now)).length ≤ length bytes.now },
}

// The key or the version in the six bytes from `at` on. (No `From` of six bytes: the trait and both types are of other crates,
// so it could stand only in `values`, and would be public there.)
fn version_at(bytes: &[u8], at: usize) -> Version
    requires { at + 6 ≤ length bytes.now }
    ensures { rank result ≡ rank_at at bytes.now }
{
    let number = u32::from_le_bytes([bytes[at], bytes[at + 1], bytes[at + 2], bytes[at + 3]]);
    let seat = u16::from_le_bytes([bytes[at + 4], bytes[at + 5]]);
    Version { number, seat }
}

impl<'a> Record<'a> {
    fn form(&self) -> Form
        ensures { result ≡ form (bit_map self.now.bytes.now) }
    {
        form_of(self.bytes[0])
    }

    pub(crate) fn is_put(&self) -> bool
        ensures { result ≡ is_put self.now.bytes.now }
    {
        self.form().value
    }

    pub(crate) fn key(&self) -> Key
        ensures { rank result ≡ record_key self.now.bytes.now }
    {
        if self.form().key {
            version_at(self.bytes, 1)
        } else {
            Version::STANDING
        }
    }

    pub(crate) fn has_key(&self, key: Key) -> bool
        ensures { result ≡ (record_key self.now.bytes.now == rank key) }
    {
        self.key() == key
    }

    pub(crate) fn version(&self) -> Version
        ensures { rank result ≡ record_version self.now.bytes.now }
    {
        let form = self.form();
        if form.version {
            version_at(self.bytes, if form.key { 7 } else { 1 })
        } else {
            self.key()
        }
    }

    pub(crate) fn value(&self) -> &'a [u8]
        ensures { result.now ≡ record_value self.now.bytes.now }
    {
        &self.bytes[1 + self.form().length..]
    }
}
