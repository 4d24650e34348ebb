// Writing one record.
ghost use Rattle.std.specs.Prelude.{◌≡◌, ◌+◌, ◌≤◌, length, ◌==◌};
ghost use Rattle.values.specs.Rank.{rank};
ghost use Rattle.stores.specs.Provider.{cell};
ghost use Rattle.journal.specs.Record.{six_bytes, field as as_field, put_map, remove_map, put_record, remove_record};
ghost use Rattle.journal.specs.Walk.{encoding, overlay};

use crate::forms::{form_of, size_of};
use crate::new_record::NewRecord;
use values::version::{Key, Version};

// The six bytes of a key or a version. (No `From`: the trait and both types are of other crates, so it could stand only in
// `values`, and would be public there.)
fn six_bytes(version: Version) -> [u8; 6]
    ensures { result ≡ six_bytes (rank version) }
{
    let [n0, n1, n2, n3] = version.number.to_le_bytes();
    let [s0, s1] = version.seat.to_le_bytes();
    [n0, n1, n2, n3, s0, s1]
}

// Writes a field at `at`, if it stands, and answers where it ends. (Whether it stands is a flag of the record's form; an
// `Option` would be made of the flag and the field at each call.)
fn write_field(bytes: &mut [u8], at: usize, stands: bool, field: &[u8]) -> usize
    requires { at + length (as_field stands field.now) ≤ length bytes.old }
    ensures size { result ≡ at + length (as_field stands field.now) }
    ensures after { bytes.new ≡ overlay at (as_field stands field.now) bytes.old }
{
    if !stands {
        return at;
    }
    bytes[at..at + field.len()].copy_from_slice(field);
    at + field.len()
}

// The bit map of a put: the standing key, and a version that equals the key, are left out. (It is a number, since it is the
// byte that is written, and the place in the table of forms.)
fn map_of_put(key: Key, version: Version) -> u8
    ensures { result ≡ put_map (rank key == 0) (rank version == rank key) }
{
    match (key == Version::STANDING, version == key) {
        (true, true) => 4,
        (false, true) => 5,
        (true, false) => 6,
        (false, false) => 7,
    }
}

// The bit map of a remove: the standing key is left out.
fn map_of_remove(key: Key) -> u8
    ensures { result ≡ remove_map (rank key == 0) }
{
    if key == Version::STANDING { 0 } else { 1 }
}

impl<'v> NewRecord<'v> {
    // The record of a put.
    pub(crate) fn of_put(key: Key, version: Version, value: &'v [u8]) -> NewRecord<'v>
        requires { length value.now ≤ 64 }
        ensures { encoding result ≡ put_record (cell key version value.now) }
    {
        NewRecord {
            map: map_of_put(key, version),
            key,
            version,
            value,
        }
    }

    // The record of a remove.
    pub(crate) fn of_remove(key: Key) -> NewRecord<'v>
        ensures { encoding result ≡ remove_record (rank key) }
    {
        NewRecord {
            map: map_of_remove(key),
            key,
            version: key,
            value: &[],
        }
    }

    pub(crate) fn len(&self) -> usize
        ensures { result ≡ length (encoding self.now) }
    {
        size_of(self.map, self.value.len())
    }

    // Writes the record at `at`, and answers where it ends.
    pub(crate) fn write(&self, bytes: &mut [u8], at: usize) -> usize
        requires { at + length (encoding self.now) ≤ length bytes.old }
        ensures size { result ≡ at + length (encoding self.now) }
        ensures after { bytes.new ≡ overlay at (encoding self.now) bytes.old }
    {
        let form = form_of(self.map);
        bytes[at] = self.map;
        let mid = write_field(bytes, at + 1, form.key, &six_bytes(self.key));
        let to = write_field(bytes, mid, form.version, &six_bytes(self.version));
        write_field(bytes, to, form.value, self.value)
    }
}
