ghost use Rattle.std.specs.Prelude.{◌≡◌};
ghost use Rattle.table.specs.Entries.{blank_entry};

use values::kind::Kind;
use values::version::{Key, Version};

// One place of a table: a key, and what is held under it. A place that is not used is blank: its key and version are
// (0, 0), and its value is the blank value. (Version and value stand apart, as `put` takes them.)
#[derive(Clone, Copy, PartialEq, Eq, Debug)]
pub struct Entry<V> {
    pub key: Key,
    pub version: Version,
    pub value: V,
}

impl<V: Kind> Entry<V> {
    // The entry of a place that is not used.
    pub fn blank() -> Entry<V>
        ensures { result ≡ blank_entry V.Kind.nothing }
    {
        Entry {
            key: Key::STANDING,
            version: Version::NONE,
            value: V::blank(),
        }
    }
}
