ghost use Rattle.std.specs.Prelude.{◌≡◌, ◌≤◌, true, length};
ghost use Rattle.journal.specs.Forms.{known};

use values::version::{Key, Version};

// A record to be written: its bit map, and beside it the fields as they are passed to `encoded`, which writes those that the
// bit map names. Of a remove the version and the value are not written.
#[derive(Clone, Copy, Drop)]
pub struct NewRecord<'v> {
    pub(crate) map: u8,
    pub(crate) key: Key,
    pub(crate) version: Version,
    pub(crate) value: &'v [u8],
    ghost begun: { known map ≡ true },
    ghost short: { length value.now ≤ 64 },
}
