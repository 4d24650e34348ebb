ghost use Rattle.std.specs.Prelude.{◌≡◌, ◌+◌, ◌-◌, ◌*◌, ◌≤◌, true, length, take, drop, replicate};
ghost use Rattle.journal.specs.Log.{log, sound, replay};

use crate::records::Records;

// A provider as a log of records in the first `used` bytes of a lent slice, with zeros after them. It is made for values
// of one width, and serves every kind of that width; for kinds of another width it has no room. (There is no heap: the bytes
// are lent, so how many of them are used stands beside them.)
#[derive(Drop)]
pub struct Journal<'a> {
    pub(crate) bytes: &'a mut [u8],
    // how many bytes a value is wide
    pub(crate) width: usize,
    // how many keys there is room for
    pub(crate) room: usize,
    pub(crate) used: usize,
    // how many keys there are
    pub(crate) count: usize,
    ghost narrow: { width ≤ 64 },
    ghost within: { used ≤ length bytes.now },
    ghost whole: { sound width (log width (take used bytes.now)) ≡ true },
    ghost zeros: { drop used bytes.now ≡ replicate (length bytes.now - used) 0 },
    ghost counted: { count ≡ length (replay (log width (take used bytes.now))) },
    ghost few: { count ≤ room },
    ghost fits: { (1 ≤ room → room * (13 + width) + (13 + width) ≤ length bytes.now) },
}

impl<'a> Journal<'a> {
    // The records of its log.
    pub(crate) fn records(&self) -> Records<'_>
        ensures width { result.width ≡ self.now.width }
        ensures log { log result.width result.bytes.now ≡ log self.now.width (take self.now.used self.now.bytes.now) }
    {
        Records::new(&self.bytes[..self.used], self.width)
    }
}
