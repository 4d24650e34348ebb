ghost use Rattle.std.specs.Prelude.{◌≡◌, ◌≤◌, true};
ghost use Rattle.std.specs.Iterator.{YieldsFirstBy, item_count};
ghost use Rattle.journal.specs.Log.{log, sound};

use crate::forms::size_of;
use crate::record::Record;

// The records of a log, from the first to the last.
#[derive(Clone, Copy, Drop)]
pub(crate) struct Records<'a> {
    pub(crate) bytes: &'a [u8],
    // how many bytes a value is wide
    pub(crate) width: usize,
    ghost narrow: { width ≤ 64 },
    ghost whole: { sound width (log width bytes.now) ≡ true },
}

impl<'a> Records<'a> {
    pub(crate) fn new(bytes: &'a [u8], width: usize) -> Records<'a>
        requires narrow { width ≤ 64 }
        requires whole { sound width (log width bytes.now) ≡ true }
        ensures width { result.width ≡ width }
        ensures bytes { result.bytes.now ≡ bytes.now }
    {
        Records { bytes, width }
    }
}

impl<'a> Iterator for Records<'a> {
    type Item = Record<'a>;

    ghost next_gives = { YieldsFirstBy (λ r. r.bytes.now) (λ s. log s.width s.bytes.now) };

    ghost remaining = { item_count (λ s. log s.width s.bytes.now) };

    fn next(&mut self) -> Option<Record<'a>> {
        let map = *self.bytes.first()?;
        let (bytes, rest) = self.bytes.split_at(size_of(map, self.width));
        self.bytes = rest;
        Some(Record { bytes })
    }
}
