ghost use Rattle.std.specs.Prelude.{◌≡◌, true, length};
ghost use Rattle.journal.specs.Log.{joined, sound};
ghost use Rattle.journal.specs.Held.{contents_of, Holds};

use crate::journal::Journal;

impl<'a> Journal<'a> {
    // How many bytes the log takes up. All bytes are its records and zeros after them, and every record is whole.
    pub fn used(&self) -> usize
        ensures is { result ≡ length (joined (contents_of self.now).records) }
        ensures log { Holds self.now (contents_of self.now) }
        ensures sounds { sound (contents_of self.now).width (contents_of self.now).records ≡ true }
    {
        self.used
    }
}
