ghost use Rattle.std.specs.Prelude.{◌≡◌, true, false, replicate, slice_index_or, slice_set};
ghost use Rattle.relay.specs.RelayState.{lost_flags};

use values::refusal::Refusal;

// What the relay knows of one provider.
#[derive(Clone, Copy)]
pub struct ProviderRecord {
    pub lost: bool,
}

// What a relay keeps beside its bank: the refusal of the open that made it, if it was refused; the number of seats; a record
// for each provider that a bank may have, in a table of fixed size, as there is no heap; and how often a gathering line had
// to look a second time. (The refusal stands beside the rest, as in `RelayState`: a refused relay has seats, a table and a
// count too, 0, and its sheets and its bank mean what those of any relay mean.)
#[derive(Clone, Copy)]
pub struct Inner {
    pub refused: Option<Refusal>,
    pub seats: u8,
    pub providers: [ProviderRecord; 7],
    pub looks: u32,
}

impl ProviderRecord {
    // The provider is lost for good.
    pub(crate) fn lose(&mut self)
        ensures { self.new ≡ record { lost = true } }
    {
        self.lost = true;
    }
}

impl Inner {
    // A relay's own record, with no provider lost and no second look.
    pub(crate) fn new(refused: Option<Refusal>, seats: u8) -> Inner
        ensures { result ≡ record { refused = refused; seats = seats; providers = replicate 7 (record { lost = false }); looks = 0 } }
    {
        Inner {
            refused,
            seats,
            providers: [ProviderRecord { lost: false }; 7],
            looks: 0,
        }
    }

    // Whether the provider at a place is lost.
    pub(crate) fn is_lost(&self, i: usize) -> bool
        ensures { result ≡ slice_index_or (lost_flags self.now) i false }
    {
        self.providers.get(i).is_some_and(|provider| provider.lost)
    }

    // The provider at a place is lost for good. (By index, as a proof knows nothing of what is written through `get_mut`.)
    pub(crate) fn lose(&mut self, i: usize)
        ensures { self.new ≡ record self.old { providers = slice_set self.old.providers i (record { lost = true }) } }
    {
        if i < self.providers.len() {
            self.providers[i].lose();
        }
    }
}
