ghost use Rattle.std.specs.Prelude.{◌≡◌, ◌≤◌, true, length, is_none};
ghost use Rattle.relay.specs.Room.{lists_fit};

use crate::inner::Inner;
use banks::bank::Bank;
use std::marker::PhantomData;
use values::kind::Kind;

// A relay owns its bank until it is shut. It is of the kind of values that it was opened with. Where open accepted the bank, it
// has at most 7 providers, and none can hold more keys than a line keeps.
#[derive(Drop)]
pub struct Relay<V: Kind, B: Bank<V>> {
    pub(crate) bank: B,
    pub(crate) inner: Inner,
    pub(crate) kind: PhantomData<V>,
    ghost few: { is_none inner.refused ≡ true → length (B.Bank.row bank) ≤ 7 },
    ghost fits: { is_none inner.refused ≡ true → lists_fit (B.Bank.row bank) ≡ true },
}
