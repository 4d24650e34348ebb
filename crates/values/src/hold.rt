ghost use Rattle.std.specs.Prelude.{◌≡◌, refl};
ghost use Rattle.std.specs.Cmp.{on_equiv, partial_equiv_from_equiv};
ghost use Rattle.values.specs.Refusals.{outcome, numbered};
ghost use Rattle.values.specs.Sheets.{read_answer};
ghost use Rattle.values.specs.Holds.{hold_means, same_hold, make_hold, covers_minute, hold_code, hold_decoded};
ghost use Rattle.values.specs.declared.hold.Hold.{Hold as HoldRecord};
ghost use Rattle.values.specs.declared.hold.Hold.TheVariants.{Free};
ghost use Rattle.values.specs.HoldCoding.{length_hold_code, decoded_hold, same_hold_equivalence};
ghost use Rattle.std.proofs.Common.{rules};

use crate::kind::Kind;
use crate::refusal::Refusal;

// Who may use a shared login: nobody, or one seat from a first minute to a last, both included. The record has no
// invariant, so every record means something: a hold whose first minute is after its last means the free hold. (It is no
// `Option`, since a free hold is a value like any other, and a kind of value has methods of its own.)
#[derive(Clone, Copy, Debug)]
pub enum Hold {
    Free,
    Held { seat: u16, first: u32, last: u32 },
}

impl Hold {
    // The hold by a seat from a first minute to a last.
    pub fn new(seat: u16, first: u32, last: u32) -> Result<Hold, Refusal>
        ensures { numbered result ≡ make_hold seat first last }
    {
        if last < first {
            return Err(Refusal::MinutesReversed);
        }
        Ok(Hold::Held { seat, first, last })
    }

    // Whether the hold is held in this minute.
    pub fn covers(self, minute: u32) -> bool
        ensures { result ≡ covers_minute (hold_means self) minute }
    {
        match self {
            Hold::Free => false,
            Hold::Held { first, last, .. } => first <= minute && minute <= last,
        }
    }

    // The hold that the record means.
    fn meaning(self) -> Hold
        ensures { result ≡ hold_means self }
    {
        match self {
            Hold::Held { first, last, .. } if first <= last => self,
            _ => Hold::Free,
        }
    }

    // The bytes of a hold. (No `From`: it would be public, and `write` is the one way to these bytes.)
    fn to_bytes(self) -> [u8; 11]
        ensures { result ≡ hold_code (hold_means self) }
    {
        match self {
            Hold::Held { seat, first, last } if first <= last => {
                let [s0, s1] = seat.to_le_bytes();
                let [f0, f1, f2, f3] = first.to_le_bytes();
                let [l0, l1, l2, l3] = last.to_le_bytes();
                [7, s0, s1, f0, f1, f2, f3, l0, l1, l2, l3]
            }
            _ => [0; 11],
        }
    }
}

// Two holds are equal where they mean the same hold. (A derived `==` would tell free holds apart whose records differ.)
impl PartialEq for Hold {
    ghost eq = { λ a b. same_hold (hold_means a) (hold_means b) };

    ghost laws = { partial_equiv_from_equiv (on_equiv hold_means same_hold_equivalence) };

    fn eq(&self, other: &Hold) -> bool {
        match (self.meaning(), other.meaning()) {
            (Hold::Free, Hold::Free) => true,
            (
                Hold::Held { seat, first, last },
                Hold::Held {
                    seat: other_seat,
                    first: other_first,
                    last: other_last,
                },
            ) => { seat == other_seat && first == other_first && last == other_last }
            _ => false,
        }
    }
}

impl Eq for Hold {
    ghost laws = { on_equiv hold_means same_hold_equivalence };
}

impl Kind for Hold {
    const WIDTH: usize = 11;

    ghost WIDTH = { 11 };

    ghost Meaning = { HoldRecord };

    ghost means = { hold_means };

    ghost code = { λ h. hold_code (hold_means h) };

    ghost coded = { hold_code };

    ghost decoded = { hold_decoded };

    ghost nothing = { Free };

    ghost width = { Prim.search rules };

    ghost whole = { λ v. length_hold_code (hold_means v) };

    ghost follows = { λ v. refl };

    ghost back = { λ v. decoded_hold v };

    fn blank() -> Hold {
        Self::Free
    }

    fn write(&self, sheet: &mut [u8]) -> Result<(), Refusal> {
        if sheet.len() != Self::WIDTH {
            return Err(Refusal::UnfitBytes);
        }
        sheet.copy_from_slice(&self.to_bytes());
        Ok(())
    }

    // A hold that is read is one that could be made.
    fn read(sheet: &[u8]) -> Result<Hold, Refusal>
        ensures answer { outcome hold_means result ≡ read_answer 11 hold_decoded sheet.now }
        ensures proper { numbered result ≡ read_answer 11 hold_decoded sheet.now }
    {
        let [tag, s0, s1, f0, f1, f2, f3, l0, l1, l2, l3] = sheet else {
            return Err(Refusal::UnfitBytes);
        };
        match *tag {
            0 => Ok(Hold::Free),
            7 => {
                let seat = u16::from_le_bytes([*s0, *s1]);
                let first = u32::from_le_bytes([*f0, *f1, *f2, *f3]);
                let last = u32::from_le_bytes([*l0, *l1, *l2, *l3]);
                if first > last {
                    return Err(Refusal::UnfitBytes);
                }
                Ok(Hold::Held { seat, first, last })
            }
            _ => Err(Refusal::UnfitBytes),
        }
    }
}
