ghost use Rattle.std.specs.Prelude.{◌≡◌};
ghost use Rattle.values.specs.Refusals.{refusal_number};

use thiserror::Error;

// Why a call was refused, with the number by which users know it and its words. A refused call changes nothing that was
// handed in.
#[derive(Clone, Copy, PartialEq, Eq, Debug, Error)]
pub enum Refusal {
    // open: the number of seats is not 1 to 16, or there are more than 7 providers
    #[error("not 1 to 16 seats, or more than 7 providers")]
    UnsupportedSize = 1,
    // open, and any call of a relay but looks and shut: the sheet of seats or the sheet of lines is too short
    #[error("the sheet of seats or of lines is too short")]
    SheetTooShort = 2,
    // open: a provider's capacity is below the number of seats plus two, or above 32
    #[error("a provider's capacity is below the seats plus two, or above 32")]
    UnsuitableCapacity = 3,
    // open: a provider holds a key already
    #[error("a provider holds a key")]
    ProviderNotEmpty = 4,
    // the relay has no seat of this number
    #[error("no such seat")]
    NoSuchSeat = 5,
    // there is no provider of this number
    #[error("no such provider")]
    NoSuchProvider = 6,
    // the seat has stopped for good
    #[error("the seat has stopped")]
    SeatStopped = 7,
    // begin: the seat is in the middle of an operation
    #[error("the seat is not idle")]
    SeatBusy = 8,
    // post: the seat is idle, or the line does not belong to the seat's phase
    #[error("the seat is idle, or the line is foreign")]
    NothingToPost = 9,
    // post: the line is done
    #[error("the line is done")]
    LineDone = 10,
    // post: the line is not free
    #[error("the line is not free")]
    LineNotFree = 11,
    // land, lose: the provider is lost
    #[error("the provider is lost")]
    ProviderLost = 12,
    // land: the line is not sent
    #[error("the line is not sent")]
    LineNotSent = 13,
    // fetch: the line has no answer that can be taken
    #[error("the line has no answer to fetch")]
    NoAnswer = 14,
    // put: the key is new and the store is full
    #[error("the key is new and the store is full")]
    StoreFull = 15,
    // list: the sheet is shorter than the number of keys
    #[error("the sheet is shorter than the number of keys")]
    KeySheetTooShort = 16,
    // making a secret: more than 48 bytes
    #[error("a secret has at most 48 bytes")]
    SecretTooLong = 17,
    // making a hold: its first minute is after its last
    #[error("the first minute is after the last")]
    MinutesReversed = 18,
    // reading or writing a value: the bytes, or their number, do not fit its kind
    #[error("the bytes do not fit the kind of value")]
    UnfitBytes = 19,
}

impl Refusal {
    // The number by which users know this refusal.
    pub fn number(self) -> u8
        ensures { result ≡ refusal_number self }
    {
        self as u8
    }
}
