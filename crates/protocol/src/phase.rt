// What a seat is doing: nothing, one of the three phases of an operation, or nothing ever again.
#[derive(Clone, Copy, PartialEq, Eq, Debug)]
pub enum Phase {
    Idle,
    // a write asks for the keys in use, to choose its version
    Listing,
    // a version and its value are put at the providers
    Storing,
    // a read asks what is stored
    Gathering,
    Stopped,
}
