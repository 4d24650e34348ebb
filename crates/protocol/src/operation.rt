// The kinds of operation on the register.
#[derive(Clone, Copy, PartialEq, Eq, Debug)]
pub enum OperationKind {
    Write,
    // a read that answers once a majority of its lines is done
    PlainRead,
    // a read that stores what it found at a majority before it answers
    SettledRead,
}
