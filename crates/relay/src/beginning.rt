// What a seat begins: a write of a value, or a read, settled or not. (That is a yes or no, as in the protocol's `gathering`.
// It is an enum and no closure: the contract of `begin` says by `begin_call` what is begun, and a closure's would be told by
// its steps.)
#[derive(Clone, Copy)]
pub enum Beginning<V> {
    Write(V),
    Read(bool),
}
