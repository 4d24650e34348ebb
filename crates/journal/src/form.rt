// What the bit map of a record says of it: which fields follow, and how long key and version are together. (The width of
// the value is added by `size_of`.)
#[derive(Clone, Copy)]
pub struct Form {
    pub key: bool,
    pub version: bool,
    pub value: bool,
    pub length: usize,
}
