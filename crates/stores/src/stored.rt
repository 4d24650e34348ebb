use values::version::Version;

// What a provider holds under a key.
#[derive(Clone, Copy, PartialEq, Eq, Debug)]
pub struct Stored<V> {
    pub version: Version,
    pub value: V,
}
