use values::version::Version;

// What a call of a relay answers, where it does not refuse. Every call but fetch answers that it was accepted. A fetch
// answers that the operation goes on; that a stale answer was dropped; that a write ended, with its version; that a read
// ended, with a version and a value, or with nothing; or that a write found the versions used up. (These are the protocol's
// answers, one by one.)
#[derive(Clone, Copy, PartialEq, Eq, Debug)]
pub enum Answer<V> {
    Accepted,
    On,
    Dropped,
    Wrote(Version),
    Read(Version, V),
    Nothing,
    Used,
}
