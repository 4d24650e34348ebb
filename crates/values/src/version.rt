ghost use Rattle.std.specs.Prelude.{◌≡◌, max, ◌&&◌, ◌||◌, ◌==◌, nat_lt};
ghost use Rattle.values.specs.Rank.{rank, version_of};

// A version of the register: a sequence number, and the seat that wrote it.
// A seat is one participant of an office. Versions compare by number, then by seat, and (0, 0) means no version.
#[derive(Clone, Copy, PartialEq, Eq, PartialOrd, Ord, Debug)]
pub struct Version {
    pub number: u32,
    pub seat: u16,
}

// A key of a provider's map is a pair of the same form. (0, 0) is the standing key, under which the register's value
// always stands; every other key is temporary, and is named after the version that it holds.
pub type Key = Version;

impl Version {
    // (No `Option` of a version: (0, 0) is what records and logs hold where there is none, and its rank is 0.)
    pub const NONE: Version = Version { number: 0, seat: 0 };

    pub const STANDING: Version = Version { number: 0, seat: 0 };

    // Does nothing. Its contract says what the two constants are: both are (0, 0).
    pub fn constants_are_zero()
        ensures none { Self.NONE ≡ version_of 0 }
        ensures standing { Self.STANDING ≡ version_of 0 }
    {}

    // Whether this version comes before the other: by number, then by seat. (`<` compares the parts. That the ranks compare
    // alike needs the parts' widths, which are known here of the parameters, and not of every version that lies in memory. So
    // with `same` and `later`.)
    pub fn before(self, other: Version) -> bool
        ensures ranks { result ≡ nat_lt (rank self) (rank other) }
        ensures order { result ≡ (nat_lt self.number other.number || (self.number == other.number && nat_lt self.seat other.seat)) }
    {
        self < other
    }

    // The later of the two.
    pub fn later(self, other: Version) -> Version
        ensures { rank result ≡ max (rank self) (rank other) }
    {
        self.max(other)
    }

    // Whether the two are the same version: of one number and one seat.
    pub fn same(self, other: Version) -> bool
        ensures ranks { result ≡ (rank self == rank other) }
        ensures parts { result ≡ (self.number == other.number && self.seat == other.seat) }
    {
        self == other
    }

    // The version itself, as lists of keys give it: by its rank. (It is spelled out by its parts, which have their widths, since
    // its contract follows from these.)
    pub fn ranked(self) -> Version
        ensures { result ≡ version_of (rank self) }
    {
        let Version { number, seat } = self;
        Version { number, seat }
    }
}
