ghost use Rattle.std.specs.Prelude.{◌≡◌};
ghost use Rattle.values.specs.Rank.{rank};
ghost use Rattle.protocol.specs.Seats.{blank_seat, activity, is_idle, is_stopped, turned_to, listing, gathering, storing, idle, stopped};
ghost use Rattle.records.specs.Blanks.{blank_seat_record};
ghost use Rattle.records.specs.Means.{seat_means};

use protocol::operation::OperationKind;
use protocol::phase::Phase;
use stores::stored::Stored;
use values::kind::Kind;
use values::version::Version;

// A seat of the office: what it is doing, the operation that it works on or worked on last, and the version and the
// value of that operation. (A record and no enum with data, as the protocol's `Seat`: a seat at rest keeps the version and
// the value of its last operation.)
#[derive(Clone, Copy, PartialEq, Eq, Debug)]
pub struct Seat<V> {
    pub phase: Phase,
    pub operation: OperationKind,
    pub version: Version,
    pub value: V,
}

impl<V: Kind> Seat<V> {
    // An idle seat, with its other fields zero or blank.
    pub fn blank() -> Seat<V>
        ensures means { seat_means V.Kind.code result ≡ record blank_seat { value = V.Kind.code V.Kind.nothing } }
        ensures whole { result ≡ blank_seat_record V.Kind.nothing }
    {
        Seat {
            phase: Phase::Idle,
            operation: OperationKind::Write,
            version: Version::NONE,
            value: V::blank(),
        }
    }

    // Whether the seat is idle. (This and `is_stopped`, and `rested` and `stopped`, differ in a phase: each states a
    // definition of the protocol, and one function of the phase would be no more than `==` or the record itself.)
    pub fn is_idle(&self) -> bool
        ensures { result ≡ is_idle (activity (seat_means V.Kind.code self.now)) }
    {
        self.phase == Phase::Idle
    }

    // Whether the seat has stopped.
    pub fn is_stopped(&self) -> bool
        ensures { result ≡ is_stopped (activity (seat_means V.Kind.code self.now)) }
    {
        self.phase == Phase::Stopped
    }

    // The seat after its operation ended.
    pub fn rested(self) -> Seat<V>
        ensures { seat_means V.Kind.code result ≡ turned_to idle (seat_means V.Kind.code self) }
    {
        let phase = Phase::Idle;
        Seat { phase, ..self }
    }

    // The seat, stopped for good.
    pub fn stopped(self) -> Seat<V>
        ensures { seat_means V.Kind.code result ≡ turned_to stopped (seat_means V.Kind.code self) }
    {
        let phase = Phase::Stopped;
        Seat { phase, ..self }
    }

    // The seat at the beginning of a write.
    pub fn listing(self, value: V) -> Seat<V>
        ensures { seat_means V.Kind.code result ≡ turned_to (listing (V.Kind.code value)) (seat_means V.Kind.code self) }
    {
        Seat {
            phase: Phase::Listing,
            operation: OperationKind::Write,
            version: Version::NONE,
            value,
        }
    }

    // The seat at the beginning of a read. (Settled or not, a yes or no as in the protocol's `gathering`.)
    pub fn gathering(self, settled: bool) -> Seat<V>
        ensures { seat_means V.Kind.code result ≡ turned_to (gathering settled) (seat_means V.Kind.code self) }
    {
        let operation = if settled {
            OperationKind::SettledRead
        } else {
            OperationKind::PlainRead
        };
        Seat {
            phase: Phase::Gathering,
            operation,
            version: Version::NONE,
            value: self.value,
        }
    }

    // The seat that stores a version and a value, for a write or else for a settled read: a yes or no, as in the protocol's
    // `storing`.
    pub fn storing(self, write: bool, pair: Stored<V>) -> Seat<V>
        ensures { seat_means V.Kind.code result ≡ turned_to (storing write (rank pair.version) (V.Kind.code pair.value)) (seat_means V.Kind.code self) }
    {
        let operation = if write {
            OperationKind::Write
        } else {
            OperationKind::SettledRead
        };
        Seat {
            phase: Phase::Storing,
            operation,
            version: pair.version,
            value: pair.value,
        }
    }
}
