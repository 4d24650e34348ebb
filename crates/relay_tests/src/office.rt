// An office of two seats and three providers, and how its relay is called. (An idle seat is written out here, as what is
// expected; and test crates share nothing, so the calls of a round stand in relay_sizes too.)

use banks::bank::Bank;
use banks::whole::total_count;
use protocol::operation::OperationKind;
use protocol::phase::Phase;
use records::call::Call;
use records::line::Line;
use records::seat::Seat;
use relay::relay::Relay;
use std::process::Abort;
use std::test::Fail;
use stores::stored::Stored;
use values::hold::Hold;
use values::refusal::Refusal;
use values::version::{Key, Version};

pub(crate) const IDLE: Seat<Hold> = Seat {
    phase: Phase::Idle,
    operation: OperationKind::Write,
    version: Version::NONE,
    value: Hold::Free,
};

pub(crate) fn hold(seat: u16) -> Hold {
    Hold::Held {
        seat,
        first: 10,
        last: 20,
    }
}

// Seat 2 writes at providers 1 and 2; then these calls are made.
pub(crate) fn prepare<B: Bank<Hold>>(
    relay: &mut Relay<Hold, B>,
    seats: &mut [Seat<Hold>],
    lines: &mut [Line<Hold>],
    calls: &[Call<Hold>],
) -> Result<(), Refusal> {
    relay.begin_write(seats, lines, 2, hold(2))?;
    for (provider, count) in [(1, 1), (2, 1), (1, 3), (2, 3)] {
        for _ in 0..count {
            relay.post(seats, lines, 2, provider)?;
            relay.land(seats, lines, 2, provider)?;
            relay.fetch(seats, lines, 2, provider)?;
        }
    }
    for call in calls {
        relay.call(seats, lines, *call)?;
    }
    Ok(())
}

// A bank holds what the write of seat 2 has left at providers 1 and 2, and nothing else.
pub(crate) fn check_written<B: Bank<Hold>>(rt: &impl Abort, bank: &B) -> Result<(), Fail> {
    let version = Version { number: 1, seat: 2 };
    let value = hold(2);
    for i in 1..3 {
        for key in [Key::STANDING, version] {
            assert_eq!(rt; bank.get(i, key)?, Some(Stored { version, value }));
        }
    }
    assert_eq!(rt; total_count(bank), 4);
    Ok(())
}
