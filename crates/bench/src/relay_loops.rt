// Operations on a relay of two seats over a table, a log and a table, each with room for 4 keys.
use crate::tally::Tally;
use banks::bank::Bank;
use banks::one::One;
use banks::two::Two;
use journal::journal::Journal;
use records::answer::Answer;
use records::line::Line;
use records::seat::Seat;
use relay::opening::open;
use relay::relay::Relay;
use table::entry::Entry;
use table::table::Table;
use values::kind::Kind;
use values::refusal::Refusal;
use values::secret::Secret;

// Each call of the relay stands in a function of its own that is not put into its callers, so that it is counted by itself.
#[inline(never)]
fn call_begin_write<B: Bank<Secret>>(
    relay: &Relay<Secret, B>,
    seats: &mut [Seat<Secret>],
    lines: &mut [Line<Secret>],
    seat: usize,
    value: Secret,
) -> Result<(), Refusal> {
    relay.begin_write(seats, lines, seat, value)
}

#[inline(never)]
fn call_begin_read<B: Bank<Secret>>(
    relay: &Relay<Secret, B>,
    seats: &mut [Seat<Secret>],
    lines: &mut [Line<Secret>],
    seat: usize,
    settled: bool,
) -> Result<(), Refusal> {
    relay.begin_read(seats, lines, seat, settled)
}

#[inline(never)]
fn call_post<B: Bank<Secret>>(
    relay: &Relay<Secret, B>,
    seats: &[Seat<Secret>],
    lines: &mut [Line<Secret>],
    seat: usize,
    provider: usize,
) -> Result<(), Refusal> {
    relay.post(seats, lines, seat, provider)
}

#[inline(never)]
fn call_land<B: Bank<Secret>>(
    relay: &mut Relay<Secret, B>,
    seats: &[Seat<Secret>],
    lines: &mut [Line<Secret>],
    seat: usize,
    provider: usize,
) -> Result<(), Refusal> {
    relay.land(seats, lines, seat, provider)
}

#[inline(never)]
fn call_fetch<B: Bank<Secret>>(
    relay: &mut Relay<Secret, B>,
    seats: &mut [Seat<Secret>],
    lines: &mut [Line<Secret>],
    seat: usize,
    provider: usize,
) -> Result<Answer<Secret>, Refusal> {
    relay.fetch(seats, lines, seat, provider)
}

// A request's way out, its execution, and its answer's way back.
fn round<B: Bank<Secret>>(
    relay: &mut Relay<Secret, B>,
    seats: &mut [Seat<Secret>],
    lines: &mut [Line<Secret>],
    seat: usize,
    provider: usize,
) -> Result<Answer<Secret>, Refusal> {
    call_post(relay, seats, lines, seat, provider)?;
    call_land(relay, seats, lines, seat, provider)?;
    call_fetch(relay, seats, lines, seat, provider)
}

// Goes round the three providers until the operation ends.
fn finish<B: Bank<Secret>>(
    relay: &mut Relay<Secret, B>,
    seats: &mut [Seat<Secret>],
    lines: &mut [Line<Secret>],
    seat: usize,
    tally: &mut Tally,
) {
    for turn in 0..60usize {
        let answer = round(relay, seats, lines, seat, turn % 3 + 1);
        if answer.is_ok() {
            tally.round();
        }
        match answer {
            Ok(Answer::Accepted | Answer::On | Answer::Dropped) => {}
            Ok(Answer::Wrote(version)) => {
                tally.add(version.number as u64);
                return;
            }
            Ok(Answer::Read(version, secret)) => {
                tally.add(version.number as u64);
                tally.add(secret.bytes[0] as u64);
                return;
            }
            Ok(Answer::Nothing | Answer::Used) => return,
            Err(_) => tally.refuse(),
        }
    }
}

fn write<B: Bank<Secret>>(
    relay: &mut Relay<Secret, B>,
    seats: &mut [Seat<Secret>],
    lines: &mut [Line<Secret>],
    seat: usize,
    byte: u8,
    tally: &mut Tally,
) {
    let value = Secret {
        len: 9,
        bytes: [byte; 48],
    };
    if call_begin_write(relay, seats, lines, seat, value).is_ok() {
        tally.begin();
    }
    finish(relay, seats, lines, seat, tally);
}

fn read<B: Bank<Secret>>(
    relay: &mut Relay<Secret, B>,
    seats: &mut [Seat<Secret>],
    lines: &mut [Line<Secret>],
    seat: usize,
    settled: bool,
    tally: &mut Tally,
) {
    if call_begin_read(relay, seats, lines, seat, settled).is_ok() {
        tally.begin();
    }
    finish(relay, seats, lines, seat, tally);
}

// So many operations by the two seats in turn, after a first write: writes (kind 0), settled reads (1), plain reads (2), or
// each time a write and then a settled read by the other seat.
fn operate<B: Bank<Secret>>(
    relay: &mut Relay<Secret, B>,
    seats: &mut [Seat<Secret>],
    lines: &mut [Line<Secret>],
    kind: u32,
    operations: u64,
    tally: &mut Tally,
) {
    write(relay, seats, lines, 1, 65, tally);
    for i in 0..operations {
        let seat = (i % 2) as usize + 1;
        let byte = (i % 64) as u8 + 33;
        match kind {
            0 => write(relay, seats, lines, seat, byte, tally),
            1 => read(relay, seats, lines, seat, true, tally),
            2 => read(relay, seats, lines, seat, false, tally),
            _ => {
                write(relay, seats, lines, seat, byte, tally);
                read(relay, seats, lines, 3 - seat, true, tally);
            }
        }
    }
}

pub(crate) fn run_relay(kind: u32, operations: u64) -> Tally {
    let mut first = [Entry::blank(); 4];
    let mut second = [0; 310];
    let mut third = [Entry::blank(); 4];
    let mut first = Table::new(&mut first);
    let mut second = Journal::new::<Secret>(&mut second);
    let mut third = Table::new(&mut third);
    let bank = Two {
        left: One(&mut first),
        right: Two {
            left: One(&mut second),
            right: One(&mut third),
        },
    };
    let mut seats = [Seat::blank(); 2];
    let mut lines = [Line::blank(); 6];
    let (mut relay, opened) = open(bank, 2, &mut seats, &mut lines);
    let mut tally = Tally::zero();
    if opened.is_ok() {
        operate(
            &mut relay, &mut seats, &mut lines, kind, operations, &mut tally,
        );
    }
    let _ = relay.shut();
    tally
}
