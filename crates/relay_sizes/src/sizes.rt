// The smallest and the largest relays: one and seven providers, one and sixteen seats; and one provider too many.

use banks::bank::Bank;
use banks::one::One;
use banks::two::Two;
use banks::whole::total_count;
use journal::journal::Journal;
use protocol::stage::Stage;
use records::answer::Answer;
use records::line::Line;
use records::seat::Seat;
use relay::opening::open;
use relay::relay::Relay;
use std::process::Abort;
use std::test::Fail;
use stores::store::Store;
use table::entry::Entry;
use table::table::Table;
use values::hold::Hold;
use values::kind::Kind;
use values::refusal::Refusal;
use values::version::Version;

const HOLD: Hold = Hold::Held {
    seat: 7,
    first: 10,
    last: 20,
};

// A line's request is sent, arrives, and its answer is taken.
fn round<B: Bank<Hold>>(
    relay: &mut Relay<Hold, B>,
    seats: &mut [Seat<Hold>],
    lines: &mut [Line<Hold>],
    seat: usize,
    provider: usize,
) -> Result<Answer<Hold>, Refusal> {
    relay.post(seats, lines, seat, provider)?;
    relay.land(seats, lines, seat, provider)?;
    relay.fetch(seats, lines, seat, provider)
}

// So many rounds at a provider, and the answer of the last.
fn rounds<B: Bank<Hold>>(
    relay: &mut Relay<Hold, B>,
    seats: &mut [Seat<Hold>],
    lines: &mut [Line<Hold>],
    seat: usize,
    provider: usize,
    count: usize,
) -> Result<Answer<Hold>, Refusal> {
    let mut answer = Answer::On;
    for _ in 0..count {
        answer = round(relay, seats, lines, seat, provider)?;
    }
    Ok(answer)
}

// What a write answers once it is done.
fn wrote(number: u32, seat: u16) -> Answer<Hold> {
    Answer::Wrote(Version { number, seat })
}

// A write of a seat of a relay of one provider.
fn write<B: Bank<Hold>>(
    relay: &mut Relay<Hold, B>,
    seats: &mut [Seat<Hold>],
    lines: &mut [Line<Hold>],
    seat: usize,
) -> Result<Answer<Hold>, Refusal> {
    relay.begin_write(seats, lines, seat, HOLD)?;
    rounds(relay, seats, lines, seat, 1, 4)
}

fn check_one<B: Bank<Hold> + Drop>(rt: &impl Abort, bank: B) -> Result<(), Fail> {
    let mut seats = [Seat::blank(); 1];
    let mut lines = [Line::blank(); 1];
    let (mut relay, opened) = open(bank, 1, &mut seats, &mut lines);
    opened?;
    assert_eq!(rt; write(&mut relay, &mut seats, &mut lines, 1)?, wrote(1, 1));
    relay.begin_read(&mut seats, &mut lines, 1, true)?;
    let answer = rounds(&mut relay, &mut seats, &mut lines, 1, 1, 4)?;
    assert_eq!(rt; answer, Answer::Read(Version { number: 1, seat: 1 }, HOLD));
    check_look(rt, relay, seats, lines)
}

// The seat reads again. Its line is written by hand: it is about to get the standing key, which holds (1, 1), and its mark
// is above that, so it looks a second time. The refused call that follows leaves the count.
fn check_look<B: Bank<Hold> + Drop>(
    rt: &impl Abort,
    relay: Relay<Hold, B>,
    seats: [Seat<Hold>; 1],
    lines: [Line<Hold>; 1],
) -> Result<(), Fail> {
    let (mut relay, mut seats, mut lines) = (relay, seats, lines);
    relay.begin_read(&mut seats, &mut lines, 1, false)?;
    lines[0].stage = Stage::GetStanding;
    lines[0].mark = Version { number: 1, seat: 2 };
    round(&mut relay, &mut seats, &mut lines, 1, 1)?;
    assert_eq!(rt; relay.looks(), Ok(1));
    assert_eq!(rt;
        relay.fetch(&mut seats, &mut lines, 1, 1),
        Err(Refusal::NoAnswer)
    );
    assert_eq!(rt; relay.looks(), Ok(1));
    Ok(())
}

#[test]
fn one_seat_writes_and_reads_at_one_provider(rt: HostRuntime) -> Result<(), Fail> {
    check_one(&rt, One(&mut Table::new(&mut [Entry::blank(); 3])))
}

fn check_sixteen<B: Bank<Hold> + Drop>(rt: &impl Abort, bank: B) -> Result<(), Fail> {
    let mut seats = [Seat::blank(); 16];
    let mut lines = [Line::blank(); 16];
    let (mut relay, opened) = open(bank, 16, &mut seats, &mut lines);
    opened?;
    assert_eq!(rt;
        write(&mut relay, &mut seats, &mut lines, 16)?,
        wrote(1, 16)
    );
    Ok(())
}

#[test]
fn seat_16_of_16_writes(rt: HostRuntime) -> Result<(), Fail> {
    check_sixteen(&rt, One(&mut Table::new(&mut [Entry::blank(); 18])))
}

// So many rounds of seat 1 at each of providers 1, 3, 4 and 5, and the answer of the last.
fn at_four<B: Bank<Hold>>(
    relay: &mut Relay<Hold, B>,
    seats: &mut [Seat<Hold>],
    lines: &mut [Line<Hold>],
    count: usize,
) -> Result<Answer<Hold>, Refusal> {
    let mut answer = Answer::On;
    for provider in [1, 3, 4, 5] {
        answer = rounds(relay, seats, lines, 1, provider, count)?;
    }
    Ok(answer)
}

// With providers 2 and 6 lost a write goes through at four of seven.
fn check_four_of_seven<A: Bank<Hold> + Drop, B: Bank<Hold> + Drop>(
    rt: &impl Abort,
    left: A,
    right: B,
) -> Result<(), Fail> {
    let mut seats = [Seat::blank(); 2];
    let mut lines = [Line::blank(); 14];
    let (mut relay, opened) = open(Two { left, right }, 2, &mut seats, &mut lines);
    opened?;
    relay.lose(&seats, &lines, 2)?;
    relay.lose(&seats, &lines, 6)?;
    relay.begin_write(&mut seats, &mut lines, 1, HOLD)?;
    at_four(&mut relay, &mut seats, &mut lines, 1)?;
    assert_eq!(rt;
        at_four(&mut relay, &mut seats, &mut lines, 3)?,
        wrote(1, 1)
    );
    let bank = relay.shut();
    assert_eq!(rt; bank.size(), 7);
    assert_eq!(rt; total_count(&bank), 8);
    Ok(())
}

// Numbers 1, 4 and 7 are of one make, and the others of another.
fn check_seven<S: Store<Hold> + Drop, T: Store<Hold> + Drop>(
    rt: &impl Abort,
    one: S,
    two: T,
    three: T,
    four: S,
    five: T,
    six: T,
    seven: S,
) -> Result<(), Fail> {
    let left = Two {
        left: One(one),
        right: Two {
            left: One(two),
            right: One(three),
        },
    };
    let right = Two {
        left: Two {
            left: One(four),
            right: One(five),
        },
        right: Two {
            left: One(six),
            right: One(seven),
        },
    };
    check_four_of_seven(rt, left, right)
}

#[test]
fn a_write_goes_through_at_four_of_seven_tables_and_logs(rt: HostRuntime) -> Result<(), Fail> {
    check_seven(
        &rt,
        &mut Journal::new::<Hold>(&mut [0; 120]),
        &mut Table::new(&mut [Entry::blank(); 4]),
        &mut Table::new(&mut [Entry::blank(); 4]),
        &mut Journal::new::<Hold>(&mut [0; 120]),
        &mut Table::new(&mut [Entry::blank(); 4]),
        &mut Table::new(&mut [Entry::blank(); 4]),
        &mut Journal::new::<Hold>(&mut [0; 120]),
    )
}

fn check_eight<B: Bank<Hold> + Drop>(rt: &impl Abort, bank: B) {
    let mut seats = [Seat::blank(); 1];
    let mut lines = [Line::blank(); 8];
    let (relay, opened) = open(bank, 1, &mut seats, &mut lines);
    assert_eq!(rt; opened, Err(Refusal::UnsupportedSize));
    assert_eq!(rt; relay.looks(), Err(Refusal::UnsupportedSize));
    assert_eq!(rt; relay.shut().size(), 8);
}

fn check_four_and_four<S: Store<Hold> + Drop>(
    rt: &impl Abort,
    stores: (S, S, S, S),
    more: (S, S, S, S),
) {
    let (one, two, three, four) = stores;
    let (five, six, seven, eight) = more;
    let left = Two {
        left: Two {
            left: One(one),
            right: One(two),
        },
        right: Two {
            left: One(three),
            right: One(four),
        },
    };
    let right = Two {
        left: Two {
            left: One(five),
            right: One(six),
        },
        right: Two {
            left: One(seven),
            right: One(eight),
        },
    };
    check_eight(rt, Two { left, right })
}

// Eight are one too many, before their capacities are looked at.
#[test]
fn eight_providers_are_refused_by_1(rt: HostRuntime) {
    check_four_and_four(
        &rt,
        (
            &mut Table::new(&mut [Entry::blank(); 0]),
            &mut Table::new(&mut [Entry::blank(); 0]),
            &mut Table::new(&mut [Entry::blank(); 0]),
            &mut Table::new(&mut [Entry::blank(); 0]),
        ),
        (
            &mut Table::new(&mut [Entry::blank(); 0]),
            &mut Table::new(&mut [Entry::blank(); 0]),
            &mut Table::new(&mut [Entry::blank(); 0]),
            &mut Table::new(&mut [Entry::blank(); 0]),
        ),
    )
}
