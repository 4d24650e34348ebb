// Every refusal of a call, and that a refused call changes nothing.

use crate::office::{IDLE, check_written, hold, prepare};
use banks::bank::Bank;
use banks::one::One;
use banks::two::Two;
use journal::journal::Journal;
use protocol::stage::Stage;
use records::call::Call;
use records::line::Line;
use relay::opening::open;
use std::process::Abort;
use std::test::Fail;
use table::entry::Entry;
use table::table::Table;
use values::hold::Hold;
use values::kind::Kind;
use values::refusal::Refusal;

// After a write of seat 2 and these calls of seat 1, and with this stage written by hand into the line of seat 1 and
// provider 1, a call is refused. The sheets, the bank and the count of second looks are as they were.
fn check_refused_at<B: Bank<Hold> + Drop>(
    rt: &impl Abort,
    bank: B,
    calls: &[Call<Hold>],
    stage: Option<Stage>,
    call: Call<Hold>,
    refusal: Refusal,
) -> Result<(), Fail> {
    let mut seats = [IDLE; 2];
    let mut lines = [Line::blank(); 6];
    let (mut relay, opened) = open(bank, 2, &mut seats, &mut lines);
    opened?;
    prepare(&mut relay, &mut seats, &mut lines, calls)?;
    if let Some(stage) = stage {
        lines[0].stage = stage;
    }
    let (seats_before, lines_before, looks) = (seats, lines, relay.looks());
    assert_eq!(rt; relay.call(&mut seats, &mut lines, call), Err(refusal));
    assert_eq!(rt; seats, seats_before);
    assert_eq!(rt; lines, lines_before);
    assert_eq!(rt; relay.looks(), looks);
    check_written(rt, &relay.shut())
}

// The same in an office whose second provider is a log, and the others tables.
fn check_refused_with(
    rt: &impl Abort,
    calls: &[Call<Hold>],
    stage: Option<Stage>,
    call: Call<Hold>,
    refusal: Refusal,
) -> Result<(), Fail> {
    check_refused_at(
        rt,
        Two {
            left: One(&mut Table::new(&mut [Entry::blank(); 4])),
            right: Two {
                left: One(&mut Journal::new::<Hold>(&mut [0; 120])),
                right: One(&mut Table::new(&mut [Entry::blank(); 4])),
            },
        },
        calls,
        stage,
        call,
        refusal,
    )
}

pub(crate) fn check_refused(
    rt: &impl Abort,
    calls: &[Call<Hold>],
    call: Call<Hold>,
    refusal: Refusal,
) -> Result<(), Fail> {
    check_refused_with(rt, calls, None, call, refusal)
}

const WRITE: Call<Hold> = Call::BeginWrite(1, Hold::Free);

#[test]
fn a_seat_or_provider_that_is_not_there_is_refused_by_5_and_6(rt: HostRuntime) -> Result<(), Fail> {
    let (seat, provider) = (Refusal::NoSuchSeat, Refusal::NoSuchProvider);
    check_refused(&rt, &[], Call::BeginWrite(0, hold(1)), seat)?;
    check_refused(&rt, &[], Call::BeginRead(3, true), seat)?;
    check_refused(&rt, &[], Call::Post(3, 4), seat)?;
    check_refused(&rt, &[], Call::Stop(3), seat)?;
    check_refused(&rt, &[], Call::Post(1, 4), provider)?;
    check_refused(&rt, &[], Call::Land(1, 0), provider)?;
    check_refused(&rt, &[], Call::Fetch(1, 4), provider)?;
    check_refused(&rt, &[], Call::Lose(4), provider)
}

#[test]
fn a_seat_that_has_stopped_or_is_busy_is_refused_by_7_and_8(rt: HostRuntime) -> Result<(), Fail> {
    let stopped = [WRITE, Call::Post(1, 1), Call::Land(1, 1), Call::Stop(1)];
    check_refused(&rt, &stopped, WRITE, Refusal::SeatStopped)?;
    check_refused(
        &rt,
        &stopped,
        Call::BeginRead(1, false),
        Refusal::SeatStopped,
    )?;
    check_refused(&rt, &stopped, Call::Post(1, 2), Refusal::SeatStopped)?;
    check_refused(&rt, &stopped, Call::Fetch(1, 1), Refusal::SeatStopped)?;
    check_refused(&rt, &[WRITE], Call::BeginRead(1, true), Refusal::SeatBusy)
}

#[test]
fn post_is_refused_by_9_to_11(rt: HostRuntime) -> Result<(), Fail> {
    let done = [WRITE, Call::Post(1, 1), Call::Land(1, 1), Call::Fetch(1, 1)];
    check_refused(&rt, &[], Call::Post(1, 1), Refusal::NothingToPost)?;
    check_refused_with(
        &rt,
        &[WRITE],
        Some(Stage::PutOwn),
        Call::Post(1, 1),
        Refusal::NothingToPost,
    )?;
    check_refused(&rt, &done, Call::Post(1, 1), Refusal::LineDone)?;
    check_refused(&rt, &done[0..3], Call::Post(1, 1), Refusal::LineNotFree)?;
    check_refused(&rt, &done[0..2], Call::Post(1, 1), Refusal::LineNotFree)
}

#[test]
fn land_and_lose_are_refused_by_12_and_13_and_fetch_by_14(rt: HostRuntime) -> Result<(), Fail> {
    let lost = [WRITE, Call::Post(1, 1), Call::Lose(1)];
    let answered = [WRITE, Call::Post(1, 1), Call::Land(1, 1)];
    check_refused(&rt, &lost, Call::Land(1, 1), Refusal::ProviderLost)?;
    check_refused(&rt, &[WRITE], Call::Land(1, 1), Refusal::LineNotSent)?;
    check_refused(&rt, &[WRITE], Call::Fetch(1, 1), Refusal::NoAnswer)?;
    check_refused(&rt, &answered[0..2], Call::Fetch(1, 1), Refusal::NoAnswer)?;
    check_refused_with(
        &rt,
        &answered,
        Some(Stage::PutOwn),
        Call::Fetch(1, 1),
        Refusal::NoAnswer,
    )
}
