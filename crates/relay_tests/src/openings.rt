// Every refusal of open, the relay of a refused open, and sheets that are too short.

use crate::office::{IDLE, hold};
use banks::bank::Bank;
use banks::one::One;
use banks::whole::total_count;
use protocol::operation::OperationKind;
use protocol::phase::Phase;
use records::line::{Line, Request};
use records::seat::Seat;
use relay::opening::open;
use relay::relay::Relay;
use std::process::Abort;
use std::test::Fail;
use stores::store::Store;
use table::entry::Entry;
use table::table::Table;
use values::hold::Hold;
use values::kind::Kind;
use values::refusal::Refusal;
use values::version::Key;

const BUSY: Seat<Hold> = Seat {
    phase: Phase::Storing,
    operation: OperationKind::SettledRead,
    version: Key { number: 9, seat: 9 },
    value: Hold::Free,
};

// Every call that is handed sheets is refused by this.
fn check_refuses<B: Bank<Hold>>(
    rt: &impl Abort,
    relay: &mut Relay<Hold, B>,
    seats: &mut [Seat<Hold>],
    lines: &mut [Line<Hold>],
    refusal: Refusal,
) {
    assert_eq!(rt; relay.begin_write(seats, lines, 1, hold(1)), Err(refusal));
    assert_eq!(rt; relay.begin_read(seats, lines, 1, true), Err(refusal));
    assert_eq!(rt; relay.post(seats, lines, 1, 1), Err(refusal));
    assert_eq!(rt; relay.land(seats, lines, 1, 1), Err(refusal));
    assert_eq!(rt; relay.fetch(seats, lines, 1, 1), Err(refusal));
    assert_eq!(rt; relay.stop(seats, lines, 1), Err(refusal));
    assert_eq!(rt; relay.lose(seats, lines, 1), Err(refusal));
}

// The key that a provider may hold before open.
const KEY: Key = Key { number: 1, seat: 1 };

fn used_line() -> Line<Hold> {
    Line::blank().sent(Request::List).restarted()
}

// Open is refused for so many seats over a sheet of two seats and these lines, and every call on its relay likewise. The
// sheets stay as they were, and the relay gives the bank back, which holds what it held: KEY at provider 1, or nothing.
fn check_open_refused<B: Bank<Hold> + Drop, const K: usize>(
    rt: &impl Abort,
    bank: B,
    m: usize,
    before: [Line<Hold>; K],
    refusal: Refusal,
) -> Result<(), Fail> {
    let mut seats = [BUSY; 2];
    let mut lines = before;
    let (count, held) = (total_count(&bank), bank.get(1, KEY)?);
    let (mut relay, opened) = open(bank, m, &mut seats, &mut lines);
    assert_eq!(rt; opened, Err(refusal));
    check_refuses(rt, &mut relay, &mut seats, &mut lines, refusal);
    assert_eq!(rt; relay.looks(), Err(refusal));
    assert_eq!(rt; seats, [BUSY; 2]);
    assert_eq!(rt; lines, before);
    let bank = relay.shut();
    assert_eq!(rt; total_count(&bank), count);
    assert_eq!(rt; bank.get(1, KEY)?, held);
    Ok(())
}

// The same over one provider, with a table of some capacity that holds KEY, or nothing.
fn check_table_refused<const K: usize>(
    rt: &impl Abort,
    table: &mut Table<Hold>,
    m: usize,
    before: [Line<Hold>; K],
    refusal: Refusal,
) -> Result<(), Fail> {
    check_open_refused(rt, One(table), m, before, refusal)
}

#[test]
fn open_is_refused_by_1_to_4(rt: HostRuntime) -> Result<(), Fail> {
    let mut entries = [Entry::blank(); 4];
    let mut table = Table::new(&mut entries);
    let lines = [used_line(); 2];
    check_table_refused(&rt, &mut table, 0, lines, Refusal::UnsupportedSize)?;
    check_table_refused(&rt, &mut table, 17, lines, Refusal::UnsupportedSize)?;
    check_table_refused(&rt, &mut table, 3, [used_line(); 3], Refusal::SheetTooShort)?;
    check_table_refused(&rt, &mut table, 2, [used_line(); 1], Refusal::SheetTooShort)?;
    table.put(KEY, KEY, hold(1))?;
    check_table_refused(&rt, &mut table, 2, lines, Refusal::ProviderNotEmpty)?;
    let mut small = [Entry::blank(); 3];
    let mut table = Table::new(&mut small);
    table.put(KEY, KEY, hold(1))?;
    check_table_refused(&rt, &mut table, 2, lines, Refusal::UnsuitableCapacity)
}

fn check_short_sheets<B: Bank<Hold> + Drop>(rt: &impl Abort, bank: B) -> Result<(), Fail> {
    let mut seats = [IDLE; 2];
    let mut lines = [Line::blank(); 2];
    let (mut relay, opened) = open(bank, 2, &mut seats, &mut lines);
    opened?;
    let mut one = [BUSY; 1];
    let mut few = [used_line(); 1];
    check_refuses(rt, &mut relay, &mut one, &mut lines, Refusal::SheetTooShort);
    check_refuses(rt, &mut relay, &mut seats, &mut few, Refusal::SheetTooShort);
    assert_eq!(rt; one, [BUSY; 1]);
    assert_eq!(rt; seats, [IDLE; 2]);
    assert_eq!(rt; few, [used_line(); 1]);
    assert_eq!(rt; lines, [Line::blank(); 2]);
    assert_eq!(rt; total_count(&relay.shut()), 0);
    Ok(())
}

#[test]
fn a_call_with_a_short_sheet_is_refused_by_2(rt: HostRuntime) -> Result<(), Fail> {
    check_short_sheets(&rt, One(&mut Table::new(&mut [Entry::blank(); 4])))
}
