use std::test::Fail;
use stores::store::Store;
use table::entry::Entry;
use table::table::Table;
use values::hold::Hold;
use values::refusal::Refusal;
use values::version::Key;

const USED: Entry<Hold> = Entry {
    key: Key { number: 9, seat: 9 },
    version: Key { number: 9, seat: 9 },
    value: Hold::Held {
        seat: 9,
        first: 9,
        last: 9,
    },
};

// (Test crates share nothing, so such makers of keys and holds stand in banks_tests and relay_tests too.)
fn key(number: u32) -> Key {
    Key { number, seat: 1 }
}

fn hold(seat: u16) -> Hold {
    Hold::Held {
        seat,
        first: 0,
        last: 1,
    }
}

// The hold under a key.
fn hold_at(table: &Table<Hold>, number: u32) -> Option<Hold> {
    table.get(key(number)).map(|stored| stored.value)
}

#[test]
fn a_table_of_no_entries_is_always_full(rt: HostRuntime) {
    let mut entries = [USED; 0];
    let mut table = Table::new(&mut entries);
    assert_eq!(rt; table.capacity(), 0);
    assert_eq!(rt; table.put(key(1), key(1), hold(1)), Err(Refusal::StoreFull));
    table.remove(key(1));
    assert_eq!(rt; table.count(), 0);
    assert_eq!(rt; table.list(&mut []), Ok(0));
}

#[test]
fn a_table_of_one_entry_replaces_and_refuses(rt: HostRuntime) -> Result<(), Fail> {
    let mut entries = [USED; 1];
    let mut table = Table::new(&mut entries);
    assert_eq!(rt; table.count(), 0);
    table.put(key(1), key(1), hold(1))?;
    assert_eq!(rt; table.put(key(2), key(2), hold(2)), Err(Refusal::StoreFull));
    table.put(key(1), key(7), hold(3))?;
    assert_eq!(rt; hold_at(&table, 1), Some(hold(3)));
    assert_eq!(rt; table.list(&mut []), Err(Refusal::KeySheetTooShort));
    table.remove(key(1));
    assert_eq!(rt; table.count(), 0);
    assert_eq!(rt; entries[0], Entry::blank());
    assert_eq!(rt; entries[0].key, Key::STANDING);
    assert_eq!(rt; entries[0].value, Hold::Free);
    Ok(())
}

#[test]
fn a_table_lists_its_keys_ascending_and_leaves_the_other_places(
    rt: HostRuntime,
) -> Result<(), Fail> {
    let mut entries = [USED; 4];
    let mut table = Table::new(&mut entries);
    table.put(key(5), key(5), hold(1))?;
    table.put(key(2), key(2), hold(2))?;
    table.put(key(9), key(9), hold(3))?;
    table.put(key(2), key(4), hold(4))?;
    let mut sheet = [key(77); 5];
    assert_eq!(rt; table.list(&mut sheet), Ok(3));
    assert_eq!(rt; sheet, [key(2), key(5), key(9), key(77), key(77)]);
    table.remove(key(5));
    table.remove(key(6));
    assert_eq!(rt; table.count(), 2);
    assert_eq!(rt; hold_at(&table, 2), Some(hold(4)));
    assert_eq!(rt; hold_at(&table, 5), None);
    assert_eq!(rt; hold_at(&table, 9), Some(hold(3)));
    Ok(())
}

// Puts keys 1 to n, and answers how many were accepted.
fn fill(table: &mut Table<Hold>, n: u32) -> usize {
    (1..=n)
        .filter(|number| table.put(key(*number), Key::NONE, hold(1)).is_ok())
        .count()
}

#[test]
fn a_table_of_32_entries_uses_them_all(rt: HostRuntime) {
    let mut entries = [USED; 32];
    let mut table = Table::new(&mut entries);
    assert_eq!(rt; table.capacity(), 32);
    assert_eq!(rt; fill(&mut table, 40), 32);
    assert_eq!(rt; table.count(), 32);
}

#[test]
fn a_table_of_40_entries_never_touches_the_last_8(rt: HostRuntime) {
    let mut entries = [USED; 40];
    let mut table = Table::new(&mut entries);
    assert_eq!(rt; table.capacity(), 32);
    assert_eq!(rt; fill(&mut table, 40), 32);
    table.remove(key(1));
    assert_eq!(rt; table.count(), 31);
    assert_eq!(rt; entries[0].key, key(2));
    assert_eq!(rt; entries[30].key, key(32));
    assert_eq!(rt; entries[31], Entry::blank());
    assert_eq!(rt; entries[31].key, Key::STANDING);
    assert_eq!(rt; entries[31].value, Hold::Free);
    assert_eq!(rt; entries[32], USED);
    assert_eq!(rt; entries[39], USED);
}
