// Tables and logs in one bank, called by number and directly.

use crate::tests::{check_refused, key};
use banks::bank::Bank;
use banks::one::One;
use banks::two::Two;
use journal::journal::Journal;
use std::process::Abort;
use std::test::Fail;
use stores::store::Store;
use table::entry::Entry;
use table::table::Table;
use values::kind::Kind;
use values::secret::Secret;
use values::version::Key;

// The key of one turn of the work at provider i, which is another work at each provider.
fn key_of(i: usize, turn: u32) -> Key {
    key(((i % 5) as u32).wrapping_mul(turn) % 5)
}

// Puts and removes at provider i of a bank; some of the puts find no room.
fn work_by_number<B: Bank<Secret>>(bank: &mut B, i: usize, text: Secret) {
    for turn in 0..12 {
        let k = key_of(i, turn);
        let _ = if turn % 4 == 3 {
            bank.remove(i, k)
        } else {
            bank.put(i, k, key(turn), text)
        };
    }
}

// The same work at a provider. (It is told twice, since the two are compared.)
fn work_directly<S: Store<Secret>>(store: &mut S, i: usize, text: Secret) {
    for turn in 0..12 {
        let k = key_of(i, turn);
        if turn % 4 == 3 {
            store.remove(k);
        } else {
            let _ = store.put(k, key(turn), text);
        }
    }
}

// Provider i of a bank, which was worked on, has the map of a provider of its own after the same work.
fn check_same<B: Bank<Secret>, S: Store<Secret>>(
    rt: &impl Abort,
    bank: &B,
    i: usize,
    store: &mut S,
    text: Secret,
) -> Result<(), Fail> {
    work_directly(store, i, text);
    assert_eq!(rt; bank.capacity(i), Ok(store.capacity()));
    assert_eq!(rt; bank.count(i), Ok(store.count()));
    let mut sheet = [key(90); 4];
    let mut other = [key(90); 4];
    assert_eq!(rt; bank.list(i, &mut sheet), store.list(&mut other));
    assert_eq!(rt; sheet, other);
    for number in 0..5 {
        assert!(rt; bank.get(i, key(number)) == Ok(store.get(key(number))));
    }
    Ok(())
}

// Numbers 2, 5 and 6 are logs, and the others are tables.
fn check_direct<B: Bank<Secret>>(
    rt: &impl Abort,
    bank: &B,
    i: usize,
    text: Secret,
) -> Result<(), Fail> {
    if i == 2 || i == 5 || i == 6 {
        check_same(
            rt,
            bank,
            i,
            &mut Journal::new::<Secret>(&mut [0; 248]),
            text,
        )
    } else {
        check_same(rt, bank, i, &mut Table::new(&mut [Entry::blank(); 3]), text)
    }
}

fn check_all<B: Bank<Secret>>(rt: &impl Abort, bank: &B, text: Secret) -> Result<(), Fail> {
    for i in 1..8 {
        check_direct(rt, bank, i, text)?;
    }
    Ok(())
}

fn check_outside<B: Bank<Secret>>(rt: &impl Abort, bank: &mut B) -> Result<(), Fail> {
    for i in [0, 8, usize::MAX] {
        check_refused(rt, bank, i)?;
    }
    Ok(())
}

// Works at every provider before any of them is compared, so that work at the wrong one shows.
fn check_mixed<B: Bank<Secret>>(rt: &impl Abort, bank: &mut B) -> Result<(), Fail> {
    let text = Secret::new(b"text")?;
    for i in 1..8 {
        work_by_number(bank, i, text);
    }
    assert_eq!(rt; bank.size(), 7);
    check_all(rt, bank, text)?;
    check_outside(rt, bank)?;
    check_all(rt, bank, text)
}

// Seven lent providers of any makes in a bank, nested unevenly.
fn check_seven<
    A: Store<Secret>,
    B: Store<Secret>,
    C: Store<Secret>,
    D: Store<Secret>,
    E: Store<Secret>,
    F: Store<Secret>,
    G: Store<Secret>,
>(
    rt: &impl Abort,
    one: &mut A,
    two: &mut B,
    three: &mut C,
    four: &mut D,
    five: &mut E,
    six: &mut F,
    seven: &mut G,
) -> Result<(), Fail> {
    check_mixed(
        rt,
        &mut Two {
            left: Two {
                left: One(one),
                right: One(two),
            },
            right: Two {
                left: One(three),
                right: Two {
                    left: Two {
                        left: Two {
                            left: One(four),
                            right: One(five),
                        },
                        right: One(six),
                    },
                    right: One(seven),
                },
            },
        },
    )
}

#[test]
fn tables_and_logs_by_number_and_directly(rt: HostRuntime) -> Result<(), Fail> {
    check_seven(
        &rt,
        &mut Table::new(&mut [Entry::blank(); 3]),
        &mut Journal::new::<Secret>(&mut [0; 248]),
        &mut Table::new(&mut [Entry::blank(); 3]),
        &mut Table::new(&mut [Entry::blank(); 3]),
        &mut Journal::new::<Secret>(&mut [0; 248]),
        &mut Journal::new::<Secret>(&mut [0; 248]),
        &mut Table::new(&mut [Entry::blank(); 3]),
    )
}
