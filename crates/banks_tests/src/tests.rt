use crate::closed::Closed;
use crate::slot::Slot;
use banks::bank::Bank;
use banks::one::One;
use banks::two::Two;
use banks::whole;
use std::process::Abort;
use std::test::Fail;
use stores::store::Store;
use stores::stored::Stored;
use values::kind::Kind;
use values::refusal::Refusal;
use values::secret::Secret;
use values::version::{Key, Version};

pub(crate) fn key(number: u32) -> Key {
    Version { number, seat: 1 }
}

fn empty() -> Slot<Secret> {
    Slot { held: None }
}

// Whether provider i holds this text under a key, with the key as its version.
fn shows<B: Bank<Secret>>(bank: &B, i: usize, k: Key, text: Secret) -> bool {
    bank.get(i, k)
        == Ok(Some(Stored {
            version: k,
            value: text,
        }))
}

// Seven providers, nested unevenly: numbers 2 and 6 can hold no key, and the others can hold one.
type Single = One<Slot<Secret>>;

type Seven = Two<
    Two<Single, One<Closed>>,
    Two<Single, Two<Two<Two<Single, Single>, One<Closed>>, Single>>,
>;

fn seven() -> Seven {
    Two {
        left: Two {
            left: One(empty()),
            right: One(Closed),
        },
        right: Two {
            left: One(empty()),
            right: Two {
                left: Two {
                    left: Two {
                        left: One(empty()),
                        right: One(empty()),
                    },
                    right: One(Closed),
                },
                right: One(empty()),
            },
        },
    }
}

// Puts at every provider a text under a key of its own, and checks which of them had room.
fn fill<B: Bank<Secret>>(rt: &impl Abort, bank: &mut B) -> Result<(), Fail> {
    let text = Secret::new(b"text")?;
    for i in 1..8 {
        let expected = if i == 2 || i == 6 {
            Err(Refusal::StoreFull)
        } else {
            Ok(())
        };
        assert_eq!(rt; bank.put(i, key(i as u32), key(i as u32), text), expected);
    }
    Ok(())
}

// Each provider holds what was put at its number, and nothing else.
fn check_filled<B: Bank<Secret>>(rt: &impl Abort, bank: &B) -> Result<(), Fail> {
    let text = Secret::new(b"text")?;
    for i in 1..8 {
        let open = i != 2 && i != 6;
        let room = if open { 1 } else { 0 };
        assert_eq!(rt; bank.capacity(i), Ok(room));
        assert_eq!(rt; bank.count(i), Ok(room));
        for k in 1..8 {
            assert_eq!(rt; shows(bank, i, key(k as u32), text), open && k == i);
        }
    }
    assert_eq!(rt; bank.size(), 7);
    Ok(())
}

fn check_numbers<B: Bank<Secret>>(rt: &impl Abort, bank: &mut B) -> Result<(), Fail> {
    fill(rt, bank)?;
    check_filled(rt, bank)
}

#[test]
fn a_number_names_its_own_provider(rt: HostRuntime) -> Result<(), Fail> {
    check_numbers(&rt, &mut seven())
}

pub(crate) fn check_refused<B: Bank<Secret>>(
    rt: &impl Abort,
    bank: &mut B,
    i: usize,
) -> Result<(), Fail> {
    let text = Secret::new(b"other")?;
    let mut sheet = [key(70), key(71)];
    assert_eq!(rt; bank.capacity(i), Err(Refusal::NoSuchProvider));
    assert_eq!(rt; bank.count(i), Err(Refusal::NoSuchProvider));
    assert_eq!(rt; bank.get(i, key(1)).err(), Some(Refusal::NoSuchProvider));
    assert_eq!(rt; bank.list(i, &mut sheet), Err(Refusal::NoSuchProvider));
    assert_eq!(rt; sheet, [key(70), key(71)]);
    assert_eq!(rt;
        bank.put(i, key(1), key(9), text),
        Err(Refusal::NoSuchProvider)
    );
    assert_eq!(rt; bank.remove(i, key(1)), Err(Refusal::NoSuchProvider));
    Ok(())
}

fn check_other_numbers<B: Bank<Secret>>(rt: &impl Abort, bank: &mut B) -> Result<(), Fail> {
    fill(rt, bank)?;
    for i in [0, 8, 9, usize::MAX] {
        check_refused(rt, bank, i)?;
    }
    check_filled(rt, bank)
}

#[test]
fn a_number_of_no_provider_is_refused(rt: HostRuntime) -> Result<(), Fail> {
    check_other_numbers(&rt, &mut seven())
}

fn check_refusals<B: Bank<Secret>>(rt: &impl Abort, bank: &mut B) -> Result<(), Fail> {
    let text = Secret::new(b"other")?;
    fill(rt, bank)?;
    assert_eq!(rt;
        bank.put(4, key(40), key(40), text),
        Err(Refusal::StoreFull)
    );
    assert_eq!(rt;
        bank.put(6, key(40), key(40), text),
        Err(Refusal::StoreFull)
    );
    let mut none: [Key; 0] = [];
    assert_eq!(rt; bank.list(4, &mut none), Err(Refusal::KeySheetTooShort));
    assert_eq!(rt; bank.list(6, &mut none), Ok(0));
    let mut sheet = [key(70), key(71)];
    assert_eq!(rt; bank.list(4, &mut sheet), Ok(1));
    assert_eq!(rt; sheet, [key(4), key(71)]);
    check_filled(rt, bank)
}

#[test]
fn a_providers_refusal_comes_up_unchanged(rt: HostRuntime) -> Result<(), Fail> {
    check_refusals(&rt, &mut seven())
}

fn work<B: Bank<Secret>>(bank: &mut B, text: Secret) -> Result<(), Refusal> {
    bank.put(2, key(4), key(5), text)?;
    bank.put(3, key(6), key(7), text)?;
    bank.put(1, key(8), key(9), text)?;
    bank.remove(3, key(6))?;
    bank.remove(2, key(8))
}

#[test]
fn a_call_by_number_is_the_call_at_the_provider(rt: HostRuntime) -> Result<(), Fail> {
    let text = Secret::new(b"text")?;
    let mut first = empty();
    let mut second = empty();
    let mut third = empty();
    work(
        &mut Two {
            left: One(&mut first),
            right: Two {
                left: One(&mut second),
                right: One(&mut third),
            },
        },
        text,
    )?;
    let mut direct = empty();
    assert!(rt; third == direct);
    direct.put(key(4), key(5), text)?;
    assert!(rt; second == direct);
    assert!(rt; first != direct);
    direct.remove(key(4));
    direct.put(key(8), key(9), text)?;
    assert!(rt; first == direct);
    Ok(())
}

// Puts one key at the first and the third of three providers and another at the second, and takes the one out everywhere.
fn clear<B: Bank<Secret>>(rt: &impl Abort, bank: &mut B) -> Result<(), Fail> {
    let text = Secret::new(b"text")?;
    bank.put(1, key(1), key(1), text)?;
    bank.put(2, key(2), key(2), text)?;
    bank.put(3, key(1), key(1), text)?;
    assert_eq!(rt; whole::total_count(bank), 3);
    whole::remove_everywhere(bank, key(1));
    assert_eq!(rt; whole::total_count(bank), 1);
    assert!(rt; shows(bank, 2, key(2), text));
    Ok(())
}

#[test]
fn a_key_is_taken_out_everywhere_in_any_nesting(rt: HostRuntime) -> Result<(), Fail> {
    clear(
        &rt,
        &mut Two {
            left: Two {
                left: One(empty()),
                right: One(empty()),
            },
            right: One(empty()),
        },
    )?;
    let mut lent = empty();
    clear(
        &rt,
        &mut Two {
            left: One(empty()),
            right: Two {
                left: One(&mut lent),
                right: One(empty()),
            },
        },
    )
}
