use journal::journal::Journal;
use std::alloc::{AllocError, Global};
use std::test::Fail;
use stores::store::Store;
use stores::stored::Stored;
use values::hold::Hold;
use values::kind::Kind;
use values::refusal::Refusal;
use values::secret::Secret;
use values::version::{Key, Version};

fn version(number: u32, seat: u16) -> Version {
    Version { number, seat }
}

// The capacity of a journal for secrets in `n` bytes.
fn capacity_in(heap: Global, n: usize) -> Result<usize, AllocError> {
    let mut bytes = vec![in heap; 1; n]?;
    let journal = Journal::new::<Secret>(&mut bytes);
    Ok(Store::<Secret>::capacity(&journal))
}

#[test]
fn capacities_for_secrets(rt: HostRuntime) -> Result<(), Fail> {
    assert_eq!(rt; capacity_in(rt.alloc(), 248)?, 3);
    assert_eq!(rt; capacity_in(rt.alloc(), 247)?, 2);
    assert_eq!(rt; capacity_in(rt.alloc(), 124)?, 1);
    assert_eq!(rt; capacity_in(rt.alloc(), 123)?, 0);
    assert_eq!(rt; capacity_in(rt.alloc(), 2045)?, 31);
    assert_eq!(rt; capacity_in(rt.alloc(), 4000)?, 32);
    Ok(())
}

// One record of each bit map. Answers the used length.
fn six_records(bytes: &mut [u8]) -> Result<usize, Refusal> {
    let hold = Hold::new(3, 10, 20)?;
    let mut journal = Journal::new::<Hold>(bytes);
    journal.put(version(0, 0), version(0, 0), hold)?;
    journal.put(version(3, 1), version(3, 1), hold)?;
    journal.put(version(0, 0), version(3, 1), hold)?;
    journal.put(version(3, 1), version(260, 2), hold)?;
    Store::<Hold>::remove(&mut journal, version(0, 0));
    Store::<Hold>::remove(&mut journal, version(3, 1));
    Store::<Hold>::remove(&mut journal, version(3, 1));
    Ok(journal.used())
}

// Whether the bytes from `at` on begin with these.
fn stand_at(bytes: &[u8], at: usize, record: &[u8]) -> bool {
    bytes.iter().skip(at).zip(record).all(|(a, b)| a == b)
}

// The hold by seat 3 from minute 10 to 20 is 07 03 00 0A 00 00 00 14 00 00 00.
#[test]
fn records_of_all_six_maps(rt: HostRuntime) -> Result<(), Fail> {
    let mut bytes = vec![in rt.alloc(); 9; 96]?;
    assert_eq!(rt; six_records(&mut bytes)?, 80);
    let put_4 = b"\x04\x07\x03\x00\x0a\x00\x00\x00\x14\x00\x00\x00";
    let put_5 = b"\x05\x03\x00\x00\x00\x01\x00\x07\x03\x00\x0a\x00\x00\x00\x14\x00\x00\x00";
    let put_6 = b"\x06\x03\x00\x00\x00\x01\x00\x07\x03\x00\x0a\x00\x00\x00\x14\x00\x00\x00";
    let put_7 =
        b"\x07\x03\x00\x00\x00\x01\x00\x04\x01\x00\x00\x02\x00\x07\x03\x00\x0a\x00\x00\x00\x14\x00\x00\x00";
    let removes = b"\x00\x01\x03\x00\x00\x00\x01\x00";
    assert!(rt; stand_at(&bytes, 0, put_4));
    assert!(rt; stand_at(&bytes, 12, put_5));
    assert!(rt; stand_at(&bytes, 30, put_6));
    assert!(rt; stand_at(&bytes, 48, put_7));
    assert!(rt; stand_at(&bytes, 72, removes));
    assert!(rt; stand_at(&bytes, 80, &[0; 16]));
    Ok(())
}

// Puts a new key, reads it and takes it out again, over and over. Answers how often the log was packed, or none if a key
// was lost or did not go.
fn alternate(bytes: &mut [u8], secret: Secret, turns: u32) -> Option<u32> {
    let mut journal = Journal::new::<Secret>(bytes);
    let mut packings: u32 = 0;
    for turn in 0..turns {
        let before = journal.used();
        journal
            .put(version(turn, 1), version(turn, 2), secret)
            .ok()?;
        if journal.used() < before {
            packings = packings.wrapping_add(1);
        }
        let expected = Stored {
            version: version(turn, 2),
            value: secret,
        };
        if journal.get(version(turn, 1)) != Some(expected) {
            return None;
        }
        Store::<Secret>::remove(&mut journal, version(turn, 1));
        if Store::<Secret>::count(&journal) != 0 {
            return None;
        }
    }
    Some(packings)
}

#[test]
fn a_long_alternation_in_the_smallest_journal(rt: HostRuntime) -> Result<(), Fail> {
    let secret = Secret::new(b"open sesame")?;
    assert_eq!(rt;
        alternate(&mut vec![in rt.alloc(); 0; 124]?, secret, 400),
        Some(399)
    );
    Ok(())
}

// Beside a key that stays, puts and removes another. Answers whether the first was always there.
fn keeps_a_key(bytes: &mut [u8], secret: Secret, turns: u32) -> Result<bool, Refusal> {
    let mut journal = Journal::new::<Secret>(bytes);
    journal.put(version(0, 0), version(9, 4), secret)?;
    let kept = Stored {
        version: version(9, 4),
        value: secret,
    };
    for turn in 0..turns {
        journal.put(version(turn, 1), version(turn, 1), secret)?;
        Store::<Secret>::remove(&mut journal, version(turn, 1));
        if journal.get(version(0, 0)) != Some(kept) {
            return Ok(false);
        }
    }
    Ok(Store::<Secret>::count(&journal) == 1)
}

#[test]
fn a_key_outlives_packing(rt: HostRuntime) -> Result<(), Fail> {
    let secret = Secret::new(b"kept")?;
    assert!(rt; keeps_a_key(&mut vec![in rt.alloc(); 0; 186]?, secret, 300)?);
    Ok(())
}

// Puts a value of any kind and reads it back.
fn read_back<V: Kind>(bytes: &mut [u8], value: V) -> Option<V> {
    let mut journal = Journal::new::<V>(bytes);
    journal.put(version(4, 1), version(4, 2), value).ok()?;
    let stored: Stored<V> = journal.get(version(4, 1))?;
    Some(stored.value)
}

#[test]
fn values_of_both_kinds_are_read_back(rt: HostRuntime) -> Result<(), Fail> {
    let mut bytes = vec![in rt.alloc(); 5; 124]?;
    let (secret, hold) = (Secret::new(b"open sesame")?, Hold::new(3, 10, 20)?);
    assert!(rt; read_back(&mut bytes, secret) == Some(secret));
    assert_eq!(rt; read_back(&mut bytes, hold), Some(hold));
    assert!(rt; secret.as_bytes() == b"open sesame".as_slice());
    assert!(rt; hold.covers(10) && hold.covers(20) && !hold.covers(9) && !hold.covers(21));
    Ok(())
}

fn listed(bytes: &mut [u8], sheet: &mut [Key]) -> Result<usize, Refusal> {
    let hold = Hold::new(1, 2, 3)?;
    let mut journal = Journal::new::<Hold>(bytes);
    journal.put(version(5, 1), version(5, 1), hold)?;
    journal.put(version(2, 7), version(5, 1), hold)?;
    Store::<Hold>::list(&journal, sheet)
}

#[test]
fn keys_are_listed_ascending(rt: HostRuntime) -> Result<(), Fail> {
    let mut bytes = vec![in rt.alloc(); 0; 72]?;
    let mut short = [version(8, 8)];
    assert_eq!(rt;
        listed(&mut bytes, &mut short),
        Err(Refusal::KeySheetTooShort)
    );
    assert_eq!(rt; short, [version(8, 8)]);
    let mut sheet = [version(8, 8); 3];
    assert_eq!(rt; listed(&mut bytes, &mut sheet), Ok(2));
    assert_eq!(rt; sheet, [version(2, 7), version(5, 1), version(8, 8)]);
    Ok(())
}

// A journal for holds has no room for secrets, which are wider, and calls with secrets change nothing. Answers the used
// length, unless there was room.
fn with_another_width(
    bytes: &mut [u8],
    hold: Hold,
    secret: Secret,
) -> Result<Option<usize>, Refusal> {
    let mut journal = Journal::new::<Hold>(bytes);
    journal.put(version(5, 1), version(5, 1), hold)?;
    let refused = journal.put(version(5, 1), version(6, 1), secret);
    Store::<Secret>::remove(&mut journal, version(5, 1));
    if refused.is_ok() || Store::<Secret>::capacity(&journal) != 0 {
        return Ok(None);
    }
    Ok(Some(journal.used()))
}

#[test]
fn values_of_another_width_find_no_room(rt: HostRuntime) -> Result<(), Fail> {
    let hold = Hold::new(1, 2, 3)?;
    let secret = Secret::new(b"wide")?;
    assert_eq!(rt;
        with_another_width(&mut vec![in rt.alloc(); 0; 480]?, hold, secret)?,
        Some(18)
    );
    Ok(())
}

fn packed(bytes: &mut [u8], hold: Hold) -> Result<(usize, usize), Refusal> {
    let mut journal = Journal::new::<Hold>(bytes);
    journal.put(version(5, 1), version(5, 1), hold)?;
    journal.put(version(2, 7), version(5, 1), hold)?;
    Store::<Hold>::remove(&mut journal, version(5, 1));
    let before = journal.used();
    journal.pack();
    Ok((before, journal.used()))
}

#[test]
fn packing_leaves_the_live_records(rt: HostRuntime) -> Result<(), Fail> {
    let hold = Hold::new(1, 2, 3)?;
    let (before, after) = packed(&mut vec![in rt.alloc(); 0; 72]?, hold)?;
    assert_eq!(rt; before, 49);
    assert_eq!(rt; after, 24);
    Ok(())
}
