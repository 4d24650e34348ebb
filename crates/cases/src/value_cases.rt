use std::test::Fail;
use values::hold::Hold;
use values::kind::Kind;
use values::refusal::Refusal;
use values::secret::Secret;
use values::version::Version;

fn held(seat: u16, first: u32, last: u32) -> Hold {
    Hold::Held { seat, first, last }
}

#[test]
fn versions_compare_by_number_then_seat(rt: HostRuntime) {
    let low = Version {
        number: 3,
        seat: 65535,
    };
    let high = Version { number: 4, seat: 0 };
    assert!(rt; low.before(high));
    assert!(rt; !high.before(low));
    assert!(rt; !low.before(low));
    assert!(rt; low.same(low));
    assert!(rt; !low.same(Version { number: 3, seat: 1 }));
    assert!(rt; Version::NONE.before(Version { number: 0, seat: 1 }));
    assert!(rt; Version { number: 3, seat: 1 }.before(Version { number: 3, seat: 2 }));
}

#[test]
fn a_hold_by_seat_3_from_10_to_20_has_these_bytes(rt: HostRuntime) {
    let bytes = [
        0x07, 0x03, 0x00, 0x0a, 0x00, 0x00, 0x00, 0x14, 0x00, 0x00, 0x00,
    ];
    let mut sheet = [0xffu8; 11];
    assert_eq!(rt; held(3, 10, 20).write(&mut sheet), Ok(()));
    assert_eq!(rt; sheet, bytes);
    assert_eq!(rt; <Hold as Kind>::read(&bytes), Ok(held(3, 10, 20)));
    assert_eq!(rt; Hold::Free.write(&mut sheet), Ok(()));
    assert_eq!(rt; sheet, [0; 11]);
}

#[test]
fn a_hold_whose_first_minute_is_after_its_last_is_free(rt: HostRuntime) {
    let mut sheet = [0xffu8; 11];
    assert_eq!(rt; held(3, 21, 20).write(&mut sheet), Ok(()));
    assert_eq!(rt; sheet, [0; 11]);
    assert!(rt; !held(3, 21, 20).covers(20));
    assert_eq!(rt; Hold::new(3, 21, 20), Err(Refusal::MinutesReversed));
    assert_eq!(rt; Hold::new(3, 20, 20), Ok(held(3, 20, 20)));
    assert!(rt; held(3, 20, 20).covers(20));
}

#[test]
fn holds_are_equal_where_they_mean_the_same(rt: HostRuntime) {
    assert!(rt; held(3, 21, 20) == held(4, 9, 8));
    assert!(rt; held(3, 21, 20) == Hold::Free);
    assert!(rt; held(3, 20, 20) != Hold::Free);
    assert!(rt; held(3, 20, 20) != held(3, 20, 21));
    assert!(rt; held(3, 20, 20) != held(4, 20, 20));
}

#[test]
fn a_hold_from_10_to_20_covers_both_and_not_9_or_21(rt: HostRuntime) {
    let hold = held(1, 10, 20);
    assert!(rt; hold.covers(10));
    assert!(rt; hold.covers(20));
    assert!(rt; !hold.covers(9));
    assert!(rt; !hold.covers(21));
    assert!(rt; !Hold::Free.covers(0));
}

#[test]
fn a_hold_is_read_only_from_fitting_bytes(rt: HostRuntime) {
    let unfit = Err(Refusal::UnfitBytes);
    assert_eq!(rt; <Hold as Kind>::read(&[0; 10]), unfit);
    assert_eq!(rt; <Hold as Kind>::read(&[0; 12]), unfit);
    assert_eq!(rt;
        <Hold as Kind>::read(&[1, 0, 0, 0, 0, 0, 0, 0, 0, 0, 0]),
        unfit
    );
    assert_eq!(rt;
        <Hold as Kind>::read(&[7, 0, 0, 2, 0, 0, 0, 1, 0, 0, 0]),
        unfit
    );
    assert_eq!(rt;
        <Hold as Kind>::read(&[0, 9, 9, 9, 9, 9, 9, 9, 9, 9, 9]),
        Ok(Hold::Free)
    );
    let mut short = [5u8; 10];
    assert_eq!(rt; held(3, 10, 20).write(&mut short), Err(Refusal::UnfitBytes));
    assert_eq!(rt; short, [5; 10]);
}

#[test]
fn a_secret_has_at_most_48_bytes(rt: HostRuntime) -> Result<(), Fail> {
    let none = Secret::new(&[])?;
    assert_eq!(rt; none.as_bytes().len(), 0);
    let most = Secret::new(&[7; 48])?;
    assert_eq!(rt; most.as_bytes().len(), 48);
    assert_eq!(rt; Secret::new(&[7; 49]).err(), Some(Refusal::SecretTooLong));
    let mut sheet = [0xffu8; 49];
    assert_eq!(rt; most.write(&mut sheet), Ok(()));
    assert_eq!(rt; sheet[0], 48);
    assert_eq!(rt; sheet[48], 7);
    Ok(())
}

#[test]
fn a_secret_means_its_first_bytes(rt: HostRuntime) {
    let odd = Secret {
        len: 2,
        bytes: [9; 48],
    };
    let mut sheet = [0xffu8; 49];
    assert_eq!(rt; odd.write(&mut sheet), Ok(()));
    assert_eq!(rt; sheet[0], 2);
    assert_eq!(rt; sheet[2], 9);
    assert_eq!(rt; sheet[3], 0);
    let long = Secret {
        len: 49,
        bytes: [9; 48],
    };
    assert_eq!(rt; long.as_bytes().len(), 0);
    assert_eq!(rt; long.write(&mut sheet), Ok(()));
    assert_eq!(rt; sheet, [0; 49]);
}

#[test]
fn a_secret_is_read_only_from_fitting_bytes(rt: HostRuntime) -> Result<(), Fail> {
    let mut sheet = [9u8; 49];
    sheet[0] = 48;
    assert!(rt; <Secret as Kind>::read(&sheet).is_ok());
    sheet[0] = 49;
    assert_eq!(rt;
        <Secret as Kind>::read(&sheet).err(),
        Some(Refusal::UnfitBytes)
    );
    assert_eq!(rt;
        <Secret as Kind>::read(&[0; 48]).err(),
        Some(Refusal::UnfitBytes)
    );
    assert_eq!(rt;
        <Secret as Kind>::read(&[0; 50]).err(),
        Some(Refusal::UnfitBytes)
    );
    sheet[0] = 1;
    let one = <Secret as Kind>::read(&sheet)?;
    assert_eq!(rt; one.bytes[0], 9);
    assert_eq!(rt; one.bytes[1], 0);
    Ok(())
}
