//! Purses: what each call takes, refuses and leaves.
use purses::own::OwnPurse;
use purses::pooled::PooledPurse;
use records::Refusal;
use records::number::returned_number;
use std::test::Fail;
use usage::purse::Purse;

// The most that a home can be granted.
const MOST: u32 = 1_000_000_000;

// What is left, held and spent at an account's home.
fn figures<P: Purse>(purse: &P, account: u32) -> Result<[u32; 3], Refusal> {
    Ok([
        purse.left(account)?,
        purse.held(account)?,
        purse.spent(account)?,
    ])
}

#[test]
fn a_hold_is_borne_by_what_is_left(rt: HostRuntime) -> Result<(), Fail> {
    for (left, returned, after) in [
        (40, Ok(()), [0, 40, 0]),
        (39, Err(Refusal::CreditShort), [39, 0, 0]),
    ] {
        let mut purse = OwnPurse::new();
        assert_eq!(rt; purse.add(3, left), Ok(()));
        assert_eq!(rt; purse.hold(3, 40), returned);
        assert_eq!(rt; figures(&purse, 3)?, after);
    }
    assert_eq!(rt; returned_number(Err(Refusal::CreditShort)), 10);
    Ok(())
}

#[test]
fn a_home_is_granted_no_more_than_the_most(rt: HostRuntime) -> Result<(), Fail> {
    let mut purse = OwnPurse::new();
    assert_eq!(rt; purse.add(15, MOST), Ok(()));
    assert_eq!(rt; purse.add(15, 1), Err(Refusal::GrantTooLarge));
    assert_eq!(rt; purse.hold(15, MOST), Ok(()));
    assert_eq!(rt; purse.settle(15, 500, 200), Ok(()));
    assert_eq!(rt; purse.add(15, 1), Err(Refusal::GrantTooLarge));
    assert_eq!(rt; figures(&purse, 15)?, [300, MOST - 500, 200]);
    assert_eq!(rt; returned_number(Err(Refusal::GrantTooLarge)), 14);
    Ok(())
}

#[test]
fn a_settled_hold_leaves_its_rest(rt: HostRuntime) -> Result<(), Fail> {
    let mut purse = OwnPurse::new();
    assert_eq!(rt; purse.add(3, 100), Ok(()));
    assert_eq!(rt; purse.hold(3, 40), Ok(()));
    assert_eq!(rt; purse.settle(3, 40, 41), Err(Refusal::HoldMismatch));
    assert_eq!(rt; purse.settle(3, 41, 25), Err(Refusal::HoldMismatch));
    assert_eq!(rt; figures(&purse, 3)?, [60, 40, 0]);
    assert_eq!(rt; purse.settle(3, 40, 25), Ok(()));
    assert_eq!(rt; figures(&purse, 3)?, [75, 0, 25]);
    assert_eq!(rt; returned_number(Err(Refusal::HoldMismatch)), 16);
    Ok(())
}

#[test]
fn amounts_and_accounts_are_in_range(rt: HostRuntime) -> Result<(), Fail> {
    let mut purse = OwnPurse::new();
    for (account, amount) in [(16, 0), (0, MOST + 1)] {
        let returned = [
            purse.add(account, amount),
            purse.hold(account, amount),
            purse.settle(account, amount, 0),
            purse.settle(account, 0, amount),
        ];
        assert_eq!(rt; returned, [Err(Refusal::OutOfRange); 4]);
    }
    let refusals = [
        purse.left(16).err(),
        purse.held(16).err(),
        purse.spent(16).err(),
    ];
    assert_eq!(rt; refusals, [Some(Refusal::OutOfRange); 3]);
    assert_eq!(rt; figures(&purse, 0)?, [0, 0, 0]);
    assert_eq!(rt; returned_number(Err(Refusal::OutOfRange)), 2);
    Ok(())
}

// What stands at accounts 3 and 7 and at account 4, after calls at 3 and 7.
fn used<P: Purse>(purse: &mut P) -> Result<[[u32; 3]; 3], Refusal> {
    let _ = purse.add(3, 100);
    let _ = purse.add(7, 10);
    let _ = purse.hold(3, 40);
    let _ = purse.settle(3, 40, 25);
    let _ = purse.hold(7, 5);
    Ok([figures(purse, 3)?, figures(purse, 7)?, figures(purse, 4)?])
}

#[test]
fn accounts_share_what_is_at_their_home(rt: HostRuntime) -> Result<(), Fail> {
    let mut pooled = PooledPurse::new([0, 1, 2, 3, 4, 5, 6, 3, 8, 9, 10, 11, 12, 13, 14, 15])?;
    assert_eq!(rt; used(&mut pooled)?, [[80, 5, 25], [80, 5, 25], [0, 0, 0]]);
    let mut own = OwnPurse::new();
    assert_eq!(rt; used(&mut own)?, [[75, 0, 25], [5, 5, 0], [0, 0, 0]]);
    Ok(())
}

#[test]
fn homes_are_from_0_to_15(rt: HostRuntime) {
    assert_eq!(rt; PooledPurse::new([15; 16]).err(), None);
    assert_eq!(rt;
        PooledPurse::new([16, 0, 0, 0, 0, 0, 0, 0, 0, 0, 0, 0, 0, 0, 0, 0]).err(),
        Some(Refusal::OutOfRange)
    );
    assert_eq!(rt;
        PooledPurse::new([0, 0, 0, 0, 0, 0, 0, 0, 0, 0, 0, 0, 0, 0, 0, 16]).err(),
        Some(Refusal::OutOfRange)
    );
}
