//! The rules made out of rules.
use super::{answers, situation};
use records::Right;
use std::test::Fail;
use usage::rule::layer::{Both, For};
use usage::rule::leaf::{Heads, Leaf, Level};

// A level of 3 is wanted. The second part, on heads, opens always, so that the two questions differ.
#[test]
fn of_both_the_first_failure_answers(rt: HostRuntime) -> Result<(), Fail> {
    let rule = Both::new(Leaf::new(5, Level)?, Leaf::new(9, Heads)?);
    for (level, heads, opening, staying) in [
        (3, 10, 0, 0),
        (3, 11, 0, 9),
        (2, 10, 5, 5),
        (2, 11, 5, 5),
    ] {
        let mut s = situation();
        s.badge.level = level;
        s.lot.heads = heads;
        assert_eq!(rt; answers(&rule, &s), (opening, staying));
    }
    Ok(())
}

#[test]
fn a_part_for_one_right_is_asked_under_it_alone(rt: HostRuntime) -> Result<(), Fail> {
    let rule = For::new(3, Both::new(Leaf::new(9, Heads)?, Leaf::new(5, Level)?))?;
    for (right, opening, staying) in [
        (Right::Read, 0, 0),
        (Right::Weigh, 0, 0),
        (Right::Label, 0, 0),
        (Right::Release, 5, 9),
    ] {
        let mut s = situation();
        s.badge.level = 2;
        s.lot.heads = 11;
        s.access.right = right;
        assert_eq!(rt; answers(&rule, &s), (opening, staying));
    }
    Ok(())
}
