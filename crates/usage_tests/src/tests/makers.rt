//! What each maker takes and refuses, at both ends of each range.
use records::Refusal;
use std::test::Fail;
use usage::rule::layer::For;
use usage::rule::leaf::{Duty, Heads, Leaf, Level, Role, Room, Stop};

const OUT: Option<Refusal> = Some(Refusal::OutOfRange);

#[test]
fn rules_have_numbers_from_1_to_255(rt: HostRuntime) -> Result<(), Fail> {
    let room = Room::new(0, 0)?;
    let duty = Duty::new(0)?;
    for (number, refusal) in [(0, OUT), (1, None), (255, None), (256, OUT)] {
        let refusals = [
            Leaf::new(number, Level).err(),
            Leaf::new(number, Role).err(),
            Leaf::new(number, Stop).err(),
            Leaf::new(number, Heads).err(),
            Leaf::new(number, room).err(),
            Leaf::new(number, duty).err(),
        ];
        assert_eq!(rt; refusals, [refusal; 6]);
    }
    Ok(())
}

#[test]
fn room_ends_are_temperatures(rt: HostRuntime) {
    for (temperature, refusal) in [(-401, OUT), (-400, None), (600, None), (601, OUT)] {
        assert_eq!(rt; Room::new(temperature, 0).err(), refusal);
        assert_eq!(rt; Room::new(0, temperature).err(), refusal);
    }
}

#[test]
fn intervals_and_rights_have_a_most(rt: HostRuntime) -> Result<(), Fail> {
    assert_eq!(rt; Duty::new(1440).err(), None);
    assert_eq!(rt; Duty::new(1441).err(), OUT);
    let part = Leaf::new(1, Stop)?;
    assert_eq!(rt; For::new(0, part).err(), None);
    assert_eq!(rt; For::new(3, part).err(), None);
    assert_eq!(rt; For::new(4, part).err(), OUT);
    Ok(())
}
