//! Each rule that reads a situation, at both ends of what it passes.
use super::{answers, situation};
use records::Phase;
use std::test::Fail;
use usage::rule::leaf::{Duty, Heads, Leaf, Level, Role, Room, Stop};

#[test]
fn a_level_passes_from_the_lots_level(rt: HostRuntime) -> Result<(), Fail> {
    let rule = Leaf::new(7, Level)?;
    for (badge, lot, answer) in [(3, 3, 0), (2, 3, 7), (255, 254, 0), (0, 1, 7)] {
        let mut s = situation();
        s.badge.level = badge;
        s.lot.level = lot;
        assert_eq!(rt; answers(&rule, &s), (answer, answer));
    }
    Ok(())
}

// Above role 13 stand 7, 3, 1 and 0. What is no role, as 16 and 255, has only itself and 0 at or above it.
#[test]
fn a_role_passes_at_or_above_the_wanted_role(rt: HostRuntime) -> Result<(), Fail> {
    let rule = Leaf::new(7, Role)?;
    for (badge, lot, answer) in [
        (1, 13, 0),
        (2, 13, 7),
        (13, 13, 0),
        (13, 7, 7),
        (0, 0, 0),
        (0, 15, 0),
        (1, 0, 7),
        (0, 16, 0),
        (1, 16, 7),
        (16, 16, 0),
        (0, 255, 0),
        (12, 255, 7),
    ] {
        let mut s = situation();
        s.badge.role = badge;
        s.lot.role = lot;
        assert_eq!(rt; answers(&rule, &s), (answer, answer));
    }
    Ok(())
}

#[test]
fn a_stop_fails(rt: HostRuntime) -> Result<(), Fail> {
    let rule = Leaf::new(7, Stop)?;
    for (stop, answer) in [(false, 0), (true, 7)] {
        let mut s = situation();
        s.lot.stop = stop;
        assert_eq!(rt; answers(&rule, &s), (answer, answer));
    }
    Ok(())
}

#[test]
fn heads_stay_up_to_the_limit(rt: HostRuntime) -> Result<(), Fail> {
    let rule = Leaf::new(7, Heads)?;
    for (heads, staying) in [(0, 0), (10, 0), (11, 7)] {
        let mut s = situation();
        s.lot.heads = heads;
        assert_eq!(rt; answers(&rule, &s), (0, staying));
    }
    Ok(())
}

#[test]
fn a_room_passes_within_its_ends_at_work(rt: HostRuntime) -> Result<(), Fail> {
    let rule = Leaf::new(7, Room::new(-20, 120)?)?;
    for (temperature, phase, answer) in [
        (-20, Phase::Work, 0),
        (0, Phase::Work, 0),
        (120, Phase::Work, 0),
        (-21, Phase::Work, 7),
        (121, Phase::Work, 7),
        (0, Phase::Washdown, 7),
    ] {
        let mut s = situation();
        s.room.temperature = temperature;
        s.room.phase = phase;
        assert_eq!(rt; answers(&rule, &s), (answer, answer));
    }
    Ok(())
}

// The last case has its clock before the last duty: no minutes have passed.
#[test]
fn a_duty_stays_up_to_its_interval(rt: HostRuntime) -> Result<(), Fail> {
    let rule = Leaf::new(7, Duty::new(30)?)?;
    for (clock, duty, staying) in [(30, 0, 0), (31, 0, 7), (131, 100, 7), (0, 100, 0)] {
        let mut s = situation();
        s.room.clock = clock;
        s.access.last_duty = duty;
        assert_eq!(rt; answers(&rule, &s), (0, staying));
    }
    Ok(())
}
