//! The numbers of rights, phases and kinds, and the first number past each.
use records::{Kind, Phase, Refusal, Right};

#[test]
fn rights_phases_and_kinds_have_their_numbers(rt: HostRuntime) {
    for (number, right) in [
        (0, Right::Read),
        (1, Right::Weigh),
        (2, Right::Label),
        (3, Right::Release),
    ] {
        assert_eq!(rt; u8::from(right), number);
        assert_eq!(rt; Right::try_from(u32::from(number)), Ok(right));
    }
    for (number, phase) in [(0, Phase::Work), (1, Phase::Washdown)] {
        assert_eq!(rt; u8::from(phase), number);
        assert_eq!(rt; Phase::try_from(u32::from(number)), Ok(phase));
    }
    for (number, kind) in [
        (1, Kind::Opened),
        (2, Kind::Denied),
        (3, Kind::Ended),
        (4, Kind::Revoked),
    ] {
        assert_eq!(rt; u8::from(kind), number);
    }
    assert_eq!(rt; Right::try_from(4), Err(Refusal::OutOfRange));
    assert_eq!(rt; Phase::try_from(2), Err(Refusal::OutOfRange));
}
