//! The number that stands for each case of an enum, and the case of a number.
ghost use Rattle.std.specs.Prelude.{◌≡◌, if◌then◌else◌, Ok, Err, nat_le};
ghost use Rattle.records.specs.Numbers.{right_number, right_of, phase_number, phase_of, kind_number, refusal_number, returned_number};
ghost use Rattle.records.specs.declared.Refusal.TheVariants.{OutOfRange, RegisterFull};

use crate::{Kind, Phase, Refusal, Right};
use register::slice::Full;

impl From<Right> for u8 {
    ghost from_gives = { λ right number. number ≡ right_number right };

    fn from(right: Right) -> u8 {
        match right {
            Right::Read => 0,
            Right::Weigh => 1,
            Right::Label => 2,
            Right::Release => 3,
        }
    }
}

/// The right of a number from 0 to 3.
impl TryFrom<u32> for Right {
    type Error = Refusal;

    ghost try_from_gives = { λ number right. right ≡ (if nat_le number 3 then Ok (right_of number) else Err OutOfRange) };

    fn try_from(number: u32) -> Result<Right, Refusal> {
        match number {
            0 => Ok(Right::Read),
            1 => Ok(Right::Weigh),
            2 => Ok(Right::Label),
            3 => Ok(Right::Release),
            _ => Err(Refusal::OutOfRange),
        }
    }
}

impl From<Phase> for u8 {
    ghost from_gives = { λ phase number. number ≡ phase_number phase };

    fn from(phase: Phase) -> u8 {
        match phase {
            Phase::Work => 0,
            Phase::Washdown => 1,
        }
    }
}

/// The phase of a number from 0 to 1.
impl TryFrom<u32> for Phase {
    type Error = Refusal;

    ghost try_from_gives = { λ number phase. phase ≡ (if nat_le number 1 then Ok (phase_of number) else Err OutOfRange) };

    fn try_from(number: u32) -> Result<Phase, Refusal> {
        match number {
            0 => Ok(Phase::Work),
            1 => Ok(Phase::Washdown),
            _ => Err(Refusal::OutOfRange),
        }
    }
}

impl From<Kind> for u8 {
    ghost from_gives = { λ kind number. number ≡ kind_number kind };

    fn from(kind: Kind) -> u8 {
        match kind {
            Kind::Opened => 1,
            Kind::Denied => 2,
            Kind::Ended => 3,
            Kind::Revoked => 4,
        }
    }
}

/// The number of the return table.
impl From<Refusal> for u8 {
    ghost from_gives = { λ refusal number. number ≡ refusal_number refusal };

    fn from(refusal: Refusal) -> u8 {
        match refusal {
            Refusal::ShortSheet => 1,
            Refusal::OutOfRange => 2,
            Refusal::NoBadge => 3,
            Refusal::NoLot => 4,
            Refusal::NoAccess => 5,
            Refusal::AlreadyOpen => 6,
            Refusal::AccessesFull => 7,
            Refusal::SerialsSpent => 8,
            Refusal::QuestionFails => 9,
            Refusal::CreditShort => 10,
            Refusal::RegisterFull => 11,
            Refusal::InUse => 12,
            Refusal::UnitsSpent => 13,
            Refusal::GrantTooLarge => 14,
            Refusal::ClockSpent => 15,
            Refusal::HoldMismatch => 16,
        }
    }
}

/// The number of what a call returned: 0 where it was accepted. Both types are std's, so it is no `From`.
pub fn returned_number(returned: Result<(), Refusal>) -> u8
    ensures { result ≡ returned_number returned }
{
    match returned {
        Ok(()) => 0,
        Err(refusal) => refusal.into(),
    }
}

/// A register of badges or lots that is full.
impl From<Full> for Refusal {
    ghost from_gives = { λ _ refusal. refusal ≡ RegisterFull };

    fn from(_full: Full) -> Refusal {
        Self::RegisterFull
    }
}
