//! The rules that read a situation themselves: a test, under a number.
ghost use Rattle.std.specs.Prelude.{◌≡◌, ◌&&◌, if◌then◌else◌, Bool, true, false, Ok, Err, MatchBool, IsOkAnd, IsErrOf};
ghost use Rattle.std.specs.Int.NonZero.{non_zero_u8_get};
ghost use Rattle.records.specs.declared.Refusal.TheVariants.{OutOfRange};
ghost use Rattle.records.specs.declared.Situation.{Situation};
ghost use Rattle.records.specs.Ranges.{temperature_fits};
ghost use Rattle.usage.specs.Rules.{rule_number_fits, interval_fits, answer, level_passes, role_passes, stop_passes, heads_passes, room_passes, duty_passes};

use crate::role::at_or_above;
use crate::rule::{Failed, Rule};
use ranges::temperature_fits;
use records::{Phase, Refusal, Situation};
use std::num::NonZeroU8;

/// A test of a situation.
pub trait Test {
    ghost passes: { Self → Situation → Bool };

    ghost AT_OPENING: { Bool };

    /// Whether the test is made at opening too, or of an open access alone.
    const AT_OPENING: bool;

    /// Whether a situation passes.
    fn passes(&self, s: &Situation) -> bool
        ensures { result ≡ passes self.now s.now };
}

/// A test as a rule: passes where the test passes or is not made, and else fails under its number.
#[derive(Clone, Copy, Drop)]
pub struct Leaf<T> {
    number: NonZeroU8,
    test: T,
}

impl<T: Test + Drop> Leaf<T> {
    /// The rule of a test under a number from 1 to 255.
    pub fn new(number: u32, test: T) -> Result<Leaf<T>, Refusal>
        ensures { MatchBool (rule_number_fits number) (IsOkAnd result (λ rule. (non_zero_u8_get rule.number ≡ number) × (rule.test ≡ test))) (IsErrOf result OutOfRange) }
    {
        match u8::try_from(number).map(NonZeroU8::new) {
            Ok(Some(number)) => Ok(Leaf { number, test }),
            _ => Err(Refusal::OutOfRange),
        }
    }
}

impl<T: Test> Rule for Leaf<T> {
    ghost opening = { λ rule s. if T.AT_OPENING then answer (T.passes rule.test s) (non_zero_u8_get rule.number) else 0 };

    ghost staying = { λ rule s. answer (T.passes rule.test s) (non_zero_u8_get rule.number) };

    fn ask_opening(&self, s: &Situation) -> Result<(), Failed> {
        if T::AT_OPENING {
            self.ask_staying(s)
        } else {
            Ok(())
        }
    }

    fn ask_staying(&self, s: &Situation) -> Result<(), Failed> {
        if self.test.passes(s) {
            Ok(())
        } else {
            Err(Failed(self.number))
        }
    }
}

/// Passes where the badge's level is at least the lot's.
#[derive(Clone, Copy)]
pub struct Level;

impl Test for Level {
    ghost passes = { λ _ s. level_passes s };

    ghost AT_OPENING = { true };

    const AT_OPENING: bool = true;

    fn passes(&self, s: &Situation) -> bool {
        s.badge.level >= s.lot.level
    }
}

/// Passes where the badge's role is at or above the wanted role.
#[derive(Clone, Copy)]
pub struct Role;

impl Test for Role {
    ghost passes = { λ _ s. role_passes s };

    ghost AT_OPENING = { true };

    const AT_OPENING: bool = true;

    fn passes(&self, s: &Situation) -> bool {
        at_or_above(s.badge.role, s.lot.role)
    }
}

/// Passes where the lot has no stop mark.
#[derive(Clone, Copy)]
pub struct Stop;

impl Test for Stop {
    ghost passes = { λ _ s. stop_passes s };

    ghost AT_OPENING = { true };

    const AT_OPENING: bool = true;

    fn passes(&self, s: &Situation) -> bool {
        !s.lot.stop
    }
}

/// Passes where the lot's heads are at most its head limit; not made at opening.
#[derive(Clone, Copy)]
pub struct Heads;

impl Test for Heads {
    ghost passes = { λ _ s. heads_passes s };

    ghost AT_OPENING = { false };

    const AT_OPENING: bool = false;

    fn passes(&self, s: &Situation) -> bool {
        s.lot.heads <= s.lot.limit
    }
}

/// Passes where the room is at work and its temperature is within two ends, both included.
#[derive(Clone, Copy)]
pub struct Room {
    lowest: i64,
    highest: i64,
}

impl Room {
    /// The test with a lowest and a highest temperature from -400 to 600.
    pub fn new(lowest: i64, highest: i64) -> Result<Room, Refusal>
        ensures { result ≡ (if temperature_fits lowest && temperature_fits highest then Ok (record { lowest = lowest; highest = highest }) else Err OutOfRange) }
    {
        if !temperature_fits(lowest) || !temperature_fits(highest) {
            return Err(Refusal::OutOfRange);
        }
        Ok(Room { lowest, highest })
    }
}

impl Test for Room {
    ghost passes = { λ test s. room_passes test.lowest test.highest s };

    ghost AT_OPENING = { true };

    const AT_OPENING: bool = true;

    fn passes(&self, s: &Situation) -> bool {
        s.room.phase == Phase::Work && (self.lowest..=self.highest).contains(&s.room.temperature)
    }
}

/// Passes where the minutes since the last duty are at most an interval; not made at opening.
#[derive(Clone, Copy)]
pub struct Duty {
    interval: u32,
}

impl Duty {
    /// The test with an interval of at most 1,440 minutes.
    pub fn new(interval: u32) -> Result<Duty, Refusal>
        ensures { result ≡ (if interval_fits interval then Ok (record { interval = interval }) else Err OutOfRange) }
    {
        if interval > 1440 {
            return Err(Refusal::OutOfRange);
        }
        Ok(Duty { interval })
    }
}

impl Test for Duty {
    ghost passes = { λ test s. duty_passes test.interval s };

    ghost AT_OPENING = { false };

    const AT_OPENING: bool = false;

    fn passes(&self, s: &Situation) -> bool {
        s.room.clock.saturating_sub(s.access.last_duty) <= self.interval
    }
}
