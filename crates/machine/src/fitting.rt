//! Numbers stay in their ranges.

ghost use Rattle.machine.specs.Fitting.{ShiftsFitting};

/// After any calls from a new monitor, whose registers and first serial were in range and whose lots rose by code and
/// had no heads: every number of every badge, lot, access and of the room is in its range, no access has used more
/// units than it holds or has a minute past the clock, and there are at most 64 badges, 64 lots and 64 open accesses.
pub fn numbers_stay_in_range()
    ensures { ShiftsFitting }
{}
