//! Open accesses stay at their badges and lots.

ghost use Rattle.machine.specs.Placed.{ShiftsPlaced, ShiftsCounted};

/// After any calls from a new monitor every open access has its badge and its lot in the registers.
pub fn accesses_are_placed()
    ensures { ShiftsPlaced }
{}

/// After any calls from a new monitor, whose lots rose by code and had no heads, each lot's heads are the number of
/// accesses open at it.
pub fn heads_are_counted()
    ensures { ShiftsCounted }
{}
