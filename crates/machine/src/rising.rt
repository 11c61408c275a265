//! Registers in order.

ghost use Rattle.machine.specs.Rising.{ShiftsRising};

/// Registers that begin in order, badges by rising number and lots by rising code, are in order after any shift from
/// new, so that no two records of a register share a key.
pub fn registers_stay_in_order()
    ensures { ShiftsRising }
{}
