//! The law of the shift.

ghost use Rattle.machine.specs.Law.{ShiftsLawful};

/// For every rule, every order that keeps its laws, any registers and a purse at nothing, after any calls: each open
/// access passes its staying question, and each revoked one was the first in the order of those that failed; serials
/// open once and close once, opening first, and the monitor's records are the journal's; and for each home the grants
/// are the charges, the open holds and what is left.
pub fn shifts_are_lawful()
    ensures { ShiftsLawful }
{}
