//! What a call reports of its sweep.

ghost use Rattle.machine.specs.Report.{CallsReported};

/// Every call after any shift from new answers how many staying questions it put, by a formula of the accesses open
/// before its sweep and those revoked; a call that is not accepted puts none. It writes at most 65 lines, and leaves at
/// most 64 accesses open.
pub fn calls_report_their_sweep()
    ensures { CallsReported }
{}
