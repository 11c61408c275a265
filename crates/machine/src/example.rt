//! A worked day.

ghost use Rattle.machine.specs.Example.{Example};

/// What the machine answers to the calls of a small day, lines included, and one call refused for each number from 1 to
/// 15.
pub fn example_holds()
    ensures { Example }
{}
