//! The worked figures.

ghost use Rattle.machine.specs.Figures.{Figures};

/// What the definitions come to where each number is known: roles above others, the last head that stays, the last
/// minute of a duty on time, the coldest and the warmest room at work, the largest hold, and the questions of a sweep.
pub fn figures_hold()
    ensures { Figures }
{}
