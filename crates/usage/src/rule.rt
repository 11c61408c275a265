//! Rules: two questions about a situation, each answered by a pass or by the rule that fails.
ghost use Rattle.std.specs.Prelude.{◌≡◌, ℕ};
ghost use Rattle.records.specs.declared.Situation.{Situation};
ghost use Rattle.usage.specs.Rules.{answer_number};

use records::Situation;
use std::num::NonZeroU8;

pub mod layer;
pub mod leaf;

/// The rule that fails, by its number from 1 to 255.
#[derive(Clone, Copy, PartialEq, Eq, Debug)]
pub struct Failed(pub NonZeroU8);

/// What decides an access. Its meaning is its two answers for every situation; asking alters nothing.
pub trait Rule {
    ghost opening: { Self → Situation → ℕ };

    ghost staying: { Self → Situation → ℕ };

    /// The opening question, put before an access is opened.
    fn ask_opening(&self, s: &Situation) -> Result<(), Failed>
        ensures { answer_number result ≡ opening self.now s.now };

    /// The staying question, put while an access is open.
    fn ask_staying(&self, s: &Situation) -> Result<(), Failed>
        ensures { answer_number result ≡ staying self.now s.now };
}

/// The number that stands for an answer: 0 for pass, else the number of the rule that fails. Both types are std's, so it is
/// no `From`.
pub fn answer_number(answer: Result<(), Failed>) -> u8
    ensures { result ≡ answer_number answer }
{
    match answer {
        Ok(()) => 0,
        Err(failed) => failed.0.get(),
    }
}
