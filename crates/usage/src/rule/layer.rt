//! The rules that are made out of rules.
ghost use Rattle.std.specs.Prelude.{◌≡◌, if◌then◌else◌, Ok, Err, nat_le};
ghost use Rattle.records.specs.Numbers.{right_of, same_right};
ghost use Rattle.records.specs.declared.Refusal.TheVariants.{OutOfRange};
ghost use Rattle.usage.specs.Rules.{both_answer, for_answer};

use crate::rule::{Failed, Rule};
use records::{Refusal, Right, Situation};

/// Answers its first part's failure, else its second part's answer.
#[derive(Clone, Copy, Drop)]
pub struct Both<A, B> {
    first: A,
    second: B,
}

impl<A: Rule, B: Rule> Both<A, B> {
    /// The layer over two rules.
    pub fn new(first: A, second: B) -> Both<A, B>
        ensures { result ≡ record { first = first; second = second } }
    {
        Both { first, second }
    }
}

impl<A: Rule, B: Rule> Rule for Both<A, B> {
    ghost opening = { λ rule s. both_answer (A.Rule.opening rule.first s) (B.Rule.opening rule.second s) };

    ghost staying = { λ rule s. both_answer (A.Rule.staying rule.first s) (B.Rule.staying rule.second s) };

    fn ask_opening(&self, s: &Situation) -> Result<(), Failed> {
        self.first.ask_opening(s)?;
        self.second.ask_opening(s)
    }

    fn ask_staying(&self, s: &Situation) -> Result<(), Failed> {
        self.first.ask_staying(s)?;
        self.second.ask_staying(s)
    }
}

/// Asks its part under one right, and passes under the others.
#[derive(Clone, Copy, Drop)]
pub struct For<R> {
    right: Right,
    part: R,
}

impl<R: Rule + Drop> For<R> {
    /// The layer over a rule, for the right of a number from 0 to 3.
    pub fn new(right: u32, part: R) -> Result<For<R>, Refusal>
        ensures { result ≡ (if nat_le right 3 then Ok (record { right = right_of right; part = part }) else Err OutOfRange) }
    {
        let right = Right::try_from(right)?;
        Ok(For { right, part })
    }
}

impl<R> For<R> {
    // Whether an access is under the part's right.
    fn is_under(&self, s: &Situation) -> bool
        ensures { result ≡ same_right self.now.right s.now.access.right }
    {
        self.right == s.access.right
    }
}

impl<R: Rule> Rule for For<R> {
    ghost opening = { λ rule s. for_answer rule.right s (R.Rule.opening rule.part s) };

    ghost staying = { λ rule s. for_answer rule.right s (R.Rule.staying rule.part s) };

    fn ask_opening(&self, s: &Situation) -> Result<(), Failed> {
        if self.is_under(s) {
            self.part.ask_opening(s)
        } else {
            Ok(())
        }
    }

    fn ask_staying(&self, s: &Situation) -> Result<(), Failed> {
        if self.is_under(s) {
            self.part.ask_staying(s)
        } else {
            Ok(())
        }
    }
}
