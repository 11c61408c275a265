//! What a refusal says to a reader.
ghost use Rattle.std.specs.Prelude.{Some};
ghost use Rattle.records.specs.Texts.{refusal_text};

use crate::Refusal;
use std::error::Error;
use std::fmt;

impl fmt::Display for Refusal {
    ghost output = { λ refusal. Some (refusal_text refusal) };

    fn fmt<W: fmt::Write>(&self, f: &mut fmt::Formatter<W>) -> fmt::Result {
        f.write_str(match self {
            Refusal::ShortSheet => "the sheet has under 65 lines",
            Refusal::OutOfRange => "a field is out of range",
            Refusal::NoBadge => "no badge has this number",
            Refusal::NoLot => "no lot has this code",
            Refusal::NoAccess => "no open access has this serial",
            Refusal::AlreadyOpen => "this badge has this lot open under this right",
            Refusal::AccessesFull => "64 accesses are open",
            Refusal::SerialsSpent => "the next serial would pass 1,000,000,000",
            Refusal::QuestionFails => "the opening question fails",
            Refusal::CreditShort => "left is below the hold",
            Refusal::RegisterFull => "the key is new, and the register holds 64",
            Refusal::InUse => "the badge or lot to drop has an open access",
            Refusal::UnitsSpent => "units used would pass units held",
            Refusal::GrantTooLarge => "a home's granted would pass 1,000,000,000",
            Refusal::ClockSpent => "the clock would pass 10,000,000",
            Refusal::HoldMismatch => "the charge is above the hold, or the hold above what is held",
        })
    }
}

impl Error for Refusal {}
