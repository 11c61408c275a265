//! The credit at a home.
ghost use Rattle.std.specs.Prelude.{◌≡◌, ℕ, ◌+◌, ◌-◌, ◌≤◌, ◌&&◌, if◌then◌else◌, Ok, Err, OnOk, OnErr, nat_le};
ghost use Rattle.records.specs.Ranges.{amount_fits};
ghost use Rattle.records.specs.declared.Refusal.TheVariants.{OutOfRange, CreditShort, GrantTooLarge, HoldMismatch};

use records::Refusal;

// The most that a home can be granted, and the largest amount.
const MOST: u32 = 1_000_000_000;

/// What is left, held and spent at a home: at most 1,000,000,000 together.
#[derive(Clone, Copy)]
pub struct Credit {
    pub left: u32,
    pub held: u32,
    pub spent: u32,
    ghost most: { left + (held + spent) ≤ 1000000000 },
}

impl Credit {
    /// A home that was granted nothing.
    pub const NOTHING: Credit = Credit {
        left: 0,
        held: 0,
        spent: 0,
    };

    /// Raises what is left.
    pub fn add(&mut self, amount: u32) -> Result<(), Refusal>
        ensures returned { result ≡ (if amount_fits amount then (if amount_fits (self.old.left + (self.old.held + self.old.spent) + amount) then Ok tt else Err GrantTooLarge) else Err OutOfRange) }
        ensures left { OnOk result (self.new.left ≡ self.old.left + amount) }
        ensures held { OnOk result (self.new.held ≡ self.old.held) }
        ensures spent { OnOk result (self.new.spent ≡ self.old.spent) }
        ensures err { OnErr result (self.new ≡ self.old) }
    {
        in_range(amount)?;
        let granted = self.left + (self.held + self.spent);
        if granted + amount > MOST {
            return Err(Refusal::GrantTooLarge);
        }
        self.left += amount;
        Ok(())
    }

    /// Moves an amount from left to held.
    pub fn hold(&mut self, amount: u32) -> Result<(), Refusal>
        ensures returned { result ≡ (if amount_fits amount then (if nat_le amount self.old.left then Ok tt else Err CreditShort) else Err OutOfRange) }
        ensures left { OnOk result (self.new.left ≡ self.old.left - amount) }
        ensures held { OnOk result (self.new.held ≡ self.old.held + amount) }
        ensures spent { OnOk result (self.new.spent ≡ self.old.spent) }
        ensures err { OnErr result (self.new ≡ self.old) }
    {
        in_range(amount)?;
        if amount > self.left {
            return Err(Refusal::CreditShort);
        }
        self.left -= amount;
        self.held += amount;
        Ok(())
    }

    /// Ends a hold: the charge is spent, and the rest is left again.
    pub fn settle(&mut self, hold: u32, charge: u32) -> Result<(), Refusal>
        ensures returned { result ≡ (if amount_fits hold && amount_fits charge then (if nat_le charge hold && nat_le hold self.old.held then Ok tt else Err HoldMismatch) else Err OutOfRange) }
        ensures left { OnOk result (self.new.left ≡ self.old.left + (hold - charge)) }
        ensures held { OnOk result (self.new.held ≡ self.old.held - hold) }
        ensures spent { OnOk result (self.new.spent ≡ self.old.spent + charge) }
        ensures err { OnErr result (self.new ≡ self.old) }
    {
        in_range(hold)?;
        in_range(charge)?;
        if charge > hold || hold > self.held {
            return Err(Refusal::HoldMismatch);
        }
        self.left += hold - charge;
        self.held -= hold;
        self.spent += charge;
        Ok(())
    }
}

// Refuses an amount above the most.
fn in_range(amount: u32) -> Result<(), Refusal>
    ensures { result ≡ (if amount_fits amount then Ok tt else Err OutOfRange) }
{
    if amount > MOST {
        return Err(Refusal::OutOfRange);
    }
    Ok(())
}
