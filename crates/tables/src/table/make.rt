//! How tables are made: with a first serial and registers, which are in range, in order and without heads.
ghost use Rattle.std.specs.Prelude.{◌≡◌, Bool, Some, MatchResult};
ghost use Rattle.register.specs.Lists.{all};
ghost use Rattle.machine.specs.Checks.{first_applying};
ghost use Rattle.tables.specs.declared.table.make.Unmade.TheVariants.{RegisterFull};
ghost use Rattle.tables.specs.Made.{unmade_number, unmade_text, badge_fits, lot_fits, maker_checks, Made};

use crate::table::Tables;
use ranges::{attribute_fits, badge_number_fits, code_fits, limit_fits, prices_fit, serial_fits};
use records::{Access, Badge, Lot, Room};
use register::bounded::Register;
use register::slice::{Full, rises};
use std::error::Error;
use std::fmt;

/// Why tables are not made.
#[derive(Clone, Copy, PartialEq, Eq, Debug)]
pub enum Unmade {
    OutOfRange,
    RegisterFull,
    OutOfOrder,
}

impl fmt::Display for Unmade {
    ghost output = { λ unmade. Some (unmade_text unmade) };

    fn fmt<W: fmt::Write>(&self, f: &mut fmt::Formatter<W>) -> fmt::Result {
        f.write_str(match self {
            Unmade::OutOfRange => "the first serial or a field is out of range",
            Unmade::RegisterFull => "a register has over 64 records",
            Unmade::OutOfOrder => "the records of a register do not rise by key",
        })
    }
}

impl Error for Unmade {}

impl From<Full> for Unmade {
    ghost from_gives = { λ _ unmade. unmade ≡ RegisterFull };

    fn from(_full: Full) -> Unmade {
        Self::RegisterFull
    }
}

impl Tables {
    /// Tables with a first serial, registers, a new room and no access.
    pub fn new(first_serial: u32, badges: &[Badge], lots: &[Lot]) -> Result<Tables, Unmade>
        ensures { MatchResult result (λ t. (first_applying (maker_checks first_serial badges.now lots.now) ≡ 0) × Made first_serial badges.now lots.now t) (λ e. unmade_number e ≡ first_applying (maker_checks first_serial badges.now lots.now)) }
    {
        if !serial_fits(first_serial) || !all_fit(badges) || !all_fit(lots) {
            return Err(Unmade::OutOfRange);
        }
        let badge_register = Register::with_records(Badge::default(), badges)?;
        let lot_register = Register::with_records(Lot::default(), lots)?;
        if !rises(badges) {
            return Err(Unmade::OutOfOrder);
        }
        if !rises(lots) {
            return Err(Unmade::OutOfOrder);
        }
        Ok(Tables {
            badges: badge_register,
            lots: lot_register,
            accesses: Register::new(Access::default()),
            room: Room::default(),
            next_serial: first_serial,
        })
    }
}

// A record whose fields can be in range.
trait Ranged {
    ghost fit: { Self → Bool };

    fn fits(&self) -> bool
        ensures { result ≡ fit self.now };
}

impl Ranged for Badge {
    ghost fit = { badge_fits };

    fn fits(&self) -> bool {
        badge_number_fits(self.number)
            && attribute_fits(u32::from(self.level))
            && attribute_fits(u32::from(self.role))
            && attribute_fits(u32::from(self.account))
    }
}

impl Ranged for Lot {
    ghost fit = { lot_fits };

    fn fits(&self) -> bool {
        code_fits(&self.code)
            && attribute_fits(u32::from(self.level))
            && attribute_fits(u32::from(self.role))
            && limit_fits(u32::from(self.limit))
            && prices_fit(&self.prices.map(u32::from))
            && self.heads == 0
    }
}

// Whether the fields of each record are in range.
fn all_fit<T: Ranged>(records: &[T]) -> bool
    ensures { result ≡ all T.Ranged.fit records.now }
{
    records.iter().all(|record| record.fits())
}
