//! Open accesses: what an open asks for, how an access enters and is struck, and what is noted of it in between.
ghost use Rattle.std.specs.Prelude.{◌≡◌, ◌+◌, true, ◌&&◌, length, IfOk, if◌then◌else◌, Some, ◌==◌, nat_le, nat_lt};
ghost use Rattle.register.specs.Lists.{first, some};
ghost use Rattle.records.specs.Numbers.{right_of};
ghost use Rattle.machine.specs.State.{is_access, is_lot, access_of, lower};
ghost use Rattle.machine.specs.Sweep.{enter};
ghost use Rattle.machine.specs.Checks.{first_applying, open_checks, access_checks, use_checks};
ghost use Rattle.machine.specs.Lines.{asked};
ghost use Rattle.machine.specs.Scenes.{use_scene, duty_scene};
ghost use Rattle.tables.specs.Tables.{scene_of, unbooked, struck, Changes, Checked};

use crate::table::{Tables, check_range, check_sheet};
use ranges::{badge_number_fits, code_fits, serial_fits, units_fit};
use records::{Access, Lot, Refusal, Right};
use register::bounded::Register;

impl Tables {
    /// The access that an open asks for, as it would be opened.
    pub fn asked_for(
        &self,
        sheet: usize,
        badge: u32,
        lot: [u8; 8],
        right: u32,
        units: u32,
    ) -> Result<Access, Refusal>
        ensures { Checked (first_applying (open_checks (unbooked self.now) sheet badge lot right units)) (asked (scene_of self.now) badge lot (right_of right) units self.now.next_serial) result }
    {
        check_sheet(sheet)?;
        check_range(badge_number_fits(badge) && code_fits(&lot) && units_fit(units))?;
        let right = Right::try_from(right)?;
        let holder = self.badge(badge).ok_or(Refusal::NoBadge)?;
        let place = self.lot(&lot).ok_or(Refusal::NoLot)?;
        if self.has_open(badge, &lot, right) {
            return Err(Refusal::AlreadyOpen);
        }
        if self.accesses.is_full() {
            return Err(Refusal::AccessesFull);
        }
        if self.next_serial > 1_000_000_000 {
            return Err(Refusal::SerialsSpent);
        }
        Ok(Access {
            serial: self.next_serial,
            badge,
            lot,
            right,
            price: place.price(right),
            account: holder.account,
            held: units as u16,
            used: 0,
            start: self.room.clock,
            last_use: self.room.clock,
            last_duty: self.room.clock,
        })
    }

    /// The open access that an end names.
    pub fn named(&self, sheet: usize, serial: u32) -> Result<Access, Refusal>
        ensures checked { Checked (first_applying (access_checks (scene_of self.now) sheet serial true)) (access_of (scene_of self.now) serial) result }
        ensures found { IfOk result (λ a. first (is_access serial) (scene_of self.now).accesses ≡ Some a) }
    {
        check_sheet(sheet)?;
        check_range(serial_fits(serial))?;
        self.access(serial).ok_or(Refusal::NoAccess)
    }

    /// Units are used of an open access.
    pub fn use_units(&mut self, sheet: usize, serial: u32, units: u32) -> Result<(), Refusal>
        ensures { Changes (first_applying (use_checks (scene_of self.old) sheet serial units)) (use_scene serial units (scene_of self.old)) self.old result self.new }
    {
        check_sheet(sheet)?;
        check_range(serial_fits(serial) && units_fit(units))?;
        let access = self.access(serial).ok_or(Refusal::NoAccess)?;
        let used = u32::from(access.used) + units;
        if used > u32::from(access.held) {
            return Err(Refusal::UnitsSpent);
        }
        self.accesses.replace(Access {
            used: used as u16,
            last_use: self.room.clock,
            ..access
        });
        Ok(())
    }

    /// The duty of an open access is done.
    pub fn duty(&mut self, sheet: usize, serial: u32) -> Result<(), Refusal>
        ensures { Changes (first_applying (access_checks (scene_of self.old) sheet serial true)) (duty_scene serial (scene_of self.old)) self.old result self.new }
    {
        let access = self.named(sheet, serial)?;
        self.accesses.replace(Access {
            last_duty: self.room.clock,
            ..access
        });
        Ok(())
    }

    /// An access enters at the last place, its lot has one head more, and the next serial rises. Nothing changes where
    /// no place or no serial is left, where the access is not under the next serial, or where its lot is not in the
    /// register; the answer says which.
    pub fn enter(&mut self, access: &Access) -> bool
        ensures entered { result ≡ (nat_lt (length (scene_of self.old).accesses) 64 && (nat_le self.old.next_serial 1000000000 && (access.now.serial == self.old.next_serial && some (is_lot access.now.lot) (scene_of self.old).lots))) }
        ensures scene { scene_of self.new ≡ (if result then enter access.now (scene_of self.old) else scene_of self.old) }
        ensures serial { self.new.next_serial ≡ (if result then self.old.next_serial + 1 else self.old.next_serial) }
    {
        if self.next_serial > 1_000_000_000 || access.serial != self.next_serial {
            return false;
        }
        let Some(lot) = self.lot(&access.lot) else {
            return false;
        };
        if self.accesses.push(*access).is_err() {
            return false;
        }
        self.lots.replace(Lot {
            heads: lot.heads + 1,
            ..lot
        });
        self.next_serial += 1;
        true
    }

    /// The access of a serial is struck, where it is open, and its lot has one head fewer.
    pub fn strike(&mut self, serial: u32)
        ensures scene { scene_of self.new ≡ struck serial (scene_of self.old) }
        ensures serial { self.new.next_serial ≡ self.old.next_serial }
    {
        if let Some(access) = self.accesses.remove(&serial) {
            lower(&mut self.lots, &access.lot);
        }
    }
}

// One head fewer at the lot of a code.
fn lower(lots: &mut Register<Lot, 64>, code: &[u8; 8])
    ensures after { lots.new ≡ lower code.now lots.old }
    ensures many { length lots.new ≡ length lots.old }
{
    if let Some(lot) = lots.find(code) {
        lots.replace(Lot {
            heads: lot.heads.saturating_sub(1),
            ..lot
        });
    }
}
