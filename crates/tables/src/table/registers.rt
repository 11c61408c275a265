//! The registers: badges and lots are set and dropped.
ghost use Rattle.std.specs.Prelude.{◌≡◌, ◌≤◌, ◌&&◌, ◌||◌, if◌then◌else◌, Ok, Err, is_ok, length, ◌==◌, nat_le, nat_lt};
ghost use Rattle.register.specs.Lists.{some};
ghost use Rattle.records.specs.Ranges.{badge_number_fits, code_fits, attribute_fits, limit_fits, price_fits, prices_fit};
ghost use Rattle.records.specs.declared.Refusal.TheVariants.{OutOfRange, RegisterFull};
ghost use Rattle.machine.specs.Checks.{first_applying, badge_checks, lot_checks, drop_badge_checks, drop_lot_checks};
ghost use Rattle.machine.specs.Scenes.{put_lot, badge_scene, lot_scene, drop_badge_scene, drop_lot_scene};
ghost use Rattle.machine.specs.State.{is_lot};
ghost use Rattle.tables.specs.Tables.{scene_of, Changes};

use crate::table::{Tables, check_range, check_sheet};
use ranges::{attribute_fits, badge_number_fits, code_fits, limit_fits, price_fits};
use records::{Badge, Lot, Refusal};
use register::bounded::Register;

impl Tables {
    /// A badge goes in, or replaces the one with its number.
    pub fn set_badge(
        &mut self,
        sheet: usize,
        number: u32,
        level: u32,
        role: u32,
        account: u32,
    ) -> Result<(), Refusal>
        ensures { Changes (first_applying (badge_checks (scene_of self.old) sheet number level role account)) (badge_scene number level role account (scene_of self.old)) self.old result self.new }
    {
        check_sheet(sheet)?;
        self.badges.insert(badge_of(number, level, role, account)?)?;
        Ok(())
    }

    /// A lot goes in without heads, or replaces the one with its code but for the heads.
    pub fn set_lot(
        &mut self,
        sheet: usize,
        code: [u8; 8],
        level: u32,
        role: u32,
        stop: u32,
        limit: u32,
        prices: [u32; 4],
    ) -> Result<(), Refusal>
        ensures { Changes (first_applying (lot_checks (scene_of self.old) sheet code level role stop limit prices)) (lot_scene code level role stop limit prices (scene_of self.old)) self.old result self.new }
    {
        check_sheet(sheet)?;
        put(
            &mut self.lots,
            lot_of(code, level, role, stop, limit, prices)?,
        )
    }

    /// The badge of a number goes out.
    pub fn drop_badge(&mut self, sheet: usize, number: u32) -> Result<(), Refusal>
        ensures { Changes (first_applying (drop_badge_checks (scene_of self.old) sheet number)) (drop_badge_scene number (scene_of self.old)) self.old result self.new }
    {
        check_sheet(sheet)?;
        check_range(badge_number_fits(number))?;
        self.badge(number).ok_or(Refusal::NoBadge)?;
        if self.has_open_of(number) {
            return Err(Refusal::InUse);
        }
        self.badges.remove(&number);
        Ok(())
    }

    /// The lot of a code goes out.
    pub fn drop_lot(&mut self, sheet: usize, code: [u8; 8]) -> Result<(), Refusal>
        ensures { Changes (first_applying (drop_lot_checks (scene_of self.old) sheet code)) (drop_lot_scene code (scene_of self.old)) self.old result self.new }
    {
        check_sheet(sheet)?;
        check_range(code_fits(&code))?;
        self.lot(&code).ok_or(Refusal::NoLot)?;
        if self.has_open_at(&code) {
            return Err(Refusal::InUse);
        }
        self.lots.remove(&code);
        Ok(())
    }
}

// A lot without heads goes in, or replaces the one with its code but for the heads.
fn put(lots: &mut Register<Lot, 64>, lot: Lot) -> Result<(), Refusal>
    requires { lot.heads ≡ 0 }
    ensures returned { result ≡ (if some (is_lot lot.code) lots.old || nat_lt (length lots.old) 64 then Ok tt else Err RegisterFull) }
    ensures after { lots.new ≡ (if is_ok result then put_lot lot lots.old else lots.old) }
    ensures within { length lots.new ≤ 64 }
{
    let heads = lots.find(&lot.code).map_or(0, |old| old.heads);
    lots.insert(Lot { heads, ..lot })?;
    Ok(())
}

// A badge of these fields, where they are in range.
fn badge_of(number: u32, level: u32, role: u32, account: u32) -> Result<Badge, Refusal>
    ensures { result ≡ (if badge_number_fits number && (attribute_fits level && (attribute_fits role && attribute_fits account)) then Ok (record { number = number; level = level; role = role; account = account }) else Err OutOfRange) }
{
    check_range(badge_number_fits(number))?;
    Ok(Badge {
        number,
        level: attribute(level)?,
        role: attribute(role)?,
        account: attribute(account)?,
    })
}

// A lot of these fields without heads, where they are in range.
fn lot_of(
    code: [u8; 8],
    level: u32,
    role: u32,
    stop: u32,
    limit: u32,
    prices: [u32; 4],
) -> Result<Lot, Refusal>
    ensures { result ≡ (if code_fits code && (attribute_fits level && (attribute_fits role && (nat_le stop 1 && (limit_fits limit && prices_fit prices)))) then Ok (record { code = code; level = level; role = role; stop = (stop == 1); limit = limit; prices = prices; heads = 0 }) else Err OutOfRange) }
{
    check_range(code_fits(&code) && stop <= 1 && limit_fits(limit))?;
    Ok(Lot {
        code,
        level: attribute(level)?,
        role: attribute(role)?,
        stop: stop == 1,
        limit: limit as u8,
        prices: prices_of(prices)?,
        heads: 0,
    })
}

// A level, a role or an account, where it is in range.
fn attribute(number: u32) -> Result<u8, Refusal>
    ensures { result ≡ (if attribute_fits number then Ok number else Err OutOfRange) }
{
    check_range(attribute_fits(number))?;
    Ok(number as u8)
}

// Four prices, where they are in range: each by itself, since an array's `map` does not end at the first that is not.
fn prices_of(prices: [u32; 4]) -> Result<[u16; 4], Refusal>
    ensures { result ≡ (if prices_fit prices then Ok prices else Err OutOfRange) }
{
    let [read, weigh, label, release] = prices;
    Ok([price(read)?, price(weigh)?, price(label)?, price(release)?])
}

// A price, where it is in range.
fn price(number: u32) -> Result<u16, Refusal>
    ensures { result ≡ (if price_fits number then Ok number else Err OutOfRange) }
{
    check_range(price_fits(number))?;
    Ok(number as u16)
}
