//! The lines that report accesses.
ghost use Rattle.std.specs.Prelude.{◌≡◌};
ghost use Rattle.machine.specs.State.{hold_of, charge_of};
ghost use Rattle.machine.specs.Lines.{opening_line, closing_line};

use records::{Access, Kind, Line};

/// What an access holds: its units at its noted price.
pub fn hold_of(access: &Access) -> u32
    ensures { result ≡ hold_of access.now }
{
    u32::from(access.held) * u32::from(access.price)
}

/// What an access is charged when it is closed: the units used at its noted price.
pub fn charge_of(access: &Access) -> u32
    ensures { result ≡ charge_of access.now }
{
    u32::from(access.used) * u32::from(access.price)
}

/// The line of an access that is opened or denied.
pub fn opening_line(kind: Kind, serial: u32, minute: u32, cause: u16, access: &Access) -> Line
    ensures { result ≡ opening_line kind serial minute cause access.now }
{
    Line {
        kind,
        serial,
        badge: access.badge,
        lot: access.lot,
        right: access.right,
        minute,
        cause,
        amount: hold_of(access),
        units: access.held,
        account: access.account,
    }
}

/// The line of an access that is ended or revoked.
pub fn closing_line(kind: Kind, minute: u32, cause: u16, access: &Access) -> Line
    ensures { result ≡ closing_line kind minute cause access.now }
{
    Line {
        amount: charge_of(access),
        units: access.used,
        ..opening_line(kind, access.serial, minute, cause, access)
    }
}
