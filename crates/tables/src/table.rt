//! The tables of a monitor.
ghost use Rattle.std.specs.Prelude.{◌≡◌, ◌≤◌, length, Ok, Err, if◌then◌else◌, nat_lt};
ghost use Rattle.records.specs.declared.Refusal.TheVariants.{ShortSheet, OutOfRange};
ghost use Rattle.tables.specs.Kept.{Kept};
ghost use Rattle.tables.specs.KeptProps.{kept_props};

use records::{Access, Badge, Lot, Refusal, Room};
use register::bounded::Register;

pub mod access;
pub mod find;
pub mod make;
pub mod registers;
pub mod room;

/// The registers of badges and lots, the open accesses, the room and the next serial. Heads are the accesses open at a
/// lot, so that they fit a byte.
#[derive(Drop)]
pub struct Tables {
    badges: Register<Badge, 64>,
    lots: Register<Lot, 64>,
    accesses: Register<Access, 64>,
    room: Room,
    next_serial: u32,
    ghost kept: { Kept lots accesses next_serial } by { Prim.hlevel kept_props },
    ghost badges_fit: { length badges ≤ 64 },
    ghost lots_fit: { length lots ≤ 64 },
    ghost accesses_fit: { length accesses ≤ 64 },
    ghost clock_fits: { room.clock ≤ 10000000 },
    ghost serial_fits: { next_serial ≤ 1000000001 },
}

// A call wants a sheet of 65 lines, which stays with the monitor: the tables are told its length.
fn check_sheet(sheet: usize) -> Result<(), Refusal>
    ensures { result ≡ (if nat_lt sheet 65 then Err ShortSheet else Ok tt) }
{
    if sheet < 65 {
        Err(Refusal::ShortSheet)
    } else {
        Ok(())
    }
}

// The fields of a call are in range.
fn check_range(fits: bool) -> Result<(), Refusal>
    ensures { result ≡ (if fits then Ok tt else Err OutOfRange) }
{
    if fits {
        Ok(())
    } else {
        Err(Refusal::OutOfRange)
    }
}
