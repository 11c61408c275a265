//! The grid of a lot under two rules: rule 1 asks for its level, then rule 2 for its role.
ghost use Rattle.std.specs.Prelude.{◌≡◌, map, Some, string_bytes};
ghost use Rattle.grid.specs.declared.profile.Fault.TheVariants.{Word, NoMemory};
ghost use Rattle.grid.specs.Profile.{plain_lot, profile_of, profile_read, Told, fault_text};

use crate::answer::Grid;
use crate::words::{Wrong, read};
use records::{Lot, Right};
use std::alloc::{AllocError, Global};
use std::error::Error;
use std::fmt;
use usage::rule::layer::Both;
use usage::rule::leaf::{Leaf, Level, Role};

/// Why there is no text.
#[derive(Clone, Copy, PartialEq, Eq, Debug)]
pub enum Fault {
    Word(Wrong),
    NoMemory,
}

impl fmt::Display for Fault {
    ghost output = { λ fault. Some (fault_text fault) };

    fn fmt<W: fmt::Write>(&self, f: &mut fmt::Formatter<W>) -> fmt::Result {
        match self {
            Fault::Word(wrong) => write!(f, "{wrong}"),
            Fault::NoMemory => write!(f, "no memory"),
        }
    }
}

impl Error for Fault {}

impl From<Wrong> for Fault {
    ghost from_gives = { λ wrong fault. fault ≡ Word wrong };

    fn from(wrong: Wrong) -> Fault {
        Fault::Word(wrong)
    }
}

impl From<AllocError> for Fault {
    ghost from_gives = { λ _ fault. fault ≡ NoMemory };

    fn from(_: AllocError) -> Fault {
        Fault::NoMemory
    }
}

/// The text of the grid that the words ask for: LEVEL and ROLE, each from 0 to 15.
pub fn text_for(heap: Global, words: &[String]) -> Result<String, Fault>
    ensures { Told string_bytes result (profile_read (map string_bytes words.now)) }
{
    let (level, role) = read(words)?;
    profile_text(heap, level, role)
}

/// The text of the grid for a lot of a level and a wanted role, each from 0 to 15.
pub fn profile_text(heap: Global, level: u8, role: u8) -> Result<String, Fault>
    ensures { Told string_bytes result (profile_of level role) }
{
    let grid = profile(level, role)?;
    Ok(grid.to_string(heap)?)
}

/// The grid for a lot of a level and a wanted role, each from 0 to 15.
pub fn profile(level: u8, role: u8) -> Result<Grid, Wrong>
    ensures { result ≡ profile_of level role }
{
    if level > 15 {
        return Err(Wrong::BadLevel);
    }
    if role > 15 {
        return Err(Wrong::BadRole);
    }
    let rule = Both::new(Leaf::new(1, Level).unwrap(), Leaf::new(2, Role).unwrap());
    Ok(Grid::new(&rule, &plain_lot(level, role), Right::Read))
}

// A lot of a level and a wanted role, with nothing else to it.
fn plain_lot(level: u8, role: u8) -> Lot
    ensures { result ≡ plain_lot level role }
{
    Lot {
        code: *b"00000000",
        level,
        role,
        ..Lot::default()
    }
}
