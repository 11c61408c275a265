//! The answers: at a level and a role, along a level, and over all levels.
ghost use Rattle.std.specs.Prelude.{◌≡◌, ◌<◌};
ghost use Rattle.grid.specs.Grid.{badge_of, wanted, answer_at, row_of, rows_of, passing_of};

use records::{Access, Badge, Lot, Right, Room, Situation};
use std::array;
use usage::rule::{Rule, answer_number};

/// How many levels there are, and how many roles.
pub const SIDE: usize = 16;

/// The answers by level and role, each 0 for pass or the number of the rule that fails, and how many of them pass.
#[derive(Clone, Copy, PartialEq, Eq, Debug)]
pub struct Grid {
    pub rows: [[u8; SIDE]; SIDE],
    pub passing: u16,
}

impl Grid {
    /// The grid of a rule for a lot and a right.
    pub fn new<R: Rule>(rule: &R, lot: &Lot, right: Right) -> Grid
        ensures rows { result.rows ≡ rows_of (R.Rule.opening rule.now) lot.now right }
        ensures passing { result.passing ≡ passing_of (rows_of (R.Rule.opening rule.now) lot.now right) }
    {
        let rows = array::from_fn(
            |level| -> [u8; SIDE]
                requires { level < 16 }
                ensures { result ≡ row_of (R.Rule.opening rule.entry.now) lot.entry.now right level }
            { array::from_fn(|role| answer_at(rule, lot, right, level as u8, role as u8)) },
        );
        let passing = rows
            .as_flattened()
            .iter()
            .filter(|answer| **answer == 0)
            .count() as u16;
        Grid { rows, passing }
    }
}

/// What the rule answers of the badge of a level and a role: 0 for pass, else the number of the rule that fails.
pub fn answer_at<R: Rule>(rule: &R, lot: &Lot, right: Right, level: u8, role: u8) -> u8
    ensures { result ≡ answer_at (R.Rule.opening rule.now) lot.now right level role }
{
    let situation = Situation {
        badge: badge_of(level, role),
        lot: *lot,
        room: Room::default(),
        access: wanted(lot, right),
    };
    answer_number(rule.ask_opening(&situation))
}

// The badge of a level and a role.
fn badge_of(level: u8, role: u8) -> Badge
    ensures { result ≡ badge_of level role }
{
    Badge {
        number: 1,
        level,
        role,
        account: 0,
    }
}

// The access that the badge asks for.
fn wanted(lot: &Lot, right: Right) -> Access
    ensures { result ≡ wanted lot.now right }
{
    Access {
        serial: 1,
        badge: 1,
        lot: lot.code,
        right,
        price: lot.price(right),
        ..Access::default()
    }
}
