//! The records of a monitor, and what a terminal sends and reads: plain data, with keys, numbers and texts.
#![tactic(auto)]

ghost use Rattle.std.specs.Prelude.{◌≡◌};
ghost use Rattle.std.specs.Cmp.Lexicographic.{bytes_decides};
ghost use Rattle.register.specs.Tests.{eqb_equal};
ghost use Rattle.records.specs.Parts.{price_of};

use register::key::Keyed;

pub mod number;
mod text;

/// What an access is for.
#[derive(Clone, Copy, PartialEq, Eq, Default, Debug)]
pub enum Right {
    #[default]
    Read,
    Weigh,
    Label,
    Release,
}

/// Whether the room is at work or is being washed down.
#[derive(Clone, Copy, PartialEq, Eq, Default, Debug)]
pub enum Phase {
    #[default]
    Work,
    Washdown,
}

/// What a line reports.
#[derive(Clone, Copy, PartialEq, Eq, Debug)]
pub enum Kind {
    Opened,
    Denied,
    Ended,
    Revoked,
}

/// Why a call, a purse or a maker refuses: the first check that applies.
#[derive(Clone, Copy, PartialEq, Eq, Debug)]
pub enum Refusal {
    ShortSheet,
    OutOfRange,
    NoBadge,
    NoLot,
    NoAccess,
    AlreadyOpen,
    AccessesFull,
    SerialsSpent,
    QuestionFails,
    CreditShort,
    RegisterFull,
    InUse,
    UnitsSpent,
    GrantTooLarge,
    ClockSpent,
    HoldMismatch,
}

/// Who works: a badge by its number.
#[derive(Clone, Copy, PartialEq, Eq, Default, Debug)]
pub struct Badge {
    pub number: u32,
    pub level: u8,
    pub role: u8,
    pub account: u8,
}

impl Keyed for Badge {
    type Key = u32;

    ghost keyed = { λ r. r.number };

    ghost equal = { eqb_equal };

    fn key(&self) -> u32 {
        self.number
    }
}

/// What is worked on: a lot by its code. `prices` has a price for each right; `heads` counts the accesses open at it.
#[derive(Clone, Copy, PartialEq, Eq, Default, Debug)]
pub struct Lot {
    pub code: [u8; 8],
    pub level: u8,
    pub role: u8,
    pub stop: bool,
    pub limit: u8,
    pub prices: [u16; 4],
    pub heads: u8,
}

impl Lot {
    /// What a unit costs under a right.
    pub fn price(&self, right: Right) -> u16
        ensures { result ≡ price_of self.now right }
    {
        self.prices[usize::from(u8::from(right))]
    }
}

impl Keyed for Lot {
    type Key = [u8; 8];

    ghost keyed = { λ r. r.code };

    ghost equal = { λ c d. (bytes_decides c d).0 };

    fn key(&self) -> [u8; 8] {
        self.code
    }
}

/// The room: a clock in minutes, a temperature in tenths of a degree Celsius, and its phase.
#[derive(Clone, Copy, PartialEq, Eq, Default, Debug)]
pub struct Room {
    pub clock: u32,
    pub temperature: i64,
    pub phase: Phase,
}

/// An open access: a badge at a lot under a right. `held` and `used` are units; `price` and `account` are those noted
/// when it was opened; the rest are minutes of the clock.
#[derive(Clone, Copy, PartialEq, Eq, Default, Debug)]
pub struct Access {
    pub serial: u32,
    pub badge: u32,
    pub lot: [u8; 8],
    pub right: Right,
    pub price: u16,
    pub account: u8,
    pub held: u16,
    pub used: u16,
    pub start: u32,
    pub last_use: u32,
    pub last_duty: u32,
}

impl Keyed for Access {
    type Key = u32;

    ghost keyed = { λ r. r.serial };

    ghost equal = { eqb_equal };

    fn key(&self) -> u32 {
        self.serial
    }
}

/// What a rule sees.
#[derive(Clone, Copy, PartialEq, Eq, Debug)]
pub struct Situation {
    pub badge: Badge,
    pub lot: Lot,
    pub room: Room,
    pub access: Access,
}

/// A line of the sheet.
#[derive(Clone, Copy, PartialEq, Eq, Debug)]
pub struct Line {
    pub kind: Kind,
    pub serial: u32,
    pub badge: u32,
    pub lot: [u8; 8],
    pub right: Right,
    pub minute: u32,
    pub cause: u16,
    pub amount: u32,
    pub units: u16,
    pub account: u8,
}

/// A call with its fields as a terminal sends them: none is taken to be in range.
#[derive(Clone, Copy, PartialEq, Eq, Debug)]
pub enum Call {
    Open {
        badge: u32,
        lot: [u8; 8],
        right: u32,
        units: u32,
    },
    Use {
        serial: u32,
        units: u32,
    },
    Duty {
        serial: u32,
    },
    End {
        serial: u32,
    },
    Time {
        minutes: u32,
    },
    SetRoom {
        temperature: i64,
        phase: u32,
    },
    Grant {
        account: u32,
        amount: u32,
    },
    SetBadge {
        number: u32,
        level: u32,
        role: u32,
        account: u32,
    },
    SetLot {
        code: [u8; 8],
        level: u32,
        role: u32,
        stop: u32,
        limit: u32,
        prices: [u32; 4],
    },
    DropBadge {
        number: u32,
    },
    DropLot {
        code: [u8; 8],
    },
}

/// What a call answers: what it returned, how many lines it wrote, the serial of an accepted open (else 0), and how
/// many staying questions it put.
#[derive(Clone, Copy, PartialEq, Eq, Debug)]
pub struct Answer {
    pub returned: Result<(), Refusal>,
    pub lines: u32,
    pub serial: u32,
    pub questions: u32,
}
