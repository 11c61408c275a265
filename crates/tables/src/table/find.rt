//! Questions about the tables, which change nothing.
ghost use Rattle.std.specs.Prelude.{◌≡◌};
ghost use Rattle.register.specs.Lists.{first, some};
ghost use Rattle.machine.specs.State.{is_badge, is_lot, is_access, of_badge, at_lot, of_badge_at_lot, situation};
ghost use Rattle.tables.specs.Tables.{scene_of};

use crate::table::Tables;
use records::{Access, Badge, Lot, Right, Room, Situation};

impl Tables {
    /// The badge of a number.
    pub fn badge(&self, number: u32) -> Option<Badge>
        ensures { result ≡ first (is_badge number) (scene_of self.now).badges }
    {
        self.badges.find(&number)
    }

    /// The lot of a code.
    pub fn lot(&self, code: &[u8; 8]) -> Option<Lot>
        ensures { result ≡ first (is_lot code.now) (scene_of self.now).lots }
    {
        self.lots.find(code)
    }

    /// The open access of a serial.
    pub fn access(&self, serial: u32) -> Option<Access>
        ensures { result ≡ first (is_access serial) (scene_of self.now).accesses }
    {
        self.accesses.find(&serial)
    }

    /// The badges, by rising number.
    pub fn badges(&self) -> &[Badge]
        ensures { result.now ≡ (scene_of self.now).badges }
    {
        self.badges.as_slice()
    }

    /// The lots, by rising code.
    pub fn lots(&self) -> &[Lot]
        ensures { result.now ≡ (scene_of self.now).lots }
    {
        self.lots.as_slice()
    }

    /// The open accesses, as they were opened.
    pub fn accesses(&self) -> &[Access]
        ensures { result.now ≡ (scene_of self.now).accesses }
    {
        self.accesses.as_slice()
    }

    /// The room.
    pub fn room(&self) -> Room
        ensures { result ≡ (scene_of self.now).room }
    {
        self.room
    }

    /// The serial that the next open takes.
    pub fn next_serial(&self) -> u32
        ensures { result ≡ self.now.next_serial }
    {
        self.next_serial
    }

    /// What a rule sees of an access. No open access of a shift is without its badge and its lot, for which a default stands.
    pub fn situation(&self, access: &Access) -> Situation
        ensures { result ≡ situation (scene_of self.now) access.now }
    {
        Situation {
            badge: self.badge(access.badge).unwrap_or_default(),
            lot: self.lot(&access.lot).unwrap_or_default(),
            room: self.room,
            access: *access,
        }
    }

    /// Whether an access of a badge is open.
    pub fn has_open_of(&self, badge: u32) -> bool
        ensures { result ≡ some (of_badge badge) (scene_of self.now).accesses }
    {
        self.accesses().iter().any(|access| access.badge == badge)
    }

    /// Whether an access at a lot is open.
    pub fn has_open_at(&self, lot: &[u8; 8]) -> bool
        ensures { result ≡ some (at_lot lot.now) (scene_of self.now).accesses }
    {
        self.accesses().iter().any(|access| access.lot == *lot)
    }

    /// Whether a badge has a lot open under a right.
    pub fn has_open(&self, badge: u32, lot: &[u8; 8], right: Right) -> bool
        ensures { result ≡ some (of_badge_at_lot badge lot.now right) (scene_of self.now).accesses }
    {
        self.accesses().iter().any(|access| access.badge == badge
            && access.lot == *lot
            && access.right == right)
    }
}
