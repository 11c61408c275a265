//! A situation in which every rule passes, for the tests to alter.
use records::{Access, Badge, Lot, Phase, Right, Room, Situation};
use usage::rule::{Rule, answer_number};

mod layers;
mod leaves;
mod makers;
mod numbers;
mod orders;

const CODE: [u8; 8] = *b"00000001";

// A badge at a lot of its own level and role, in a room at work.
fn situation() -> Situation {
    Situation {
        badge: Badge {
            number: 1,
            level: 3,
            role: 1,
            account: 0,
        },
        lot: Lot {
            code: CODE,
            level: 3,
            role: 1,
            stop: false,
            limit: 10,
            prices: [0; 4],
            heads: 1,
        },
        room: Room {
            clock: 0,
            temperature: 0,
            phase: Phase::Work,
        },
        access: access(1),
    }
}

// An access to read, with a serial.
fn access(serial: u32) -> Access {
    Access {
        serial,
        badge: 1,
        lot: CODE,
        right: Right::Read,
        price: 0,
        account: 0,
        held: 0,
        used: 0,
        start: 0,
        last_use: 0,
        last_duty: 0,
    }
}

// The numbers of a rule's answers to the opening and the staying question.
fn answers<R: Rule>(rule: &R, s: &Situation) -> (u8, u8) {
    (
        answer_number(rule.ask_opening(s)),
        answer_number(rule.ask_staying(s)),
    )
}
