//! Makes the calls of a worked day, two cutters at a lot with room for one, and prints its journal: `A` and the four
//! numbers of each answer, then `L` and the fields of each of its lines.
#![tactic(auto)]

use journal::run;
use monitor::Monitor;
use purses::own::OwnPurse;
use records::number::returned_number;
use records::{Answer, Call, Line, Refusal};
use std::fmt;
use usage::order::EarliestStart;
use usage::rule::layer::Both;
use usage::rule::leaf::{Duty, Heads, Leaf, Stop};

const LOT: [u8; 8] = *b"PIG00417";

const DAY: [Call; 7] = [
    Call::SetBadge {
        number: 7,
        level: 5,
        role: 3,
        account: 0,
    },
    Call::SetLot {
        code: LOT,
        level: 2,
        role: 13,
        stop: 0,
        limit: 1,
        prices: [0, 0, 4, 9],
    },
    Call::Grant {
        account: 0,
        amount: 100,
    },
    Call::Open {
        badge: 7,
        lot: LOT,
        right: 2,
        units: 10,
    },
    Call::SetBadge {
        number: 8,
        level: 5,
        role: 1,
        account: 0,
    },
    Call::Time { minutes: 5 },
    Call::Open {
        badge: 8,
        lot: LOT,
        right: 2,
        units: 10,
    },
];

type LineRule = Both<Leaf<Stop>, Both<Leaf<Heads>, Leaf<Duty>>>;

// Stop as rule 3, Heads as rule 4 and Duty every 30 minutes as rule 5.
fn line_rule() -> Result<LineRule, Refusal> {
    let stop = Leaf::new(3, Stop)?;
    let heads = Leaf::new(4, Heads)?;
    let duty = Leaf::new(5, Duty::new(30)?)?;
    Ok(Both::new(stop, Both::new(heads, duty)))
}

// A line as it is printed.
#[derive(Clone, Copy)]
struct LineText(Line);

impl fmt::Display for LineText {
    fn fmt<W: fmt::Write>(&self, f: &mut fmt::Formatter<W>) -> fmt::Result {
        let line = self.0;
        write!(
            f,
            "L {} {} {} ",
            u8::from(line.kind),
            line.serial,
            line.badge
        )?;
        for byte in line.lot {
            write!(f, "{}", char::from(byte))?;
        }
        write!(
            f,
            " {} {} {} ",
            u8::from(line.right),
            line.minute,
            line.cause
        )?;
        writeln!(f, "{} {} {}", line.amount, line.units, line.account)
    }
}

// An answer as it is printed.
#[derive(Clone, Copy)]
struct AnswerText(Answer);

impl fmt::Display for AnswerText {
    fn fmt<W: fmt::Write>(&self, f: &mut fmt::Formatter<W>) -> fmt::Result {
        let answer = self.0;
        write!(
            f,
            "A {} {} ",
            returned_number(answer.returned),
            answer.lines
        )?;
        writeln!(f, "{} {}", answer.serial, answer.questions)
    }
}

fn main(rt: HostRuntime) -> anyhow::Result<()> {
    let mut monitor = Monitor::new(1, &[], &[], line_rule()?, EarliestStart, OwnPurse::new())?;
    let journal = run(rt.alloc(), &mut monitor, &DAY);
    for entry in journal.entries() {
        print!(rt; "{}", AnswerText(entry.answer))?;
        for line in &entry.lines {
            print!(rt; "{}", LineText(*line))?;
        }
    }
    Ok(())
}
