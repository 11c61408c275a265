//! Examples of shifts under two rules, two orders and both purses: what the journal notes of each call.
#![tactic(auto)]

#[cfg(test)]
mod tests {
    use journal::{Entry, Journal, run};
    use monitor::Monitor;
    use purses::own::OwnPurse;
    use purses::pooled::PooledPurse;
    use records::number::returned_number;
    use records::{Call, Refusal};
    use std::process::Abort;
    use std::test::Fail;
    use usage::order::{EarliestStart, LongestUse};
    use usage::purse::Purse;
    use usage::rule::layer::{Both, For};
    use usage::rule::leaf::{Duty, Heads, Leaf, Level, Role, Room, Stop};

    const LOT: [u8; 8] = *b"COW00001";

    type Crowded = Both<Leaf<Stop>, Both<Leaf<Heads>, Leaf<Duty>>>;

    type Guarded = Both<Both<Leaf<Level>, Leaf<Role>>, Both<Leaf<Room>, For<Leaf<Duty>>>>;

    // Stop as rule 3, Heads as rule 4, and a duty every 30 minutes as rule 5.
    fn crowded() -> Result<Crowded, Refusal> {
        let duty = Leaf::new(5, Duty::new(30)?)?;
        Ok(Both::new(Leaf::new(3, Stop)?, Both::new(Leaf::new(4, Heads)?, duty)))
    }

    // Level as rule 1, Role as rule 2, Room from -2 to 12 degrees as rule 3, and for labels a duty every 30 minutes as
    // rule 4.
    fn guarded() -> Result<Guarded, Refusal> {
        let who = Both::new(Leaf::new(1, Level)?, Leaf::new(2, Role)?);
        let room = Leaf::new(3, Room::new(-20, 120)?)?;
        let place = Both::new(room, For::new(2, Leaf::new(4, Duty::new(30)?)?)?);
        Ok(Both::new(who, place))
    }

    // Account 1 shares the home of account 0.
    fn shared() -> Result<PooledPurse, Refusal> {
        PooledPurse::new([0, 0, 2, 3, 4, 5, 6, 7, 8, 9, 10, 11, 12, 13, 14, 15])
    }

    fn badge(number: u32, account: u32) -> Call {
        Call::SetBadge {
            number,
            level: 5,
            role: 1,
            account,
        }
    }

    fn lot(stop: u32, limit: u32) -> Call {
        Call::SetLot {
            code: LOT,
            level: 2,
            role: 13,
            stop,
            limit,
            prices: [1, 2, 4, 9],
        }
    }

    fn open(badge: u32, right: u32, units: u32) -> Call {
        Call::Open {
            badge,
            lot: LOT,
            right,
            units,
        }
    }

    // What an entry answers: returned, lines, serial and questions.
    fn numbers(entry: &Entry) -> [u32; 4] {
        let answer = entry.answer;
        [
            u32::from(returned_number(answer.returned)),
            answer.lines,
            answer.serial,
            answer.questions,
        ]
    }

    // A line's kind, serial, cause and amount.
    fn line(entry: &Entry, place: usize) -> Option<[u32; 4]> {
        let line = entry.lines.get(place)?;
        let kind = u32::from(u8::from(line.kind));
        Some([kind, line.serial, u32::from(line.cause), line.amount])
    }

    // Holds the answers of a journal to those expected, one for each call.
    fn check_answers(rt: &impl Abort, journal: &Journal, expected: &[[u32; 4]]) {
        assert_eq!(rt; journal.ended(), Ok(()));
        assert_eq!(rt; journal.entries().len(), expected.len());
        for (entry, numbers_expected) in journal.entries().iter().zip(expected) {
            assert_eq!(rt; numbers(entry), *numbers_expected);
        }
    }

    // One head too many: of two, the one that started first goes, and the other stays.
    #[test]
    fn a_crowded_lot_is_left_by_the_earliest(rt: HostRuntime) -> Result<(), Fail> {
        let mut monitor = Monitor::new(1, &[], &[], crowded()?, EarliestStart, OwnPurse::new())?;
        let calls = [
            badge(7, 0),
            lot(0, 1),
            Call::Grant {
                account: 0,
                amount: 100,
            },
            open(7, 2, 10),
            badge(8, 0),
            Call::Time { minutes: 5 },
            open(8, 2, 10),
            Call::Use {
                serial: 2,
                units: 3,
            },
            Call::End { serial: 2 },
            open(7, 2, 25),
        ];
        let journal = run(rt.alloc(), &mut monitor, &calls);
        check_answers(
            &rt,
            &journal,
            &[
                [0, 0, 0, 0],
                [0, 0, 0, 0],
                [0, 0, 0, 0],
                [0, 1, 1, 1],
                [0, 0, 0, 1],
                [0, 0, 0, 1],
                [0, 2, 2, 3],
                [0, 0, 0, 1],
                [0, 1, 0, 0],
                [10, 1, 0, 0],
            ],
        );
        assert!(rt; journal.entries().len() == 10);
        let entries = journal.entries();
        assert_eq!(rt; line(&entries[6], 1), Some([4, 1, 4, 0]));
        assert_eq!(rt; line(&entries[8], 0), Some([3, 2, 0, 12]));
        assert_eq!(rt; line(&entries[9], 0), Some([2, 0, 256, 100]));
        assert_eq!(rt; monitor.purse().left(0)?, 88);
        assert_eq!(rt; monitor.purse().spent(0)?, 12);
        Ok(())
    }

    // A room that warms takes every access, the most units used first; two accounts draw on one home.
    #[test]
    fn a_warm_room_is_left_by_the_busiest_first(rt: HostRuntime) -> Result<(), Fail> {
        let mut monitor = Monitor::new(7, &[], &[], guarded()?, LongestUse, shared()?)?;
        let calls = [
            badge(7, 0),
            badge(8, 1),
            lot(0, 9),
            Call::Grant {
                account: 1,
                amount: 50,
            },
            open(7, 2, 10),
            open(8, 0, 10),
            open(8, 3, 1),
            Call::Use {
                serial: 8,
                units: 4,
            },
            Call::SetRoom {
                temperature: 121,
                phase: 0,
            },
            open(7, 2, 1),
        ];
        let journal = run(rt.alloc(), &mut monitor, &calls);
        check_answers(
            &rt,
            &journal,
            &[
                [0, 0, 0, 0],
                [0, 0, 0, 0],
                [0, 0, 0, 0],
                [0, 0, 0, 0],
                [0, 1, 7, 1],
                [0, 1, 8, 2],
                [10, 1, 0, 0],
                [0, 0, 0, 2],
                [0, 2, 0, 3],
                [9, 1, 0, 0],
            ],
        );
        assert!(rt; journal.entries().len() == 10);
        let entries = journal.entries();
        assert_eq!(rt; line(&entries[8], 0), Some([4, 8, 3, 4]));
        assert_eq!(rt; line(&entries[8], 1), Some([4, 7, 3, 0]));
        assert_eq!(rt; line(&entries[9], 0), Some([2, 0, 3, 4]));
        assert_eq!(rt; monitor.purse().left(0)?, 46);
        assert_eq!(rt; monitor.purse().left(1)?, 46);
        Ok(())
    }

    #[test]
    fn no_call_leaves_an_empty_journal(rt: HostRuntime) -> Result<(), Fail> {
        let mut monitor = Monitor::new(1, &[], &[], crowded()?, LongestUse, shared()?)?;
        let journal = run(rt.alloc(), &mut monitor, &[]);
        check_answers(&rt, &journal, &[]);
        Ok(())
    }
}
