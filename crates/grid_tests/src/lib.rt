//! Tests of the crate grid: cells, counts, text, and each word that can be wrong.
#![tactic(auto)]

#[cfg(test)]
mod tests {
    use grid::answer::{Grid, answer_at};
    use grid::profile::{profile, profile_text, text_for};
    use grid::words::{Wrong, number, read};
    use records::{Lot, Right};
    use std::alloc::{AllocError, Global};
    use std::test::Fail;
    use usage::rule::layer::Both;
    use usage::rule::leaf::{Leaf, Level, Role, Stop};

    // A lot of level 5 that wants role 13.
    fn lot(stop: bool) -> Lot {
        Lot {
            code: *b"AB123456",
            level: 5,
            role: 13,
            stop,
            limit: 10,
            prices: [1, 2, 3, 4],
            heads: 0,
        }
    }

    #[test]
    fn cells_are_answers(rt: HostRuntime) {
        let rule = Both::new(Leaf::new(1, Level).unwrap(), Leaf::new(2, Role).unwrap());
        let lot = lot(false);
        let cells = [
            (5, 13, 0),
            (15, 0, 0),
            (5, 7, 0),
            (4, 13, 1),
            (5, 2, 2),
            (4, 2, 1),
        ];
        for (level, role, answer) in cells {
            assert_eq!(rt; answer_at(&rule, &lot, Right::Weigh, level, role), answer);
        }
    }

    #[test]
    fn grids_count_what_passes(rt: HostRuntime) -> Result<(), Fail> {
        for (level, role, passing) in [(0, 0, 16), (5, 13, 55), (15, 15, 5)] {
            assert_eq!(rt; profile(level, role)?.passing, passing);
        }
        for (stop, passing) in [(false, 256), (true, 0)] {
            let rule = Leaf::new(3, Stop).unwrap();
            assert_eq!(rt; Grid::new(&rule, &lot(stop), Right::Read).passing, passing);
        }
        Ok(())
    }

    #[test]
    fn levels_and_roles_end_at_fifteen(rt: HostRuntime) {
        assert!(rt; profile(15, 15).is_ok());
        assert!(rt; profile(16, 0).is_err());
        assert!(rt; profile(0, 16).is_err());
    }

    #[test]
    fn text_has_a_line_for_each_level(rt: HostRuntime) -> Result<(), Fail> {
        let text = profile_text(rt.alloc(), 1, 0)?;
        let text = text.as_str();
        assert!(rt;
            text.starts_with("1 1 1 1 1 1 1 1 1 1 1 1 1 1 1 1\n. 2 2 2 2 2 2 2 2 2 2 2 2 2 2 2\n")
        );
        assert!(rt; text.ends_with("\n15 of 256 pass\n"));
        assert_eq!(rt; text.lines().count(), 17);
        Ok(())
    }

    #[test]
    fn numbers_are_words_from_0_to_15(rt: HostRuntime) {
        for (word, value) in [("0", 0), ("9", 9), ("10", 10), ("15", 15)] {
            assert_eq!(rt; number(word), Some(value));
        }
        for word in ["", "16", "20", "05", "-1", "+1", "x", "1x", "100"] {
            assert_eq!(rt; number(word), None);
        }
    }

    // Whether the words are refused, and for this.
    fn refused(heap: Global, words: &[&str], wrong: Wrong) -> Result<bool, AllocError> {
        let mut owned = Vec::new(heap);
        for word in words {
            owned.push(String::from_str(heap, word)?)?;
        }
        Ok(text_for(heap, &owned).is_err() && read(&owned) == Err(wrong))
    }

    #[test]
    fn wrong_words_are_named(rt: HostRuntime) -> Result<(), Fail> {
        let heap = rt.alloc();
        assert!(rt; refused(heap, &[], Wrong::NoLevel)?);
        assert!(rt; refused(heap, &["16", "3"], Wrong::BadLevel)?);
        assert!(rt; refused(heap, &["5"], Wrong::NoRole)?);
        assert!(rt; refused(heap, &["5", "16"], Wrong::BadRole)?);
        assert!(rt; refused(heap, &["5", "13", "1"], Wrong::OneTooMany)?);
        let text = Wrong::BadRole.to_string(heap)?;
        assert!(rt; text.as_str() == "ROLE is not a number from 0 to 15");
        Ok(())
    }
}
