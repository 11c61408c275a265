//! Each order on a smaller key, a larger key and a tie.
use super::access;
use usage::order::{EarliestStart, LongestIdle, LongestUse, Order};

// Two keys, and whether the access of serial 5 and the first key goes before those of serials 4 and 6 and the second.
const CASES: [(u16, u16, bool, bool); 3] = [
    (8, 9, true, true),
    (9, 8, false, false),
    (9, 9, false, true),
];

#[test]
fn the_earliest_start_goes_first(rt: HostRuntime) {
    for (first, second, before_4, before_6) in CASES {
        let [mut a, mut b, mut c] = [access(5), access(4), access(6)];
        a.start = u32::from(first);
        b.start = u32::from(second);
        c.start = u32::from(second);
        let found = (
            EarliestStart.goes_before(&a, &b),
            EarliestStart.goes_before(&a, &c),
        );
        assert_eq!(rt; found, (before_4, before_6));
    }
}

#[test]
fn the_earliest_last_use_goes_first(rt: HostRuntime) {
    for (first, second, before_4, before_6) in CASES {
        let [mut a, mut b, mut c] = [access(5), access(4), access(6)];
        a.last_use = u32::from(first);
        b.last_use = u32::from(second);
        c.last_use = u32::from(second);
        let found = (
            LongestIdle.goes_before(&a, &b),
            LongestIdle.goes_before(&a, &c),
        );
        assert_eq!(rt; found, (before_4, before_6));
    }
}

// The most used goes first, so that the keys stand the other way.
#[test]
fn the_most_used_goes_first(rt: HostRuntime) {
    for (second, first, before_4, before_6) in CASES {
        let [mut a, mut b, mut c] = [access(5), access(4), access(6)];
        a.used = first;
        b.used = second;
        c.used = second;
        let found = (
            LongestUse.goes_before(&a, &b),
            LongestUse.goes_before(&a, &c),
        );
        assert_eq!(rt; found, (before_4, before_6));
    }
}
