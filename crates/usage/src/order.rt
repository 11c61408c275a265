//! Orders of revocation: which of two accesses goes before the other.
ghost use Rattle.std.specs.Prelude.{◌≡◌, Bool, true, false, not, ◌≢◌};
ghost use Rattle.records.specs.declared.Access.{Access};
ghost use Rattle.usage.specs.Orders.{earliest_start, longest_idle, longest_use};
ghost use Rattle.std.proofs.Common.{rules};

use records::Access;
use std::cmp::Reverse;

/// Of two accesses, whether the first goes before the second.
pub trait Order {
    ghost before: { Self → Access → Access → Bool };

    /// Whether `a` goes before `b`.
    fn goes_before(&self, a: &Access, b: &Access) -> bool
        ensures { result ≡ before self.now a.now b.now };

    ghost irreflexive: { (o : Self) (a : Access) → before o a a ≡ false };

    ghost connected: { (o : Self) (a b : Access) → (a.serial ≢ b.serial) → before o a b ≡ not (before o b a) };

    ghost transitive: { (o : Self) (a b c : Access) → before o a b ≡ true → before o b c ≡ true → before o a c ≡ true };
}

/// The earliest start first.
#[derive(Clone, Copy)]
pub struct EarliestStart;

/// The earliest last use first.
#[derive(Clone, Copy)]
pub struct LongestIdle;

/// The most units used first.
#[derive(Clone, Copy)]
pub struct LongestUse;

impl Order for EarliestStart {
    ghost before = { λ _ a b. earliest_start a b };

    ghost irreflexive = { Prim.search rules };

    ghost connected = { Prim.search rules };

    ghost transitive = { Prim.search rules };

    fn goes_before(&self, a: &Access, b: &Access) -> bool {
        (a.start, a.serial) < (b.start, b.serial)
    }
}

impl Order for LongestIdle {
    ghost before = { λ _ a b. longest_idle a b };

    ghost irreflexive = { Prim.search rules };

    ghost connected = { Prim.search rules };

    ghost transitive = { Prim.search rules };

    fn goes_before(&self, a: &Access, b: &Access) -> bool {
        (a.last_use, a.serial) < (b.last_use, b.serial)
    }
}

impl Order for LongestUse {
    ghost before = { λ _ a b. longest_use a b };

    ghost irreflexive = { Prim.search rules };

    ghost connected = { Prim.search rules };

    ghost transitive = { Prim.search rules };

    fn goes_before(&self, a: &Access, b: &Access) -> bool {
        (Reverse(a.used), a.serial) < (Reverse(b.used), b.serial)
    }
}
