//! The own purse: each account is its home.
ghost use Rattle.std.specs.Prelude.{◌≡◌};
ghost use Rattle.usage.specs.Books.{Empty, own_homes};
ghost use Rattle.purses.specs.Credits.{credit_books, most_at};
ghost use Rattle.std.proofs.Common.{rules};
ghost use Rattle.std.proofs.lemmas.List.{length-map};

use crate::pooled::PooledPurse;
use records::Refusal;
use usage::purse::Purse;

const OWN_HOMES: [u8; 16] = [0, 1, 2, 3, 4, 5, 6, 7, 8, 9, 10, 11, 12, 13, 14, 15];

/// Sixteen accounts, each at a home of its own: a pool that nobody shares.
#[derive(Drop)]
pub struct OwnPurse {
    pool: PooledPurse,
    ghost own: { pool.homes ≡ own_homes },
}

impl OwnPurse {
    /// A purse at nothing.
    pub fn new() -> OwnPurse
        ensures { Empty (credit_books own_homes result.pool.credits) }
    {
        OwnPurse {
            pool: PooledPurse::new(OWN_HOMES).unwrap(),
        }
    }
}

impl Purse for OwnPurse {
    ghost books = { λ p. credit_books own_homes p.pool.credits };

    ghost sound = { Prim.search (rules, length-map, most_at) };

    fn add(&mut self, account: u32, amount: u32) -> Result<(), Refusal> {
        self.pool.add(account, amount)
    }

    fn hold(&mut self, account: u32, amount: u32) -> Result<(), Refusal> {
        self.pool.hold(account, amount)
    }

    fn settle(&mut self, account: u32, hold: u32, charge: u32) -> Result<(), Refusal> {
        self.pool.settle(account, hold, charge)
    }

    fn left(&self, account: u32) -> Result<u32, Refusal> {
        self.pool.left(account)
    }

    fn held(&self, account: u32) -> Result<u32, Refusal> {
        self.pool.held(account)
    }

    fn spent(&self, account: u32) -> Result<u32, Refusal> {
        self.pool.spent(account)
    }
}
