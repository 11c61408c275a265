//! The pooled purse: accounts at homes that they share.
ghost use Rattle.std.specs.Prelude.{◌≡◌, ℕ, ◌<◌, length, is_ok, if◌then◌else◌, Ok, Err, MatchResult, nat_le, slice_index};
ghost use Rattle.std.specs.List.{list_all};
ghost use Rattle.records.specs.Ranges.{between};
ghost use Rattle.records.specs.declared.Refusal.TheVariants.{OutOfRange};
ghost use Rattle.usage.specs.Books.{Empty, homes_fit};
ghost use Rattle.purses.specs.Credits.{credit_books, most_at};
ghost use Rattle.std.proofs.Common.{rules};
ghost use Rattle.std.proofs.lemmas.List.{length-map};

use crate::credit::Credit;
use records::Refusal;
use usage::purse::Purse;

/// Sixteen accounts, each at the home that it was given when the purse was made.
#[derive(Drop)]
pub struct PooledPurse {
    homes: [u8; 16],
    credits: [Credit; 16],
    ghost accounts: { length homes ≡ 16 },
    ghost places: { length credits ≡ 16 },
    ghost within: { (account : ℕ) → slice_index homes account < 16 },
}

impl PooledPurse {
    /// A purse at nothing, with each account's home, from 0 to 15.
    #[tactic(auto, using(crate::proofs::Homes::homes))]
    pub fn new(homes: [u8; 16]) -> Result<PooledPurse, Refusal>
        ensures refuses { is_ok result ≡ homes_fit homes }
        ensures made { MatchResult result (λ p. (p.homes ≡ homes) × Empty (credit_books p.homes p.credits)) (λ e. e ≡ OutOfRange) }
    {
        if !homes_fit(&homes) {
            return Err(Refusal::OutOfRange);
        }
        Ok(PooledPurse {
            homes,
            credits: [Credit::NOTHING; 16],
        })
    }

    // The home of an account.
    fn home_of(&self, account: u32) -> Result<usize, Refusal>
        ensures { result ≡ (if nat_le account 15 then Ok (slice_index self.now.homes account) else Err OutOfRange) }
    {
        if account > 15 {
            return Err(Refusal::OutOfRange);
        }
        Ok(self.homes[account as usize] as usize)
    }
}

// The calls borrow the array first: Rattle cannot yet borrow an element with a ghost field straight through a struct with
// one, as in `self.credits[home].add(amount)`.
#[tactic(auto, using(crate::proofs::Credits::credits))]
impl Purse for PooledPurse {
    ghost books = { λ p. credit_books p.homes p.credits };

    ghost sound = { Prim.search (rules, length-map, most_at) };

    fn add(&mut self, account: u32, amount: u32) -> Result<(), Refusal> {
        let home = self.home_of(account)?;
        let credits = &mut self.credits;
        credits[home].add(amount)
    }

    fn hold(&mut self, account: u32, amount: u32) -> Result<(), Refusal> {
        let home = self.home_of(account)?;
        let credits = &mut self.credits;
        credits[home].hold(amount)
    }

    fn settle(&mut self, account: u32, hold: u32, charge: u32) -> Result<(), Refusal> {
        let home = self.home_of(account)?;
        let credits = &mut self.credits;
        credits[home].settle(hold, charge)
    }

    fn left(&self, account: u32) -> Result<u32, Refusal> {
        Ok(self.credits[self.home_of(account)?].left)
    }

    fn held(&self, account: u32) -> Result<u32, Refusal> {
        Ok(self.credits[self.home_of(account)?].held)
    }

    fn spent(&self, account: u32) -> Result<u32, Refusal> {
        Ok(self.credits[self.home_of(account)?].spent)
    }
}

// Whether each is a home, from 0 to 15.
fn homes_fit(homes: &[u8]) -> bool
    ensures { result ≡ list_all (between 0 15) homes.now }
{
    homes.iter().all(|home| *home <= 15)
}
