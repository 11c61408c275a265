//! Purses: accounts with credit that is left, held or spent, each at a home that it may share with others.
ghost use Rattle.std.specs.Prelude.{◌≡◌, if◌then◌else◌, Ok, Err, nat_le};
ghost use Rattle.records.specs.Numbers.{returned_number};
ghost use Rattle.records.specs.declared.Refusal.TheVariants.{OutOfRange};
ghost use Rattle.usage.specs.Books.{Books, Sound, left_at, held_at, spent_at, add_returns, add_leaves, hold_returns, hold_leaves, settle_returns, settle_leaves};

use records::Refusal;

/// Credit by account. Its meaning is its books: each account's home, and what is left, held and spent there. Refusals
/// and questions alter nothing, and no call alters another home.
pub trait Purse {
    ghost books: { Self → Books };

    /// Raises what is left at an account's home.
    fn add(&mut self, account: u32, amount: u32) -> Result<(), Refusal>
        ensures returned { returned_number result ≡ add_returns account amount (books self.old) }
        ensures leaves { books self.new ≡ add_leaves account amount (books self.old) };

    /// Moves an amount from left to held.
    fn hold(&mut self, account: u32, amount: u32) -> Result<(), Refusal>
        ensures returned { returned_number result ≡ hold_returns account amount (books self.old) }
        ensures leaves { books self.new ≡ hold_leaves account amount (books self.old) };

    /// Ends a hold: the charge is spent, and the rest is left again.
    fn settle(&mut self, account: u32, hold: u32, charge: u32) -> Result<(), Refusal>
        ensures returned { returned_number result ≡ settle_returns account hold charge (books self.old) }
        ensures leaves { books self.new ≡ settle_leaves account hold charge (books self.old) };

    /// What is left at an account's home.
    fn left(&self, account: u32) -> Result<u32, Refusal>
        ensures { result ≡ (if nat_le account 15 then Ok (left_at (books self.now) account) else Err OutOfRange) };

    /// What is held at an account's home.
    fn held(&self, account: u32) -> Result<u32, Refusal>
        ensures { result ≡ (if nat_le account 15 then Ok (held_at (books self.now) account) else Err OutOfRange) };

    /// What is spent at an account's home.
    fn spent(&self, account: u32) -> Result<u32, Refusal>
        ensures { result ≡ (if nat_le account 15 then Ok (spent_at (books self.now) account) else Err OutOfRange) };

    ghost sound: { (purse : Self) → Sound (books purse) };
}
