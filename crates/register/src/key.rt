//! Records with a key. A key is any type in std's order.
ghost use Rattle.std.specs.Prelude.{◌≡◌, true};

/// A record with a key.
pub trait Keyed {
    type Key: Ord + Copy;

    ghost keyed: { Self → Self.Key };

    /// The record's key.
    fn key(&self) -> Self::Key
        ensures { result ≡ keyed self.now };

    // Keys that test the same are the same; std's order does not say so.
    ghost equal: { (a b : Self.Key) → Self.Key.eq a b ≡ true → a ≡ b };
}
