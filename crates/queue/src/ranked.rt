// Records that stand in a queue.
ghost use Rattle.std.specs.Prelude.{◌≡◌, ℕ, Bool, true, false};

// A record with a rank among its kind, and a quantity. Records of one rank need not be equal, so the rank is no `Ord`.
pub trait Ranked {
    // who is ahead of whom
    ghost ahead: { Self → Self → Bool };

    // the quantity
    ghost amount: { Self → ℕ };

    // Whether this record is ahead of another.
    fn precedes(&self, other: &Self) -> bool
        ensures { result ≡ ahead self.now other.now };

    fn quantity(&self) -> u32
        ensures { result ≡ amount self.now };

    // two records are never each ahead of the other
    ghost never_both: { (a b : Self) → ahead a b ≡ true → ahead b a ≡ false };

    // who is ahead of one record is ahead of those that it is ahead of
    ghost transitive: { (a b c : Self) → ahead a b ≡ true → ahead b c ≡ true → ahead a c ≡ true };

    // two records level with a third, none being ahead, are level with each other
    ghost level: { (a b c : Self) → ahead a b ≡ false → ahead b a ≡ false → ahead b c ≡ false → ahead c b ≡ false → (ahead a c ≡ false) × (ahead c a ≡ false) };
}

// A record with a number.
pub trait Numbered {
    ghost tag: { Self → ℕ };

    fn number(&self) -> u32
        ensures { result ≡ tag self.now };
}
