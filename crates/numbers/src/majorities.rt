//! How many controllers are a majority.
ghost use Rattle.std.specs.Prelude.{◌≡◌};
ghost use Rattle.numbers.specs.Majorities.{majority_of};

/// More than half of n.
pub fn majority(n: u16) -> u16
    ensures { result ≡ majority_of n }
{
    n / 2 + 1
}
