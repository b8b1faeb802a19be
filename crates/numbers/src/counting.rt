//! Counting and searching a table by a test, which is a closure that may be called on anything: std's
//! searches, with contracts by the words that rules use.
ghost use Rattle.std.specs.Prelude.{◌≡◌, ◌<◌, Bool, length, IfSome};
ghost use Rattle.std.specs.Fn.{FnReturnsAt};
ghost use Rattle.numbers.specs.Counting.{Computes, count as count_of, every as every_of, some as some_of, first as first_of};

/// How many pass the test. A loop, since behind the closure of a `filter` the answers of `test` are not known.
pub fn count<A, F: Fn(&A) -> bool>(xs: &[A], test: F) -> usize
    requires { F.IsAlwaysCallable test }
    ensures { (passes : A → Bool) → Computes (FnReturnsAt F.Fn test) passes → result ≡ count_of passes xs.now }
{
    let mut n = 0;
    for x in xs {
        if test(x) {
            n += 1;
        }
    }
    n
}

/// Whether some one passes the test.
pub fn some<A, F: Fn(&A) -> bool>(xs: &[A], test: F) -> bool
    requires { F.IsAlwaysCallable test }
    ensures { (passes : A → Bool) → Computes (FnReturnsAt F.Fn test) passes → result ≡ some_of passes xs.now }
{
    xs.iter().any(&test)
}

/// Whether every one passes the test.
pub fn every<A, F: Fn(&A) -> bool>(xs: &[A], test: F) -> bool
    requires { F.IsAlwaysCallable test }
    ensures { (passes : A → Bool) → Computes (FnReturnsAt F.Fn test) passes → result ≡ every_of passes xs.now }
{
    xs.iter().all(&test)
}

/// The number of the first that passes the test.
pub fn first<A, F: Fn(&A) -> bool>(xs: &[A], test: F) -> Option<usize>
    requires { F.IsAlwaysCallable test }
    ensures value { (passes : A → Bool) → Computes (FnReturnsAt F.Fn test) passes → result ≡ first_of passes xs.now }
    ensures within { IfSome result (λ i. i < length xs.now) }
{
    xs.iter().position(&test)
}
