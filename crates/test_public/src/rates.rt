//! Equality of rates.

ghost use Rattle.std.specs.Prelude.{◌≡◌, ◌↔◌, IsTrue};

use blob_base::Probability;

fn is_same<T: Eq>(a: &T, b: &T) -> bool
    ensures { result ≡ T.eq a.now b.now }
{
    a == b
}

/// Generic code compares rates by both numbers.
fn is_same_rate(a: &Probability, b: &Probability) -> bool
    ensures { IsTrue result ↔ (a.now ≡ b.now) }
{
    is_same(a, b)
}

// The contracts of `new` and of a comparison take seconds of a proof. Only the proofs of these two functions see them.
fn rate(numerator: u64, denominator: u64) -> Option<Probability> {
    Probability::new(numerator, denominator)
}

fn are_equal(a: Option<Probability>, b: Option<Probability>) -> bool {
    a == b
}

#[test]
fn rates_are_equal_where_both_numbers_are(rt: HostRuntime) {
    let one = Probability::ONE;
    assert!(rt; are_equal(rate(1, 1), Some(one)));
    assert!(rt; !are_equal(rate(5, 5), Some(one)));
    assert!(rt; !are_equal(rate(1, 2), rate(2, 4)));
    assert!(rt; Probability::ZERO.is_zero() && one.numerator() == one.denominator());
}
