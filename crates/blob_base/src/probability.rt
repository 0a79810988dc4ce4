ghost use Rattle.std.specs.Prelude.{◌≡◌, ◌<◌, ◌≤◌, ◌↔◌, IsTrue, IsSome, IfSome};
ghost use Rattle.std.proofs.Common.{rules};
ghost use Rattle.std.specs.Cmp.Rules.{comparing};
ghost use Rattle.blob_model.specs.Rates.{sample, same_rate};

use rand_core::Rng;
use std::marker::Model;

/// A rate: a fraction of two integers, at most one. Rates are equal if and only if both integers are: 1/2 isn't equal
/// to 2/4.
#[derive(Clone, Copy, Debug)]
pub struct Probability {
    numerator: u64,
    denominator: u64,
}

impl Model for Probability {
    ghost use Rattle.std.specs.Prelude.{◌<◌, ◌≤◌};
    ghost use Rattle.blob_model.specs.Rates.{Rate};

    ghost Value = { Rate };

    ghost view = { λ p. record { numerator = p.numerator; denominator = p.denominator } };

    ghost invariant = { λ p. (0 < p.denominator) × (p.numerator ≤ p.denominator) };

    ghost inverse = { λ r. record { numerator = r.numerator; denominator = r.denominator } };
}

impl Probability {
    /// Never.
    pub const ZERO: Probability = Probability {
        numerator: 0,
        denominator: 1,
    };

    /// Always.
    pub const ONE: Probability = Probability {
        numerator: 1,
        denominator: 1,
    };

    /// Returns the fraction, or `None` if the denominator is 0 or less than the numerator.
    pub fn new(numerator: u64, denominator: u64) -> Option<Probability>
        ensures some { IsSome result ↔ ((0 < denominator) × (numerator ≤ denominator)) }
        ensures value { IfSome result (λ p. p ≡ record { numerator = numerator; denominator = denominator }) }
    {
        if denominator == 0 || denominator < numerator {
            return None;
        }
        Some(Probability {
            numerator,
            denominator,
        })
    }

    /// Returns the numerator.
    pub fn numerator(&self) -> u64
        ensures value { result ≡ self.now.numerator }
        ensures proper { self.now.numerator ≤ self.now.denominator }
    {
        self.numerator
    }

    /// Returns the denominator.
    pub fn denominator(&self) -> u64
        ensures value { result ≡ self.now.denominator }
        ensures positive { 0 < self.now.denominator }
    {
        self.denominator
    }

    /// Returns whether the rate is zero.
    pub fn is_zero(&self) -> bool
        ensures { IsTrue result ↔ (self.now.numerator ≡ 0) }
    {
        self.numerator == 0
    }

    /// Makes one draw. A rate of zero is never true and a rate of one always; neither takes a word. Any other rate
    /// takes one 64-bit word `w` and is true if `w * denominator < numerator * 2^64`.
    #[tactic(auto, unfolding(blob_model::specs::Rates::sample))]
    pub fn sample<R: Rng>(&self, rng: &mut R) -> bool
        ensures { (result, R.stream rng.new) ≡ sample self.now (R.stream rng.old) }
    {
        if self.numerator == 0 {
            return false;
        }
        if self.numerator == self.denominator {
            return true;
        }
        let word = rng.next_u64();
        u128::from(word) * u128::from(self.denominator) < u128::from(self.numerator) << 64
    }
}

const _: () = prove!(Probability::ZERO.numerator == 0 && Probability::ZERO.denominator == 1);

const _: () = prove!(Probability::ONE.numerator == 1 && Probability::ONE.denominator == 1);

impl PartialEq for Probability {
    ghost eq = { same_rate };

    ghost laws = { Prim.search (comparing, rules) };

    fn eq(&self, other: &Probability) -> bool {
        self.numerator == other.numerator && self.denominator == other.denominator
    }
}

impl Eq for Probability {
    ghost laws = { Prim.search (comparing, rules) };
}
