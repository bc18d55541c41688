//! Fields with roots of unity of two-power order, and fields with canonical numbers.

ghost use Rattle.std.specs.Prelude.{◌≡◌, ◌≤◌, ◌<◌, ◌↔◌, ℕ, IfSome, IsNone};
ghost use Rattle.std.specs.Ordering.{nat_cmp};
ghost use Rattle.p3_field.specs.Ring.{AreRoots, count};

use crate::packed::Packable;

/// A field with a chain of roots of unity, each the square of the next.
pub trait TwoAdicField: Packable {
    /// The most bits that a generator here has: the logarithm of the order of the largest subgroup that
    /// `two_adic_generator` gives. That the field has no larger one is not claimed.
    const TWO_ADICITY: usize;

    ghost TWO_ADICITY: { ℕ };

    // The generator of this many bits, as contracts name it.
    ghost generator: { ℕ → Self };

    /// The generator of the subgroup of order `2^bits`, where `bits` is at most `TWO_ADICITY`.
    fn two_adic_generator(bits: usize) -> Self
        requires { bits ≤ TWO_ADICITY }
        ensures { Self.value result ≡ Self.value (generator bits) };

    ghost two_adicity_law: { 1 ≤ TWO_ADICITY };

    ghost roots_law: { AreRoots Self.ring TWO_ADICITY (λ i. Self.value (generator i)) };
}

/// A field whose values are named by the numbers below a modulus, and ordered as these are.
pub trait CanonicalField: TwoAdicField {
    /// The modulus.
    const ORDER_U64: u64;

    ghost ORDER_U64: { ℕ };

    /// The element with this number, which is that many ones added up: `None` from the modulus on.
    fn new(number: u64) -> Option<Self>
        ensures some { IfSome result (λ x. Self.number (Self.value x) ≡ number) }
        ensures value { IfSome result (λ x. Self.value x ≡ count Self.ring number) }
        ensures none { IsNone result ↔ (ORDER_U64 ≤ number) };

    /// The number of the element, below the modulus.
    fn as_canonical_u64(&self) -> u64
        ensures { result ≡ Self.number (Self.value self.now) };

    // The order is that of the numbers.
    ghost order_law: { (a b : Self) → Self.cmp a b
        ≡ nat_cmp (Self.number (Self.value a)) (Self.number (Self.value b)) };

    ghost number_below_law: { (x : Self) → Self.number (Self.value x) < ORDER_U64 };

    // A number below the modulus is that of as many ones, added up: so the value of each element is a sum of ones.
    ghost count_law: { (n : ℕ) → n < ORDER_U64 → Self.number (count Self.ring n) ≡ n };
}
