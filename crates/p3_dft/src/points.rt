//! Points that have an inverse, and clauses that say so: `inverse()` asks for it.

ghost use Rattle.std.specs.Prelude.{◌≡◌, ◌≤◌};
ghost use Rattle.p3_field.specs.Ring.{IsInvertible};

use p3_field::{Field, TwoAdicField};

/// `F::two_adic_generator(bits)`, of which the caller then knows that it has an inverse.
pub fn invertible_root<F: TwoAdicField>(bits: usize) -> F
    requires { bits ≤ F.TWO_ADICITY }
    ensures same { F.value result ≡ F.value (F.generator bits) }
    ensures invertible { IsInvertible F.ring (F.value result) }
{
    F::two_adic_generator(bits)
}

/// `shift.square()` of a shift that has an inverse, of which the caller then knows that it has one too.
pub fn invertible_square<F: Field>(shift: F) -> F
    requires { IsInvertible F.ring (F.value shift) }
    ensures square { F.value result ≡ F.ring.mul (F.value shift) (F.value shift) }
    ensures invertible { IsInvertible F.ring (F.value result) }
{
    shift.square()
}
