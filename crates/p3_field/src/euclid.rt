// Inverses modulo an odd number, by the extended algorithm of Euclid. Nothing here asks for a prime.

ghost use Rattle.std.specs.Prelude.{◌≡◌, ◌<◌, ◌*◌, ◌%◌, ℕ, IfSome, IsNone};
ghost use Rattle.std.specs.Int.{IsGcd};
ghost use Rattle.p3_field.specs.Residues.{IsProduct};

// The number below the modulus whose product with this one is one modulo it, where there is one.
pub(crate) fn inverse_modulo(modulus: u64, number: u64) -> Option<u64>
    requires odd { modulus % 2 ≡ 1 }
    requires above { 1 < modulus }
    requires below { number < modulus }
    ensures below { IfSome result (λ y. y < modulus) }
    ensures some { IfSome result (λ y. IsProduct modulus number y 1) }
    ensures none { IsNone result → (y : ℕ) → ¬ (IsProduct modulus number y 1) }
{
    let (divisor, factor) = bezout(modulus, number);
    if divisor == 1 { Some(factor) } else { None }
}

// The greatest common divisor of the modulus and a number, and a factor that takes the number to it.
fn bezout(modulus: u64, number: u64) -> (u64, u64)
    requires odd { modulus % 2 ≡ 1 }
    requires above { 1 < modulus }
    requires below { number < modulus }
    ensures divisor { IsGcd modulus number result.0 }
    ensures bound { result.1 < modulus }
    ensures factor { (result.1 * number) % modulus ≡ result.0 % modulus }
{
    let mut high = modulus;
    let mut low = number;
    let mut high_factor = 0;
    let mut low_factor = 1;
    while low > 0 {
        let taken = (high / low) as u128 * low_factor as u128 % modulus as u128;
        let factor = (high_factor as u128 + (modulus as u128 - taken)) % modulus as u128;
        let rest = high % low;
        high = low;
        low = rest;
        high_factor = low_factor;
        low_factor = factor as u64;
    }
    (high, high_factor)
}
