//! Sums, differences and products of numbers below the modulus in the lanes of a vector, for vectors of any number of lanes.

ghost use Rattle.std.specs.Prelude.{◌≡◌, ◌+◌, ◌-◌, ◌*◌, ◌/◌, ◌%◌, ◌<◌, ◌≤◌, map};
ghost use Rattle.std.specs.Simd.Lanes.{zip2};
ghost use Rattle.p3_field.specs.LaneNumbers.{AreBelow};

use crate::residue31::Numbers;
use std::simd::prelude::*;

// The remainder of each lane, which is below twice the modulus: where a lane is below the modulus,
// taking it away wraps to a larger number.
#[inline(always)]
pub(crate) fn remainders<N: Numbers, const L: usize>(x: Simd<u32, L>) -> Simd<u32, L>
    requires lanes { L ≤ 64 }
    requires below { AreBelow (N.numbers.modulus + N.numbers.modulus) x }
    ensures value { result ≡ map (λ n. n % N.numbers.modulus) x.entry }
    ensures below { AreBelow N.numbers.modulus result }
{
    x.simd_min(x - Simd::splat(N::MODULUS))
}

// The sum of each two lanes below the modulus.
#[inline(always)]
pub(crate) fn sums<N: Numbers, const L: usize>(a: Simd<u32, L>, b: Simd<u32, L>) -> Simd<u32, L>
    requires lanes { L ≤ 64 }
    requires first { AreBelow N.numbers.modulus a }
    requires second { AreBelow N.numbers.modulus b }
    ensures value { result ≡ zip2 (λ x y. (x + y) % N.numbers.modulus) a.entry b.entry }
    ensures below { AreBelow N.numbers.modulus result }
{
    remainders::<N, L>(a + b)
}

// The difference of each two lanes below the modulus: where it is negative, it wraps to a larger
// number than with the modulus added.
#[inline(always)]
pub(crate) fn differences<N: Numbers, const L: usize>(
    a: Simd<u32, L>,
    b: Simd<u32, L>,
) -> Simd<u32, L>
    requires lanes { L ≤ 64 }
    requires first { AreBelow N.numbers.modulus a }
    requires second { AreBelow N.numbers.modulus b }
    ensures value { result ≡ zip2 (λ x y. (x + (N.numbers.modulus - y)) % N.numbers.modulus) a.entry b.entry }
    ensures below { AreBelow N.numbers.modulus result }
{
    let difference = a - b;
    difference.simd_min(difference + Simd::splat(N::MODULUS))
}

// The difference of each two lanes below the modulus, with the modulus added: no lane of it is negative,
// and all are below twice the modulus.
#[inline(always)]
pub(crate) fn loose_differences<N: Numbers, const L: usize>(
    a: Simd<u32, L>,
    b: Simd<u32, L>,
) -> Simd<u32, L>
    requires lanes { L ≤ 64 }
    requires first { AreBelow N.numbers.modulus a }
    requires second { AreBelow N.numbers.modulus b }
    ensures { result ≡ zip2 (λ x y. x + (N.numbers.modulus - y)) a.entry b.entry }
{
    (a - b) + Simd::splat(N::MODULUS)
}

// The quotient of t, below the modulus, and the modulus, as 32 digits behind the point: one division, from which the
// quotients of all multiples of t are estimated.
#[inline(always)]
pub(crate) fn quotient<N: Numbers>(t: u32) -> u64
    requires { t < N.numbers.modulus }
    ensures value { result ≡ t * 4294967296 / N.numbers.modulus }
    ensures word { result < 4294967296 }
{
    ((t as u64) << 32) / N::MODULUS as u64 % 4294967296
}

// The product of each lane, which may be any number, and t, below the modulus, by an estimate of its quotient, which
// is one too small at most.
#[inline(always)]
pub(crate) fn estimated_multiples<N: Numbers, const L: usize>(
    a: Simd<u32, L>,
    t: u32,
    estimate: Simd<u32, L>,
) -> Simd<u32, L>
    requires lanes { L ≤ 64 }
    requires factor { t < N.numbers.modulus }
    requires near { estimate ≡ map (λ x. x * (t * 4294967296 / N.numbers.modulus) / 4294967296) a }
    ensures value { result ≡ map (λ x. (x * t) % N.numbers.modulus) a.entry }
    ensures below { AreBelow N.numbers.modulus result }
{
    remainders::<N, L>(a * Simd::splat(t) - estimate * Simd::splat(N::MODULUS))
}

// The product of each two lanes below the modulus. The quotient of a product is estimated by its
// upper digits and the reciprocal of the modulus; the estimate is one too small at most.
#[inline(always)]
pub(crate) fn lane_products<N: Numbers, const L: usize>(
    a: Simd<u32, L>,
    b: Simd<u32, L>,
) -> Simd<u32, L>
    requires lanes { L ≤ 64 }
    requires first { AreBelow N.numbers.modulus a }
    requires second { AreBelow N.numbers.modulus b }
    ensures value { result ≡ zip2 (λ x y. (x * y) % N.numbers.modulus) a.entry b.entry }
    ensures below { AreBelow N.numbers.modulus result }
{
    let modulus = N::MODULUS as u64;
    let reciprocal = 4611686018427387904 / modulus % 4294967296;
    let product = a.cast::<u64>() * b.cast::<u64>();
    let upper = (product >> Simd::splat(30)).cast::<u32>();
    let estimate = (upper.cast::<u64>() * Simd::splat(reciprocal)) >> Simd::splat(32);
    remainders::<N, L>((product - estimate * Simd::splat(modulus)).cast::<u32>())
}
