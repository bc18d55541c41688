//! The vanishing polynomial of a subgroup, and its values on a larger coset.

ghost use Rattle.std.specs.Prelude.{◌≡◌, ◌+◌, ◌*◌, ◌<◌, ◌≤◌, ◌^◌, ℕ, IfErr, IfOk, get_or, length, vec_len};
ghost use Rattle.std.specs.Mem.{type_size};
ghost use Rattle.p3_field.specs.Ring.{IsInverse, IsInvertible, minus, power};
ghost use Rattle.p3_matrix.specs.Cosets.{point};
ghost use Rattle.p3_matrix.specs.Room.{IsWithin};
ghost use Rattle.p3_interpolation.specs.GeneratorCosets.{baby_bear_off, goldilocks_off, koala_bear_off};
ghost use Rattle.p3_interpolation.specs.Interpolations.{IsOffCoset};

use crate::barycentric::powers_less_one;
use p3_field::{
    BabyBear, Goldilocks, KoalaBear, TwoAdicField, WideBabyBear, WideGoldilocks, WideKoalaBear,
    batch_multiplicative_inverse,
};
use p3_matrix::DftError;
use std::alloc::Global;

/// A field whose coset `GENERATOR * K` meets no subgroup H of two-power order, for every K of such an order: so the
/// vanishing polynomial of H has a value with an inverse at each point of it.
pub trait CosetGenerator: TwoAdicField {
    ghost off_law: { IsOffCoset Self.ring (2 ^ Self.TWO_ADICITY) Self.ring.one (Self.value Self.GENERATOR) };
}

impl CosetGenerator for BabyBear {
    ghost off_law = { baby_bear_off };
}

impl CosetGenerator for KoalaBear {
    ghost off_law = { koala_bear_off };
}

impl CosetGenerator for Goldilocks {
    ghost off_law = { goldilocks_off };
}

impl CosetGenerator for WideBabyBear {
    ghost off_law = { baby_bear_off };
}

impl CosetGenerator for WideKoalaBear {
    ghost off_law = { koala_bear_off };
}

impl CosetGenerator for WideGoldilocks {
    ghost off_law = { goldilocks_off };
}

/// The values of the vanishing polynomial `x^n - 1` of the subgroup H of `n = 2^log_height` elements, on the coset
/// `shift * K` of `2^added_bits` times as many: value i is that at the points `i + 2^added_bits * j`, for all j, since
/// there are only so many values. An error is out of memory.
pub fn vanishing_values<F: TwoAdicField>(
    alloc: Global,
    log_height: usize,
    added_bits: usize,
    shift: F,
) -> Result<Vec<F>, DftError>
    requires within { log_height + added_bits ≤ F.TWO_ADICITY }
    requires size { added_bits < 64 }
    ensures long { IfOk result (λ v. vec_len v ≡ 2 ^ added_bits) }
    ensures values { IfOk result (λ v. (i j : ℕ) → i < 2 ^ added_bits
        → F.value (get_or v.items i F.zero)
        ≡ minus F.ring (power F.ring (point F.ring (λ n. F.value (F.generator n)) (log_height + added_bits)
        (F.value shift) (i + 2 ^ added_bits * j)) (2 ^ log_height)) F.ring.one) }
    ensures room { IfErr result (IsWithin (type_size F.row) (2 ^ added_bits)) }
{
    let generator = F::two_adic_generator(added_bits);
    let first = shift.exp_power_of_2(log_height);
    let values = powers_less_one(alloc, generator, first, 1 << added_bits)?;
    Ok(values)
}

/// The inverses of these values, in the same order, where each has one: that is so exactly where
/// `shift^(2^(log_height + added_bits)) - 1` has one. An error is out of memory.
pub fn vanishing_inverses<F: TwoAdicField>(
    alloc: Global,
    log_height: usize,
    added_bits: usize,
    shift: F,
) -> Result<Vec<F>, DftError>
    requires within { log_height + added_bits ≤ F.TWO_ADICITY }
    requires size { added_bits < 64 }
    requires off_subgroup { IsOffCoset F.ring (2 ^ (log_height + added_bits)) F.ring.one (F.value shift) }
    ensures long { IfOk result (λ v. vec_len v ≡ 2 ^ added_bits) }
    ensures inverses { IfOk result (λ v. (i j : ℕ) → i < 2 ^ added_bits
        → IsInverse F.ring (minus F.ring (power F.ring (point F.ring (λ n. F.value (F.generator n))
        (log_height + added_bits) (F.value shift) (i + 2 ^ added_bits * j)) (2 ^ log_height)) F.ring.one)
        (F.value (get_or v.items i F.zero))) }
    ensures room { IfErr result (IsWithin (type_size F.row) (2 ^ added_bits)) }
{
    let values = vanishing_values(alloc, log_height, added_bits, shift)?;
    let inverses = batch_multiplicative_inverse(alloc, values.as_slice())?;
    Ok(inverses)
}

/// The inverses of the values on `GENERATOR * K`, which are always there. An error is out of memory.
pub fn vanishing_inverses_off_subgroups<F: CosetGenerator>(
    alloc: Global,
    log_height: usize,
    added_bits: usize,
) -> Result<Vec<F>, DftError>
    requires within { log_height + added_bits ≤ F.TWO_ADICITY }
    requires size { added_bits < 64 }
    ensures long { IfOk result (λ v. vec_len v ≡ 2 ^ added_bits) }
    ensures inverses { IfOk result (λ v. (i j : ℕ) → i < 2 ^ added_bits
        → IsInverse F.ring (minus F.ring (power F.ring (point F.ring (λ n. F.value (F.generator n))
        (log_height + added_bits) (F.value F.GENERATOR) (i + 2 ^ added_bits * j)) (2 ^ log_height)) F.ring.one)
        (F.value (get_or v.items i F.zero))) }
    ensures room { IfErr result (IsWithin (type_size F.row) (2 ^ added_bits)) }
{
    vanishing_inverses(alloc, log_height, added_bits, F::GENERATOR)
}
