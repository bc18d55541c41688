//! The weights of the barycentric formula.

ghost use Rattle.std.specs.Prelude.{◌≡◌, ◌↔◌, ◌<◌, ◌≤◌, ◌^◌, ℕ, IfErr, IfOk, IsTrue, OnErr, get_or, length, vec_len};
ghost use Rattle.std.specs.Mem.{type_size};
ghost use Rattle.growth.specs.Refusals.{WasRefused};
ghost use Rattle.p3_field.specs.Ring.{IsInvertible, power, minus};
ghost use Rattle.p3_matrix.specs.Room.{IsWithin};
ghost use Rattle.p3_interpolation.specs.Interpolations.{AreWeights, IsOffCoset};

use growth::Refused;
use p3_dft::invertible_root;
use p3_field::{Field, Products, TwoAdicField, batch_multiplicative_inverse};
use p3_matrix::{DftError, scale_slice_in_place};
use std::alloc::Global;

/// Whether the vanishing polynomial of `shift * H`, where H has `height` elements, has a value with an inverse at
/// `point`: in a field that is so exactly where the point is not in the coset.
pub fn is_off_coset<F: Field>(height: usize, shift: F, point: F) -> bool
    ensures { IsTrue result ↔ IsOffCoset F.ring height (F.value shift) (F.value point) }
{
    let vanishing = point.exp_u64(height as u64) - shift.exp_u64(height as u64);
    vanishing.try_inverse().is_some()
}

/// The weights of the points of `shift * H` for a point off it (`is_off_coset` tells), where H has `2^log_height`
/// elements: the value at `point` of each polynomial with as many coefficients is the sum of its values at the
/// coset's points, each times its weight. A `usize` counts the points. An error is out of memory.
///
/// Weight i is `((x / s)^n - 1) / n / (x / (s * g^i) - 1)`, for the point x, the shift s, and n points. One inversion
/// serves all, and a weight takes five products.
pub fn barycentric_weights<F: TwoAdicField>(
    alloc: Global,
    log_height: usize,
    shift: F,
    point: F,
) -> Result<Vec<F>, DftError>
    requires within { log_height ≤ F.TWO_ADICITY }
    requires size { log_height < 64 }
    requires shift { IsInvertible F.ring (F.value shift) }
    requires off_coset { IsOffCoset F.ring (2 ^ log_height) (F.value shift) (F.value point) }
    ensures long { IfOk result (λ v. vec_len v ≡ 2 ^ log_height) }
    ensures weights { IfOk result (λ v. AreWeights F.ring (λ n. F.value (F.generator n)) log_height (F.value shift)
        (F.value point) (λ i. F.value (get_or v.items i F.zero))) }
    ensures room { IfErr result (IsWithin (type_size F.row) (2 ^ log_height)) }
{
    let ratio = point * shift.inverse();
    let step = invertible_root::<F>(log_height).inverse();
    let divisors = powers_less_one(alloc, step, ratio, 1 << log_height)?;
    let mut weights = batch_multiplicative_inverse(alloc, divisors.as_slice())?;
    let vanishing = ratio.exp_power_of_2(log_height) - F::ONE;
    let scale = vanishing.div_2exp_u64(log_height as u64);
    scale_slice_in_place(weights.as_mut_slice(), scale, &mut Products::new());
    Ok(weights)
}

// The products of `start` with the first n powers of `base`, each less one.
pub(crate) fn powers_less_one<F: Field>(
    alloc: Global,
    base: F,
    start: F,
    n: usize,
) -> Result<Vec<F>, Refused>
    ensures long { IfOk result (λ v. length v.items ≡ n) }
    ensures values { IfOk result (λ v. (i : ℕ) → i < n → F.value (get_or v.items i F.zero)
        ≡ minus F.ring (F.ring.mul (F.value start) (power F.ring (F.value base) i)) F.ring.one) }
    ensures room { OnErr result (WasRefused (type_size F.row) n) }
{
    let mut powers = base.shifted_powers(start).collect_n(alloc, n)?;
    subtract_one(powers.as_mut_slice());
    Ok(powers)
}

// Subtracts one from each element.
fn subtract_one<F: Field>(elements: &mut [F])
    ensures { (i : ℕ) → i < length elements.old → F.value (get_or elements.new i F.zero)
        ≡ minus F.ring (F.value (get_or elements.old i F.zero)) F.ring.one }
{
    for i in 0..elements.len() {
        elements[i] = elements[i] - F::ONE;
    }
}
