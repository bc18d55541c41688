//! An extension whose rows come in bit reversed order. Of its `2^(log_h + added_bits)` rows each chunk of
//! `2^log_h` is a slot, which gets the values on a coset of its own. The coefficients are the first slot.

ghost use Rattle.std.specs.Prelude.{◌≡◌, ℕ, ◌+◌, ◌*◌, ◌/◌, ◌^◌, ◌<◌, ◌≤◌, length, get_or};
ghost use Rattle.p3_field.specs.Ring.{power};
ghost use Rattle.p3_matrix.specs.BitOrder.{rev};
ghost use Rattle.p3_matrix.specs.Cosets.{point};
ghost use Rattle.p3_networks.specs.Counts.{RisesAtMost};
ghost use Rattle.p3_networks.specs.Layers.{AreRows, AreValuesOfRows};
ghost use Rattle.p3_networks.specs.Slots.{IsSlot};
ghost use Rattle.p3_matrix.specs.Polynomials.{poly};
ghost use Rattle.p3_networks.specs.Twiddles.{AreTwiddlesFromStart, block_powers, forward_root};

use crate::chunks::{ChunkWork, on_each_chunk};
use crate::groups::Tiling;
use crate::radix_2_dit_parallel::coset_tables::slot_shift;
use crate::shifts::{copy_shifted, shift_values};
use crate::tiles::dit_network_to_reversed;
use p3_field::{Products, TwoAdicField};

/// From coefficients in natural order, which are the first slot, their values on the coset of `shift` of
/// order `2^(log_h + added_bits)`, in bit reversed order. Slot m is the coset of `shift` times the power
/// `rev m` of the generator of that order, so that no row of zeros is met. The first slot is done last,
/// since the others are made from the coefficients in it; what stands in the others before does not
/// matter. `twiddles` serve the height `2^log_h`, a tile has at most a slot's rows, and a piece at least one entry.
pub fn slots_network<F: TwoAdicField>(
    twiddles: &[F],
    values: &mut [F],
    width: usize,
    tiling: Tiling,
    log_h: usize,
    added_bits: usize,
    shift: F,
    products: &mut Products,
)
    requires width { 1 ≤ width }
    requires below { tiling.log_rows ≤ log_h }
    requires within { log_h + added_bits ≤ F.TWO_ADICITY }
    requires fits_u64 { log_h + added_bits < 64 }
    requires piece { 1 ≤ tiling.piece }
    requires size { length values.old ≡ 2 ^ (log_h + added_bits) * width }
    requires twiddles { AreTwiddlesFromStart F.Valued.own log_h
        (block_powers F.Valued.own (forward_root F.Valued.own F.generator)) twiddles.now }
    ensures values { (r j : ℕ) → r < 2 ^ (log_h + added_bits) → j < width
        → F.value (get_or values.new (r * width + j) F.zero)
        ≡ poly F.ring (2 ^ log_h) (λ q. F.value (get_or values.old (q * width + j) F.zero))
        (point F.ring (forward_root F.Valued.own F.generator) (log_h + added_bits) (F.value shift)
        (rev (log_h + added_bits) r)) }
    ensures grows { products.old ≤ products.new }
    ensures cost { products.new ≤ products.old
        + 2 ^ added_bits * (width * (log_h * 2 ^ log_h / 2) + 2 ^ log_h * width) }
{
    let slots = 1usize << added_bits;
    let size = values.len() / slots;
    let (coefficients, others) = values.split_at_mut(size);
    let work = OtherSlots {
        twiddles,
        coefficients: &*coefficients,
        width,
        tiling,
        log_h,
        added_bits,
        shift,
    };
    on_each_chunk(work, others, size, slots - 1, products);
    shift_values(coefficients, width, 1 << log_h, shift, products);
    evaluate_to_reversed(twiddles, coefficients, width, tiling, log_h, products);
}

// The slots behind the first one: each chunk gets the values on the coset of its slot.
#[derive(Drop)]
struct OtherSlots<'a, F> {
    twiddles: &'a [F],
    coefficients: &'a [F],
    width: usize,
    tiling: Tiling,
    log_h: usize,
    added_bits: usize,
    shift: F,
}

impl<F: TwoAdicField> ChunkWork<F> for OtherSlots<'_, F> {
    ghost accepts = { λ it n size. IsSlot F.TWO_ADICITY it.log_h it.added_bits it.width (length it.coefficients.now)
        (n + 1) size × (it.tiling.log_rows ≤ it.log_h) × (1 ≤ it.tiling.piece)
        × AreTwiddlesFromStart F.Valued.own it.log_h
        (block_powers F.Valued.own (forward_root F.Valued.own F.generator)) it.twiddles.now };

    ghost takes = { λ it n before after. (t j : ℕ) → t < 2 ^ it.log_h → j < it.width
        → F.value (get_or after (t * it.width + j) F.zero)
        ≡ poly F.ring (2 ^ it.log_h) (λ q. F.value (get_or it.coefficients.now (q * it.width + j) F.zero))
        (point F.ring (forward_root F.Valued.own F.generator) (it.log_h + it.added_bits) (F.value it.shift)
        (rev (it.log_h + it.added_bits) ((n + 1) * 2 ^ it.log_h + t))) };

    ghost cost = { λ it size. 2 * (it.width * (it.log_h * 2 ^ it.log_h / 2) + 2 ^ it.log_h * it.width) };

    #[inline(always)]
    fn on_chunk(&self, number: usize, chunk: &mut [F], products: &mut Products) {
        let width = self.width;
        let log_h = self.log_h;
        let slot = number + 1;
        let shift = slot_shift(log_h, self.added_bits, self.shift, slot);
        copy_shifted(self.coefficients, chunk, width, 1 << log_h, shift, products);
        evaluate_to_reversed(self.twiddles, chunk, width, self.tiling, log_h, products);
    }
}

// From rows in natural order to their values on the subgroup, in bit reversed order. A single row has no
// layer and needs no twiddles.
fn evaluate_to_reversed<F: TwoAdicField>(
    twiddles: &[F],
    values: &mut [F],
    width: usize,
    tiling: Tiling,
    log_h: usize,
    products: &mut Products,
)
    requires rows { AreRows log_h width (length values.old) }
    requires below { tiling.log_rows ≤ log_h }
    requires piece { 1 ≤ tiling.piece }
    requires within { log_h ≤ F.TWO_ADICITY }
    requires twiddles { AreTwiddlesFromStart F.Valued.own log_h
        (block_powers F.Valued.own (forward_root F.Valued.own F.generator)) twiddles.now }
    ensures values { AreValuesOfRows F.Valued.own width (2 ^ log_h) (λ q. q)
        (λ r. power F.ring (forward_root F.Valued.own F.generator log_h) (rev log_h r)) values.old values.new }
    ensures cost { RisesAtMost (width * (log_h * 2 ^ log_h / 2)) products.old products.new }
{
    if log_h > 0 {
        let Tiling { log_rows, piece } = tiling;
        dit_network_to_reversed(twiddles, values, width, log_rows, log_h, piece, products);
    }
}
