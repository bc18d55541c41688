//! An extension coset by coset. Of its `2^(log_h + added_bits)` rows each chunk of `2^log_h` is a slot, which
//! gets the values on a coset of its own. The coefficients are the first slot, in bit reversed order.

ghost use Rattle.std.specs.Prelude.{◌≡◌, ℕ, ◌+◌, ◌-◌, ◌*◌, ◌/◌, ◌^◌, ◌<◌, ◌≤◌, ◌++◌, ◌∷◌, [], List, IfErr, IfSome};
ghost use Rattle.std.specs.Prelude.{IsPermutation, OnOk, get_or, length};
ghost use Rattle.p3_matrix.specs.BitOrder.{rev, mid_of};
ghost use Rattle.p3_matrix.specs.Blocks.{AreBlocksOf, Run, RunToRefusal};
ghost use Rattle.p3_matrix.specs.Matrix.{image, matrix};
ghost use Rattle.p3_matrix.specs.RowMajor.{RowMajor};
ghost use Rattle.p3_matrix.specs.Cosets.{point, HasCoset, HasCosets, IsCosetAt};
ghost use Rattle.p3_networks.specs.Chunks.{source_of};
ghost use Rattle.p3_networks.specs.Counts.{RisesAtMost};
ghost use Rattle.p3_networks.specs.Halves.{IsHighChunk, IsHighHalf, IsHighNetwork};
ghost use Rattle.p3_networks.specs.Layers.{AreRows};
ghost use Rattle.p3_networks.specs.Slots.{HasRowsOnCoset, IsSlot, LentInBlocks, extended_rows, slot_blocks};
ghost use Rattle.p3_networks.specs.Twiddles.{factor, forward_root, scale_cost};

use crate::chunks::{ChunkWork, LendingWork, lend_each_chunk};
use crate::halves::{HighLayers, first_half};
use crate::layouts::{ByLayer, LayerTwiddles};
use crate::radix_2_dit_parallel::coset_tables::{CosetTable, CosetTables, slot_shift};
use p3_field::{Field, Products, TwoAdicField};
use p3_matrix::bitrev::reverse_chunks;
use p3_matrix::{BlockConsumer, RowMajorMatrixView};

/// From coefficients in bit reversed order, which are the first slot, their values on the coset of `shift` of
/// order `2^(log_h + added_bits)`, in bit reversed order. Slot m is the coset of `shift` times the power
/// `rev m` of the generator of the larger order, and has a table. The first slot is done last, since the
/// others are made from the coefficients in it.
///
/// Each chunk of rows of the second half is lent to the consumer as soon as it is final. When one is refused,
/// the rest is not done.
pub fn extend_slots<F: TwoAdicField, C: BlockConsumer<F>>(
    cosets: &CosetTables<F>,
    values: &mut [F],
    width: usize,
    log_h: usize,
    added_bits: usize,
    shift: F,
    consumer: &mut C,
    products: &mut Products,
) -> Result<(), C::Refusal>
    requires width { 1 ≤ width }
    requires within { log_h + added_bits ≤ F.TWO_ADICITY }
    requires fits_u64 { log_h + added_bits < 64 }
    requires size { length values.old ≡ 2 ^ (log_h + added_bits) * width }
    requires tables { HasCosets F.Valued.own F.generator cosets.now log_h added_bits (F.value shift) }
    ensures values { OnOk result ((r j : ℕ) → r < 2 ^ (log_h + added_bits) → j < width
        → F.value (get_or values.new (r * width + j) F.zero)
        ≡ (extended_rows F.Valued.own F.generator log_h added_bits width (F.value shift) values.old).entry r j) }
    ensures published { OnOk result ((blocks : List (ℕ × RowMajor F))
        × IsPermutation (slot_blocks 0 (2 ^ (log_h - mid_of log_h)) width values.new
        (2 ^ added_bits * 2 ^ mid_of log_h)) blocks
        × Run C.step consumer.old blocks consumer.new) }
    ensures refused { IfErr result (λ refusal. (accepted : List (ℕ × RowMajor F)) × (refused : ℕ × RowMajor F)
        × AreBlocksOf (λ m. image F.value (matrix F.zero m)) (2 ^ (log_h - mid_of log_h))
        (extended_rows F.Valued.own F.generator log_h added_bits width (F.value shift) values.old)
        (accepted ++ refused ∷ [])
        × RunToRefusal C.step consumer.old accepted refused refusal consumer.new) }
    ensures grows { products.old ≤ products.new }
    ensures cost { products.new ≤ products.old + 2 ^ added_bits * (width * (log_h * 2 ^ log_h / 2)) }
{
    let slots = 1usize << added_bits;
    let size = values.len() / slots;
    let (coefficients, others) = values.split_at_mut(size);
    let work = OtherSlots {
        cosets,
        coefficients: &*coefficients,
        width,
        log_h,
        added_bits,
        shift,
    };
    let mut found = 0;
    if let Err(refusal) = lend_each_chunk(
        &work,
        others,
        size,
        slots - 1,
        &mut found,
        consumer,
        products,
    ) {
        return Err(refusal);
    }
    let found = place_of_slot(cosets, log_h, added_bits, shift, 0, found);
    let table = cosets.get(found);
    evaluate_reversed(
        table,
        None,
        coefficients,
        width,
        log_h,
        0,
        consumer,
        products,
    )
}

// The slots behind the first one: each chunk gets the values on the coset of its slot.
#[derive(Drop)]
struct OtherSlots<'a, F: TwoAdicField> {
    cosets: &'a CosetTables<F>,
    coefficients: &'a [F],
    width: usize,
    log_h: usize,
    added_bits: usize,
    shift: F,
}

impl<F: TwoAdicField, C: BlockConsumer<F>> LendingWork<F, C> for OtherSlots<'_, F> {
    // Where the table of the slot before was found.
    type Kept = usize;

    ghost accepts = { λ it n size. IsSlot F.TWO_ADICITY it.log_h it.added_bits it.width (length it.coefficients.now)
        (n + 1) size × HasCosets F.Valued.own F.generator it.cosets.now it.log_h it.added_bits (F.value it.shift) };

    ghost takes = { λ it n r before after. r < 2 ^ it.log_h → (j : ℕ) → j < it.width
        → F.value (get_or after (r * it.width + j) F.zero)
        ≡ (extended_rows F.Valued.own F.generator it.log_h it.added_bits it.width (F.value it.shift)
        it.coefficients.now).entry ((n + 1) * 2 ^ it.log_h + r) j };

    ghost shape = { λ it. record {
      first = 2 ^ it.log_h;
      blocks = 2 ^ mid_of it.log_h;
      rows = 2 ^ (it.log_h - mid_of it.log_h);
      width = it.width;
    } };

    ghost cost = { λ it size. it.width * (it.log_h * 2 ^ it.log_h / 2) };

    #[inline(always)]
    fn on_chunk(
        &self,
        number: usize,
        chunk: &mut [F],
        found: &mut usize,
        consumer: &mut C,
        products: &mut Products,
    ) -> Result<(), C::Refusal> {
        let log_h = self.log_h;
        let slot = number + 1;
        *found = place_of_slot(
            self.cosets,
            log_h,
            self.added_bits,
            self.shift,
            slot,
            *found,
        );
        let table = self.cosets.get(*found);
        evaluate_reversed(
            table,
            Some(self.coefficients),
            chunk,
            self.width,
            log_h,
            slot << log_h,
            consumer,
            products,
        )
    }
}

// The place of the table of a slot's coset. The search begins at `start`.
fn place_of_slot<F: TwoAdicField>(
    cosets: &CosetTables<F>,
    log_h: usize,
    added_bits: usize,
    shift: F,
    slot: usize,
    start: usize,
) -> usize
    requires within { log_h + added_bits ≤ F.TWO_ADICITY }
    requires fits_u64 { log_h + added_bits < 64 }
    requires in_table { HasCoset F.Valued.own cosets.now log_h
        (point F.ring (forward_root F.Valued.own F.generator) (log_h + added_bits) (F.value shift)
        (rev added_bits slot)) }
    ensures { IsCosetAt F.Valued.own cosets.now log_h
        (point F.ring (forward_root F.Valued.own F.generator) (log_h + added_bits) (F.value shift) (rev added_bits slot))
        result }
{
    let coset = slot_shift(log_h, added_bits, shift, slot);
    cosets.place_of(log_h, coset, start)
}

// From coefficients in bit reversed order, which lie in the source if there is one, their values on the coset
// that a table is of, in bit reversed order. The rows are those from number `first_row` on.
fn evaluate_reversed<'a, F: TwoAdicField, C: BlockConsumer<F>>(
    table: &'a CosetTable<F>,
    source: Option<&'a [F]>,
    values: &mut [F],
    width: usize,
    log_h: usize,
    first_row: usize,
    consumer: &mut C,
    products: &mut Products,
) -> Result<(), C::Refusal>
    requires rows { AreRows log_h width (length values.old) }
    requires source { IfSome source (λ rows. length rows.now ≡ length values.old) }
    requires table { table.now.log_h ≡ log_h }
    requires numbers { first_row + 2 ^ log_h < 2 ^ 64 }
    ensures lent { LentInBlocks C.step first_row (2 ^ (log_h - mid_of log_h)) width (2 ^ mid_of log_h)
        (λ n. HasRowsOnCoset F.Valued.own F.generator log_h width (F.value table.now.shift)
        (n * 2 ^ (log_h - mid_of log_h)) (source_of source.entry values.old) values.new)
        values.new consumer.old result consumer.new }
    ensures cost { RisesAtMost (width * (log_h * 2 ^ log_h / 2)) products.old products.new }
{
    let mid = (log_h + 1) / 2;
    let twiddles = ByLayer {
        twiddles: table.twiddles(),
    };
    // The source is lent anew, for as long as the values: the borrow checker refuses the longer loan.
    match source {
        Some(rows) => {
            let source = Some(&rows[..]);
            first_half(twiddles, source, values, width, log_h, mid, products);
        }
        None => first_half(twiddles, None, values, width, log_h, mid, products),
    }
    last_half(
        twiddles,
        values,
        width,
        mid,
        log_h - mid,
        first_row,
        consumer,
        products,
    )
}

// The rows, which are as the first half leaves them, are reversed, and go through the second half. Each chunk
// is lent when it is done.
fn last_half<F: TwoAdicField, T: LayerTwiddles<F>, C: BlockConsumer<F>>(
    table: T,
    values: &mut [F],
    width: usize,
    mid: usize,
    left: usize,
    first_row: usize,
    consumer: &mut C,
    products: &mut Products,
) -> Result<(), C::Refusal>
    requires rows { AreRows (mid + left) width (length values.old) }
    requires table { (l : ℕ) → mid ≤ l → l < mid + left → T.has table l }
    requires numbers { first_row + 2 ^ (mid + left) < 2 ^ 64 }
    ensures lent { LentInBlocks C.step first_row (2 ^ left) width (2 ^ mid)
        (λ n. IsHighHalf F.Valued.own n mid left width (T.at table)
        (λ a q j. F.value (get_or values.old ((rev left q * 2 ^ mid + rev mid a) * width + j) F.zero)) values.new)
        values.new consumer.old result consumer.new }
    ensures cost { RisesAtMost (2 ^ mid * (width * (left * 2 ^ left / 2))) products.old products.new }
{
    reverse_chunks(values, width, mid + left);
    let chunks = 1usize << mid;
    let size = values.len() / chunks;
    let layers = HighLayers {
        table,
        scale: None,
        width,
        mid,
        left,
    };
    let work = LentLayers { layers, first_row };
    lend_each_chunk(&work, values, size, chunks, &mut (), consumer, products)
}

// The layers of the second half, on chunks that are lent when they are done. The first row of all has a number.
#[derive(Drop)]
struct LentLayers<F, T> {
    layers: HighLayers<F, T>,
    first_row: usize,
}

impl<F: TwoAdicField, T: LayerTwiddles<F>, C: BlockConsumer<F>> LendingWork<F, C>
    for LentLayers<F, T> {
    type Kept = ();

    ghost accepts = { λ it n size. IsHighChunk it.layers.mid it.layers.left it.layers.width n (T.has it.layers.table) size
        × (it.first_row + 2 ^ (it.layers.mid + it.layers.left) < 2 ^ 64) };

    ghost takes = { λ it n r before. IsHighNetwork F.Valued.own it.layers.mid it.layers.left it.layers.width n
        (T.at it.layers.table) (λ q j. F.ring.mul (F.value (get_or before (q * it.layers.width + j) F.zero))
        (factor F.Valued.own it.layers.scale)) };

    ghost shape = { λ it. record {
      first = it.first_row;
      blocks = 1;
      rows = 2 ^ it.layers.left;
      width = it.layers.width;
    } };

    ghost cost = { λ it size. it.layers.width * (it.layers.left * 2 ^ it.layers.left / 2)
        + scale_cost it.layers.scale * (2 ^ it.layers.left * it.layers.width) };

    #[inline(always)]
    fn on_chunk(
        &self,
        number: usize,
        chunk: &mut [F],
        kept: &mut (),
        consumer: &mut C,
        products: &mut Products,
    ) -> Result<(), C::Refusal> {
        let layers = &self.layers;
        let height = 1usize << layers.left;
        let row = self.first_row + number * height;
        layers.on_chunk(number, chunk, products);
        let block = RowMajorMatrixView::new(&chunk[..], layers.width);
        consumer.consume(row, block)
    }
}
