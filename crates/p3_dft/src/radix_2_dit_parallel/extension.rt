// The extension coset by coset.

ghost use Rattle.std.specs.Prelude.{◌≡◌, ℕ, ◌+◌, ◌-◌, ◌*◌, ◌/◌, ◌^◌, ◌<◌, ◌≤◌, ◌++◌, ◌∷◌, [], List, IfErr, IfOk};
ghost use Rattle.std.specs.Prelude.{OnOk, length};
ghost use Rattle.std.specs.Mem.{type_size};
ghost use Rattle.p3_matrix.specs.BitOrder.{bit_reversal, mid_of};
ghost use Rattle.p3_matrix.specs.Blocks.{AreBlocksOf, IsPartition, Run, RunToRefusal};
ghost use Rattle.p3_matrix.specs.Matrix.{Matrix};
ghost use Rattle.p3_matrix.specs.Room.{IsWithinEither};
ghost use Rattle.p3_networks.specs.CosetTables.{coset_table_bytes};
ghost use Rattle.p3_matrix.specs.RowMajor.{IsRowMajor, RowMajor, height, with_zeros};
ghost use Rattle.p3_matrix.specs.Cosets.{IsValues, values_of, HasCoset, HasCosets};
ghost use Rattle.p3_dft.specs.Engines.{AtLog};
ghost use Rattle.p3_dft.specs.Extensions.{IsAnswerOverZeros, IsCallable, KeepsShape};
ghost use Rattle.p3_dft.specs.Shapes.{FitsLde};
ghost use Rattle.p3_dft.specs.declared.traits.Layout.TheVariants.{BitReversed};
ghost use Rattle.p3_dft.specs.Stored.{HasEntriesOf, HasTwoPowerRows};
ghost use Rattle.p3_dft.specs.Tables.{LeavesTables};

use crate::radix_2_dit_parallel::transform::interpolate_to_reversed;
use crate::traits::Layout;
use crate::util::{log_height_lde, pad_rows};
use p3_field::{Products, TwoAdicField};
use p3_matrix::{BlockConsumer, DftError, RowMajorMatrix, RowMajorMatrixView};
use p3_networks::radix_2_dit_parallel::coset_tables::CosetTables;
use p3_networks::radix_2_dit_parallel::published_slots::extend_slots;
use p3_networks::radix_2_dit_parallel::tables::Tables;
use std::convert::Infallible;

// All of an extension that takes memory: the coefficients, in bit reversed order, as the transform answers
// them, the rows of the other slots below them, and the tables of the cosets of all slots.
pub(crate) fn coefficients_with_room<
    F: TwoAdicField,
    T: FnOnce(RowMajorMatrix<F>, Layout) -> RowMajorMatrix<F> + Drop,
>(
    tables: &mut Tables<F>,
    cosets: &mut CosetTables<F>,
    mat: RowMajorMatrix<F>,
    added_bits: usize,
    shift: F,
    transform: T,
    products: &mut Products,
) -> Result<RowMajorMatrix<F>, DftError>
    requires fits { FitsLde F.TWO_ADICITY (height mat) mat.width added_bits }
    requires callable { IsCallable mat (λ m. T.pre transform m BitReversed) }
    requires shape { KeepsShape mat (λ m n. T.post transform m BitReversed n) }
    ensures answer { IfOk result (λ out.
        IsAnswerOverZeros F.Valued.own F.generator (λ m n. T.post transform m BitReversed n) mat added_bits out) }
    ensures rows { IfOk result (λ out. AtLog (height mat) (λ k. HasTwoPowerRows out (k + added_bits))) }
    ensures prepared { AtLog (height mat) (λ k. OnOk result (k ≤ tables.new)) }
    ensures keeps { tables.old ≤ tables.new }
    ensures cosets { AtLog (height mat)
        (λ k. OnOk result (HasCosets F.Valued.own F.generator cosets.new k added_bits (F.value shift))) }
    ensures keeps_cosets { (k : ℕ) (s : F.Element) → HasCoset F.Valued.own cosets.old k s
        → HasCoset F.Valued.own cosets.new k s }
    ensures leaves { AtLog (height mat) (λ k. LeavesTables F.Valued.own F.generator k added_bits (F.value shift)
        tables.old tables.new cosets.old cosets.new) }
    ensures few_cosets { length cosets.new ≤ length cosets.old + 2 ^ added_bits }
    ensures grows { products.old ≤ products.new }
    ensures cost { AtLog (height mat)
        (λ k. products.new ≤ products.old + mat.width * (k * 2 ^ k / 2) + 2 ^ k * mat.width) }
    ensures room { IfErr result (IsWithinEither (type_size F.row) (height mat * mat.width * 2 ^ added_bits)
        (coset_table_bytes F.row) (length cosets.new + 1)) }
{
    let mut mat = mat;
    let alloc = *mat.allocator();
    let log_h = log_height_lde(&mat, added_bits);
    tables.make(alloc, log_h)?;
    interpolate_to_reversed(tables, &mut mat, log_h, products);
    let changed = transform(mat, Layout::BitReversed);
    let grown = pad_rows(changed, added_bits)?;
    cosets.make_all(alloc, log_h, added_bits, shift)?;
    Ok(grown)
}

// From coefficients in bit reversed order, with rows of zeros below them, their values on the coset of
// `shift` that has as many points as there are rows, in bit reversed order. What the zeros are does not
// matter. Each block of rows is lent to the consumer when it is final; when one is refused, the rest is not
// done.
pub(crate) fn extend_reversed<F: TwoAdicField, C: BlockConsumer<F>>(
    cosets: &CosetTables<F>,
    mat: &mut RowMajorMatrix<F>,
    log_h: usize,
    added_bits: usize,
    shift: F,
    consumer: &mut C,
    products: &mut Products,
) -> Result<(), C::Refusal>
    requires rows { HasTwoPowerRows mat.old (log_h + added_bits) }
    requires within { log_h + added_bits ≤ F.TWO_ADICITY }
    requires tables { HasCosets F.Valued.own F.generator cosets.now log_h added_bits (F.value shift) }
    ensures same { HasEntriesOf mat.new mat.old }
    ensures values { OnOk result ((c : RowMajor F) → IsRowMajor c → height c ≡ 2 ^ log_h
        → mat.old ≡ with_zeros F.zero c added_bits
        → IsValues F.ring (λ n. F.value (F.generator n)) (bit_reversal log_h (values_of F.Valued.own c))
        (log_h + added_bits) (F.value shift)
        (bit_reversal (log_h + added_bits) (values_of F.Valued.own mat.new))) }
    ensures published { OnOk result ((blocks : List (ℕ × RowMajor F))
        × IsPartition (2 ^ (log_h - mid_of log_h)) mat.new blocks × Run C.step consumer.old blocks consumer.new) }
    ensures refused { IfErr result (λ refusal. (c : RowMajor F) → IsRowMajor c → height c ≡ 2 ^ log_h
        → mat.old ≡ with_zeros F.zero c added_bits
        → (out : Matrix F.Element) × (accepted : List (ℕ × RowMajor F)) × (refused : ℕ × RowMajor F)
        × IsValues F.ring (λ n. F.value (F.generator n)) (bit_reversal log_h (values_of F.Valued.own c))
        (log_h + added_bits)
        (F.value shift) out
        × AreBlocksOf (values_of F.Valued.own) (2 ^ (log_h - mid_of log_h)) (bit_reversal (log_h + added_bits) out)
        (accepted ++ refused ∷ []) × RunToRefusal C.step consumer.old accepted refused refusal consumer.new) }
    ensures grows { products.old ≤ products.new }
    ensures cost { products.new ≤ products.old + 2 ^ added_bits * (mat.old.width * (log_h * 2 ^ log_h / 2)) }
{
    let width = mat.width();
    extend_slots(
        cosets,
        mat.values_mut(),
        width,
        log_h,
        added_bits,
        shift,
        consumer,
        products,
    )
}

// A consumer that takes every block and keeps nothing of it.
#[derive(Drop)]
pub(crate) struct Unread;

impl<F> BlockConsumer<F> for Unread {
    ghost use Rattle.std.specs.Prelude.{◌≡◌, Ok};

    type Refusal = Infallible;

    ghost step = { λ c start block answer e. answer ≡ Ok tt };

    fn consume(&mut self, start: usize, block: RowMajorMatrixView<'_, F>) -> Result<(), Infallible>
        ensures { ⟦<Unread as BlockConsumer<F>>⟧.step self.old start block.entry result self.new }
    {
        let _ = block;
        Ok(())
    }
}
