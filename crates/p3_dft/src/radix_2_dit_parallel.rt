//! The transform by two halves of layers, each chunk by chunk, which leaves its rows in bit reversed order.

ghost use Rattle.std.specs.Prelude.{◌≡◌, ◌↔◌, ◌⊎◌, ℕ, ◌+◌, ◌*◌, ◌/◌, ◌^◌, ◌<◌, ◌≤◌, IsTrue, IfErr, IsOk, OnOk, OnErr, max};
ghost use Rattle.std.specs.Mem.{type_size};
ghost use Rattle.p3_matrix.specs.Room.{IsWithin};
ghost use Rattle.p3_dft.specs.Engines.{IsPrepared};

mod extension;
mod network;
mod transform;

use crate::blocks::{BlocksStopped, Unpublished};
use crate::prepared::on_prepared;
use crate::radix_2_dit_parallel::extension::{Unread, coefficients_with_room, extend_reversed};
use crate::radix_2_dit_parallel::transform::{
    Evaluation, Interpolation, evaluate_on_coset_to_reversed,
};
use crate::traits::{Layout, TwoAdicSubgroupDft};
use crate::util::{log_height, log_height_lde};
use p3_field::{Field, Products, TwoAdicField};
use p3_matrix::{
    BitReversedMatrixView, BlockConsumer, DftError, IntoRowMajorMatrix, RowMajorMatrix,
};
use p3_networks::radix_2_dit_parallel::coset_tables::CosetTables;
use p3_networks::radix_2_dit_parallel::tables::Tables;
use std::alloc::{AllocError, Global};
use std::marker::Model;

/// Transforms by layers of butterflies, in place, in two halves: the rows are reversed, the first half
/// of the layers is done on each chunk of rows in turn, the rows are reversed again, and the second half
/// is done on each chunk of rows in turn. A chunk has about as many rows as the square root of the height,
/// so that it stays in the cache for all layers of its half. The values are left in bit reversed order.
/// At height `2^k` and width w that is at most `w * k * 2^k / 2` products, on a coset too, and `w * 2^k`
/// more for an inverse. An extension by a bits, but one by parts, takes those of an inverse and of `2^a`
/// transforms.
///
/// Powers of the generators and of their inverses are kept for the largest height so far, from its first
/// transform or inverse on, or from `prepare`, until the engine ends; then `dft_batch`, `idft_batch` and
/// the calls that stand on them, but for extensions and forms over vector spaces, take no memory at that
/// height and at smaller ones.
/// A coset has a table of its own, of one entry less than its height, for its height and its shift,
/// which is kept from its first `coset_dft_batch` on; the coset of one, which is the subgroup, needs none
/// there. An extension, but one by parts, goes coset by coset: its output is made of `2^added_bits` cosets
/// of the input's height, and it makes and keeps a table of each. No call takes a prepared height or coset
/// back. A new engine and a clone have no tables and take no memory.
///
/// Contracts see which heights are prepared, which cosets have a table, and how many products were made. What a call
/// leaves prepared is in the clauses of `prepare` and of the calls that this engine states itself; of the others they
/// say that no prepared height or coset is lost.
#[derive(Drop)]
pub struct Radix2DitParallel<F: TwoAdicField> {
    tables: Tables<F>,
    cosets: CosetTables<F>,
    products: Products,
}

impl<F: TwoAdicField> Model for Radix2DitParallel<F> {
    ghost use Rattle.p3_dft.specs.Engines.{CosetEngineState};

    ghost Value = { CosetEngineState F };

    ghost view = { λ e. record {
      roots = record { prepared = e.tables; products = e.products };
      cosets = e.cosets;
    } };
}

impl<F: TwoAdicField> Default for Radix2DitParallel<F> {
    ghost use Rattle.std.specs.Prelude.{◌≡◌, []};

    ghost is_default = { λ e. (e.roots.prepared ≡ 0) × (e.cosets ≡ []) × (e.roots.products ≡ 0) };

    fn default() -> Self {
        Radix2DitParallel {
            tables: Tables::new(),
            cosets: CosetTables::new(),
            products: Products::new(),
        }
    }
}

impl<F: TwoAdicField> Clone for Radix2DitParallel<F> {
    ghost use Rattle.std.specs.Prelude.{◌≡◌, [], ⊤};

    ghost is_clone = { λ _ e. (e.roots.prepared ≡ 0) × (e.cosets ≡ []) × (e.roots.products ≡ 0) };

    ghost is_infallible = { λ _. ⊤ };

    fn clone(&self) -> Result<Self, AllocError> {
        Ok(Self::default())
    }
}

impl<F: TwoAdicField> Radix2DitParallel<F> {
    /// Makes the tables for height `2^log_h`; from then on `dft_batch` and both inverses over the field take no
    /// memory at that height and at smaller ones. A coset but the subgroup needs a table of its own, which only a
    /// transform or an extension on it makes. The call takes no memory where the height is prepared already, as
    /// height one always is. `log_h` is at most `TWO_ADICITY`, and a `usize` holds the height. Where memory is
    /// refused, the engine is as before.
    pub fn prepare(&mut self, alloc: Global, log_h: usize) -> Result<(), DftError>
        requires within { log_h ≤ F.TWO_ADICITY }
        requires size { 2 ^ log_h < 2 ^ 64 }
        ensures made { OnOk result (self.new.roots.prepared ≡ max self.old.roots.prepared log_h) }
        ensures succeeds { IsPrepared self.old.roots log_h → IsOk result }
        ensures refused { OnErr result (self.new ≡ self.old) }
        ensures cosets { self.new.cosets ≡ self.old.cosets }
        ensures products { self.new.roots.products ≡ self.old.roots.products }
        ensures room { IfErr result (IsWithin (type_size F.row) (2 ^ log_h)) }
    {
        self.tables.make(alloc, log_h)
    }

    /// Whether `dft_batch` and both inverses over the field take no memory at height `2^log_h`. Height
    /// one always is prepared.
    pub fn is_prepared(&self, log_h: usize) -> bool
        ensures { IsTrue result ↔ IsPrepared self.now.roots log_h }
    {
        log_h <= self.tables.log_h()
    }
}

impl<F: TwoAdicField> TwoAdicSubgroupDft<F> for Radix2DitParallel<F> {
    ghost use Rattle.std.specs.Prelude.{◌≡◌, ◌≢◌, ◌⊎◌, ⊤, ℕ, ◌+◌, ◌-◌, ◌*◌, ◌/◌, ◌^◌, ◌≤◌, [], ◌∷◌, ◌++◌};
    ghost use Rattle.std.specs.Prelude.{IfErr, IfOk, IsOk, OnOk, OnErr, Ok, length, max};
    ghost use Rattle.p3_matrix.specs.Room.{IsWithinEither};
    ghost use Rattle.p3_networks.specs.CosetTables.{coset_table_bytes};
    ghost use Rattle.std.proofs.Common.{arith, refl};
    ghost use Rattle.p3_matrix.specs.BitOrder.{bit_reversal, reversed_rows, mid_of};
    ghost use Rattle.p3_matrix.specs.RowMajor.{height};
    ghost use Rattle.std.specs.Mem.{type_size};
    ghost use Rattle.p3_dft.specs.Engines.{AfterDft, AtLog, HasProductsMore, IsLater, IsCosetPrepared, IsPrepared};
    ghost use Rattle.p3_dft.specs.Engines.{PreparesNoneAbove, plain_facts};
    ghost use Rattle.p3_matrix.specs.Cosets.{HasCoset, HasCosets, values_of};
    ghost use Rattle.p3_dft.specs.Extensions.{AreTransformedValues, IsCallable, IsTransformedExtension, KeepsShape};
    ghost use Rattle.p3_dft.specs.Blocks.{OnOutOfMemory, OnRefused, UnlessOutOfMemory, outcome};
    ghost use Rattle.p3_matrix.specs.Blocks.{IsPublished, IsRefused};
    ghost use Rattle.p3_matrix.specs.Matrix.{Matrix};
    ghost use Rattle.p3_dft.specs.Shapes.{FitsDft, FitsLde};
    ghost use Rattle.p3_dft.specs.Tables.{LeavesTables};
    ghost use Rattle.p3_dft.specs.Transforms.{IsInterpolation, IsTransform};
    ghost use Rattle.p3_dft.specs.declared.traits.Layout.TheVariants.{BitReversed};

    type Evaluations = BitReversedMatrixView<RowMajorMatrix<F>>;

    const LAYOUT: Layout = Layout::BitReversed;

    ghost LAYOUT = { BitReversed };

    ghost facts = { record (plain_facts (λ e. IsPrepared e.roots) (λ e k s. IsCosetPrepared F.Valued.own e k (F.value s))
        (λ _ _. ⊤) (λ k w. w * (k * 2 ^ k / 2)) (λ e. e.roots.products)) {
          extension_products = λ k a w. w * (k * 2 ^ k / 2 * (1 + 2 ^ a) + 2 ^ k);
          block_rows = λ k a. 2 ^ (k - mid_of k);
          tables = λ e. length e.cosets + 1;
          table_bytes = coset_table_bytes F.row;
        } };

    ghost laws = { record {
      power_of_two = λ k a. (k - (k + 1) / 2, omega (arith), refl);
      new_made_none = λ e new. new.2;
      clone_made_none = λ e copy new. new.2;
      clones = λ e. tt;
    } };

    /// As the trait says. `Ok` makes the height prepared for good, and an error leaves the engine as it
    /// was. A matrix of height one is its own transform: it is handed back, with no product and no memory
    /// taken.
    fn dft_batch<N: IntoRowMajorMatrix<F>>(
        &mut self,
        mat: N,
    ) -> Result<BitReversedMatrixView<RowMajorMatrix<F>>, DftError>
        requires fits { FitsDft F.TWO_ADICITY (height (N.stored mat)) (N.stored mat).width }
        ensures values { IfOk result (λ out.
            IsTransform F.Valued.own F.generator (N.stored mat) F.ring.one (reversed_rows out.bits out.physical)) }
        ensures succeeds { AtLog (height (N.stored mat)) (λ k. IsPrepared self.old.roots k → IsOk result) }
        ensures made { AtLog (height (N.stored mat))
            (λ k. OnOk result (self.new.roots.prepared ≡ max self.old.roots.prepared k)) }
        ensures refused { OnErr result (self.new ≡ self.old) }
        ensures one_row { height (N.stored mat) ≡ 1
            → (result ≡ Ok (record { physical = N.stored mat; bits = 0 })) × (self.new ≡ self.old) }
        ensures cosets { self.new.cosets ≡ self.old.cosets }
        ensures engine { AfterDft ⟦<Radix2DitParallel<F> as TwoAdicSubgroupDft<F>>⟧.facts (type_size F.row)
            self.old self.new result (N.stored mat) 0 }
    {
        let mat = on_prepared(&mut self.tables, mat, Evaluation, &mut self.products)?;
        Ok(mat.bit_reverse_rows())
    }

    /// As the trait says; no table is lost.
    fn add_products(&mut self, products: Products)
        ensures engine { HasProductsMore ⟦<Radix2DitParallel<F> as TwoAdicSubgroupDft<F>>⟧.facts self.old self.new
            products }
        ensures cosets { self.new.cosets ≡ self.old.cosets }
    {
        self.products.add(products);
    }

    /// As the trait says: a block is a chunk of rows of the second half.
    fn block_height(&self, log_h: usize, _added_bits: usize) -> usize {
        1 << (log_h - (log_h + 1) / 2)
    }

    /// As the trait says, by the table of the coset. Where that is there, the answer is `Ok`, and `Ok`
    /// leaves it there for good. No table of another coset is lost, and an error leaves the engine as it
    /// was. A shift of one is `dft_batch`, and no other shift makes or needs powers of the generators. A
    /// matrix of height one is handed back, with no product and no memory taken.
    fn coset_dft_batch<N: IntoRowMajorMatrix<F>>(
        &mut self,
        mat: N,
        shift: F,
    ) -> Result<BitReversedMatrixView<RowMajorMatrix<F>>, DftError>
        requires fits { FitsDft F.TWO_ADICITY (height (N.stored mat)) (N.stored mat).width }
        ensures values { IfOk result (λ out.
            IsTransform F.Valued.own F.generator (N.stored mat) (F.value shift) (reversed_rows out.bits out.physical)) }
        ensures succeeds { AtLog (height (N.stored mat)) (λ k. IsPrepared self.old.roots k
            → IsCosetPrepared F.Valued.own self.old k (F.value shift) → IsOk result) }
        ensures on_prepared { AtLog (height (N.stored mat))
            (λ k. IsCosetPrepared F.Valued.own self.old k (F.value shift) → IsOk result) }
        ensures tables { AtLog (height (N.stored mat))
            (λ k. OnOk result (IsCosetPrepared F.Valued.own self.new k (F.value shift))) }
        ensures only { AtLog (height (N.stored mat)) (λ k. PreparesNoneAbove k self.old.roots self.new.roots) }
        ensures roots { F.value shift ≢ F.ring.one → self.new.roots.prepared ≡ self.old.roots.prepared }
        ensures once { AtLog (height (N.stored mat))
            (λ k. IsCosetPrepared F.Valued.own self.old k (F.value shift) → self.new.cosets ≡ self.old.cosets) }
        ensures one { F.value shift ≡ F.ring.one → self.new.cosets ≡ self.old.cosets }
        ensures cosets { AtLog (height (N.stored mat)) (λ k. (self.new.cosets ≡ self.old.cosets)
            ⊎ (self.new.cosets ≡ self.old.cosets ++ record { log_h = k; shift = shift } ∷ [])) }
        ensures refused { OnErr result (self.new ≡ self.old) }
        ensures one_row { height (N.stored mat) ≡ 1
            → (result ≡ Ok (record { physical = N.stored mat; bits = 0 })) × (self.new ≡ self.old) }
        ensures engine { AfterDft ⟦<Radix2DitParallel<F> as TwoAdicSubgroupDft<F>>⟧.facts (type_size F.row)
            self.old self.new result (N.stored mat) 1 }
        ensures pairs { AtLog (height (N.stored mat)) (λ k. self.new.roots.products
            ≤ self.old.roots.products + (N.stored mat).width * (k * 2 ^ k / 2)) }
    {
        if shift == F::ONE {
            return self.dft_batch(mat);
        }
        let mut mat = mat.into_row_major_matrix();
        if mat.height() == 1 {
            return Ok(mat.bit_reverse_rows());
        }
        let log_h = log_height(&mat);
        let place = self.cosets.make(*mat.allocator(), log_h, shift)?;
        let table = self.cosets.get(place);
        evaluate_on_coset_to_reversed(table, &mut mat, log_h, &mut self.products);
        Ok(mat.bit_reverse_rows())
    }

    /// As the trait says: the division by the height is part of a layer. `Ok` makes the height prepared
    /// for good, and an error leaves the engine as it was. A matrix of height one is its own inverse
    /// transform: it is handed back, with no product and no memory taken.
    fn idft_batch<N: IntoRowMajorMatrix<F>>(
        &mut self,
        mat: N,
    ) -> Result<RowMajorMatrix<F>, DftError>
        requires fits { FitsDft F.TWO_ADICITY (height (N.stored mat)) (N.stored mat).width }
        ensures coefficients { IfOk result
            (λ out. IsInterpolation F.Valued.own F.generator (N.stored mat) F.ring.one out) }
        ensures succeeds { AtLog (height (N.stored mat)) (λ k. IsPrepared self.old.roots k → IsOk result) }
        ensures made { AtLog (height (N.stored mat))
            (λ k. OnOk result (self.new.roots.prepared ≡ max self.old.roots.prepared k)) }
        ensures refused { OnErr result (self.new ≡ self.old) }
        ensures one_row { height (N.stored mat) ≡ 1 → (result ≡ Ok (N.stored mat)) × (self.new ≡ self.old) }
        ensures cosets { self.new.cosets ≡ self.old.cosets }
        ensures engine { AfterDft ⟦<Radix2DitParallel<F> as TwoAdicSubgroupDft<F>>⟧.facts (type_size F.row)
            self.old self.new result (N.stored mat) 1 }
    {
        on_prepared(&mut self.tables, mat, Interpolation, &mut self.products)
    }

    /// As the trait says, coset by coset: the coefficients stay in bit reversed order, which the transform is
    /// given, and each chunk of as many rows as the input has gets the values on a coset of its own. The rows
    /// of zeros are not looked at. `Ok` makes the height of the input prepared for good, and leaves the
    /// tables of all cosets. Where all of these were there, they stay as they were. After an error the height
    /// and some of these cosets may have their tables already; none is lost.
    fn coset_lde_batch_with_transform<
        N: IntoRowMajorMatrix<F>,
        T: FnOnce(RowMajorMatrix<F>, Layout) -> RowMajorMatrix<F> + Drop,
    >(
        &mut self,
        mat: N,
        added_bits: usize,
        shift: F,
        transform: T,
    ) -> Result<BitReversedMatrixView<RowMajorMatrix<F>>, DftError>
        requires fits { FitsLde F.TWO_ADICITY (height (N.stored mat)) (N.stored mat).width added_bits }
        requires callable { IsCallable (N.stored mat) (λ m. T.pre transform m BitReversed) }
        requires shape { KeepsShape (N.stored mat) (λ m n. T.post transform m BitReversed n) }
        ensures values { IfOk result (λ out. IsTransformedExtension F.Valued.own F.generator (T.post transform)
            BitReversed (N.stored mat) added_bits (F.value shift) (reversed_rows out.bits out.physical)) }
        ensures prepared { AtLog (height (N.stored mat)) (λ k. OnOk result (IsPrepared self.new.roots k)) }
        ensures tables { AtLog (height (N.stored mat)) (λ k. OnOk result
            (HasCosets F.Valued.own F.generator self.new.cosets k added_bits (F.value shift))) }
        ensures keeps_tables { (k : ℕ) (s : F.Element) → HasCoset F.Valued.own self.old.cosets k s
            → HasCoset F.Valued.own self.new.cosets k s }
        ensures leaves { AtLog (height (N.stored mat))
            (λ k. LeavesTables F.Valued.own F.generator k added_bits (F.value shift)
            self.old.roots.prepared self.new.roots.prepared self.old.cosets self.new.cosets) }
        ensures few_tables { length self.new.cosets ≤ length self.old.cosets + 2 ^ added_bits }
        ensures later { IsLater ⟦<Radix2DitParallel<F> as TwoAdicSubgroupDft<F>>⟧.facts self.old self.new }
        ensures cost { AtLog (height (N.stored mat)) (λ k. self.new.roots.products
            ≤ self.old.roots.products + (N.stored mat).width * (k * 2 ^ k / 2 * (1 + 2 ^ added_bits) + 2 ^ k)) }
        ensures room { IfErr result
            (IsWithinEither (type_size F.row) (height (N.stored mat) * (N.stored mat).width * 2 ^ added_bits)
            (coset_table_bytes F.row) (length self.new.cosets + 1)) }
    {
        let (values, _unread) = self.coset_lde_batch_with_blocks(
            mat,
            added_bits,
            shift,
            transform,
            |_rows: usize| -> Unread { Unread },
        )?;
        Ok(values)
    }

    /// As the trait says: each chunk of rows of the second half is lent as soon as it is final, so that it is
    /// in the cache still. The first rows, which hold the coefficients until the others are made from
    /// them, are the last that are lent today; no order is promised. It leaves of the tables what
    /// `coset_lde_batch_with_transform` leaves; where the consumer refused, what that leaves with `Ok`.
    fn coset_lde_batch_with_blocks<
        N: IntoRowMajorMatrix<F>,
        T: FnOnce(RowMajorMatrix<F>, Layout) -> RowMajorMatrix<F> + Drop,
        C: BlockConsumer<F>,
        M: FnOnce(usize) -> C,
    >(
        &mut self,
        mat: N,
        added_bits: usize,
        shift: F,
        transform: T,
        make_consumer: M,
    ) -> Result<(BitReversedMatrixView<RowMajorMatrix<F>>, C), BlocksStopped<M, C, C::Refusal>>
        requires fits { FitsLde F.TWO_ADICITY (height (N.stored mat)) (N.stored mat).width added_bits }
        requires callable { IsCallable (N.stored mat) (λ m. T.pre transform m BitReversed) }
        requires shape { KeepsShape (N.stored mat) (λ m n. T.post transform m BitReversed n) }
        requires makes { AtLog (height (N.stored mat)) (λ k. M.pre make_consumer (2 ^ (k - mid_of k))) }
        ensures values { IfOk result (λ p. IsTransformedExtension F.Valued.own F.generator (T.post transform)
            BitReversed (N.stored mat) added_bits (F.value shift) (reversed_rows p.0.bits p.0.physical)) }
        ensures published { IfOk result (λ p. AtLog (height (N.stored mat)) (λ k.
            IsPublished C.step (M.post make_consumer (2 ^ (k - mid_of k))) (2 ^ (k - mid_of k))
            p.0.physical p.1)) }
        ensures refused { IfErr result (λ e. OnRefused e
            (λ c r. AtLog (height (N.stored mat)) (λ k. (out : Matrix F.Element)
            × AreTransformedValues F.Valued.own F.generator (T.post transform) BitReversed (N.stored mat) added_bits
            (F.value shift) out
            × IsRefused C.step (M.post make_consumer (2 ^ (k - mid_of k))) (values_of F.Valued.own)
            (2 ^ (k - mid_of k)) (bit_reversal (k + added_bits) out) c r))) }
        ensures unpublished { IfErr result (λ e. OnOutOfMemory e (λ m. m ≡ make_consumer)) }
        ensures prepared { AtLog (height (N.stored mat)) (λ k. UnlessOutOfMemory result (IsPrepared self.new.roots k)) }
        ensures tables { AtLog (height (N.stored mat)) (λ k. UnlessOutOfMemory result
            (HasCosets F.Valued.own F.generator self.new.cosets k added_bits (F.value shift))) }
        ensures keeps_tables { (k : ℕ) (s : F.Element) → HasCoset F.Valued.own self.old.cosets k s
            → HasCoset F.Valued.own self.new.cosets k s }
        ensures leaves { AtLog (height (N.stored mat))
            (λ k. LeavesTables F.Valued.own F.generator k added_bits (F.value shift)
            self.old.roots.prepared self.new.roots.prepared self.old.cosets self.new.cosets) }
        ensures few_tables { length self.new.cosets ≤ length self.old.cosets + 2 ^ added_bits }
        ensures later { IsLater ⟦<Radix2DitParallel<F> as TwoAdicSubgroupDft<F>>⟧.facts self.old self.new }
        ensures cost { AtLog (height (N.stored mat)) (λ k. self.new.roots.products
            ≤ self.old.roots.products + (N.stored mat).width * (k * 2 ^ k / 2 * (1 + 2 ^ added_bits) + 2 ^ k)) }
        ensures room { IfErr (outcome result)
            (IsWithinEither (type_size F.row) (height (N.stored mat) * (N.stored mat).width * 2 ^ added_bits)
            (coset_table_bytes F.row) (length self.new.cosets + 1)) }
    {
        let mat = mat.into_row_major_matrix();
        let log_h = log_height_lde(&mat, added_bits);
        let block_height = self.block_height(log_h, added_bits);
        let room = coefficients_with_room(
            &mut self.tables,
            &mut self.cosets,
            mat,
            added_bits,
            shift,
            transform,
            &mut self.products,
        );
        let mut mat = match room {
            Ok(mat) => mat,
            Err(_) => {
                return Err(BlocksStopped::OutOfMemory(Unpublished { make_consumer }));
            }
        };
        let mut consumer = make_consumer(block_height);
        let extended = extend_reversed(
            &self.cosets,
            &mut mat,
            log_h,
            added_bits,
            shift,
            &mut consumer,
            &mut self.products,
        );
        if let Err(refusal) = extended {
            return Err(BlocksStopped::Refused { consumer, refusal });
        }
        Ok((mat.bit_reverse_rows(), consumer))
    }
}
