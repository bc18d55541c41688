//! The transform that does most layers on tiles of rows that stay in the cache.

ghost use Rattle.std.specs.Prelude.{◌≡◌, ◌↔◌, ℕ, ◌+◌, ◌*◌, ◌/◌, ◌^◌, ◌<◌, ◌≤◌, max, IsTrue, IsOk, IfOk, OnOk};
ghost use Rattle.std.specs.Prelude.{IfErr, OnErr, Ok, [], length};
ghost use Rattle.std.specs.Mem.{type_size};
ghost use Rattle.p3_matrix.specs.BitOrder.{bit_reversal};
ghost use Rattle.p3_matrix.specs.Matrix.{Matrix, image};
ghost use Rattle.p3_matrix.specs.Room.{IsWithin};
ghost use Rattle.p3_matrix.specs.RowMajor.{IsRowMajor, RowMajor, height, with_zeros};
ghost use Rattle.p3_matrix.specs.Cosets.{AreCoefficients, IsQuotient, IsValues, coset_shift, values_of};
ghost use Rattle.p3_dft.specs.Engines.{AtLog, IsPrepared, PreparesNoneAbove};
ghost use Rattle.p3_dft.specs.Transforms.{IsInterpolation, IsTransform};
ghost use Rattle.p3_networks.specs.Twiddles.{AreTwiddlesFromStart, backward_root, block_powers, forward_root};
ghost use Rattle.p3_dft.specs.Stored.{HasEntriesOf, HasTwoPowerRows};

use crate::prepared::{MatrixWork, on_prepared};
use crate::traits::{Layout, TwoAdicSubgroupDft};
use crate::util::{extend_by_zeros, log_height_lde, pad_rows, shift_rows};
use p3_field::{Products, TwoAdicField};
use p3_matrix::{
    BitReversedMatrixView, DftError, Evaluations, IntoRowMajorMatrix, RowMajorMatrix,
    log2_strict_usize, reverse_rows,
};
use p3_networks::groups::{DEFAULT_TILE, MAX_TILE, Tiling, log_tile_rows, piece_size};
use p3_networks::radix_2_small_batch::slots::slots_network;
use p3_networks::root_tables::RootTables;
use p3_networks::tiles::{
    WeightedRows, dif_network, dit_network_to_reversed, extending_network, scaled_dif_network,
};
use p3_networks::twiddles::reversed_powers;
use std::alloc::{AllocError, Global};
use std::marker::Model;

/// Transforms by layers of butterflies, in place: those whose blocks are larger than a tile of rows on
/// the whole matrix, in groups of three that go piece by piece, and all others tile by tile, so that a
/// piece and a tile go through their layers while they are in the cache. At height `2^k` and width w
/// that is at most `w * k * 2^k / 2` products, and `w * 2^k` more for an inverse, which has a network of
/// its own. All extensions but the one by parts have networks of their own too, which meet no row of zeros.
///
/// Two tables of twiddles are kept for the largest height so far, from its first transform on, or from
/// `prepare`, until the engine ends; then `dft_batch`, `idft_batch` and the calls that stand on them,
/// but for extensions and forms over vector spaces, take no memory at that height and at smaller ones. A
/// `default` engine and a clone, which has the tile of the other, have no tables and take no memory.
///
/// Contracts see which heights are prepared and how many products were made. A tile of any size gives
/// the same answers.
#[derive(Drop)]
pub struct Radix2DFTSmallBatch<F: TwoAdicField> {
    tile: usize,
    tables: RootTables<F>,
    products: Products,
}

impl<F: TwoAdicField> Model for Radix2DFTSmallBatch<F> {
    ghost use Rattle.std.specs.Prelude.{◌≤◌};
    ghost use Rattle.p3_dft.specs.Engines.{EngineState};

    ghost Value = { EngineState };

    ghost view = { λ e. record { prepared = e.tables; products = e.products } };

    ghost invariant = { λ e. e.tile ≤ 4294967296 };
}

impl<F: TwoAdicField> Default for Radix2DFTSmallBatch<F> {
    ghost use Rattle.std.specs.Prelude.{◌≡◌};

    ghost is_default = { λ e. (e.prepared ≡ 0) × (e.products ≡ 0) };

    fn default() -> Self {
        Self::empty(DEFAULT_TILE)
    }
}

impl<F: TwoAdicField> Clone for Radix2DFTSmallBatch<F> {
    ghost use Rattle.std.specs.Prelude.{◌≡◌, ⊤};

    ghost is_clone = { λ _ e. (e.prepared ≡ 0) × (e.products ≡ 0) };

    ghost is_infallible = { λ _. ⊤ };

    fn clone(&self) -> Result<Self, AllocError> {
        Ok(Self::empty(self.tile))
    }
}

impl<F: TwoAdicField> Radix2DFTSmallBatch<F> {
    // With tiles of so many elements and no tables.
    fn empty(tile: usize) -> Self
        requires { tile ≤ MAX_TILE }
        ensures prepared { result.prepared ≡ 0 }
        ensures products { result.products ≡ 0 }
    {
        Radix2DFTSmallBatch {
            tile,
            tables: RootTables::new(),
            products: Products::new(),
        }
    }

    /// An engine that is prepared for height `n` and smaller ones. `n` is at most one, which takes no
    /// memory, or a power of two of at most `2^TWO_ADICITY`. Its tiles have about 8192 elements, as those of a
    /// `default` engine have. An error says that memory for the tables was refused.
    pub fn new(alloc: Global, n: usize) -> Result<Self, DftError>
        requires { 2 ≤ n → (k : ℕ) × (n ≡ 2 ^ k) × (k ≤ F.TWO_ADICITY) }
        ensures prepares { IfOk result (λ e. 2 ^ e.prepared ≡ max 1 n) }
        ensures succeeds { n ≤ 1 → IsOk result }
        ensures products { IfOk result (λ e. e.products ≡ 0) }
        ensures room { IfErr result (IsWithin (type_size F.row) n) }
    {
        Self::with_tile(alloc, n, DEFAULT_TILE)
    }

    /// An engine as `new` makes it, with tiles of about `tile` elements: as many rows as have that many, up to
    /// the next power of two, and at least one. `tile` is from one to `2^32`. An error says that
    /// memory for the tables was refused.
    pub fn with_tile(alloc: Global, n: usize, tile: usize) -> Result<Self, DftError>
        requires height { 2 ≤ n → (k : ℕ) × (n ≡ 2 ^ k) × (k ≤ F.TWO_ADICITY) }
        requires nonzero { 1 ≤ tile }
        requires tile { tile ≤ 2 ^ 32 }
        ensures prepares { IfOk result (λ e. 2 ^ e.prepared ≡ max 1 n) }
        ensures succeeds { n ≤ 1 → IsOk result }
        ensures products { IfOk result (λ e. e.products ≡ 0) }
        ensures room { IfErr result (IsWithin (type_size F.row) n) }
    {
        let mut engine = Self::empty(tile);
        if n <= 1 {
            return Ok(engine);
        }
        engine.prepare(alloc, log2_strict_usize(n))?;
        Ok(engine)
    }

    /// Makes the tables for height `2^log_h`, after which transforms and inverses over the field, of that height and of
    /// smaller ones, take no memory. It takes none itself where the height is prepared
    /// already, as height one always is. `log_h` is at most `TWO_ADICITY`, and a `usize` holds the
    /// height. Where memory is refused, the engine is as before.
    pub fn prepare(&mut self, alloc: Global, log_h: usize) -> Result<(), DftError>
        requires within { log_h ≤ F.TWO_ADICITY }
        requires size { 2 ^ log_h < 2 ^ 64 }
        ensures made { OnOk result (self.new.prepared ≡ max self.old.prepared log_h) }
        ensures succeeds { IsPrepared self.old log_h → IsOk result }
        ensures refused { OnErr result (self.new ≡ self.old) }
        ensures products { self.new.products ≡ self.old.products }
        ensures room { IfErr result (IsWithin (type_size F.row) (2 ^ log_h)) }
    {
        self.tables.make(alloc, log_h)
    }

    /// Whether transforms and inverses over the field of height `2^log_h` take no memory. Height one
    /// always is prepared.
    pub fn is_prepared(&self, log_h: usize) -> bool
        ensures { IsTrue result ↔ IsPrepared self.now log_h }
    {
        log_h <= self.tables.log_h()
    }
}

impl<F: TwoAdicField> TwoAdicSubgroupDft<F> for Radix2DFTSmallBatch<F> {
    ghost use Rattle.std.specs.Prelude.{◌≡◌, ℕ, ◌+◌, ◌*◌, ◌/◌, ◌^◌, ◌≤◌, IfOk, IsOk, OnOk, OnErr, Ok, max, ⊤};
    ghost use Rattle.std.proofs.Common.{refl, rules};
    ghost use Rattle.p3_matrix.specs.BitOrder.{reversed_rows};
    ghost use Rattle.p3_matrix.specs.RowMajor.{RowMajor, height};
    ghost use Rattle.std.specs.Mem.{type_size};
    ghost use Rattle.p3_dft.specs.Engines.{AfterDft, AfterLde, AfterLdeOfCoefficients, AtLog, IsPrepared};
    ghost use Rattle.p3_dft.specs.Engines.{PreparesNoneAbove, plain_facts};
    ghost use Rattle.p3_dft.specs.Extensions.{IsCallable, IsExtension, IsTransformedExtension, KeepsShape};
    ghost use Rattle.p3_dft.specs.Shapes.{FitsDft, FitsLde};
    ghost use Rattle.p3_dft.specs.Transforms.{IsExtendedTransform, IsInterpolation, IsTransform};
    ghost use Rattle.p3_dft.specs.declared.traits.Layout.TheVariants.{Natural};

    type Evaluations = RowMajorMatrix<F>;

    const LAYOUT: Layout = Layout::Natural;

    ghost LAYOUT = { Natural };

    ghost facts = { plain_facts IsPrepared (λ _ _ _. ⊤) IsPrepared (λ k w. w * (k * 2 ^ k / 2)) (λ e. e.products) };

    ghost laws = { record {
      power_of_two = λ k a. (k + a, Prim.search (rules), refl);
      new_made_none = λ e new. new.1;
      clone_made_none = λ e copy new. new.1;
      clones = λ e. tt;
    } };

    /// As the trait says. `Ok` makes the height prepared for good, and no larger one; an error leaves the
    /// engine as it was. A matrix of height one is its own transform: it is handed back, with no product
    /// and no memory taken.
    fn dft_batch<N: IntoRowMajorMatrix<F>>(&mut self, mat: N) -> Result<RowMajorMatrix<F>, DftError>
        requires fits { FitsDft F.TWO_ADICITY (height (N.stored mat)) (N.stored mat).width }
        ensures values { IfOk result (λ out. IsTransform F.Valued.own F.generator (N.stored mat) F.ring.one out) }
        ensures succeeds { AtLog (height (N.stored mat)) (λ k. IsPrepared self.old k → IsOk result) }
        ensures made { AtLog (height (N.stored mat))
            (λ k. OnOk result (self.new.prepared ≡ max self.old.prepared k)) }
        ensures one_row { height (N.stored mat) ≡ 1 → (result ≡ Ok (N.stored mat)) × (self.new ≡ self.old) }
        ensures refused { OnErr result (self.new ≡ self.old) }
        ensures engine { AfterDft ⟦<Radix2DFTSmallBatch<F> as TwoAdicSubgroupDft<F>>⟧.facts (type_size F.row)
            self.old self.new result (N.stored mat) 0 }
    {
        let work = Evaluation { tile: self.tile };
        on_prepared(&mut self.tables, mat, work, &mut self.products)
    }

    fn add_products(&mut self, products: Products) {
        self.products.add(products);
    }

    fn block_height(&self, log_h: usize, added_bits: usize) -> usize {
        1 << (log_h + added_bits)
    }

    /// As the trait says, by a network of its own: division by the height goes into the tiles. `Ok` makes
    /// the height prepared for good, and no larger one; an error leaves the engine as it was. A matrix of
    /// height one is its own inverse transform: it is handed back, with no product and no memory taken.
    fn idft_batch<N: IntoRowMajorMatrix<F>>(
        &mut self,
        mat: N,
    ) -> Result<RowMajorMatrix<F>, DftError>
        requires fits { FitsDft F.TWO_ADICITY (height (N.stored mat)) (N.stored mat).width }
        ensures coefficients { IfOk result
            (λ out. IsInterpolation F.Valued.own F.generator (N.stored mat) F.ring.one out) }
        ensures succeeds { AtLog (height (N.stored mat)) (λ k. IsPrepared self.old k → IsOk result) }
        ensures made { AtLog (height (N.stored mat))
            (λ k. OnOk result (self.new.prepared ≡ max self.old.prepared k)) }
        ensures one_row { height (N.stored mat) ≡ 1 → (result ≡ Ok (N.stored mat)) × (self.new ≡ self.old) }
        ensures refused { OnErr result (self.new ≡ self.old) }
        ensures engine { AfterDft ⟦<Radix2DFTSmallBatch<F> as TwoAdicSubgroupDft<F>>⟧.facts (type_size F.row)
            self.old self.new result (N.stored mat) 1 }
    {
        let work = Interpolation { tile: self.tile };
        on_prepared(&mut self.tables, mat, work, &mut self.products)
    }

    /// As the trait says, by a network that meets no row of zeros, and without added bits by `dft_batch`, in place.
    /// `Ok` makes the extension's height prepared for good, and no larger one is; after an error its tables may have
    /// been made already.
    fn coset_lde_batch_of_coefficients<N: IntoRowMajorMatrix<F>>(
        &mut self,
        mat: N,
        added_bits: usize,
        shift: F,
    ) -> Result<RowMajorMatrix<F>, DftError>
        requires fits { FitsLde F.TWO_ADICITY (height (N.stored mat)) (N.stored mat).width added_bits }
        ensures values { IfOk result
            (IsExtendedTransform F.Valued.own F.generator (N.stored mat) added_bits (F.value shift)) }
        ensures only { AtLog (height (N.stored mat)) (λ k. PreparesNoneAbove (k + added_bits) self.old self.new) }
        ensures engine { AfterLdeOfCoefficients ⟦<Radix2DFTSmallBatch<F> as TwoAdicSubgroupDft<F>>⟧.facts
            (type_size F.row) self.old self.new result (N.stored mat) added_bits }
        ensures fewer { AtLog (height (N.stored mat)) (λ k. self.new.products ≤ self.old.products
            + (N.stored mat).width * (2 ^ added_bits * (k * 2 ^ k / 2) + 2 ^ (k + added_bits))) }
    {
        let mut mat = mat.into_row_major_matrix();
        if added_bits == 0 {
            let mut products = Products::new();
            shift_rows(&mut mat, shift, &mut products);
            self.add_products(products);
            return self.dft_batch(mat);
        }
        let log_h = log_height_lde(&mat, added_bits);
        self.tables.make(*mat.allocator(), log_h + added_bits)?;
        let tile = self.tile;
        let forward = self.tables.forward();
        reverse_rows(&mut mat);
        extend_to_natural(
            forward,
            F::ONE,
            mat,
            log_h,
            added_bits,
            shift,
            tile,
            &mut self.products,
        )
    }

    /// As the trait says, slot after slot, by transforms on the cosets that the rows in bit reversed order lie on: no
    /// row of zeros is met. `Ok` makes the extension's height prepared for good, and no larger one is; after an error
    /// its tables may have been made already.
    fn coset_lde_batch_of_coefficients_bit_reversed<N: IntoRowMajorMatrix<F>>(
        &mut self,
        mat: N,
        added_bits: usize,
        shift: F,
    ) -> Result<BitReversedMatrixView<RowMajorMatrix<F>>, DftError>
        requires fits { FitsLde F.TWO_ADICITY (height (N.stored mat)) (N.stored mat).width added_bits }
        ensures values { IfOk result (λ out. IsExtendedTransform F.Valued.own F.generator (N.stored mat) added_bits
            (F.value shift) (reversed_rows out.bits out.physical)) }
        ensures only { AtLog (height (N.stored mat)) (λ k. PreparesNoneAbove (k + added_bits) self.old self.new) }
        ensures engine { AfterLdeOfCoefficients ⟦<Radix2DFTSmallBatch<F> as TwoAdicSubgroupDft<F>>⟧.facts
            (type_size F.row) self.old self.new result (N.stored mat) added_bits }
    {
        let mat = mat.into_row_major_matrix();
        let log_h = log_height_lde(&mat, added_bits);
        self.tables.make(*mat.allocator(), log_h + added_bits)?;
        let mut grown = pad_rows(mat, added_bits)?;
        let twiddles = self.tables.forward();
        extend_to_reversed(
            twiddles,
            &mut grown,
            log_h,
            added_bits,
            shift,
            self.tile,
            &mut self.products,
        );
        Ok(grown.bit_reverse_rows())
    }

    /// As the trait says, in no more than an inverse and a transform of the larger height, and in less
    /// with two added bits or more: no rows are reversed, and no row of zeros is met. `Ok` makes the heights
    /// of the input and of the extension prepared for good; after an error no larger one than the
    /// extension's is. A matrix of height one without added bits is its own extension: it is handed back,
    /// with no product and no memory taken.
    fn coset_lde_batch<N: IntoRowMajorMatrix<F>>(
        &mut self,
        mat: N,
        added_bits: usize,
        shift: F,
    ) -> Result<RowMajorMatrix<F>, DftError>
        requires fits { FitsLde F.TWO_ADICITY (height (N.stored mat)) (N.stored mat).width added_bits }
        ensures values { IfOk result (λ out.
            IsExtension F.Valued.own F.generator (N.stored mat) added_bits (F.value shift) out) }
        ensures one_row { height (N.stored mat) ≡ 1 → added_bits ≡ 0
            → (result ≡ Ok (N.stored mat)) × (self.new ≡ self.old) }
        ensures only { AtLog (height (N.stored mat)) (λ k. PreparesNoneAbove (k + added_bits) self.old self.new) }
        ensures engine { AfterLde ⟦<Radix2DFTSmallBatch<F> as TwoAdicSubgroupDft<F>>⟧.facts (type_size F.row)
            self.old self.new result (N.stored mat) added_bits }
        ensures fewer { AtLog (height (N.stored mat)) (λ k. self.new.products
            ≤ self.old.products + (N.stored mat).width
            * (k * 2 ^ k / 2 * (1 + 2 ^ added_bits) + 2 ^ (k + added_bits))) }
    {
        let mut mat = mat.into_row_major_matrix();
        let log_h = log_height_lde(&mat, added_bits);
        if log_h + added_bits == 0 {
            return Ok(mat);
        }
        self.tables.make(*mat.allocator(), log_h + added_bits)?;
        let tile = self.tile;
        let backward = self.tables.backward();
        interpolate_unscaled_to_reversed(backward, &mut mat, log_h, tile, &mut self.products);
        let scale = F::ONE.div_2exp_u64(log_h as u64);
        let forward = self.tables.forward();
        extend_to_natural(
            forward,
            scale,
            mat,
            log_h,
            added_bits,
            shift,
            tile,
            &mut self.products,
        )
    }

    /// `coset_lde_batch` with the shift one, whose coset is the subgroup; its clauses are those of that call.
    fn lde_batch<N: IntoRowMajorMatrix<F>>(
        &mut self,
        mat: N,
        added_bits: usize,
    ) -> Result<RowMajorMatrix<F>, DftError>
        requires fits { FitsLde F.TWO_ADICITY (height (N.stored mat)) (N.stored mat).width added_bits }
        ensures values { IfOk result (IsExtension F.Valued.own F.generator (N.stored mat) added_bits F.ring.one) }
        ensures one_row { height (N.stored mat) ≡ 1 → added_bits ≡ 0
            → (result ≡ Ok (N.stored mat)) × (self.new ≡ self.old) }
        ensures only { AtLog (height (N.stored mat)) (λ k. PreparesNoneAbove (k + added_bits) self.old self.new) }
        ensures engine { AfterLde ⟦<Radix2DFTSmallBatch<F> as TwoAdicSubgroupDft<F>>⟧.facts (type_size F.row)
            self.old self.new result (N.stored mat) added_bits }
        ensures fewer { AtLog (height (N.stored mat)) (λ k. self.new.products
            ≤ self.old.products + (N.stored mat).width
            * (k * 2 ^ k / 2 * (1 + 2 ^ added_bits) + 2 ^ (k + added_bits))) }
    {
        self.coset_lde_batch(mat, added_bits, F::ONE)
    }

    /// As the trait says, by the inverse and `coset_lde_batch_of_coefficients_bit_reversed`: no rows are reversed
    /// after the inverse. On `Ok` the heights of the input and of the extension are prepared for good; after an error
    /// their tables may have been made already. No larger height is prepared.
    fn coset_lde_batch_bit_reversed<
        N: IntoRowMajorMatrix<F>,
        T: FnOnce(RowMajorMatrix<F>, Layout) -> RowMajorMatrix<F> + Drop,
    >(
        &mut self,
        mat: N,
        added_bits: usize,
        shift: F,
        transform: T,
    ) -> Result<BitReversedMatrixView<RowMajorMatrix<F>>, DftError>
        requires fits { FitsLde F.TWO_ADICITY (height (N.stored mat)) (N.stored mat).width added_bits }
        requires callable { IsCallable (N.stored mat) (λ m. T.pre transform m Natural) }
        requires shape { KeepsShape (N.stored mat) (λ m n. T.post transform m Natural n) }
        ensures values { IfOk result (λ out. IsTransformedExtension F.Valued.own F.generator (T.post transform) Natural
            (N.stored mat) added_bits (F.value shift) (reversed_rows out.bits out.physical)) }
        ensures only { AtLog (height (N.stored mat)) (λ k. PreparesNoneAbove (k + added_bits) self.old self.new) }
        ensures engine { AfterLde ⟦<Radix2DFTSmallBatch<F> as TwoAdicSubgroupDft<F>>⟧.facts (type_size F.row)
            self.old self.new result (N.stored mat) added_bits }
    {
        let mat = mat.into_row_major_matrix();
        let log_h = log_height_lde(&mat, added_bits);
        self.prepare(*mat.allocator(), log_h + added_bits)?;
        let coefficients = self.idft_batch(mat)?;
        // Tells the prover that the rows are whole.
        let _width = coefficients.width();
        let changed = transform(coefficients, Layout::Natural);
        // Tells the prover that the rows are whole.
        let _same_width = changed.width();
        self.coset_lde_batch_of_coefficients_bit_reversed(changed, added_bits, shift)
    }

    /// As the trait says, by `coset_lde_batch_bit_reversed`, whose rows are then reversed in place. It leaves the
    /// tables that this leaves.
    fn coset_lde_batch_with_transform<
        N: IntoRowMajorMatrix<F>,
        T: FnOnce(RowMajorMatrix<F>, Layout) -> RowMajorMatrix<F> + Drop,
    >(
        &mut self,
        mat: N,
        added_bits: usize,
        shift: F,
        transform: T,
    ) -> Result<RowMajorMatrix<F>, DftError>
        requires fits { FitsLde F.TWO_ADICITY (height (N.stored mat)) (N.stored mat).width added_bits }
        requires callable { IsCallable (N.stored mat) (λ m. T.pre transform m Natural) }
        requires shape { KeepsShape (N.stored mat) (λ m n. T.post transform m Natural n) }
        ensures values { IfOk result (IsTransformedExtension F.Valued.own F.generator (T.post transform) Natural
            (N.stored mat) added_bits (F.value shift)) }
        ensures only { AtLog (height (N.stored mat)) (λ k. PreparesNoneAbove (k + added_bits) self.old self.new) }
        ensures engine { AfterLde ⟦<Radix2DFTSmallBatch<F> as TwoAdicSubgroupDft<F>>⟧.facts (type_size F.row)
            self.old self.new result (N.stored mat) added_bits }
    {
        let values = self.coset_lde_batch_bit_reversed(mat, added_bits, shift, transform)?;
        Ok(values.to_row_major_matrix())
    }
}

// From coefficients to values on the subgroup.
#[derive(Drop)]
struct Evaluation {
    tile: usize,

    ghost small: { tile ≤ 4294967296 },
}

impl<F: TwoAdicField> MatrixWork<F, RootTables<F>> for Evaluation {
    ghost takes = { λ work mat out. IsTransform F.Valued.own F.generator mat F.ring.one out };

    ghost more = { λ work. 0 };

    fn on_matrix(
        &self,
        tables: &RootTables<F>,
        mat: &mut RowMajorMatrix<F>,
        log_h: usize,
        products: &mut Products,
    ) {
        let twiddles = tables.forward();
        let width = mat.width();
        let log_rows = log_tile_rows(self.tile, width, log_h);
        reverse_rows(mat);
        dif_network(
            twiddles,
            mat.values_mut(),
            width,
            log_rows,
            log_h,
            piece_size(self.tile),
            products,
        );
    }
}

// From values on the subgroup, the coefficients times the height, in place: rows in natural order
// become rows in bit reversed order. A single row has no layer.
fn interpolate_unscaled_to_reversed<F: TwoAdicField>(
    twiddles: &[F],
    mat: &mut RowMajorMatrix<F>,
    log_h: usize,
    tile: usize,
    products: &mut Products,
)
    requires rows { HasTwoPowerRows mat.old log_h }
    requires within { log_h ≤ F.TWO_ADICITY }
    requires tile { tile ≤ MAX_TILE }
    requires twiddles { AreTwiddlesFromStart F.Valued.own log_h
        (block_powers F.Valued.own (backward_root F.Valued.own F.generator)) twiddles.now }
    ensures same { HasEntriesOf mat.new mat.old }
    ensures coefficients { (c : Matrix F.Element)
        → IsQuotient F.ring (2 ^ log_h) (bit_reversal log_h (values_of F.Valued.own mat.new)) c
        → AreCoefficients F.ring (λ n. F.value (F.generator n)) (values_of F.Valued.own mat.old) log_h F.ring.one c }
    ensures grows { products.old ≤ products.new }
    ensures cost { products.new ≤ products.old + mat.old.width * (log_h * 2 ^ log_h / 2) }
{
    if log_h == 0 {
        return;
    }
    let width = mat.width();
    let log_rows = log_tile_rows(tile, width, log_h);
    let piece = piece_size(tile);
    dit_network_to_reversed(
        twiddles,
        mat.values_mut(),
        width,
        log_rows,
        log_h,
        piece,
        products,
    );
}

// From coefficients whose rows lie in bit reversed order, times `scale`, the values on the coset of
// `shift` of `2^added_bits` times as many points, which are more than one.
fn extend_to_natural<F: TwoAdicField>(
    twiddles: &[F],
    scale: F,
    mat: RowMajorMatrix<F>,
    log_h: usize,
    added_bits: usize,
    shift: F,
    tile: usize,
    products: &mut Products,
) -> Result<RowMajorMatrix<F>, DftError>
    requires rows { HasTwoPowerRows mat log_h }
    requires nonzero { 1 ≤ log_h + added_bits }
    requires fits_u64 { log_h + added_bits < 64 }
    requires within { log_h + added_bits ≤ F.TWO_ADICITY }
    requires size { height mat * mat.width * 2 ^ added_bits < 2 ^ 64 }
    requires tile { tile ≤ MAX_TILE }
    requires twiddles { AreTwiddlesFromStart F.Valued.own (log_h + added_bits)
        (block_powers F.Valued.own (forward_root F.Valued.own F.generator)) twiddles.now }
    ensures values { IfOk result (λ out. IsValues F.ring (λ n. F.value (F.generator n))
        (image (λ x. F.ring.mul x (F.value scale))
        (coset_shift F.ring (F.value shift) (bit_reversal log_h (values_of F.Valued.own mat))))
        (log_h + added_bits) F.ring.one (values_of F.Valued.own out)) }
    ensures grows { products.old ≤ products.new }
    ensures cost { products.new ≤ products.old
        + mat.width * (2 ^ added_bits * (log_h * 2 ^ log_h / 2) + 2 ^ (log_h + added_bits)) }
    ensures room { IfErr result (IsWithin (type_size F.row) (height mat * mat.width * 2 ^ added_bits)) }
{
    let alloc = *mat.allocator();
    let width = mat.width();
    let weights = reversed_powers(alloc, scale, shift, log_h)?;
    let mut values = Vec::new(alloc);
    extend_by_zeros(&mut values, mat.values().len() << added_bits)?;
    let log_rows = log_tile_rows(tile, width, log_h + added_bits).max(added_bits);
    let coefficients = WeightedRows {
        rows: mat.values(),
        weights: weights.as_slice(),
        added_bits,
    };
    extending_network(
        twiddles,
        coefficients,
        values.as_mut_slice(),
        width,
        log_rows,
        log_h + added_bits,
        piece_size(tile),
        products,
    );
    Ok(RowMajorMatrix::new(values, width))
}

// From coefficients in natural order, with rows of zeros below them, their values on the coset of `shift`
// that has as many points as there are rows, in bit reversed order. What the zeros are does not matter.
fn extend_to_reversed<F: TwoAdicField>(
    twiddles: &[F],
    mat: &mut RowMajorMatrix<F>,
    log_h: usize,
    added_bits: usize,
    shift: F,
    tile: usize,
    products: &mut Products,
)
    requires rows { HasTwoPowerRows mat.old (log_h + added_bits) }
    requires within { log_h + added_bits ≤ F.TWO_ADICITY }
    requires tile { tile ≤ MAX_TILE }
    requires twiddles { AreTwiddlesFromStart F.Valued.own log_h
        (block_powers F.Valued.own (forward_root F.Valued.own F.generator)) twiddles.now }
    ensures same { HasEntriesOf mat.new mat.old }
    ensures values { (c : RowMajor F) → IsRowMajor c → height c ≡ 2 ^ log_h → mat.old ≡ with_zeros F.zero c added_bits
        → IsValues F.ring (λ n. F.value (F.generator n)) (values_of F.Valued.own c) (log_h + added_bits) (F.value shift)
        (bit_reversal (log_h + added_bits) (values_of F.Valued.own mat.new)) }
    ensures grows { products.old ≤ products.new }
    ensures cost { products.new ≤ products.old
        + 2 ^ added_bits * (mat.old.width * (log_h * 2 ^ log_h / 2) + 2 ^ log_h * mat.old.width) }
{
    let width = mat.width();
    let tiling = Tiling {
        log_rows: log_tile_rows(tile, width, log_h),
        piece: piece_size(tile),
    };
    slots_network(
        twiddles,
        mat.values_mut(),
        width,
        tiling,
        log_h,
        added_bits,
        shift,
        products,
    );
}

// From values on the subgroup to coefficients.
#[derive(Drop)]
struct Interpolation {
    tile: usize,

    ghost small: { tile ≤ 4294967296 },
}

impl<F: TwoAdicField> MatrixWork<F, RootTables<F>> for Interpolation {
    ghost takes = { λ work mat out. IsInterpolation F.Valued.own F.generator mat F.ring.one out };

    ghost more = { λ work. 1 };

    fn on_matrix(
        &self,
        tables: &RootTables<F>,
        mat: &mut RowMajorMatrix<F>,
        log_h: usize,
        products: &mut Products,
    ) {
        let twiddles = tables.backward();
        let width = mat.width();
        let log_rows = log_tile_rows(self.tile, width, log_h);
        let inverse = F::ONE.div_2exp_u64(log_h as u64);
        reverse_rows(mat);
        scaled_dif_network(
            twiddles,
            inverse,
            mat.values_mut(),
            width,
            log_rows,
            log_h,
            piece_size(self.tile),
            products,
        );
    }
}
