//! The transform by the networks of Bowers, whose twiddles are read one after another.

ghost use Rattle.std.specs.Prelude.{◌≡◌, ℕ, ◌+◌, ◌*◌, ◌/◌, ◌^◌, ◌<◌, ◌≤◌, length, get_or, IfErr, IfOk, OnErr, OnOk, Ok};
ghost use Rattle.std.specs.Mem.{type_size};
ghost use Rattle.p3_field.specs.Ring.{power};
ghost use Rattle.p3_matrix.specs.BitOrder.{bit_reversal};
ghost use Rattle.p3_matrix.specs.Matrix.{Matrix, Same, matrix, image};
ghost use Rattle.p3_matrix.specs.Room.{IsWithin};
ghost use Rattle.p3_matrix.specs.RowMajor.{IsRowMajor, height};
ghost use Rattle.p3_matrix.specs.Cosets.{AreCoefficients, IsQuotient, IsValues, coset_shift, values_of};
ghost use Rattle.p3_dft.specs.Engines.{AtLog};
ghost use Rattle.p3_dft.specs.Shapes.{FitsDft, FitsLde};
ghost use Rattle.p3_dft.specs.Stored.{HasEntriesOf, HasTwoPowerRows};

use crate::traits::{Layout, TwoAdicSubgroupDft};
use crate::util::{divide_rows, exchange_rows, log_height, pad_rows};
use p3_field::{Field, Products, TwoAdicField};
use p3_matrix::{DftError, IntoRowMajorMatrix, RowMajorMatrix, reverse_rows, scale_slice_in_place};
use p3_networks::radix_2_bowers::{network_g, network_g_transposed};
use p3_networks::twiddles::reversed_powers;
use std::alloc::{AllocError, Global};
use std::marker::Model;

/// Transforms by layers of butterflies, in place: network G takes rows in bit reversed order to rows in
/// natural order, and G transposed, with the inverse twiddles, takes rows in natural order to rows in
/// bit reversed order. At height `2^k` and width w each takes at most `w * k * 2^k / 2` products. An
/// extension, which goes by G transposed and then by G, reverses no rows: coefficients lie in bit
/// reversed order in it, which is the layout that a transform is given.
///
/// In every layer all pairs of a block have one twiddle, and blocks take the twiddles one after another (Bowers,
/// Lippert, Dror and Shaw, "Improved Twiddle Access for Fast Fourier Transforms", 2010). These are made in every call.
/// The engine keeps nothing between calls but its counter, which is what
/// contracts see of it. It takes no memory for a transform of height one.
#[derive(Drop)]
pub struct Radix2Bowers {
    products: Products,
}

impl Model for Radix2Bowers {
    ghost Value = { ℕ };

    ghost view = { λ e. e.products };
}

impl Default for Radix2Bowers {
    ghost use Rattle.std.specs.Prelude.{◌≡◌};

    ghost is_default = { λ e. e ≡ 0 };

    fn default() -> Self {
        Radix2Bowers {
            products: Products::new(),
        }
    }
}

impl Clone for Radix2Bowers {
    ghost use Rattle.std.specs.Prelude.{◌≡◌, ⊤};

    ghost is_clone = { λ _ e. e ≡ 0 };

    ghost is_infallible = { λ _. ⊤ };

    fn clone(&self) -> Result<Self, AllocError> {
        Ok(Self::default())
    }
}

impl<F: TwoAdicField> TwoAdicSubgroupDft<F> for Radix2Bowers {
    ghost use Rattle.std.specs.Prelude.{◌≡◌, ⊤, ℕ, ◌+◌, ◌*◌, ◌/◌, ◌^◌, ◌≤◌, IfOk, IsOk, OnErr, Ok};
    ghost use Rattle.std.proofs.Common.{refl, rules};
    ghost use Rattle.p3_matrix.specs.RowMajor.{height};
    ghost use Rattle.std.specs.Mem.{type_size};
    ghost use Rattle.p3_dft.specs.Engines.{AfterDft, AfterLde, AtLog, plain_facts};
    ghost use Rattle.p3_dft.specs.Extensions.{IsCallable, IsExtension, IsTransformedExtension, KeepsShape};
    ghost use Rattle.p3_dft.specs.Shapes.{FitsDft, FitsLde};
    ghost use Rattle.p3_dft.specs.Transforms.{IsInterpolation, IsTransform};
    ghost use Rattle.p3_dft.specs.declared.traits.Layout.TheVariants.{BitReversed};

    type Evaluations = RowMajorMatrix<F>;

    const LAYOUT: Layout = Layout::BitReversed;

    ghost LAYOUT = { BitReversed };

    ghost facts = { plain_facts (λ _ k. k ≡ 0) (λ _ _ _. ⊤) (λ _ _. ⊤) (λ k w. w * (k * 2 ^ k / 2)) (λ e. e) };

    ghost laws = { record {
      power_of_two = λ k a. (k + a, Prim.search (rules), refl);
      new_made_none = λ e none. none;
      clone_made_none = λ e copy none. none;
      clones = λ e. tt;
    } };

    /// As the trait says: the rows are reversed, then network G. A matrix of height one is its own
    /// transform: it is handed back, with no product and no memory taken. After an error no product was made.
    fn dft_batch<N: IntoRowMajorMatrix<F>>(&mut self, mat: N) -> Result<RowMajorMatrix<F>, DftError>
        requires fits { FitsDft F.TWO_ADICITY (height (N.stored mat)) (N.stored mat).width }
        ensures values { IfOk result (λ out. IsTransform F.Valued.own F.generator (N.stored mat) F.ring.one out) }
        ensures succeeds { AtLog (height (N.stored mat)) (λ k. k ≡ 0 → IsOk result) }
        ensures one_row { height (N.stored mat) ≡ 1 → (result ≡ Ok (N.stored mat)) × (self.new ≡ self.old) }
        ensures refused { OnErr result (self.new ≡ self.old) }
        ensures engine { AfterDft ⟦<Radix2Bowers as TwoAdicSubgroupDft<F>>⟧.facts (type_size F.row)
            self.old self.new result (N.stored mat) 0 }
    {
        let mut mat = mat.into_row_major_matrix();
        if mat.height() == 1 {
            return Ok(mat);
        }
        let log_h = log_height(&mat);
        reverse_rows(&mut mat);
        evaluate_to_natural(&mut mat, log_h, &mut self.products)?;
        Ok(mat)
    }

    fn add_products(&mut self, products: Products) {
        self.products.add(products);
    }

    fn block_height(&self, log_h: usize, added_bits: usize) -> usize {
        1 << (log_h + added_bits)
    }

    /// As the trait says: network G transposed, division by the height, then the rows are reversed. A
    /// matrix of height one is its own inverse transform: it is handed back, with no product and no
    /// memory taken. After an error no product was made.
    fn idft_batch<N: IntoRowMajorMatrix<F>>(
        &mut self,
        mat: N,
    ) -> Result<RowMajorMatrix<F>, DftError>
        requires fits { FitsDft F.TWO_ADICITY (height (N.stored mat)) (N.stored mat).width }
        ensures coefficients { IfOk result
            (λ out. IsInterpolation F.Valued.own F.generator (N.stored mat) F.ring.one out) }
        ensures succeeds { AtLog (height (N.stored mat)) (λ k. k ≡ 0 → IsOk result) }
        ensures one_row { height (N.stored mat) ≡ 1 → (result ≡ Ok (N.stored mat)) × (self.new ≡ self.old) }
        ensures refused { OnErr result (self.new ≡ self.old) }
        ensures engine { AfterDft ⟦<Radix2Bowers as TwoAdicSubgroupDft<F>>⟧.facts (type_size F.row)
            self.old self.new result (N.stored mat) 1 }
    {
        let mut mat = mat.into_row_major_matrix();
        if mat.height() == 1 {
            return Ok(mat);
        }
        let log_h = log_height(&mat);
        interpolate_to_reversed(&mut mat, log_h, &mut self.products)?;
        reverse_rows(&mut mat);
        Ok(mat)
    }

    /// As the trait says: the transform is given coefficients whose rows lie in bit reversed order, and
    /// what it answers is multiplied by powers of the shift in that order. A matrix of height one is
    /// passed as it is, and without added bits its transform is the answer, with no product and no memory taken.
    fn coset_lde_batch_with_transform<
        N: IntoRowMajorMatrix<F>,
        T: FnOnce(RowMajorMatrix<F>, Layout) -> RowMajorMatrix<F> + Drop,
    >(
        &mut self,
        mat: N,
        added_bits: usize,
        shift: F,
        transform: T,
    ) -> Result<RowMajorMatrix<F>, DftError>
        requires fits { FitsLde F.TWO_ADICITY (height (N.stored mat)) (N.stored mat).width added_bits }
        requires callable { IsCallable (N.stored mat) (λ m. T.pre transform m BitReversed) }
        requires shape { KeepsShape (N.stored mat) (λ m n. T.post transform m BitReversed n) }
        ensures values { IfOk result (IsTransformedExtension F.Valued.own F.generator (T.post transform) BitReversed
            (N.stored mat) added_bits (F.value shift)) }
        ensures one_row { height (N.stored mat) ≡ 1 → added_bits ≡ 0 → IsOk result × (self.new ≡ self.old) }
        ensures engine { AfterLde ⟦<Radix2Bowers as TwoAdicSubgroupDft<F>>⟧.facts (type_size F.row)
            self.old self.new result (N.stored mat) added_bits }
    {
        let mut mat = mat.into_row_major_matrix();
        let log_h = log_height(&mat);
        if log_h + added_bits == 0 {
            let row = transform(mat, Layout::BitReversed);
            // Tells the prover that the rows are whole.
            let _width = row.width();
            return Ok(row);
        }
        interpolate_to_reversed(&mut mat, log_h, &mut self.products)?;
        let changed = transform(mat, Layout::BitReversed);
        // Tells the prover that the rows are whole.
        let _same_width = changed.width();
        extend_to_natural(
            changed,
            log_h,
            added_bits,
            F::ONE,
            shift,
            &mut self.products,
        )
    }

    /// As the trait says: one product an entry divides by the height and multiplies by the power of the
    /// shift. A matrix of height one without added bits is its own extension: it is handed back, with no
    /// product and no memory taken.
    fn coset_lde_batch<N: IntoRowMajorMatrix<F>>(
        &mut self,
        mat: N,
        added_bits: usize,
        shift: F,
    ) -> Result<RowMajorMatrix<F>, DftError>
        requires fits { FitsLde F.TWO_ADICITY (height (N.stored mat)) (N.stored mat).width added_bits }
        ensures values { IfOk result (λ out.
            IsExtension F.Valued.own F.generator (N.stored mat) added_bits (F.value shift) out) }
        ensures one_row { height (N.stored mat) ≡ 1 → added_bits ≡ 0
            → (result ≡ Ok (N.stored mat)) × (self.new ≡ self.old) }
        ensures engine { AfterLde ⟦<Radix2Bowers as TwoAdicSubgroupDft<F>>⟧.facts (type_size F.row)
            self.old self.new result (N.stored mat) added_bits }
    {
        let mut mat = mat.into_row_major_matrix();
        let log_h = log_height(&mat);
        if log_h + added_bits == 0 {
            return Ok(mat);
        }
        interpolate_unscaled_to_reversed(&mut mat, log_h, &mut self.products)?;
        let scale = F::ONE.div_2exp_u64(log_h as u64);
        extend_to_natural(mat, log_h, added_bits, scale, shift, &mut self.products)
    }

    /// `coset_lde_batch` with the shift one, for which no table of its powers is made; its clauses are those of that
    /// call.
    fn lde_batch<N: IntoRowMajorMatrix<F>>(
        &mut self,
        mat: N,
        added_bits: usize,
    ) -> Result<RowMajorMatrix<F>, DftError>
        requires fits { FitsLde F.TWO_ADICITY (height (N.stored mat)) (N.stored mat).width added_bits }
        ensures values { IfOk result (λ out.
            IsExtension F.Valued.own F.generator (N.stored mat) added_bits F.ring.one out) }
        ensures one_row { height (N.stored mat) ≡ 1 → added_bits ≡ 0
            → (result ≡ Ok (N.stored mat)) × (self.new ≡ self.old) }
        ensures engine { AfterLde ⟦<Radix2Bowers as TwoAdicSubgroupDft<F>>⟧.facts (type_size F.row)
            self.old self.new result (N.stored mat) added_bits }
    {
        self.coset_lde_batch(mat, added_bits, F::ONE)
    }
}

// From coefficients, the values on the subgroup: rows in bit reversed order become rows in natural
// order. That is network G.
fn evaluate_to_natural<F: TwoAdicField>(
    mat: &mut RowMajorMatrix<F>,
    log_h: usize,
    products: &mut Products,
) -> Result<(), DftError>
    requires rows { HasTwoPowerRows mat.old log_h }
    requires nonzero { 1 ≤ log_h }
    requires within { log_h ≤ F.TWO_ADICITY }
    ensures values { OnOk result (IsValues F.ring (λ n. F.value (F.generator n))
        (bit_reversal log_h (values_of F.Valued.own mat.old)) log_h F.ring.one (values_of F.Valued.own mat.new)) }
    ensures refused { OnErr result (products.new ≡ products.old) }
    ensures grows { products.old ≤ products.new }
    ensures cost { products.new ≤ products.old + mat.old.width * (log_h * 2 ^ log_h / 2) }
    ensures room { IfErr result (IsWithin (type_size F.row) (height mat.old * mat.old.width)) }
{
    let width = mat.width();
    let generator = F::two_adic_generator(log_h);
    let twiddles = reversed_powers(*mat.allocator(), F::ONE, generator, log_h - 1)?;
    network_g(
        twiddles.as_slice(),
        mat.values_mut(),
        width,
        log_h,
        products,
    );
    Ok(())
}

// From values on the subgroup, the coefficients times the height: rows in natural order become rows in
// bit reversed order. That is network G transposed, with the inverse twiddles. A single row takes no
// memory.
fn interpolate_unscaled_to_reversed<F: TwoAdicField>(
    mat: &mut RowMajorMatrix<F>,
    log_h: usize,
    products: &mut Products,
) -> Result<(), DftError>
    requires rows { HasTwoPowerRows mat.old log_h }
    requires within { log_h ≤ F.TWO_ADICITY }
    ensures same { HasEntriesOf mat.new mat.old }
    ensures coefficients { OnOk result ((c : Matrix F.Element)
        → IsQuotient F.ring (2 ^ log_h) (bit_reversal log_h (values_of F.Valued.own mat.new)) c
        → AreCoefficients F.ring (λ n. F.value (F.generator n)) (values_of F.Valued.own mat.old) log_h F.ring.one c) }
    ensures refused { OnErr result (products.new ≡ products.old) }
    ensures grows { products.old ≤ products.new }
    ensures cost { products.new ≤ products.old + mat.old.width * (log_h * 2 ^ log_h / 2) }
    ensures room { IfErr result (IsWithin (type_size F.row) (height mat.old * mat.old.width)) }
{
    if log_h == 0 {
        return Ok(());
    }
    let width = mat.width();
    let generator = F::two_adic_generator(log_h);
    let inverse = generator.inverse();
    let twiddles = reversed_powers(*mat.allocator(), F::ONE, inverse, log_h - 1)?;
    network_g_transposed(
        twiddles.as_slice(),
        mat.values_mut(),
        width,
        log_h,
        products,
    );
    Ok(())
}

// From values on the subgroup, the coefficients: rows in natural order become rows in bit reversed
// order.
fn interpolate_to_reversed<F: TwoAdicField>(
    mat: &mut RowMajorMatrix<F>,
    log_h: usize,
    products: &mut Products,
) -> Result<(), DftError>
    requires rows { HasTwoPowerRows mat.old log_h }
    requires within { log_h ≤ F.TWO_ADICITY }
    ensures same { HasEntriesOf mat.new mat.old }
    ensures coefficients { OnOk result (AreCoefficients F.ring (λ n. F.value (F.generator n))
        (values_of F.Valued.own mat.old) log_h F.ring.one (bit_reversal log_h (values_of F.Valued.own mat.new))) }
    ensures refused { OnErr result (products.new ≡ products.old) }
    ensures grows { products.old ≤ products.new }
    ensures cost { products.new
        ≤ products.old + mat.old.width * (log_h * 2 ^ log_h / 2) + 2 ^ log_h * mat.old.width }
    ensures room { IfErr result (IsWithin (type_size F.row) (height mat.old * mat.old.width)) }
{
    interpolate_unscaled_to_reversed(mat, log_h, products)?;
    divide_rows(mat, products);
    Ok(())
}

// From coefficients whose rows lie in bit reversed order, times `scale`, the values on the coset of `shift` of
// `2^added_bits` times as many points, which are two or more, in natural order.
fn extend_to_natural<F: TwoAdicField>(
    mut mat: RowMajorMatrix<F>,
    log_h: usize,
    added_bits: usize,
    scale: F,
    shift: F,
    products: &mut Products,
) -> Result<RowMajorMatrix<F>, DftError>
    requires rows { HasTwoPowerRows mat log_h }
    requires fits { FitsLde F.TWO_ADICITY (height mat) mat.width added_bits }
    requires nonzero { 1 ≤ log_h + added_bits }
    ensures values { IfOk result (λ out. IsValues F.ring (λ n. F.value (F.generator n))
        (image (λ x. F.ring.mul x (F.value scale)) (bit_reversal log_h (values_of F.Valued.own mat)))
        (log_h + added_bits) (F.value shift) (values_of F.Valued.own out)) }
    ensures grows { products.old ≤ products.new }
    ensures cost { products.new ≤ products.old + (2 ^ log_h * mat.width
        + mat.width * ((log_h + added_bits) * 2 ^ (log_h + added_bits) / 2)) }
    ensures room { IfErr result (IsWithin (type_size F.row) (height mat * mat.width * 2 ^ added_bits)) }
{
    weigh_reversed_rows(&mut mat, log_h, scale, shift, products)?;
    let mut grown = spread_over_zeros(mat, log_h, added_bits)?;
    evaluate_to_natural(&mut grown, log_h + added_bits, products)?;
    Ok(grown)
}

// Multiplies the row of coefficient i by `scale` and the i-th power of `shift`, where rows lie in bit
// reversed order, with one product an entry. It takes no memory where the shift is one.
fn weigh_reversed_rows<F: TwoAdicField>(
    mat: &mut RowMajorMatrix<F>,
    log_h: usize,
    scale: F,
    shift: F,
    products: &mut Products,
) -> Result<(), DftError>
    requires rows { HasTwoPowerRows mat.old log_h }
    ensures rows { OnOk result (Same (bit_reversal log_h (values_of F.Valued.own mat.new))
        (coset_shift F.ring (F.value shift) (image (λ x. F.ring.mul x (F.value scale))
        (bit_reversal log_h (values_of F.Valued.own mat.old))))) }
    ensures grows { products.old ≤ products.new }
    ensures cost { products.new ≤ products.old + 2 ^ log_h * mat.old.width }
    ensures room { IfErr result (IsWithin (type_size F.row) (height mat.old * mat.old.width)) }
{
    if shift == F::ONE {
        mat.scale(scale, products);
        return Ok(());
    }
    let powers = reversed_powers(*mat.allocator(), scale, shift, log_h)?;
    let weights = powers.as_slice();
    for i in 0..weights.len() {
        scale_slice_in_place(mat.row_mut(i), weights[i], products);
    }
    Ok(())
}

// Brings row i into the place `i << added_bits`, with rows of zeros in the others. In bit reversed
// order that is rows of zeros below all others, which change no value.
fn spread_over_zeros<F: TwoAdicField>(
    mat: RowMajorMatrix<F>,
    log_h: usize,
    added_bits: usize,
) -> Result<RowMajorMatrix<F>, DftError>
    requires height { height mat ≡ 2 ^ log_h }
    requires fits { FitsLde F.TWO_ADICITY (height mat) mat.width added_bits }
    ensures rows { IfOk result (λ out. HasTwoPowerRows out (log_h + added_bits)) }
    ensures width { IfOk result (λ out. out.width ≡ mat.width) }
    ensures values { IfOk result (λ out. (s : F.Element) (v : Matrix F.Element)
        → IsValues F.ring (λ n. F.value (F.generator n))
        (bit_reversal (log_h + added_bits) (values_of F.Valued.own out)) (log_h + added_bits) s v
        → IsValues F.ring (λ n. F.value (F.generator n))
        (bit_reversal log_h (values_of F.Valued.own mat)) (log_h + added_bits) s v) }
    ensures room { IfErr result (IsWithin (type_size F.row) (height mat * mat.width * 2 ^ added_bits)) }
{
    let height = mat.height();
    if added_bits == 0 {
        return Ok(mat);
    }
    let mut mat = pad_rows(mat, added_bits)?;
    for row in (1..height).rev() {
        exchange_rows(&mut mat, row, row << added_bits);
    }
    Ok(mat)
}
