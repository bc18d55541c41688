//! A transform that is made of many small ones, as threads or machines share one: for every field and engine, the
//! parts one after another.
//!
//! `2^k` rows of a matrix are also `2^log_parts` wide rows. These are transformed first, and then each of them alone,
//! on the coset of one point. No part needs another of its phase, so they may be made in any order.
//!
//! Proved: the parts give what one call gives, the values on the coset.

ghost use Rattle.std.specs.Prelude.{◌≡◌, ℕ, ◌+◌, ◌*◌, ◌^◌, ◌<◌, ◌≤◌, IfErr, IfOk, get_or, length};
ghost use Rattle.p3_field.specs.Ring.{power};
ghost use Rattle.p3_matrix.specs.Cosets.{point, values_of};
ghost use Rattle.p3_matrix.specs.Room.{WasOutOfMemory};
ghost use Rattle.p3_matrix.specs.RowMajor.{height};
ghost use Rattle.p3_dft.specs.Engines.{IsLater};
ghost use Rattle.p3_dft.specs.Parts.{IsInterleaved, row_as_matrix, wide_rows};
ghost use Rattle.p3_dft.specs.Shapes.{FitsDft};
ghost use Rattle.p3_dft.specs.Transforms.{IsTransform};

use p3_dft::{
    DftError, Evaluations, RowMajorMatrix, TwoAdicField, TwoAdicSubgroupDft, growth, log_height,
};

// The logarithm of the number of rows of a part, where there are `2^log_parts` parts.
fn log_rows_of_part<F: TwoAdicField>(mat: &RowMajorMatrix<F>, log_parts: usize) -> usize
    requires fits { FitsDft F.TWO_ADICITY (height mat.now) mat.now.width }
    requires parts { 2 ^ log_parts ≤ height mat.now }
    ensures { height mat.now ≡ 2 ^ (log_parts + result) }
{
    log_height(mat) - log_parts
}

// The transform of the wide rows, `2^log_rows` rows of the matrix in each.
fn transform_wide_rows<F: TwoAdicField, D: TwoAdicSubgroupDft<F>>(
    engine: &mut D,
    coefficients: RowMajorMatrix<F>,
    shift: F,
    log_rows: usize,
) -> Result<RowMajorMatrix<F>, DftError>
    requires fits { FitsDft F.TWO_ADICITY (height coefficients) coefficients.width }
    requires whole { (a : ℕ) × (height coefficients ≡ 2 ^ (a + log_rows)) }
    ensures shape { IfOk result (λ wide. (a : ℕ) → height coefficients ≡ 2 ^ (a + log_rows)
        → (height wide ≡ 2 ^ a) × (wide.width ≡ 2 ^ log_rows * coefficients.width)) }
    ensures values { IfOk result (IsTransform F.Valued.own F.generator (wide_rows (2 ^ log_rows) coefficients)
        (power F.ring (F.value shift) (2 ^ log_rows))) }
    ensures later { IsLater D.facts engine.old engine.new }
    ensures refused { IfErr result WasOutOfMemory }
{
    let width = coefficients.width();
    let rows = 1 << log_rows;
    let wide = RowMajorMatrix::new(coefficients.into_values(), rows * width);
    let wide = engine
        .coset_dft_batch(wide, shift.exp_power_of_2(log_rows))?
        .to_row_major_matrix();
    Ok(wide)
}

// The transform of each wide row as a matrix of `width` columns: row i on the coset of point i.
fn transform_each_row<F: TwoAdicField, D: TwoAdicSubgroupDft<F>>(
    engine: &mut D,
    wide: &RowMajorMatrix<F>,
    width: usize,
    shift: F,
    log_parts: usize,
    log_rows: usize,
) -> Result<Vec<RowMajorMatrix<F>>, DftError>
    requires fits { FitsDft F.TWO_ADICITY (2 ^ (log_parts + log_rows)) width }
    requires tall { height wide.now ≡ 2 ^ log_parts }
    requires wide { wide.now.width ≡ 2 ^ log_rows * width }
    ensures count { IfOk result (λ parts. length parts.items ≡ 2 ^ log_parts) }
    ensures parts { IfOk result (λ parts. (i : ℕ) (d : _) → i < 2 ^ log_parts
        → IsTransform F.Valued.own F.generator (row_as_matrix width wide.now i)
        (point F.ring (λ n. F.value (F.generator n)) (log_parts + log_rows) (F.value shift) i) (get_or parts.items i d)) }
    ensures later { IsLater D.facts engine.old engine.new }
    ensures refused { IfErr result WasOutOfMemory }
{
    let alloc = *wide.allocator();
    let root = F::two_adic_generator(log_parts + log_rows);
    let mut parts = growth::with_capacity(alloc, wide.height())?;
    for i in 0..wide.height() {
        let row = RowMajorMatrix::new(growth::from_slice(alloc, wide.row(i))?, width);
        let point = shift * root.exp_u64(i as u64);
        let part = engine.coset_dft_batch(row, point)?.to_row_major_matrix();
        parts.push_reserved(part);
    }
    Ok(parts)
}

// The rows of the parts in turn: row t is row `t / n` of part `t % n`, where there are n parts.
fn interleave<F: TwoAdicField>(
    parts: &[RowMajorMatrix<F>],
    rows: usize,
    width: usize,
) -> Result<RowMajorMatrix<F>, DftError>
    requires some { 1 ≤ length parts.now }
    requires wide { 1 ≤ width }
    requires size { length parts.now * rows * width < 2 ^ 64 }
    requires shapes { (i : ℕ) (d : _) → i < length parts.now
        → (height (get_or parts.now i d) ≡ rows) × ((get_or parts.now i d).width ≡ width) }
    ensures interleaved { IfOk result (λ out. (d : _) → IsInterleaved (length parts.now) rows
        (λ i. values_of F.Valued.own (get_or parts.now i d)) (values_of F.Valued.own out)) }
    ensures refused { IfErr result WasOutOfMemory }
{
    let height = parts.len() * rows;
    let mut values = growth::with_capacity(*parts[0].allocator(), height * width)?;
    for t in 0..height {
        growth::extend_from_slice(&mut values, parts[t % parts.len()].row(t / parts.len()))?;
    }
    Ok(RowMajorMatrix::new(values, width))
}

/// The values of polynomials, whose coefficients are the columns of the matrix, on a coset, made in `2^log_parts` parts:
/// what one call of `coset_dft_batch` gives. An error is out of memory.
pub fn coset_dft_by_parts<F: TwoAdicField, D: TwoAdicSubgroupDft<F>>(
    engine: &mut D,
    coefficients: RowMajorMatrix<F>,
    shift: F,
    log_parts: usize,
) -> Result<RowMajorMatrix<F>, DftError>
    requires fits { FitsDft F.TWO_ADICITY (height coefficients) coefficients.width }
    requires parts { 2 ^ log_parts ≤ height coefficients }
    ensures values { IfOk result (λ out.
        IsTransform F.Valued.own F.generator coefficients (F.value shift) out) }
    ensures later { IsLater D.facts engine.old engine.new }
    ensures refused { IfErr result WasOutOfMemory }
{
    let width = coefficients.width();
    let log_rows = log_rows_of_part(&coefficients, log_parts);
    let wide = transform_wide_rows(engine, coefficients, shift, log_rows)?;
    let parts = transform_each_row(engine, &wide, width, shift, log_parts, log_rows)?;
    let rows = 1 << log_rows;
    interleave(&parts, rows, width)
}
