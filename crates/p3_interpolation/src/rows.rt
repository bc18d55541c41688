//! Sums of the rows of a matrix, each times a weight.

ghost use Rattle.std.specs.Prelude.{◌≡◌, ◌+◌, ◌*◌, ◌<◌, ◌≤◌, ◌^◌, ℕ, IfErr, IfOk, OnOk, get_or, length, map};
ghost use Rattle.std.specs.Mem.{type_size};
ghost use Rattle.p3_field.specs.Lanes.{by_lanes};
ghost use Rattle.p3_matrix.specs.Cosets.{values_of};
ghost use Rattle.p3_matrix.specs.Polynomials.{sum};
ghost use Rattle.p3_matrix.specs.Room.{IsWithin};
ghost use Rattle.p3_matrix.specs.RowMajor.{height};
ghost use Rattle.p3_interpolation.specs.Interpolations.{AreWeightedRows};

use p3_dft::extend_by_zeros;
use p3_field::{Packable, PackedField, Products};
use p3_matrix::packs::full_packs;
use p3_matrix::{DftError, RowMajorMatrix};
use std::alloc::Global;

/// The sums of the rows of `mat`, each times its weight: row t of the answer is that with the weights in column t of
/// `weights`, which has a row for each row of `mat`. So the answer is the transpose of `weights` times `mat`, made in
/// one pass over the rows, with one product for each entry and each column of weights. An error is out of memory, and
/// leaves no product made.
pub fn weighted_rows<F: Packable>(
    mat: &RowMajorMatrix<F>,
    weights: &RowMajorMatrix<F>,
    products: &mut Products,
) -> Result<RowMajorMatrix<F>, DftError>
    requires height { height weights.now ≡ height mat.now }
    requires size { weights.now.width * mat.now.width < 2 ^ 64 }
    ensures sums { IfOk result (λ out. AreWeightedRows F.ring (values_of F.Valued.own mat.now)
        (values_of F.Valued.own weights.now) (values_of F.Valued.own out)) }
    ensures count { OnOk result (products.new
        ≡ products.old + height mat.now * (weights.now.width * mat.now.width)) }
    ensures room { IfErr result (IsWithin (type_size F.row) (weights.now.width * mat.now.width)) }
{
    let width = mat.width();
    let sums = weighted_sums(
        *mat.allocator(),
        mat.values(),
        weights.values(),
        width,
        weights.width(),
        mat.height(),
        products,
    )?;
    Ok(RowMajorMatrix::new(sums, width))
}

// The sums, row after row, of rows of `width` entries, times their weights in as many columns.
fn weighted_sums<F: Packable>(
    alloc: Global,
    rows: &[F],
    weights: &[F],
    width: usize,
    columns: usize,
    height: usize,
    products: &mut Products,
) -> Result<Vec<F>, DftError>
    requires size { columns * width < 2 ^ 64 }
    requires rows { length rows.now ≡ height * width }
    requires weights { length weights.now ≡ height * columns }
    ensures long { IfOk result (λ v. length v.items ≡ columns * width) }
    ensures sums { IfOk result (λ v. (t j : ℕ) → t < columns → j < width
        → F.value (get_or v.items (t * width + j) F.zero)
        ≡ sum F.ring height (λ i. F.ring.mul (F.value (get_or rows.now (i * width + j) F.zero))
        (F.value (get_or weights.now (i * columns + t) F.zero)))) }
    ensures count { OnOk result (products.new ≡ products.old + height * (columns * width)) }
    ensures room { IfErr result (IsWithin (type_size F.row) (columns * width)) }
{
    let mut sums = Vec::new(alloc);
    extend_by_zeros(&mut sums, columns * width)?;
    add_weighted_rows(
        sums.as_mut_slice(),
        rows,
        weights,
        width,
        columns,
        height,
        products,
    );
    Ok(sums)
}

// Adds each row of `width` entries, times its weights in as many columns, to as many rows of zeros.
fn add_weighted_rows<F: Packable>(
    sums: &mut [F],
    rows: &[F],
    weights: &[F],
    width: usize,
    columns: usize,
    height: usize,
    products: &mut Products,
)
    requires sums { length sums.old ≡ columns * width }
    requires rows { length rows.now ≡ height * width }
    requires weights { length weights.now ≡ height * columns }
    requires zero { (n : ℕ) → n < columns * width → F.value (get_or sums.old n F.zero) ≡ F.ring.zero }
    ensures sums { (t j : ℕ) → t < columns → j < width → F.value (get_or sums.new (t * width + j) F.zero)
        ≡ sum F.ring height (λ i. F.ring.mul (F.value (get_or rows.now (i * width + j) F.zero))
        (F.value (get_or weights.now (i * columns + t) F.zero))) }
    ensures count { products.new ≡ products.old + height * (columns * width) }
{
    for i in 0..height {
        let row = i * width;
        let weight = i * columns;
        add_weighted_row(
            sums,
            &rows[row..row + width],
            &weights[weight..weight + columns],
            width,
            columns,
            products,
        );
    }
}

// Adds a row, times each weight, to the row of `sums` in the weight's place.
fn add_weighted_row<F: Packable>(
    sums: &mut [F],
    row: &[F],
    weights: &[F],
    width: usize,
    columns: usize,
    products: &mut Products,
)
    requires sums { length sums.old ≡ columns * width }
    requires row { length row.now ≡ width }
    requires weights { length weights.now ≡ columns }
    ensures sums { (t j : ℕ) → t < columns → j < width → F.value (get_or sums.new (t * width + j) F.zero)
        ≡ F.ring.add (F.value (get_or sums.old (t * width + j) F.zero))
        (F.ring.mul (F.value (get_or row.now j F.zero)) (F.value (get_or weights.now t F.zero))) }
    ensures count { products.new ≡ products.old + columns * width }
{
    for t in 0..columns {
        let start = t * width;
        add_scaled(&mut sums[start..start + width], row, weights[t], products);
    }
}

// Adds to each entry of `sums` the entry of `row` in its place times `factor`: full packs of the field's own packing,
// then single elements.
#[inline(always)]
fn add_scaled<F: Packable>(sums: &mut [F], row: &[F], factor: F, products: &mut Products)
    requires { length row.now ≡ length sums.old }
    ensures sums { map F.value sums.new ≡ by_lanes (λ x y. F.ring.add x (F.ring.mul y (F.value factor)))
        (map F.value sums.old) (map F.value row.now) }
    ensures count { products.new ≡ products.old + length sums.old }
{
    let full = full_packs(sums.len(), F::Packing::WIDTH);
    let (packed_sums, rest_of_sums) = sums.split_at_mut(full);
    let (packed_row, rest_of_row) = row.split_at(full);
    add_scaled_packs::<F, F::Packing>(packed_sums, packed_row, factor, products);
    add_scaled_packs::<F, F>(rest_of_sums, rest_of_row, factor, products);
}

// `add_scaled` of full packs.
#[inline(always)]
fn add_scaled_packs<F: Packable, P: PackedField<Scalar = F>>(
    sums: &mut [F],
    row: &[F],
    factor: F,
    products: &mut Products,
)
    requires width { 1 ≤ P.WIDTH }
    requires whole { (k : ℕ) × length sums.old ≡ k * P.WIDTH }
    requires equal { length row.now ≡ length sums.old }
    ensures sums { map F.value sums.new ≡ by_lanes (λ x y. F.ring.add x (F.ring.mul y (F.value factor)))
        (map F.value sums.old) (map F.value row.now) }
    ensures count { products.new ≡ products.old + length sums.old }
{
    let width = P::WIDTH;
    let mut at = 0;
    while at < row.len() {
        add_scaled_pack::<F, P>(
            &mut sums[at..at + width],
            &row[at..at + width],
            factor,
            products,
        );
        at += width;
    }
}

// `add_scaled` of one pack.
#[inline(always)]
fn add_scaled_pack<F: Packable, P: PackedField<Scalar = F>>(
    sums: &mut [F],
    row: &[F],
    factor: F,
    products: &mut Products,
)
    requires sums { length sums.old ≡ P.WIDTH }
    requires row { length row.now ≡ P.WIDTH }
    ensures sums { map F.value sums.new ≡ by_lanes (λ x y. F.ring.add x (F.ring.mul y (F.value factor)))
        (map F.value sums.old) (map F.value row.now) }
    ensures count { products.new ≡ products.old + P.WIDTH }
{
    let multiples = P::load(row).scaled(factor, products);
    P::load(sums).add(multiples).store(sums);
}
