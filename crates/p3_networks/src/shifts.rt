//! Rows times the powers of a shift, as polynomials are brought to the coset of it.

ghost use Rattle.std.specs.Prelude.{◌≡◌, ℕ, ◌+◌, ◌*◌, ◌<◌, ◌≤◌, length, get_or, map};
ghost use Rattle.p3_field.specs.Lanes.{by_lanes};
ghost use Rattle.p3_field.specs.Ring.{power};

use p3_field::{Field, Packable, PackedField, Products, TwoAdicField, scaled};
use p3_matrix::packs::full_packs;
use p3_matrix::scale_slice_in_place;

/// Multiplies row i by the i-th power of `shift`, with one product an entry, or none where the shift
/// is one. `values` are `height` rows of `width` entries.
pub fn shift_values<F: TwoAdicField>(
    values: &mut [F],
    width: usize,
    height: usize,
    shift: F,
    products: &mut Products,
)
    requires { length values.old ≡ height * width }
    ensures values { (i j : ℕ) → i < height → j < width → F.value (get_or values.new (i * width + j) F.zero)
        ≡ F.ring.mul (F.value (get_or values.old (i * width + j) F.zero)) (power F.ring (F.value shift) i) }
    ensures grows { products.old ≤ products.new }
    ensures cost { products.new ≤ products.old + height * width }
{
    if shift == F::ONE {
        return;
    }
    // In one column a call for each row costs more than its product.
    if width == 1 {
        scale_by_powers(values, F::ONE, shift, products);
        return;
    }
    let mut power = F::ONE;
    for i in 0..height {
        let start = i * width;
        scale_slice_in_place(&mut values[start..start + width], power, products);
        power = power * shift;
    }
}

/// Multiplies the entry in row i and column j by the i-th power of the column's own shift, `shift * step^j`, with one
/// product an entry. `values` are `height` rows of `width` entries.
pub fn shift_columns<F: TwoAdicField>(
    values: &mut [F],
    width: usize,
    height: usize,
    shift: F,
    step: F,
    products: &mut Products,
)
    requires { length values.old ≡ height * width }
    ensures values { (i j : ℕ) → i < height → j < width → F.value (get_or values.new (i * width + j) F.zero)
        ≡ F.ring.mul (F.value (get_or values.old (i * width + j) F.zero))
        (power F.ring (F.ring.mul (F.value shift) (power F.ring (F.value step) j)) i) }
    ensures count { products.new ≡ products.old + height * width }
{
    // In row i these powers are `(shift * step^j)^i = shift^i * (step^i)^j`.
    let mut first = F::ONE;
    let mut base = F::ONE;
    for i in 0..height {
        let start = i * width;
        scale_by_powers(&mut values[start..start + width], first, base, products);
        first = first * shift;
        base = base * step;
    }
}

/// Multiplies entry i by `first` times the i-th power of `base`, with one product an entry.
pub fn scale_by_powers<F: TwoAdicField>(
    values: &mut [F],
    first: F,
    base: F,
    products: &mut Products,
)
    ensures values { (i : ℕ) → i < length values.old → F.value (get_or values.new i F.zero)
        ≡ F.ring.mul (F.value (get_or values.old i F.zero))
        (F.ring.mul (F.value first) (power F.ring (F.value base) i)) }
    ensures count { products.new ≡ products.old + length values.old }
{
    let packed = full_packs(values.len(), F::Packing::WIDTH);
    let (single, packs) = values.split_at_mut(values.len() - packed);
    let next = scale_each(single, first, base, products);
    scale_packs::<F, F::Packing>(packs, next, base, products);
}

// `scale_by_powers`, one entry after another. The result is the factor that comes next.
fn scale_each<F: TwoAdicField>(values: &mut [F], first: F, base: F, products: &mut Products) -> F
    ensures values { (i : ℕ) → i < length values.old → F.value (get_or values.new i F.zero)
        ≡ F.ring.mul (F.value (get_or values.old i F.zero))
        (F.ring.mul (F.value first) (power F.ring (F.value base) i)) }
    ensures next { F.value result ≡ F.ring.mul (F.value first) (power F.ring (F.value base) (length values.old)) }
    ensures count { products.new ≡ products.old + length values.old }
{
    let mut factor = first;
    for i in 0..values.len() {
        values[i] = scaled(values[i], factor, products);
        factor = factor * base;
    }
    factor
}

// `scale_by_powers` of full packs, by a pack of factors. Factors are no entries: no product of them is counted.
fn scale_packs<F: TwoAdicField, P: PackedField<Scalar = F>>(
    values: &mut [F],
    first: F,
    base: F,
    products: &mut Products,
)
    requires width { 1 ≤ P.WIDTH }
    requires whole { (k : ℕ) × length values.old ≡ k * P.WIDTH }
    ensures values { (i : ℕ) → i < length values.old → F.value (get_or values.new i F.zero)
        ≡ F.ring.mul (F.value (get_or values.old i F.zero))
        (F.ring.mul (F.value first) (power F.ring (F.value base) i)) }
    ensures count { products.new ≡ products.old + length values.old }
{
    let width = P::WIDTH;
    let packs = values.len() / width;
    if packs == 0 {
        return;
    }
    let mut factors = first_factors::<F, P>(&mut values[..width], first, base);
    let step = base.exp_u64(width as u64);
    for i in 0..packs {
        let start = i * width;
        scale_pack::<F, P>(&mut values[start..start + width], factors, products);
        factors = factors.scaled(step, &mut Products::new());
    }
}

// The first factors as a pack. They are made where a pack of entries lies, which is put back.
fn first_factors<F: TwoAdicField, P: PackedField<Scalar = F>>(
    part: &mut [F],
    first: F,
    base: F,
) -> P
    requires { length part.old ≡ P.WIDTH }
    ensures part { map F.value part.new ≡ map F.value part.old }
    ensures factors { (l : ℕ) → l < P.WIDTH → F.value (get_or (P.lanes result) l F.zero)
        ≡ F.ring.mul (F.value first) (power F.ring (F.value base) l) }
{
    let entries = P::load(part);
    base.shifted_powers(first).fill(part);
    let factors = P::load(part);
    entries.store(part);
    factors
}

// Multiplies each entry of a pack by the factor in its place.
fn scale_pack<F: TwoAdicField, P: PackedField<Scalar = F>>(
    part: &mut [F],
    factors: P,
    products: &mut Products,
)
    requires { length part.old ≡ P.WIDTH }
    ensures part { map F.value part.new
        ≡ by_lanes F.ring.mul (map F.value part.old) (map F.value (P.lanes factors)) }
    ensures count { products.new ≡ products.old + P.WIDTH }
{
    P::load(part).multiplied(factors, products).store(part);
}

/// Writes row i of `rows` times the i-th power of `shift` to row i of `values`, with one product an entry,
/// where the shift is one too. Both are `height` rows of `width` entries.
pub fn copy_shifted<F: TwoAdicField>(
    rows: &[F],
    values: &mut [F],
    width: usize,
    height: usize,
    shift: F,
    products: &mut Products,
)
    requires source { length rows.now ≡ height * width }
    requires size { length values.old ≡ height * width }
    ensures values { (i j : ℕ) → i < height → j < width → F.value (get_or values.new (i * width + j) F.zero)
        ≡ F.ring.mul (F.value (get_or rows.now (i * width + j) F.zero)) (power F.ring (F.value shift) i) }
    ensures count { products.new ≡ products.old + height * width }
{
    if width == 1 {
        values.copy_from_slice(rows);
        scale_by_powers(values, F::ONE, shift, products);
        return;
    }
    let mut factor = F::ONE;
    for i in 0..height {
        let start = i * width;
        let row = &mut values[start..start + width];
        row.copy_from_slice(&rows[start..start + width]);
        scale_slice_in_place(row, factor, products);
        factor = factor * shift;
    }
}
