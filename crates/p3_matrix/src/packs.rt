//! Rows that are taken pack by pack: a packed value from each of `WIDTH` places. `Butterfly` has the row
//! forms, which take a field's own packs and then single elements; here packs have any width.

ghost use Rattle.std.specs.Prelude.{◌≡◌, ◌+◌, ◌*◌, ◌<◌, ◌≤◌, ℕ, length, map};
ghost use Rattle.p3_field.specs.Ring.{Ring, minus};
ghost use Rattle.p3_field.specs.Lanes.{by_lanes};

use crate::butterflies::Butterfly;
use p3_field::{Packable, PackedField, Products, scaled};

/// How many of `size` places full packs of `width`, which is at least one, take up.
pub fn full_packs(size: usize, width: usize) -> usize
    requires { 1 ≤ width }
    ensures within { result ≤ size }
    ensures whole { (k : ℕ) × result ≡ k * width }
    ensures most { size < result + width }
{
    size - size % width
}

// Takes two rows of one length to the near and the far row: full packs of the field's own packing, then
// single elements.
#[inline(always)]
pub(crate) fn apply_by_packs<F: Packable, B: Butterfly<F>>(
    butterfly: &B,
    row_1: &mut [F],
    row_2: &mut [F],
    products: &mut Products,
)
    requires { length row_1.old ≡ length row_2.old }
    ensures near { map F.value row_1.new
        ≡ by_lanes (B.near F.Element F.ring F.value butterfly.now) (map F.value row_1.old) (map F.value row_2.old) }
    ensures far { map F.value row_2.new
        ≡ by_lanes (B.far F.Element F.ring F.value butterfly.now) (map F.value row_1.old) (map F.value row_2.old) }
    ensures count { products.new ≡ products.old + B.cost * length row_1.old }
{
    let full = full_packs(row_1.len(), F::Packing::WIDTH);
    let (packed_1, rest_1) = row_1.split_at_mut(full);
    let (packed_2, rest_2) = row_2.split_at_mut(full);
    apply_to_packs::<F, F::Packing, B>(butterfly, packed_1, packed_2, products);
    apply_to_elements(butterfly, rest_1, rest_2, products);
}

// `apply_by_packs` as a function of its own, unless the compiler inlines it: where packs are loaded at once, one call
// for two rows is faster than its loops in every layer.
pub(crate) fn apply_by_packs_apart<F: Packable, B: Butterfly<F>>(
    butterfly: &B,
    row_1: &mut [F],
    row_2: &mut [F],
    products: &mut Products,
)
    requires { length row_1.old ≡ length row_2.old }
    ensures near { map F.value row_1.new
        ≡ by_lanes (B.near F.Element F.ring F.value butterfly.now) (map F.value row_1.old) (map F.value row_2.old) }
    ensures far { map F.value row_2.new
        ≡ by_lanes (B.far F.Element F.ring F.value butterfly.now) (map F.value row_1.old) (map F.value row_2.old) }
    ensures count { products.new ≡ products.old + B.cost * length row_1.old }
{
    apply_by_packs(butterfly, row_1, row_2, products);
}

/// Takes two rows of full packs to the near and the far row. The rows have one length, a multiple of the
/// packs' width, which is at least one.
#[inline(always)]
pub fn apply_to_packs<F: Packable, P: PackedField<Scalar = F>, B: Butterfly<F>>(
    butterfly: &B,
    row_1: &mut [F],
    row_2: &mut [F],
    products: &mut Products,
)
    requires width { 1 ≤ P.WIDTH }
    requires whole { (k : ℕ) × length row_1.old ≡ k * P.WIDTH }
    requires equal { length row_1.old ≡ length row_2.old }
    ensures near { map F.value row_1.new
        ≡ by_lanes (B.near F.Element F.ring F.value butterfly.now) (map F.value row_1.old) (map F.value row_2.old) }
    ensures far { map F.value row_2.new
        ≡ by_lanes (B.far F.Element F.ring F.value butterfly.now) (map F.value row_1.old) (map F.value row_2.old) }
    ensures count { products.new ≡ products.old + B.cost * length row_1.old }
{
    let width = P::WIDTH;
    let mut at = 0;
    while at < row_1.len() {
        apply_to_pack::<F, P, B>(
            butterfly,
            &mut row_1[at..at + width],
            &mut row_2[at..at + width],
            products,
        );
        at += width;
    }
}

// Takes one pack of each row.
#[inline(always)]
fn apply_to_pack<F: Packable, P: PackedField<Scalar = F>, B: Butterfly<F>>(
    butterfly: &B,
    part_1: &mut [F],
    part_2: &mut [F],
    products: &mut Products,
)
    requires first { length part_1.old ≡ P.WIDTH }
    requires second { length part_2.old ≡ P.WIDTH }
    ensures near { map F.value part_1.new
        ≡ by_lanes (B.near F.Element F.ring F.value butterfly.now) (map F.value part_1.old) (map F.value part_2.old) }
    ensures far { map F.value part_2.new
        ≡ by_lanes (B.far F.Element F.ring F.value butterfly.now) (map F.value part_1.old) (map F.value part_2.old) }
    ensures count { products.new ≡ products.old + B.cost * P.WIDTH }
{
    if F::ONE_BY_ONE {
        apply_to_elements(butterfly, part_1, part_2, products);
    } else {
        let (near, far) = butterfly.apply(P::load(part_1), P::load(part_2), products);
        near.store(part_1);
        far.store(part_2);
    }
}

/// Takes two rows of one length, which may be zero, to the near and the far row, element by element.
#[inline(always)]
pub fn apply_to_elements<F: Packable, B: Butterfly<F>>(
    butterfly: &B,
    row_1: &mut [F],
    row_2: &mut [F],
    products: &mut Products,
)
    requires { length row_1.old ≡ length row_2.old }
    ensures near { map F.value row_1.new
        ≡ by_lanes (B.near F.Element F.ring F.value butterfly.now) (map F.value row_1.old) (map F.value row_2.old) }
    ensures far { map F.value row_2.new
        ≡ by_lanes (B.far F.Element F.ring F.value butterfly.now) (map F.value row_1.old) (map F.value row_2.old) }
    ensures count { products.new ≡ products.old + B.cost * length row_1.old }
{
    for i in 0..row_1.len() {
        let (near, far) = butterfly.apply::<F>(row_1[i], row_2[i], products);
        row_1[i] = near;
        row_2[i] = far;
    }
}

// Takes two rows of full packs to the near and the far row in two others.
pub(crate) fn apply_to_packs_oop<F: Packable, P: PackedField<Scalar = F>, B: Butterfly<F>>(
    butterfly: &B,
    src_1: &[F],
    dst_1: &mut [F],
    src_2: &[F],
    dst_2: &mut [F],
    products: &mut Products,
)
    requires width { 1 ≤ P.WIDTH }
    requires whole { (k : ℕ) × length src_1.now ≡ k * P.WIDTH }
    requires sources { length src_1.now ≡ length src_2.now }
    requires first { length src_1.now ≡ length dst_1.old }
    requires second { length src_1.now ≡ length dst_2.old }
    ensures near { map F.value dst_1.new
        ≡ by_lanes (B.near F.Element F.ring F.value butterfly.now) (map F.value src_1.now) (map F.value src_2.now) }
    ensures far { map F.value dst_2.new
        ≡ by_lanes (B.far F.Element F.ring F.value butterfly.now) (map F.value src_1.now) (map F.value src_2.now) }
    ensures count { products.new ≡ products.old + B.cost * length src_1.now }
{
    let width = P::WIDTH;
    let mut at = 0;
    while at < src_1.len() {
        let part_1 = &src_1[at..at + width];
        let part_2 = &src_2[at..at + width];
        let (near, far) = butterfly.apply(P::load(part_1), P::load(part_2), products);
        near.store(&mut dst_1[at..at + width]);
        far.store(&mut dst_2[at..at + width]);
        at += width;
    }
}

// Decimation in time on two rows of full packs, where each pair has a twiddle of its own.
pub(crate) fn dit_on_packs<F: Packable, P: PackedField<Scalar = F>>(
    twiddles: &[F],
    row_1: &mut [F],
    row_2: &mut [F],
    products: &mut Products,
)
    requires width { 1 ≤ P.WIDTH }
    requires whole { (k : ℕ) × length row_1.old ≡ k * P.WIDTH }
    requires equal { length row_1.old ≡ length row_2.old }
    requires twiddles { length row_1.old ≡ length twiddles.now }
    ensures near { map F.value row_1.new ≡ by_lanes F.ring.add (map F.value row_1.old)
        (by_lanes F.ring.mul (map F.value row_2.old) (map F.value twiddles.now)) }
    ensures far { map F.value row_2.new ≡ by_lanes (minus F.ring) (map F.value row_1.old)
        (by_lanes F.ring.mul (map F.value row_2.old) (map F.value twiddles.now)) }
    ensures count { products.new ≡ products.old + length row_1.old }
{
    let width = P::WIDTH;
    let mut at = 0;
    while at < row_1.len() {
        dit_on_pack::<F, P>(
            &twiddles[at..at + width],
            &mut row_1[at..at + width],
            &mut row_2[at..at + width],
            products,
        );
        at += width;
    }
}

// One pack of each row.
#[inline(always)]
fn dit_on_pack<F: Packable, P: PackedField<Scalar = F>>(
    twiddles: &[F],
    part_1: &mut [F],
    part_2: &mut [F],
    products: &mut Products,
)
    requires twiddles { length twiddles.now ≡ P.WIDTH }
    requires first { length part_1.old ≡ P.WIDTH }
    requires second { length part_2.old ≡ P.WIDTH }
    ensures near { map F.value part_1.new ≡ by_lanes F.ring.add (map F.value part_1.old)
        (by_lanes F.ring.mul (map F.value part_2.old) (map F.value twiddles.now)) }
    ensures far { map F.value part_2.new ≡ by_lanes (minus F.ring) (map F.value part_1.old)
        (by_lanes F.ring.mul (map F.value part_2.old) (map F.value twiddles.now)) }
    ensures count { products.new ≡ products.old + P.WIDTH }
{
    if F::ONE_BY_ONE {
        dit_on_elements(twiddles, part_1, part_2, products);
    } else {
        let x = P::load(part_1);
        let multiples = P::load(part_2).multiplied(P::load(twiddles), products);
        x.add(multiples).store(part_1);
        x.sub(multiples).store(part_2);
    }
}

// Decimation in time on two rows of one length, element by element, where each pair has a twiddle of its own.
#[inline(always)]
pub(crate) fn dit_on_elements<F: Packable>(
    twiddles: &[F],
    row_1: &mut [F],
    row_2: &mut [F],
    products: &mut Products,
)
    requires rows { length row_1.old ≡ length row_2.old }
    requires twiddles { length row_1.old ≡ length twiddles.now }
    ensures near { map F.value row_1.new ≡ by_lanes F.ring.add (map F.value row_1.old)
        (by_lanes F.ring.mul (map F.value row_2.old) (map F.value twiddles.now)) }
    ensures far { map F.value row_2.new ≡ by_lanes (minus F.ring) (map F.value row_1.old)
        (by_lanes F.ring.mul (map F.value row_2.old) (map F.value twiddles.now)) }
    ensures count { products.new ≡ products.old + length row_1.old }
{
    for i in 0..row_1.len() {
        let x = row_1[i];
        let multiple = scaled(row_2[i], twiddles[i], products);
        row_1[i] = x + multiple;
        row_2[i] = x - multiple;
    }
}

// Multiplies each of full packs of values by t.
pub(crate) fn scale_packs<F: Packable, P: PackedField<Scalar = F>>(
    values: &mut [F],
    t: F,
    products: &mut Products,
)
    requires width { 1 ≤ P.WIDTH }
    requires whole { (k : ℕ) × length values.old ≡ k * P.WIDTH }
    ensures values { map F.value values.new ≡ map (λ x. F.ring.mul x (F.value t)) (map F.value values.old) }
    ensures count { products.new ≡ products.old + length values.old }
{
    let width = P::WIDTH;
    let mut at = 0;
    while at < values.len() {
        scale_pack::<F, P>(&mut values[at..at + width], t, products);
        at += width;
    }
}

// Multiplies one pack of values by t.
fn scale_pack<F: Packable, P: PackedField<Scalar = F>>(
    part: &mut [F],
    t: F,
    products: &mut Products,
)
    requires { length part.old ≡ P.WIDTH }
    ensures values { map F.value part.new ≡ map (λ x. F.ring.mul x (F.value t)) (map F.value part.old) }
    ensures count { products.new ≡ products.old + P.WIDTH }
{
    P::load(part).scaled(t, products).store(part);
}

// Writes full packs of values, each times t, to their places in another slice.
pub(crate) fn scale_packs_oop<F: Packable, P: PackedField<Scalar = F>>(
    from: &[F],
    to: &mut [F],
    t: F,
    products: &mut Products,
)
    requires width { 1 ≤ P.WIDTH }
    requires whole { (k : ℕ) × length from.now ≡ k * P.WIDTH }
    requires equal { length from.now ≡ length to.old }
    ensures values { map F.value to.new ≡ map (λ x. F.ring.mul x (F.value t)) (map F.value from.now) }
    ensures count { products.new ≡ products.old + length from.now }
{
    let width = P::WIDTH;
    let mut at = 0;
    while at < from.len() {
        let part = &from[at..at + width];
        let multiples = P::load(part).scaled(t, products);
        multiples.store(&mut to[at..at + width]);
        at += width;
    }
}
