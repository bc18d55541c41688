//! Folding, as a low degree test does it: of the values of polynomials on a coset, and a challenge, the values of
//! polynomials of half as many coefficients on the coset of the squared shift, for every field.
//!
//! Proved: coefficient j of a folded polynomial is `c_(2j) + beta * c_(2j+1)`, in every column, with rows in natural
//! or in bit reversed order; a bound on the number of coefficients becomes half of it, rounded up; and back, two
//! foldings with challenges whose difference has an inverse determine the values, and have low degree only where these
//! have.

ghost use Rattle.std.specs.Prelude.{◌≡◌, ◌↔◌, ℕ, suc, ◌+◌, ◌*◌, ◌/◌, ◌^◌, ◌<◌, ◌≤◌, IfErr, IfOk, IsTrue};
ghost use Rattle.std.specs.Prelude.{get_or, length, vec_len, vec_capacity};
ghost use Rattle.std.specs.Mem.{type_size};
ghost use Rattle.p3_field.specs.Ring.{IsInvertible, minus, two};
ghost use Rattle.p3_matrix.specs.Cosets.{point, values_of};
ghost use Rattle.p3_matrix.specs.Matrix.{Matrix, Same};
ghost use Rattle.p3_matrix.specs.Room.{IsWithin, WasOutOfMemory};
ghost use Rattle.p3_matrix.specs.RowMajor.{height};
ghost use Rattle.p3_dft.specs.Codes.{HasDegreeBelow};
ghost use Rattle.p3_dft.specs.Extensions.{arrangement};
ghost use Rattle.p3_dft.specs.Shapes.{FitsDft};
ghost use Rattle.examples.specs.Foldings.{AreFoldedRows, IsFoldedPair, IsFolding, far_row, near_row, pair_point};

use p3_dft::{
    DftError, Field, Layout, RowMajorMatrix, TwoAdicField, growth, invertible_root, log_height,
    reverse_slice_index_bits,
};
use std::alloc::Global;

// What a pair is folded to, of the values at x and at -x, where `factor` is the challenge over twice x.
fn folded_pair<F: Field>(near: F, far: F, factor: F) -> F
    ensures { (beta x : F.Element) → F.ring.mul (two F.ring) (F.ring.mul x (F.value factor)) ≡ beta
        → IsFoldedPair F.ring beta x (F.value near) (F.value far) (F.value result) }
{
    (near + far).halve() + factor * (near - far)
}

// Adds at the end what two rows are folded to.
fn push_folded_row<F: Field>(folded: &mut Vec<F>, near: &[F], far: &[F], factor: F)
    requires rows { length far.now ≡ length near.now }
    requires room { vec_len folded.old + length near.now ≤ vec_capacity folded.old }
    ensures room { vec_capacity folded.new ≡ vec_capacity folded.old }
    ensures long { vec_len folded.new ≡ vec_len folded.old + length near.now }
    ensures before { (i : ℕ) → i < vec_len folded.old
        → get_or folded.new.items i F.zero ≡ get_or folded.old.items i F.zero }
    ensures row { (beta x : F.Element) → F.ring.mul (two F.ring) (F.ring.mul x (F.value factor)) ≡ beta
        → (j : ℕ) → j < length near.now → IsFoldedPair F.ring beta x (F.value (get_or near.now j F.zero))
        (F.value (get_or far.now j F.zero)) (F.value (get_or folded.new.items (vec_len folded.old + j) F.zero)) }
{
    for j in 0..near.len() {
        folded.push_reserved(folded_pair(near[j], far[j], factor));
    }
}

// The challenge over twice the point of each pair of rows, as the rows lie, on a coset of order `2^(log_half + 1)`.
fn factors<F: TwoAdicField>(
    alloc: Global,
    shift: F,
    beta: F,
    log_half: usize,
    half: usize,
    layout: Layout,
) -> Result<Vec<F>, DftError>
    requires within { log_half < F.TWO_ADICITY }
    requires half { half ≡ 2 ^ log_half }
    requires invertible { IsInvertible F.ring (F.value shift) }
    ensures long { IfOk result (λ v. vec_len v ≡ 2 ^ log_half) }
    ensures factors { IfOk result (λ v. (i : ℕ) → i < 2 ^ log_half → F.ring.mul (two F.ring)
        (F.ring.mul (point F.ring (λ n. F.value (F.generator n)) (suc log_half) (F.value shift)
        (pair_point layout log_half i)) (F.value (get_or v.items i F.zero))) ≡ F.value beta) }
    ensures refused { IfErr result (IsWithin (type_size F.row) half) }
{
    let root = invertible_root::<F>(log_half + 1).inverse();
    let first = beta.halve() * shift.inverse();
    let mut factors = root.shifted_powers(first).collect_n(alloc, half)?;
    match layout {
        Layout::Natural => {}
        Layout::BitReversed => reverse_slice_index_bits(&mut factors),
    }
    Ok(factors)
}

// The rows of pair i, of `half` pairs, as the rows lie.
fn pair_rows(layout: Layout, half: usize, i: usize) -> (usize, usize)
    requires inside { i < half }
    requires fits_u64 { 2 * half < 2 ^ 64 }
    ensures near { (k : ℕ) → half ≡ 2 ^ k → result.0 ≡ near_row layout k i }
    ensures far { (k : ℕ) → half ≡ 2 ^ k → result.1 ≡ far_row layout k i }
    ensures within { (result.0 < 2 * half) × (result.1 < 2 * half) }
{
    match layout {
        Layout::Natural => (i, half + i),
        Layout::BitReversed => (2 * i, 2 * i + 1),
    }
}

// Each pair of rows folded with its factor.
fn fold_rows<F: Field>(
    values: &RowMajorMatrix<F>,
    layout: Layout,
    half: usize,
    factors: &[F],
) -> Result<RowMajorMatrix<F>, DftError>
    requires pairs { height values.now ≡ 2 * half }
    requires size { height values.now * values.now.width < 2 ^ 64 }
    requires factors { length factors.now ≡ half }
    ensures folded { IfOk result (λ out. (height out ≡ half) × (out.width ≡ values.now.width)
        × ((k : ℕ) (beta : F.Element) → half ≡ 2 ^ k → (x : ℕ → F.Element)
        → ((i : ℕ) → i < half
        → F.ring.mul (two F.ring) (F.ring.mul (x i) (F.value (get_or factors.now i F.zero))) ≡ beta)
        → (i j : ℕ) → i < half → j < values.now.width → IsFoldedPair F.ring beta (x i)
        ((values_of F.Valued.own values.now).entry (near_row layout k i) j)
        ((values_of F.Valued.own values.now).entry (far_row layout k i) j)
        ((values_of F.Valued.own out).entry i j))) }
    ensures refused { IfErr result (IsWithin (type_size F.row) (half * values.now.width)) }
{
    let width = values.width();
    let mut folded = growth::with_capacity(*values.allocator(), half * width)?;
    for i in 0..half {
        let (near, far) = pair_rows(layout, half, i);
        push_folded_row(&mut folded, values.row(near), values.row(far), factors[i]);
    }
    Ok(RowMajorMatrix::new(folded, width))
}

/// The values of the folded polynomials, one in each column, on the coset of the squared shift; the rows lie in the
/// layout of those handed over, which are two or more. Whatever polynomials have the values that are handed over, the
/// result has those of the folded ones. An error is out of memory.
pub fn fold<F: TwoAdicField>(
    values: &RowMajorMatrix<F>,
    layout: Layout,
    shift: F,
    beta: F,
) -> Result<RowMajorMatrix<F>, DftError>
    requires fits { FitsDft F.TWO_ADICITY (height values.now) values.now.width }
    requires pairs { 2 ≤ height values.now }
    requires invertible { IsInvertible F.ring (F.value shift) }
    ensures shape { IfOk result (λ out. (2 * height out ≡ height values.now) × (out.width ≡ values.now.width)) }
    ensures folded { IfOk result (λ out. (k : ℕ) → height values.now ≡ 2 ^ suc k
        → IsFolding F.ring (λ n. F.value (F.generator n)) (F.value beta) k (F.value shift)
        (arrangement layout (suc k) (values_of F.Valued.own values.now))
        (arrangement layout k (values_of F.Valued.own out))
        × AreFoldedRows F.ring (λ n. F.value (F.generator n)) (F.value beta) k (F.value shift)
        (arrangement layout (suc k) (values_of F.Valued.own values.now))
        (arrangement layout k (values_of F.Valued.own out))) }
    ensures degree { IfOk result (λ out. (k h : ℕ) → height values.now ≡ 2 ^ suc k
        → HasDegreeBelow F.Valued.own F.generator h (suc k) (F.value shift)
        (arrangement layout (suc k) (values_of F.Valued.own values.now))
        → HasDegreeBelow F.Valued.own F.generator ((h + 1) / 2) k (F.ring.mul (F.value shift) (F.value shift))
        (arrangement layout k (values_of F.Valued.own out))) }
    ensures refused { IfErr result WasOutOfMemory }
{
    let log_half = log_height(values) - 1;
    let half = values.height() / 2;
    let factors = factors(*values.allocator(), shift, beta, log_half, half, layout)?;
    fold_rows(values, layout, half, &factors)
}

/// Whether the difference of two challenges has an inverse, which `fold_twice` asks.
pub fn are_apart<F: Field>(beta: F, gamma: F) -> bool
    ensures { IsTrue result ↔ IsInvertible F.ring (minus F.ring (F.value beta) (F.value gamma)) }
{
    (beta - gamma).try_inverse().is_some()
}

/// The foldings with two challenges, whose difference has an inverse: they determine the values, and where both have
/// few coefficients, the values have at most twice as many.
pub fn fold_twice<F: TwoAdicField>(
    values: &RowMajorMatrix<F>,
    layout: Layout,
    shift: F,
    beta: F,
    gamma: F,
) -> Result<(RowMajorMatrix<F>, RowMajorMatrix<F>), DftError>
    requires fits { FitsDft F.TWO_ADICITY (height values.now) values.now.width }
    requires pairs { 2 ≤ height values.now }
    requires invertible { IsInvertible F.ring (F.value shift) }
    requires apart { IsInvertible F.ring (minus F.ring (F.value beta) (F.value gamma)) }
    ensures rows { IfOk result (λ out. (k : ℕ) → height values.now ≡ 2 ^ suc k
        → AreFoldedRows F.ring (λ n. F.value (F.generator n)) (F.value beta) k (F.value shift)
        (arrangement layout (suc k) (values_of F.Valued.own values.now))
        (arrangement layout k (values_of F.Valued.own out.0))
        × AreFoldedRows F.ring (λ n. F.value (F.generator n)) (F.value gamma) k (F.value shift)
        (arrangement layout (suc k) (values_of F.Valued.own values.now))
        (arrangement layout k (values_of F.Valued.own out.1))) }
    ensures determined { IfOk result (λ out. (k : ℕ) (other : Matrix F.Element) → height values.now ≡ 2 ^ suc k
        → AreFoldedRows F.ring (λ n. F.value (F.generator n)) (F.value beta) k (F.value shift) other
        (arrangement layout k (values_of F.Valued.own out.0))
        → AreFoldedRows F.ring (λ n. F.value (F.generator n)) (F.value gamma) k (F.value shift) other
        (arrangement layout k (values_of F.Valued.own out.1))
        → Same (arrangement layout (suc k) (values_of F.Valued.own values.now)) other) }
    ensures degree { IfOk result (λ out. (k h : ℕ) → height values.now ≡ 2 ^ suc k
        → HasDegreeBelow F.Valued.own F.generator h k (F.ring.mul (F.value shift) (F.value shift))
        (arrangement layout k (values_of F.Valued.own out.0))
        → HasDegreeBelow F.Valued.own F.generator h k (F.ring.mul (F.value shift) (F.value shift))
        (arrangement layout k (values_of F.Valued.own out.1))
        → HasDegreeBelow F.Valued.own F.generator (2 * h) (suc k) (F.value shift)
        (arrangement layout (suc k) (values_of F.Valued.own values.now))) }
    ensures refused { IfErr result WasOutOfMemory }
{
    let first = fold(values, layout, shift, beta)?;
    let second = fold(values, layout, shift, gamma)?;
    Ok((first, second))
}

// `folds_to` of one column.
fn is_folded_pair<F: Field>(x: F, beta: F, near: F, far: F, folded: F) -> bool
    ensures { IsTrue result ↔ IsFoldedPair F.ring (F.value beta) (F.value x) (F.value near) (F.value far)
        (F.value folded) }
{
    (x * folded).double() == x * (near + far) + beta * (near - far)
}

/// Whether the rows that a prover opens at x and at minus x fold to the one that it opens at the square of x, as a
/// verifier tests a query. It divides by nothing, so x may be any element; at zero equal rows fold to every row.
pub fn folds_to<F: Field>(x: F, beta: F, near: &[F], far: &[F], folded: &[F]) -> bool
    requires far { length far.now ≡ length near.now }
    requires folded { length folded.now ≡ length near.now }
    ensures { IsTrue result ↔ ((j : ℕ) → j < length near.now → IsFoldedPair F.ring (F.value beta) (F.value x)
        (F.value (get_or near.now j F.zero)) (F.value (get_or far.now j F.zero))
        (F.value (get_or folded.now j F.zero))) }
{
    for j in 0..near.len() {
        if !is_folded_pair(x, beta, near[j], far[j], folded[j]) {
            return false;
        }
    }
    true
}
