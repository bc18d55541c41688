//! Bit reversed order: element i goes where the binary digits of i, read backwards, name a place.

ghost use Rattle.std.specs.Prelude.{◌≡◌, ◌+◌, ◌*◌, ◌/◌, ◌^◌, ◌<◌, ◌≤◌, ◌⊎◌, ℕ, length, get_or};
ghost use Rattle.p3_matrix.specs.RowMajor.{HasShapeOf, IsRowMajor, height, row};
ghost use Rattle.p3_matrix.specs.Matrix.{matrix, Same};
ghost use Rattle.p3_matrix.specs.BitOrder.{rev, bit_reversal, reversed_rows};

use crate::dense::RowMajorMatrix;
use crate::util::{exchange, log2_strict_usize};
use crate::views::RowMajorMatrixViewMut;
use std::marker::Model;

/// What has rows: contracts see how many.
pub trait Rows {
    // How many rows there are.
    ghost rows: { Self → ℕ };
}

impl<T> Rows for RowMajorMatrix<T> {
    ghost use Rattle.p3_matrix.specs.RowMajor.{height};

    ghost rows = { height };
}

/// A matrix of `2^bits` rows that is seen in bit reversed order: row i is the physical row whose
/// number has the `bits` binary digits of i in reverse.
///
/// Contracts see the physical matrix and the logarithm of its height.
#[derive(Debug, Drop)]
pub struct BitReversedMatrixView<M: Rows> {
    inner: M,
    bits: usize,
}

impl<M: Rows> Model for BitReversedMatrixView<M> {
    ghost use Rattle.std.specs.Prelude.{◌≡◌, ◌^◌};
    ghost use Rattle.p3_matrix.specs.BitOrder.{BitReversed};

    ghost Value = { BitReversed M };

    ghost view = { λ v. record { bits = v.bits; physical = v.inner } };

    ghost invariant = { λ v. M.rows v.inner ≡ 2 ^ v.bits };
}

impl<M: Rows + PartialEq> PartialEq for BitReversedMatrixView<M> {
    ghost use Rattle.std.specs.Prelude.{◌==◌};
    ghost use Rattle.std.specs.Cmp.{on_per, and_per};
    ghost use Rattle.std.specs.Ordering.{on, eq_of_both};
    ghost use Rattle.std.specs.Cmp.Rules.{comparing};
    ghost use Rattle.std.proofs.Common.{rules};

    ghost eq = { eq_of_both (on (λ v. v.bits) ◌==◌) (on (λ v. v.physical) M.eq) };

    ghost laws = { and_per (on_per (λ v. v.bits) (Prim.search (comparing, rules))) (on_per (λ v. v.physical) M.laws) };

    fn eq(&self, other: &Self) -> bool {
        self.bits == other.bits && self.inner == other.inner
    }
}

impl<M: Rows + Eq> Eq for BitReversedMatrixView<M> {
    ghost use Rattle.std.specs.Cmp.{on_equiv, and_equiv};
    ghost use Rattle.std.specs.Cmp.Rules.{comparing};
    ghost use Rattle.std.proofs.Common.{rules};

    ghost laws = { and_equiv (on_equiv (λ v. v.bits) (Prim.search (comparing, rules)))
        (on_equiv (λ v. v.physical) M.Eq.laws) };
}

impl<T> BitReversedMatrixView<RowMajorMatrix<T>> {
    /// How many entries a row has: at least one.
    pub fn width(&self) -> usize
        ensures width { result ≡ self.now.physical.width }
        ensures whole { IsRowMajor self.now.physical }
    {
        self.inner.width()
    }

    /// How many rows there are: a power of two.
    pub fn height(&self) -> usize
        ensures height { result ≡ height self.now.physical }
        ensures power { result ≡ 2 ^ self.now.bits }
        ensures whole { IsRowMajor self.now.physical }
    {
        self.inner.height()
    }

    /// The entries of row i in natural order, which is below the height: the physical row whose number
    /// has the digits of i in reverse.
    pub fn row(&self, i: usize) -> &[T]
        requires { i < height self.now.physical }
        ensures row { result.now ≡ row (reversed_rows self.now.bits self.now.physical) i }
        ensures width { length result.now ≡ self.now.physical.width }
    {
        // Tells the prover that the rows are whole.
        let _whole = self.inner.values();
        self.inner.row(reverse_bits_len(i, self.bits))
    }

    /// The physical matrix, whose height is a power of two.
    pub fn inner(&self) -> &RowMajorMatrix<T>
        ensures matrix { result.now ≡ self.now.physical }
        ensures height { height self.now.physical ≡ 2 ^ self.now.bits }
        ensures whole { IsRowMajor self.now.physical }
    {
        // Tells the prover that the rows are whole.
        let _whole = self.inner.width();
        &self.inner
    }

    /// The physical matrix. Nothing is moved.
    pub fn bit_reverse_rows(self) -> RowMajorMatrix<T>
        ensures matrix { result ≡ self.physical }
        ensures height { height result ≡ 2 ^ self.bits }
    {
        let BitReversedMatrixView { inner, bits: _ } = self;
        inner
    }
}

impl<T> RowMajorMatrix<T> {
    /// The matrix seen in bit reversed order: its row i is the view's row whose number has the digits
    /// of i in reverse. Nothing is moved. The height is a power of two.
    pub fn bit_reverse_rows(self) -> BitReversedMatrixView<RowMajorMatrix<T>>
        requires { (k : ℕ) × (height self ≡ 2 ^ k) }
        ensures matrix { result.physical ≡ self }
        ensures height { height self ≡ 2 ^ result.bits }
    {
        let bits = log2_strict_usize(self.height());
        BitReversedMatrixView { inner: self, bits }
    }
}

/// The number whose `bits` binary digits, at most 63, are the last `bits` of those of x, in reverse.
pub fn reverse_bits_len(x: usize, bits: usize) -> usize
    requires { bits ≤ 63 }
    ensures { result ≡ rev bits x }
{
    let mut left = x;
    let mut reverse = 0;
    for _digit in 0..bits {
        reverse = 2 * reverse + left % 2;
        left /= 2;
    }
    reverse
}

/// Puts a slice into bit reversed order, in place: element i becomes what element `rev i` was. Its
/// length is a power of two, or zero.
pub fn reverse_slice_index_bits<T>(values: &mut [T])
    requires { ((n : ℕ) × length values.old ≡ 2 ^ n) ⊎ (length values.old ≡ 0) }
    ensures { (n : ℕ) → length values.old ≡ 2 ^ n
        → (d : T) (i : ℕ) → i < 2 ^ n → get_or values.new i d ≡ get_or values.old (rev n i) d }
{
    let size = values.len();
    if size > 0 {
        reverse_chunks(values, 1, log2_strict_usize(size));
    }
}

/// Puts the rows of a matrix into bit reversed order, in place: row i becomes what row `rev i` was.
/// The height is a power of two, or zero.
pub fn reverse_matrix_index_bits<T>(view: &mut RowMajorMatrixViewMut<'_, T>)
    requires { ((n : ℕ) × height view.old.matrix.now ≡ 2 ^ n) ⊎ (height view.old.matrix.now ≡ 0) }
    ensures same_reference { view.new.matrix.ghost_name ≡ view.old.matrix.ghost_name }
    ensures shape { HasShapeOf view.new.matrix.now view.old.matrix.now }
    ensures size { length view.new.matrix.now.values ≡ length view.old.matrix.now.values }
    ensures rows { (n : ℕ) → height view.old.matrix.now ≡ 2 ^ n
        → (d : T) → Same (matrix d view.new.matrix.now) (bit_reversal n (matrix d view.old.matrix.now)) }
{
    let width = view.width();
    let height = view.height();
    if height > 0 {
        reverse_chunks(view.values_mut(), width, log2_strict_usize(height));
    }
}

/// `reverse_matrix_index_bits` of a matrix itself. The height is a power of two.
pub fn reverse_rows<T>(mat: &mut RowMajorMatrix<T>)
    requires power { (k : ℕ) × (height mat.old ≡ 2 ^ k) }
    ensures shape { HasShapeOf mat.new mat.old }
    ensures size { length mat.new.values ≡ length mat.old.values }
    ensures rows { (k : ℕ) → height mat.old ≡ 2 ^ k
        → (d : T) → Same (matrix d mat.new) (bit_reversal k (matrix d mat.old)) }
    ensures reversed { (k : ℕ) → height mat.old ≡ 2 ^ k → mat.new ≡ reversed_rows k mat.old }
    ensures back { (k : ℕ) → height mat.old ≡ 2 ^ k → mat.old ≡ reversed_rows k mat.new }
{
    // Tells the prover that the rows are whole.
    let _whole = mat.width();
    reverse_matrix_index_bits(&mut mat.as_view_mut());
}

/// Puts `2^bits` chunks of `width` entries, which lie one after another in a slice, into bit reversed order,
/// in place: chunk i becomes what chunk `rev i` was. `bits` is at most 63.
pub fn reverse_chunks<T>(values: &mut [T], width: usize, bits: usize)
    requires bits { bits ≤ 63 }
    requires size { length values.old ≡ 2 ^ bits * width }
    ensures { (d : T) (i j : ℕ) → i < 2 ^ bits → j < width
        → get_or values.new (i * width + j) d ≡ get_or values.old (rev bits i * width + j) d }
{
    // Where the numbers of outer digits and of entries are named, the loops of a tile are unrolled.
    if bits < 4 {
        reverse_by_tiles(values, width, bits, 0);
    } else if width == 1 {
        reverse_by_tiles(values, 1, bits, 2);
    } else {
        reverse_by_tiles(values, width, bits, 2);
    }
}

// The digits of a chunk's number are `outer` first ones, those of its tile and `outer` last ones. The chunks
// of a tile change places with those of its mirror when the first of the two tiles is reached: so one
// carry and one test serve them all, and chunks that lie side by side are moved together.
#[inline(always)]
fn reverse_by_tiles<T>(values: &mut [T], width: usize, bits: usize, outer: usize)
    requires bits { bits ≤ 63 }
    requires outer { 2 * outer ≤ bits }
    requires size { length values.old ≡ 2 ^ bits * width }
    ensures { (d : T) (i j : ℕ) → i < 2 ^ bits → j < width
        → get_or values.new (i * width + j) d ≡ get_or values.old (rev bits i * width + j) d }
{
    let inner = bits - 2 * outer;
    let tiles = 1usize << inner;
    let side = 1usize << outer;
    let mut mirror = 0;
    for tile in 0..tiles {
        if tile <= mirror {
            for first in 0..side {
                let far_last = reverse_bits_len(first, outer);
                for last in 0..side {
                    let far_first = reverse_bits_len(last, outer);
                    if tile < mirror || first < far_first {
                        let near = chunk_number(first, tile, last, tiles, side);
                        let far = chunk_number(far_first, mirror, far_last, tiles, side);
                        exchange(values, near * width, far * width, width);
                    }
                }
            }
        }
        mirror = next_reversed(mirror, inner);
    }
}

// The number of a chunk: its first digits, its tile and its last digits, one after the other.
#[inline(always)]
fn chunk_number(first: usize, tile: usize, last: usize, tiles: usize, side: usize) -> usize
    requires first { first < side }
    requires tile { tile < tiles }
    requires last { last < side }
    requires fits_u64 { side * tiles * side < 2 ^ 64 }
    ensures { result ≡ (first * tiles + tile) * side + last }
{
    (first * tiles + tile) * side + last
}

// From the reverse of i that of i + 1: the carry runs from the highest digit down.
fn next_reversed(reverse: usize, bits: usize) -> usize
    requires bits { bits ≤ 63 }
    requires below { reverse < 2 ^ bits }
    ensures next { (i : ℕ) → i + 1 < 2 ^ bits → reverse ≡ rev bits i → result ≡ rev bits (i + 1) }
    ensures below { result < 2 ^ bits }
{
    let mut rest = reverse;
    let mut digit = (1usize << bits) / 2;
    while digit > 0 && rest >= digit {
        rest -= digit;
        digit /= 2;
    }
    rest + digit
}
