//! Matrices that are lent, for reading and for writing.

ghost use Rattle.std.specs.Prelude.{◌≡◌, ◌*◌, ◌/◌, ◌<◌, ◌≤◌, length, take, drop};
ghost use Rattle.std.specs.Borrow.{sem};
ghost use Rattle.std.specs.Iterator.Runs.{EveryRun, IsChunksExactRun};
ghost use Rattle.std.specs.Slice.Iter.{chunks_exact_rest, chunks_exact_size, chunks_exact_steps};
ghost use Rattle.p3_matrix.specs.RowMajor.{RowMajor, IsRowMajor, height, row};
ghost use Rattle.p3_matrix.specs.SliceLoans.{LendsParts};

use crate::dense::RowMajorMatrix;
use std::marker::Model;
use std::slice::ChunksExact;

/// Rows of a matrix that are lent for reading: `height` rows of `width` entries, one row after the
/// other. The width is at least one; the height may be zero.
#[derive(Debug, Drop)]
pub struct RowMajorMatrixView<'a, T> {
    values: &'a [T],
    width: usize,
}

impl<'a, T> Model for RowMajorMatrixView<'a, T> {
    ghost use Rattle.p3_matrix.specs.RowMajor.{RowMajor, IsRowMajor};

    ghost Value = { RowMajor T };

    ghost view = { λ m. record { width = m.width; values = m.values.now } };

    ghost invariant = { λ m. IsRowMajor {T = T} (record { width = m.width; values = m.values.now }) };
}

impl<'a, T: PartialEq> PartialEq for RowMajorMatrixView<'a, T> {
    ghost use Rattle.std.specs.Prelude.{◌==◌};
    ghost use Rattle.std.specs.Cmp.{on_per, and_per};
    ghost use Rattle.std.specs.Cmp.Lexicographic.{pointwise, lists_per};
    ghost use Rattle.std.specs.Ordering.{on, eq_of_both};
    ghost use Rattle.std.specs.Cmp.Rules.{comparing};
    ghost use Rattle.std.proofs.Common.{rules};

    ghost eq = { eq_of_both (on (λ m. m.width) ◌==◌) (on (λ m. m.values) (pointwise T.eq)) };

    ghost laws = { and_per (on_per (λ m. m.width) (Prim.search (comparing, rules)))
        (on_per (λ m. m.values) (lists_per T.laws)) };

    fn eq(&self, other: &Self) -> bool {
        other.width == self.width && self.values == other.values
    }
}

impl<'a, T: Eq> Eq for RowMajorMatrixView<'a, T> {
    ghost use Rattle.std.specs.Cmp.{on_equiv, and_equiv};
    ghost use Rattle.std.specs.Cmp.Lexicographic.{lists_equiv};
    ghost use Rattle.std.specs.Cmp.Rules.{comparing};
    ghost use Rattle.std.proofs.Common.{rules};

    ghost laws = { and_equiv (on_equiv (λ m. m.width) (Prim.search (comparing, rules)))
        (on_equiv (λ m. m.values) (lists_equiv T.Eq.laws)) };
}

impl<'a, T> RowMajorMatrixView<'a, T> {
    /// The matrix of these entries, `width` to a row, which is at least one. The entries fill whole rows;
    /// none at all make a matrix of no rows.
    pub fn new(values: &'a [T], width: usize) -> Self
        requires width { 1 ≤ width }
        requires full { (length values.now / width) * width ≡ length values.now }
        ensures { result ≡ record { width = width; values = values.now } }
    {
        RowMajorMatrixView { values, width }
    }

    /// How many entries a row has: at least one.
    pub fn width(&self) -> usize
        ensures width { result ≡ self.now.width }
        ensures whole { IsRowMajor self.now }
    {
        self.width
    }

    /// How many rows there are.
    pub fn height(&self) -> usize
        ensures height { result ≡ height self.now }
        ensures whole { IsRowMajor self.now }
    {
        self.values.len() / self.width
    }

    /// The entries, row after row.
    pub fn values(&self) -> &'a [T]
        ensures values { result.now ≡ self.now.values }
        ensures whole { IsRowMajor self.now }
    {
        self.values
    }

    /// The entries of row i, which is below the height.
    pub fn row(&self, i: usize) -> &'a [T]
        requires { i < height self.now }
        ensures { result.now ≡ row self.now i }
    {
        let start = i * self.width;
        &self.values[start..start + self.width]
    }

    /// The rows, one after another, each as its entries.
    pub fn row_slices(&self) -> ChunksExact<'a, T>
        ensures whole { IsRowMajor self.now }
        ensures rest { chunks_exact_rest result ≡ self.now.values }
        ensures size { chunks_exact_size result ≡ self.now.width }
        ensures count { length (chunks_exact_rest result) / chunks_exact_size result ≡ height self.now }
        ensures runs { EveryRun (chunks_exact_steps {A = T}) (λ p. 0 < chunks_exact_size p.from
            → IsChunksExactRun p (chunks_exact_size p.from) (chunks_exact_rest p.from)) }
    {
        self.values.chunks_exact(self.width)
    }

    /// Lends these rows once more, for as long as they are lent here.
    pub fn as_view(&self) -> RowMajorMatrixView<'a, T>
        ensures { result ≡ self.now }
    {
        RowMajorMatrixView::new(self.values, self.width)
    }
}

/// A matrix that is lent for writing. When the loan ends, the matrix holds what was written.
///
/// Contracts name the matrix as `view.now.matrix.now`, and say of each call that writes that the
/// view still lends the same matrix: so a caller knows all of the matrix afterwards.
#[derive(Drop)]
pub struct RowMajorMatrixViewMut<'a, T> {
    /// The matrix that is lent. Another one may be put into its place, of another shape too.
    pub matrix: &'a mut RowMajorMatrix<T>,
}

impl<'a, T> RowMajorMatrixViewMut<'a, T> {
    ghost use Rattle.p3_matrix.specs.ViewLoans.{LendsViewValues, LendsViewRow};

    /// Lends the matrix.
    pub fn new(matrix: &'a mut RowMajorMatrix<T>) -> Self
        ensures same_reference { result.matrix.ghost_name ≡ matrix.entry.ghost_name }
        ensures matrix { result.matrix.now ≡ matrix.old }
    {
        RowMajorMatrixViewMut { matrix }
    }

    /// How many entries a row has: at least one.
    pub fn width(&self) -> usize
        ensures width { result ≡ self.now.matrix.now.width }
        ensures whole { IsRowMajor self.now.matrix.now }
    {
        self.matrix.width()
    }

    /// How many rows there are.
    pub fn height(&self) -> usize
        ensures height { result ≡ height self.now.matrix.now }
        ensures whole { IsRowMajor self.now.matrix.now }
    {
        self.matrix.height()
    }

    /// The entries, row after row.
    pub fn values(&self) -> &[T]
        ensures values { result.now ≡ self.now.matrix.now.values }
        ensures whole { IsRowMajor self.now.matrix.now }
    {
        self.matrix.values()
    }

    /// The entries of row i, which is below the height.
    pub fn row(&self, i: usize) -> &[T]
        requires { i < height self.now.matrix.now }
        ensures { result.now ≡ row self.now.matrix.now i }
    {
        self.matrix.row(i)
    }

    /// The matrix, lent for reading.
    pub fn as_view(&self) -> RowMajorMatrixView<'_, T>
        ensures { result ≡ self.now.matrix.now }
    {
        self.matrix.as_view()
    }

    /// The entries, row after row, lent for writing.
    pub fn values_mut(&mut self) -> &mut [T]
        ensures* writes_back { sem 𝓛 (LendsViewValues T.row self.entry result) }
        ensures values { result.now ≡ self.old.matrix.now.values }
    {
        self.matrix.values_mut()
    }

    /// The entries of row i, which is below the height, lent for writing.
    pub fn row_mut(&mut self, i: usize) -> &mut [T]
        requires { i < height self.old.matrix.now }
        ensures* writes_back { sem 𝓛 (LendsViewRow T.row self.entry i result) }
        ensures row { result.now ≡ row self.old.matrix.now i }
    {
        self.matrix.row_mut(i)
    }
}

/// Of the entries of a matrix, `width` to a row, the first `rows` rows and the rest, both lent for
/// writing: `split_rows_mut(matrix.values_mut(), width, rows)`. There are at least so many rows.
pub fn split_rows_mut<T>(values: &mut [T], width: usize, rows: usize) -> (&mut [T], &mut [T])
    requires { rows * width ≤ length values.old }
    ensures* writes_back { sem 𝓛 (LendsParts T.row values.entry result) }
    ensures front { result.0.now ≡ take (rows * width) values.old }
    ensures back { result.1.now ≡ drop (rows * width) values.old }
{
    let at = rows * width;
    values.split_at_mut(at)
}
