//! Matrices that own their entries, which lie row after row.

ghost use Rattle.std.specs.Prelude.{◌≡◌, ◌+◌, ◌*◌, ◌/◌, ◌<◌, ◌≤◌, IfErr, IfOk, length};
ghost use Rattle.std.specs.Borrow.{sem};
ghost use Rattle.std.specs.Iterator.Runs.{EveryRun, IsChunksExactRun};
ghost use Rattle.std.specs.Slice.Iter.{chunks_exact_rest, chunks_exact_size, chunks_exact_steps};
ghost use Rattle.p3_matrix.specs.RowMajor.{RowMajor, IsRowMajor, height, row, rows_from};
ghost use Rattle.std.specs.Mem.{type_size};
ghost use Rattle.p3_matrix.specs.Room.{IsWithin};

use crate::error::DftError;
use crate::views::{RowMajorMatrixView, RowMajorMatrixViewMut};
use std::alloc::Global;
use std::marker::Model;
use std::slice::ChunksExact;

/// A matrix of `height` rows of `width` entries, one row after the other. The width is at least
/// one; the height may be zero.
#[derive(Debug, Drop)]
pub struct RowMajorMatrix<T> {
    values: Vec<T>,
    width: usize,
}

impl<T> Model for RowMajorMatrix<T> {
    ghost use Rattle.p3_matrix.specs.RowMajor.{RowMajor, IsRowMajor};

    ghost Value = { RowMajor T };

    ghost view = { λ m. record { width = m.width; values = m.values.items } };

    ghost invariant = { λ m. IsRowMajor {T = T} (record { width = m.width; values = m.values.items }) };
}

impl<T: PartialEq> PartialEq for RowMajorMatrix<T> {
    ghost use Rattle.std.specs.Prelude.{◌==◌, refl};
    ghost use Rattle.std.specs.Cmp.{on_per, and_per, partial_equiv_from_equiv};
    ghost use Rattle.std.specs.Cmp.Lexicographic.{pointwise, lists_per};
    ghost use Rattle.std.specs.Ordering.{on, eq_of_both};
    ghost use Rattle.std.specs.Cmp.Rules.{comparing};
    ghost use Rattle.std.proofs.Common.{rules};

    ghost eq = { eq_of_both (on (λ m. m.width) ◌==◌) (on (λ m. m.values) (pointwise T.eq)) };

    ghost laws = { and_per (on_per (λ m. m.width) (Prim.search (comparing, rules)))
        (on_per (λ m. m.values) (lists_per T.laws)) };

    fn eq(&self, other: &Self) -> bool {
        other.width == self.width && self.values == other.values
    }
}

impl<T: Eq> Eq for RowMajorMatrix<T> {
    ghost use Rattle.std.specs.Cmp.{on_equiv, and_equiv};
    ghost use Rattle.std.specs.Cmp.Lexicographic.{lists_equiv};
    ghost use Rattle.std.specs.Cmp.Rules.{comparing};
    ghost use Rattle.std.proofs.Common.{rules};

    ghost laws = { and_equiv (on_equiv (λ m. m.width) (Prim.search (comparing, rules)))
        (on_equiv (λ m. m.values) (lists_equiv T.Eq.laws)) };
}

impl<T> RowMajorMatrix<T> {
    ghost use Rattle.p3_matrix.specs.Loans.{LendsValues, LendsRow};

    /// The matrix of these entries, `width` to a row, which is at least one. The entries fill whole rows;
    /// none at all make a matrix of no rows.
    pub fn new(values: Vec<T>, width: usize) -> Self
        requires width { 1 ≤ width }
        requires full { (length values.items / width) * width ≡ length values.items }
        ensures { result ≡ record { width = width; values = values.items } }
    {
        RowMajorMatrix { values, width }
    }

    /// One column.
    pub fn new_col(values: Vec<T>) -> Self
        ensures { result ≡ record { width = 1; values = values.items } }
    {
        Self::new(values, 1)
    }

    /// One row, which is not empty.
    pub fn new_row(values: Vec<T>) -> Self
        requires { 1 ≤ length values.items }
        ensures { result ≡ record { width = length values.items; values = values.items } }
    {
        let width = values.len();
        Self::new(values, width)
    }

    /// How many entries a row has: at least one.
    pub fn width(&self) -> usize
        ensures width { result ≡ self.now.width }
        ensures whole { IsRowMajor self.now }
    {
        self.width
    }

    /// How many rows there are.
    pub fn height(&self) -> usize
        ensures height { result ≡ height self.now }
        ensures whole { IsRowMajor self.now }
    {
        self.values.len() / self.width
    }

    /// The entries, row after row.
    pub fn values(&self) -> &[T]
        ensures values { result.now ≡ self.now.values }
        ensures whole { IsRowMajor self.now }
    {
        self.values.as_slice()
    }

    /// Where the memory of the entries comes from: `Vec::new(*matrix.allocator())` is an empty
    /// vector from there.
    pub fn allocator(&self) -> &Global
        ensures whole { IsRowMajor self.now }
    {
        self.values.allocator()
    }

    /// The entries, row after row, in the vector that held them. No clause says what room it has besides.
    pub fn into_values(self) -> Vec<T>
        ensures values { result.items ≡ self.values }
        ensures whole { IsRowMajor self }
    {
        let RowMajorMatrix { values, width: _ } = self;
        values
    }

    /// The entries of row i, which is below the height.
    pub fn row(&self, i: usize) -> &[T]
        requires { i < height self.now }
        ensures { result.now ≡ row self.now i }
    {
        let start = i * self.width;
        &self.values[start..start + self.width]
    }

    /// The rows, one after another, each as its entries.
    pub fn row_slices(&self) -> ChunksExact<'_, T>
        ensures whole { IsRowMajor self.now }
        ensures rest { chunks_exact_rest result ≡ self.now.values }
        ensures size { chunks_exact_size result ≡ self.now.width }
        ensures count { length (chunks_exact_rest result) / chunks_exact_size result ≡ height self.now }
        ensures runs { EveryRun (chunks_exact_steps {A = T}) (λ p. 0 < chunks_exact_size p.from
            → IsChunksExactRun p (chunks_exact_size p.from) (chunks_exact_rest p.from)) }
    {
        self.values.as_slice().chunks_exact(self.width)
    }

    /// The `count` rows from row `start` on, which the matrix has, lent for reading.
    pub fn view_rows(&self, start: usize, count: usize) -> RowMajorMatrixView<'_, T>
        requires { start + count ≤ height self.now }
        ensures { result ≡ rows_from self.now start count }
    {
        let first = start * self.width;
        RowMajorMatrixView::new(&self.values[first..first + count * self.width], self.width)
    }

    /// The entries, row after row, lent for writing.
    pub fn values_mut(&mut self) -> &mut [T]
        ensures* writes_back { sem 𝓛 (LendsValues T.row self.entry result) }
        ensures values { result.now ≡ self.old.values }
    {
        self.values.as_mut_slice()
    }

    /// The entries of row i, which is below the height, lent for writing.
    pub fn row_mut(&mut self, i: usize) -> &mut [T]
        requires { i < height self.old }
        ensures* writes_back { sem 𝓛 (LendsRow T.row self.entry i result) }
        ensures row { result.now ≡ row self.old i }
    {
        let start = i * self.width;
        self.values.slice_mut(start..start + self.width)
    }

    /// The matrix, lent for reading.
    pub fn as_view(&self) -> RowMajorMatrixView<'_, T>
        ensures { result ≡ self.now }
    {
        RowMajorMatrixView::new(self.values.as_slice(), self.width)
    }

    /// The matrix, lent for writing.
    pub fn as_view_mut(&mut self) -> RowMajorMatrixViewMut<'_, T>
        ensures same_reference { result.matrix.ghost_name ≡ self.entry.ghost_name }
        ensures matrix { result.matrix.now ≡ self.old }
    {
        RowMajorMatrixViewMut::new(self)
    }

    /// A matrix with the same entries in memory of its own. Where memory is refused, there is
    /// nothing but the error.
    pub fn try_clone(&self) -> Result<Self, DftError>
    where
        T: Copy,
        ensures copy { IfOk result (λ m. m ≡ self.now) }
        ensures room { IfErr result (IsWithin (type_size T.row) (length self.now.values)) }
    {
        let values = growth::from_slice(*self.allocator(), self.values())?;
        Ok(Self::new(values, self.width))
    }
}
