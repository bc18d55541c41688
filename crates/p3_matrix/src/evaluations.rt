//! Matrices whatever the order in which their rows lie.

ghost use Rattle.std.specs.Prelude.{◌≡◌, ◌^◌, ℕ};
ghost use Rattle.p3_matrix.specs.BitOrder.{reversed_rows};
ghost use Rattle.p3_matrix.specs.RowMajor.{RowMajor, height};

use crate::bitrev::{BitReversedMatrixView, reverse_rows};
use crate::dense::RowMajorMatrix;

/// A matrix that can be put into natural order, or into bit reversed order.
pub trait Evaluations<F>: Drop {
    // The rows in natural order.
    ghost natural: { Self → RowMajor F };

    /// The matrix with its rows in natural order. Rows are moved in place, and no memory is taken.
    fn to_row_major_matrix(self) -> RowMajorMatrix<F>
        ensures { result ≡ natural self };

    /// These rows, which lie in bit reversed order afterwards. They are moved in place, and no
    /// memory is taken. The height is a power of two.
    fn into_bit_reversed(self) -> BitReversedMatrixView<RowMajorMatrix<F>>
        requires { (k : ℕ) × (height (natural self) ≡ 2 ^ k) }
        ensures { reversed_rows result.bits result.physical ≡ natural self };
}

impl<F: Drop> Evaluations<F> for RowMajorMatrix<F> {
    ghost natural = { λ m. m };

    fn to_row_major_matrix(self) -> RowMajorMatrix<F> {
        self
    }

    fn into_bit_reversed(mut self) -> BitReversedMatrixView<RowMajorMatrix<F>> {
        reverse_rows(&mut self);
        self.bit_reverse_rows()
    }
}

impl<F: Drop> Evaluations<F> for BitReversedMatrixView<RowMajorMatrix<F>> {
    ghost use Rattle.p3_matrix.specs.BitOrder.{reversed_rows};

    ghost natural = { λ v. reversed_rows v.bits v.physical };

    fn to_row_major_matrix(self) -> RowMajorMatrix<F> {
        let mut mat = self.bit_reverse_rows();
        reverse_rows(&mut mat);
        mat
    }

    fn into_bit_reversed(self) -> BitReversedMatrixView<RowMajorMatrix<F>> {
        self
    }
}

/// What can be handed over as a matrix, as a `RowMajorMatrix` can. The engines' calls are generic over it, since a
/// method that takes a `RowMajorMatrix` of the trait's own field by value cannot hand its clauses down to an impl.
pub trait IntoRowMajorMatrix<T>: Drop {
    // The matrix.
    ghost stored: { Self → RowMajor T };

    /// The matrix, row after row.
    fn into_row_major_matrix(self) -> RowMajorMatrix<T>
        ensures { result ≡ stored self };
}

impl<T: Drop> IntoRowMajorMatrix<T> for RowMajorMatrix<T> {
    ghost stored = { λ m. m };

    fn into_row_major_matrix(self) -> RowMajorMatrix<T> {
        self
    }
}
