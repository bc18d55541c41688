//! Columns of shapes that are tested.

ghost use Rattle.std.specs.Prelude.{IfSome};
ghost use Rattle.p3_matrix.specs.RowMajor.{height};
ghost use Rattle.p3_dft.specs.Shapes.{FitsDft, FitsLde};

use p3_dft::{RowMajorMatrix, TwoAdicField, fits_dft, fits_lde};

/// A column that can be transformed.
pub fn transformable<F: TwoAdicField>(column: Vec<F>) -> Option<RowMajorMatrix<F>>
    ensures { IfSome result (λ mat. FitsDft F.TWO_ADICITY (height mat) mat.width) }
{
    let mat = RowMajorMatrix::new_col(column);
    if fits_dft::<F>(mat.height(), mat.width()) {
        Some(mat)
    } else {
        None
    }
}

/// One that can be extended.
pub fn extensible<F: TwoAdicField>(column: Vec<F>, added_bits: usize) -> Option<RowMajorMatrix<F>>
    ensures { IfSome result (λ mat. FitsLde F.TWO_ADICITY (height mat) mat.width added_bits) }
{
    let mat = RowMajorMatrix::new_col(column);
    if fits_lde::<F>(mat.height(), mat.width(), added_bits) {
        Some(mat)
    } else {
        None
    }
}
