// Columns of numbers, of shapes that fit, and shifts that have an inverse: what the calls of an engine
// ask for is tested here once, and then told by a clause.

ghost use Rattle.std.specs.Prelude.{◌≡◌};
ghost use Rattle.p3_field.specs.Ring.{IsInvertible};
ghost use Rattle.p3_matrix.specs.RowMajor.{height};
ghost use Rattle.p3_dft.specs.Shapes.{FitsDft, FitsLde};

use super::matrices::matrix;
use engine_calls::answers::has_inverse;
use p3_dft::{CanonicalField, Field, RowMajorMatrix, fits_dft, fits_lde};
use std::alloc::Global;
use std::process::Abort;

// A column of these numbers that can be transformed.
pub(crate) fn transformable<F: CanonicalField>(
    rt: &impl Abort,
    alloc: Global,
    numbers: &[u64],
) -> RowMajorMatrix<F>
    ensures { FitsDft F.TWO_ADICITY (height result) result.width }
{
    let mat: RowMajorMatrix<F> = matrix(rt, alloc, numbers, 1);
    assert!(rt; fits_dft::<F>(mat.height(), mat.width()));
    mat
}

// One that can be extended.
pub(crate) fn extensible<F: CanonicalField>(
    rt: &impl Abort,
    alloc: Global,
    numbers: &[u64],
    added_bits: usize,
) -> RowMajorMatrix<F>
    ensures { FitsLde F.TWO_ADICITY (height result) result.width added_bits }
{
    let mat: RowMajorMatrix<F> = matrix(rt, alloc, numbers, 1);
    assert!(rt; fits_lde::<F>(mat.height(), mat.width(), added_bits));
    mat
}

// A shift that has an inverse.
pub(crate) fn invertible<F: Field>(rt: &impl Abort, shift: F) -> F
    ensures same { result ≡ shift }
    ensures invertible { IsInvertible F.ring (F.value result) }
{
    assert!(rt; has_inverse(shift));
    shift
}

// Stops the test where a column is not that of these numbers.
pub(crate) fn assert_column<F: CanonicalField>(
    rt: &impl Abort,
    found: &RowMajorMatrix<F>,
    numbers: &[u64],
) {
    let wanted: RowMajorMatrix<F> = matrix(rt, *found.allocator(), numbers, 1);
    assert!(rt; *found == wanted);
}
