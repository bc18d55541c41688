//! Opening at a point of an extension field: the values there of polynomials whose values over the field below are at
//! hand, without a transform.
//!
//! Proved for every field and extension: what `open_in_extension` answers are the values at the point, in the extension,
//! of the only polynomials whose values on the coset are the columns.

ghost use Rattle.std.specs.Prelude.{◌≡◌, ◌+◌, ◌*◌, IfErr, IfOk, OnOk};
ghost use Rattle.p3_field.specs.Ring.{IsInvertible};
ghost use Rattle.p3_matrix.specs.Room.{WasOutOfMemory};
ghost use Rattle.p3_matrix.specs.RowMajor.{height};
ghost use Rattle.p3_dft.specs.Shapes.{FitsDft};
ghost use Rattle.p3_interpolation.specs.Interpolations.{AreValuesAt, IsOffCoset};
ghost use Rattle.examples.specs.ExtensionFields.{embedded_matrix};

use crate::extension::ExtensionField;
use crate::extension_folding::embed;
use p3_dft::{DftError, Products, RowMajorMatrix, TwoAdicField};
use p3_interpolation::interpolate_coset;

/// The values at a point of the extension, off the coset (`is_off_coset(height, E::from_base(shift), point)` tells), of
/// the polynomials whose values on `shift * H` are the columns of `mat`, which has as many rows as H has elements. An
/// error is out of memory.
pub fn open_in_extension<F: TwoAdicField, E: ExtensionField<F>>(
    mat: &RowMajorMatrix<F>,
    shift: F,
    point: E,
    products: &mut Products,
) -> Result<Vec<E>, DftError>
    requires fits { FitsDft F.TWO_ADICITY (height mat.now) mat.now.width }
    requires shift { IsInvertible F.ring (F.value shift) }
    requires off_coset { IsOffCoset E.ring (height mat.now) (E.value (E.embedded shift)) (E.value point) }
    ensures values { IfOk result (λ v. AreValuesAt E.Valued.own E.generator (embedded_matrix E.embedded mat.now)
        (E.value (E.embedded shift)) (E.value point) v.items) }
    ensures count { OnOk result (products.new ≡ products.old + height mat.now * mat.now.width) }
    ensures refused { IfErr result WasOutOfMemory }
{
    let embedded = embed::<F, E>(mat)?;
    interpolate_coset(&embedded, E::from_base(shift), point, products)
}
