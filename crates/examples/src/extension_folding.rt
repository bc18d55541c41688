//! Folding with a challenge of an extension field, and the coefficients of the last layer.
//!
//! Proved for every field and extension, in every column: values over the field below, with rows in natural or in bit
//! reversed order, are folded as `fold` folds them in the extension, and a bound on the number of their coefficients
//! becomes half of it, rounded up; the last layer's coefficients, of rows in natural order, are those in the extension,
//! though the engine works over the field below, coordinate by coordinate. A prover folds its first layer by
//! `fold_into_extension`, each later one by `fold` over the extension with the shift squared once for each layer before
//! and embedded by `E::from_base`, and sends what `last_coefficients` answers.

ghost use Rattle.std.specs.Prelude.{◌≡◌, ℕ, suc, ◌+◌, ◌*◌, ◌/◌, ◌^◌, ◌≤◌, IfErr, IfOk, length, max};
ghost use Rattle.std.specs.Mem.{type_size};
ghost use Rattle.p3_field.specs.Ring.{IsInvertible};
ghost use Rattle.p3_matrix.specs.Cosets.{values_of};
ghost use Rattle.p3_matrix.specs.Room.{IsWithin, WasOutOfMemory};
ghost use Rattle.p3_matrix.specs.RowMajor.{height};
ghost use Rattle.p3_dft.specs.Codes.{HasDegreeBelow};
ghost use Rattle.p3_dft.specs.Coordinates.{flat};
ghost use Rattle.p3_dft.specs.Engines.{AfterDft};
ghost use Rattle.p3_dft.specs.Extensions.{arrangement};
ghost use Rattle.p3_dft.specs.Shapes.{FitsDft};
ghost use Rattle.p3_dft.specs.Transforms.{IsInterpolation};
ghost use Rattle.examples.specs.ExtensionFields.{embedded_matrix};
ghost use Rattle.examples.specs.Foldings.{AreFoldedRows, IsFolding};

use crate::extension::ExtensionField;
use crate::folding::fold;
use p3_dft::{DftError, Layout, RowMajorMatrix, TwoAdicField, TwoAdicSubgroupDft, growth};

/// The matrix of the same entries, as elements of the extension. An error is out of memory.
pub fn embed<F: TwoAdicField, E: ExtensionField<F>>(
    values: &RowMajorMatrix<F>,
) -> Result<RowMajorMatrix<E>, DftError>
    ensures embedded { IfOk result (λ out. out ≡ embedded_matrix E.embedded values.now) }
    ensures refused { IfErr result (IsWithin (type_size E.row) (length values.now.values)) }
{
    let width = values.width();
    let mut embedded = growth::with_capacity(*values.allocator(), values.values().len())?;
    for value in values.values() {
        embedded.push_reserved(E::from_base(*value));
    }
    Ok(RowMajorMatrix::new(embedded, width))
}

/// The values of the folded polynomials, in the extension, on the coset of the squared shift; the rows lie in the
/// layout of those handed over, which are two or more. An error is out of memory.
pub fn fold_into_extension<F: TwoAdicField, E: ExtensionField<F>>(
    values: &RowMajorMatrix<F>,
    layout: Layout,
    shift: F,
    beta: E,
) -> Result<RowMajorMatrix<E>, DftError>
    requires fits { FitsDft F.TWO_ADICITY (height values.now) values.now.width }
    requires pairs { 2 ≤ height values.now }
    requires invertible { IsInvertible F.ring (F.value shift) }
    ensures shape { IfOk result (λ out. (2 * height out ≡ height values.now) × (out.width ≡ values.now.width)) }
    ensures folded { IfOk result (λ out. (k : ℕ) → height values.now ≡ 2 ^ suc k
        → IsFolding E.ring (λ n. E.value (E.generator n)) (E.value beta) k (E.value (E.embedded shift))
        (arrangement layout (suc k) (values_of E.Valued.own (embedded_matrix E.embedded values.now)))
        (arrangement layout k (values_of E.Valued.own out))
        × AreFoldedRows E.ring (λ n. E.value (E.generator n)) (E.value beta) k (E.value (E.embedded shift))
        (arrangement layout (suc k) (values_of E.Valued.own (embedded_matrix E.embedded values.now)))
        (arrangement layout k (values_of E.Valued.own out))) }
    ensures degree { IfOk result (λ out. (k h : ℕ) → height values.now ≡ 2 ^ suc k
        → HasDegreeBelow F.Valued.own F.generator h (suc k) (F.value shift)
        (arrangement layout (suc k) (values_of F.Valued.own values.now))
        → HasDegreeBelow E.Valued.own E.generator ((h + 1) / 2) k
        (E.ring.mul (E.value (E.embedded shift)) (E.value (E.embedded shift)))
        (arrangement layout k (values_of E.Valued.own out))) }
    ensures refused { IfErr result WasOutOfMemory }
{
    let lifted = embed::<F, E>(values)?;
    fold(&lifted, layout, E::from_base(shift), beta)
}

/// The coefficients of the polynomials in the extension whose values on the coset of the shift are the columns, by an
/// engine over the field below. No other matrix of coefficients has these values.
pub fn last_coefficients<F: TwoAdicField, E: ExtensionField<F>, D: TwoAdicSubgroupDft<F>>(
    engine: &mut D,
    values: RowMajorMatrix<E>,
    shift: F,
) -> Result<RowMajorMatrix<E>, DftError>
    requires fits { FitsDft F.TWO_ADICITY (height values) (values.width * E.DIMENSION) }
    requires invertible { IsInvertible F.ring (F.value shift) }
    ensures coefficients { IfOk result (λ out. IsInterpolation E.Valued.own E.generator values
        (E.value (E.embedded shift)) out) }
    ensures engine { AfterDft D.facts (max (type_size F.row) (type_size E.row)) engine.old engine.new result
        (flat E.BasedVectorSpace.own values) 2 }
{
    engine.coset_idft_algebra_batch(values, shift)
}
