//! A low degree test, by a Reed-Solomon code, for every field and engine.
//!
//! Proved: it says yes where each column has the values of a polynomial of the degree, and nowhere else.

ghost use Rattle.std.specs.Prelude.{◌↔◌, ◌^◌, ◌≤◌, IfErr, IfOk, IsTrue};
ghost use Rattle.p3_field.specs.Ring.{IsInvertible};
ghost use Rattle.p3_matrix.specs.Room.{WasOutOfMemory};
ghost use Rattle.p3_matrix.specs.RowMajor.{height};
ghost use Rattle.p3_matrix.specs.Cosets.{values_of};
ghost use Rattle.p3_dft.specs.Codes.{HasDegreeBelow};
ghost use Rattle.p3_dft.specs.Engines.{AtLog, IsLater};
ghost use Rattle.p3_dft.specs.Shapes.{FitsDft};

use p3_dft::{
    DftError, ReedSolomon, RowMajorMatrix, TwoAdicField, TwoAdicSubgroupDft, log2_strict_usize,
};

/// Whether each column has the values of a polynomial of degree below `2^log_degree` on the coset of
/// the shift with as many points as there are rows, which are at least `2^log_degree`. The engine comes
/// back with what it has prepared.
pub fn has_low_degree<F: TwoAdicField, D: TwoAdicSubgroupDft<F>>(
    engine: D,
    values: &RowMajorMatrix<F>,
    log_degree: usize,
    shift: F,
) -> (Result<bool, DftError>, D)
    requires fits { FitsDft F.TWO_ADICITY (height values.now) values.now.width }
    requires degree { 2 ^ log_degree ≤ height values.now }
    requires invertible { IsInvertible F.ring (F.value shift) }
    ensures exact { AtLog (height values.now) (λ n. IfOk result.0 (λ told. IsTrue told
        ↔ HasDegreeBelow F.Valued.own F.generator (2 ^ log_degree) n (F.value shift)
        (values_of F.Valued.own values.now))) }
    ensures later { IsLater D.facts engine result.1 }
    ensures refused { IfErr result.0 WasOutOfMemory }
{
    let log_points = log2_strict_usize(values.height());
    let mut code = ReedSolomon::new(engine, log_degree, log_points - log_degree, shift);
    let told = code.is_codeword(values);
    (told, code.into_engine())
}
