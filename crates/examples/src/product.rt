//! The product of two polynomials, by two transforms and an inverse, for every field and engine.
//!
//! Proved: the coefficients are those of the product, and what the engine promised it promises still.

ghost use Rattle.std.specs.Prelude.{◌≡◌, ℕ, ◌+◌, ◌<◌, ◌≤◌, IfErr, IfOk, get_or, length, map, vec_len};
ghost use Rattle.p3_matrix.specs.Cosets.{point};
ghost use Rattle.p3_matrix.specs.Room.{WasOutOfMemory};
ghost use Rattle.p3_dft.specs.Engines.{AtLog, IsLater};
ghost use Rattle.p3_matrix.specs.Polynomials.{convolution, value};
ghost use Rattle.p3_dft.specs.Shapes.{FitsDft};

use p3_dft::{DftError, TwoAdicField, TwoAdicSubgroupDft, extend_by_zeros};

// The polynomial's values on the subgroup of order `size`, which has at least as many points as the
// polynomial has coefficients.
fn values<F: TwoAdicField, D: TwoAdicSubgroupDft<F>>(
    engine: &mut D,
    mut coefficients: Vec<F>,
    size: usize,
) -> Result<Vec<F>, DftError>
    requires fits { FitsDft F.TWO_ADICITY size 1 }
    requires room { vec_len coefficients ≤ size }
    ensures long { IfOk result (λ out. length out.items ≡ size) }
    ensures values { IfOk result (λ out. AtLog size (λ k. (i : ℕ) → i < size → F.value (get_or out.items i F.zero)
        ≡ value F.ring (map F.value coefficients.items) (point F.ring (λ n. F.value (F.generator n)) k F.ring.one i))) }
    ensures later { IsLater D.facts engine.old engine.new }
    ensures refused { IfErr result WasOutOfMemory }
{
    let missing = size - coefficients.len();
    extend_by_zeros(&mut coefficients, missing)?;
    engine.dft(coefficients)
}

// Each entry times that of `others` in its place.
fn entry_products<F: TwoAdicField>(mut entries: Vec<F>, others: &[F]) -> Vec<F>
    requires { length others.now ≡ length entries.items }
    ensures long { length result.items ≡ length entries.items }
    ensures products { (i : ℕ) → i < length entries.items → F.value (get_or result.items i F.zero)
        ≡ F.ring.mul (F.value (get_or entries.items i F.zero)) (F.value (get_or others.now i F.zero)) }
{
    for i in 0..entries.len() {
        entries[i] = entries[i] * others[i];
    }
    entries
}

/// The product of two polynomials in `size` coefficients, of which it needs one less than both have
/// together; zeros stand behind it. What the engine promised it promises still, also after an error.
pub fn product<F: TwoAdicField, D: TwoAdicSubgroupDft<F>>(
    engine: &mut D,
    a: Vec<F>,
    b: Vec<F>,
    size: usize,
) -> Result<Vec<F>, DftError>
    requires fits { FitsDft F.TWO_ADICITY size 1 }
    requires first { vec_len a ≤ size }
    requires second { vec_len b ≤ size }
    requires room { vec_len a + vec_len b ≤ size + 1 }
    ensures long { IfOk result (λ out. length out.items ≡ size) }
    ensures coefficients { IfOk result (λ out. (n : ℕ) → F.value (get_or out.items n F.zero)
        ≡ convolution F.ring (map F.value a.items) (map F.value b.items) n) }
    ensures later { IsLater D.facts engine.old engine.new }
    ensures refused { IfErr result WasOutOfMemory }
{
    let entries = values(engine, a, size)?;
    let others = values(engine, b, size)?;
    engine.idft(entry_products(entries, &others))
}
