// Reed-Solomon codes.

ghost use Rattle.std.specs.Prelude.{◌≡◌, ◌+◌, ◌^◌, ◌<◌, ◌≤◌};
ghost use Rattle.p3_field.specs.Ring.{IsInvertible};
ghost use Rattle.p3_matrix.specs.RowMajor.{height};
ghost use Rattle.p3_dft.specs.Shapes.{FitsDft, FitsLde};

use super::{Topic, are, matrix, over_baby_bear};
use p3_dft::{
    CanonicalField, DftError, ReedSolomon, RowMajorMatrix, TwoAdicField, TwoAdicSubgroupDft,
    fits_dft, fits_lde,
};
use std::alloc::Global;
use std::process::Abort;

fn new<F: TwoAdicField, D: TwoAdicSubgroupDft<F>>(
    engine: D,
    log_message: usize,
    added_bits: usize,
    shift: F,
) -> ReedSolomon<F, D>
    requires within { log_message + added_bits ≤ F.TWO_ADICITY }
    requires size { 2 ^ (log_message + added_bits) < 2 ^ 64 }
    requires invertible { IsInvertible F.ring (F.value shift) }
    ensures message { result.code.log_message ≡ log_message }
    ensures added { result.code.added_bits ≡ added_bits }
{
    ReedSolomon::new(engine, log_message, added_bits, shift)
}

fn encode<F: TwoAdicField, D: TwoAdicSubgroupDft<F>>(
    code: &mut ReedSolomon<F, D>,
    mat: RowMajorMatrix<F>,
) -> Result<RowMajorMatrix<F>, DftError>
    requires message { height mat ≡ 2 ^ code.old.code.log_message }
    requires fits { FitsLde F.TWO_ADICITY (height mat) mat.width code.old.code.added_bits }
    ensures { code.new.code ≡ code.old.code }
{
    code.encode(mat)
}

fn is_codeword<F: TwoAdicField, D: TwoAdicSubgroupDft<F>>(
    code: &mut ReedSolomon<F, D>,
    word: &RowMajorMatrix<F>,
) -> Result<bool, DftError>
    requires points { height word.now ≡ 2 ^ (code.old.code.log_message + code.old.code.added_bits) }
    requires fits { FitsDft F.TWO_ADICITY (height word.now) word.now.width }
    ensures { code.new.code ≡ code.old.code }
{
    code.is_codeword(word)
}

// Whether four numbers are a word of a code of two coefficients on four points.
fn tells<F: CanonicalField, D: TwoAdicSubgroupDft<F>>(
    rt: &impl Abort,
    alloc: Global,
    code: &mut ReedSolomon<F, D>,
    word: &[u64],
) -> bool {
    let word: RowMajorMatrix<F> = matrix(rt, alloc, word, 1);
    assert!(rt; fits_dft::<F>(word.height(), word.width()) && word.height() == code.word_height());
    is_codeword(code, &word).expect(rt, "memory")
}

pub(crate) fn told_on<F: CanonicalField, D: TwoAdicSubgroupDft<F>>(rt: &impl Abort, alloc: Global) {
    assert!(rt; F::TWO_ADICITY >= 2 && F::ONE.try_inverse().is_some());
    let mut code = new(D::default(), 1, 1, F::ONE);
    let mat: RowMajorMatrix<F> = matrix(rt, alloc, &[9, 1], 1);
    assert!(rt; fits_lde::<F>(mat.height(), mat.width(), 1) && mat.height() == 2);
    let word = encode(&mut code, mat).expect(rt, "memory");
    are(rt, alloc, word.values(), &[9, 873820294, 1, 1139445637]);
    assert!(rt; tells(rt, alloc, &mut code, &[9, 873820294, 1, 1139445637]));
    assert!(rt; !tells(rt, alloc, &mut code, &[9, 873820294, 1, 0]));
}

#[test]
fn each_engine_tells_words(rt: HostRuntime) {
    over_baby_bear(&rt, rt.alloc(), Topic::Codes);
}
