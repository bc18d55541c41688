// Reed-Solomon codes on every engine: worked words, what is none, and callers of the laws.

ghost use Rattle.std.specs.Prelude.{◌≡◌, ◌+◌, ◌-◌, ◌^◌, IfOk, IsTrue, ⊤};
ghost use Rattle.p3_matrix.specs.Matrix.{Same};
ghost use Rattle.p3_matrix.specs.RowMajor.{height};
ghost use Rattle.p3_dft.specs.Codes.{IsCode};
ghost use Rattle.p3_matrix.specs.RowNumbers.{AgreeInRows, DifferInRows};
ghost use Rattle.p3_dft.specs.Shapes.{FitsDft};
ghost use Rattle.p3_matrix.specs.Cosets.{values_of};

use super::helpers::engines::{EVERY_ENGINE, TestEngine, assert_rows_of, input};
use super::helpers::fitting::{assert_column, extensible, invertible, transformable};
use super::helpers::matrices::{elements, matrix, matrix_of};
use super::helpers::own_engines::LimitedDft;
use super::{FieldName, Topic, over};
use engine_calls::answers::Answer;
use engine_calls::names::Call;
use engine_calls::work::EngineWork;
use p3_dft::{
    CanonicalField, DftError, Field, NaiveDft, ReedSolomon, RowMajorMatrix, TwoAdicField,
    TwoAdicSubgroupDft, fits_code,
};
use std::alloc::Global;
use std::process::Abort;

// Two codewords of one width that agree in as many rows as a message has are equal.
fn told_by_few_rows<F: TwoAdicField, D: TwoAdicSubgroupDft<F>>(
    code: &mut ReedSolomon<F, D>,
    one: &RowMajorMatrix<F>,
    other: &RowMajorMatrix<F>,
) -> Result<bool, DftError>
    requires is_code { IsCode F.Valued.own F.TWO_ADICITY code.old.code }
    requires points { height one.now ≡ 2 ^ (code.old.code.log_message + code.old.code.added_bits) }
    requires fits { FitsDft F.TWO_ADICITY (height one.now) one.now.width }
    requires height { height other.now ≡ height one.now }
    requires width { other.now.width ≡ one.now.width }
    ensures code { code.new.code ≡ code.old.code }
    ensures distance { IfOk result (λ told. IsTrue told
        → AgreeInRows (2 ^ code.old.code.log_message) (values_of F.Valued.own one.now) (values_of F.Valued.own other.now)
        → Same (values_of F.Valued.own one.now) (values_of F.Valued.own other.now)) }
{
    let first = code.is_codeword(one)?;
    let second = code.is_codeword(other)?;
    Ok(first && second)
}

// Two that are not equal differ in at least n - k + 1 rows, of n points and messages of k rows.
fn lie_apart<F: TwoAdicField, D: TwoAdicSubgroupDft<F>>(
    code: &mut ReedSolomon<F, D>,
    one: &RowMajorMatrix<F>,
    other: &RowMajorMatrix<F>,
) -> Result<bool, DftError>
    requires is_code { IsCode F.Valued.own F.TWO_ADICITY code.old.code }
    requires points { height one.now ≡ 2 ^ (code.old.code.log_message + code.old.code.added_bits) }
    requires fits { FitsDft F.TWO_ADICITY (height one.now) one.now.width }
    requires height { height other.now ≡ height one.now }
    requires width { other.now.width ≡ one.now.width }
    ensures code { code.new.code ≡ code.old.code }
    ensures distance { IfOk result (λ told. IsTrue told
        → DifferInRows (2 ^ (code.old.code.log_message + code.old.code.added_bits) - 2 ^ code.old.code.log_message + 1)
        (values_of F.Valued.own one.now) (values_of F.Valued.own other.now)) }
{
    let _whole = one.height() == other.height();
    if one == other {
        return Ok(false);
    }
    let first = code.is_codeword(one)?;
    let second = code.is_codeword(other)?;
    Ok(first && second)
}

// With no added bits each word of the right shape is a codeword.
fn told_with_no_added_bits<F: TwoAdicField, D: TwoAdicSubgroupDft<F>>(
    code: &mut ReedSolomon<F, D>,
    word: &RowMajorMatrix<F>,
) -> Result<bool, DftError>
    requires is_code { IsCode F.Valued.own F.TWO_ADICITY code.old.code }
    requires points { height word.now ≡ 2 ^ code.old.code.log_message }
    requires fits { FitsDft F.TWO_ADICITY (height word.now) word.now.width }
    requires none { code.old.code.added_bits ≡ 0 }
    ensures { IfOk result (λ told. IsTrue told) }
{
    code.is_codeword(word)
}

// Polynomials of two coefficients on four points.
fn of_two<F: TwoAdicField, D: TwoAdicSubgroupDft<F>>(
    rt: &impl Abort,
    engine: D,
    shift: F,
) -> ReedSolomon<F, D>
    ensures message { result.code.log_message ≡ 1 }
    ensures added { result.code.added_bits ≡ 1 }
    ensures is_code { IsCode F.Valued.own F.TWO_ADICITY result.code }
{
    assert!(rt; fits_code::<F>(1, 1));
    ReedSolomon::new(engine, 1, 1, invertible(rt, shift))
}

// Stops the test unless an engine tells whether four numbers are a word with so many added bits.
fn tells<F: TwoAdicField>(
    rt: &impl Abort,
    engine: &mut TestEngine<F>,
    word: &RowMajorMatrix<F>,
    (added_bits, shift): (usize, F),
    is_word: bool,
) {
    let holds = match engine.answer(Call::IsCodeword, input(rt, word, added_bits, shift)) {
        Answer::Holds(holds) => holds,
        _ => panic!(rt; "is_codeword on {}: no answer", engine.name),
    };
    assert!(rt;
        holds == is_word,
        "is_codeword on {}: {holds}, {added_bits} added bits",
        engine.name
    );
}

// The word with one added to one of its entries.
fn changed<F: CanonicalField>(
    rt: &impl Abort,
    alloc: Global,
    word: &[u64],
    place: usize,
) -> RowMajorMatrix<F> {
    let mut entries = elements::<F>(rt, alloc, word);
    assert!(rt; place < entries.len());
    entries[place] = entries[place] + F::ONE;
    matrix_of(rt, entries, 1)
}

// The message 9, 1 and its word on a coset: it is one, and none with an entry changed.
fn word_of<F: CanonicalField>(
    rt: &impl Abort,
    alloc: Global,
    engine: &mut TestEngine<F>,
    shift: F,
    numbers: &[u64],
) {
    let message = input(rt, &matrix(rt, alloc, &[9, 1], 1), 1, shift);
    let word = matrix(rt, alloc, numbers, 1);
    assert_rows_of(rt, engine, Call::Encode, message, &word);
    tells(rt, engine, &word, (1, shift), true);
    for place in 0..numbers.len() {
        let word = changed(rt, alloc, numbers, place);
        tells(rt, engine, &word, (1, shift), false);
    }
}

// Constants are words, and two columns of four numbers are none; with no added bits each column is a word.
const COLUMNS: [([u64; 4], usize, bool); 5] = [
    ([0, 0, 0, 0], 1, true),
    ([7, 7, 7, 7], 1, true),
    ([9, 873820294, 1, 0], 1, false),
    ([1, 2013265920, 1, 2013265920], 1, false),
    ([9, 873820294, 1, 0], 0, true),
];

// A word of a message on two cosets, and other columns, on every engine.
pub(crate) fn words<F: CanonicalField>(
    rt: &impl Abort,
    alloc: Global,
    word: [u64; 4],
    on_two: [u64; 4],
) {
    for name in EVERY_ENGINE {
        let mut engine: TestEngine<F> = TestEngine::new(name);
        word_of(rt, alloc, &mut engine, F::ONE, &word);
        word_of(rt, alloc, &mut engine, F::TWO, &on_two);
        for (column, added_bits, is_word) in COLUMNS {
            let column = matrix(rt, alloc, &column, 1);
            tells(rt, &mut engine, &column, (added_bits, F::ONE), is_word);
        }
    }
}

// With as many points as coefficients each column is a word.
fn all_words<F: CanonicalField, D: TwoAdicSubgroupDft<F>>(
    rt: &impl Abort,
    alloc: Global,
    name: &str,
    engine: D,
) {
    let shift = invertible(rt, F::GENERATOR);
    assert!(rt; fits_code::<F>(2, 0));
    let mut code = ReedSolomon::new(engine, 2, 0, shift);
    let word = transformable(rt, alloc, &[9, 873820294, 1, 0]);
    assert!(rt; word.height() == 4);
    let told = told_with_no_added_bits(&mut code, &word);
    assert!(rt;
        told.expect(rt, "memory"),
        "is_codeword on {name}: 4 rows, no added bits"
    );
}

// Two words of polynomials that differ in one coefficient.
fn two_words<F: CanonicalField, D: TwoAdicSubgroupDft<F>>(
    rt: &impl Abort,
    alloc: Global,
    name: &str,
    engine: D,
) {
    let mut code = of_two(rt, engine, F::ONE);
    let one = transformable(rt, alloc, &[7, 7, 7, 7]);
    let other = transformable(rt, alloc, &[8, 8, 8, 8]);
    assert!(rt; one.height() == code.word_height());
    assert!(rt; other.height() == one.height());
    assert!(rt; other.width() == one.width());
    let told = told_by_few_rows(&mut code, &one, &other).expect(rt, "memory");
    let apart = lie_apart(&mut code, &one, &other).expect(rt, "memory");
    let same = !lie_apart(&mut code, &one, &one).expect(rt, "memory");
    assert!(rt;
        told && apart && same,
        "is_codeword on {name}: 2 rows, 1 added bit"
    );
}

// The numbers of a code are those that it was made of.
fn numbers<F: CanonicalField>(rt: &impl Abort) {
    assert!(rt; fits_code::<F>(1, 3) && !fits_code::<F>(usize::MAX, 1));
    let code = ReedSolomon::new(NaiveDft::default(), 1, 3, invertible(rt, F::TWO));
    assert!(rt; (code.log_message(), code.added_bits()) == (1, 3));
    assert!(rt; (code.message_height(), code.word_height()) == (2, 16));
    assert!(rt; code.shift() == F::TWO);
    let _ = code.engine();
}

// The callers of a code's laws, on any engine: the code takes a new one.
struct CallersOfCodes<'a, R> {
    rt: &'a R,
    alloc: Global,
    name: &'static str,
}

impl<'a, F: CanonicalField, R: Abort> EngineWork<F> for CallersOfCodes<'a, R> {
    type Answer = ();

    ghost fits = { λ work. ⊤ };

    fn on<D: TwoAdicSubgroupDft<F>>(self, _engine: &mut D) {
        let CallersOfCodes { rt, alloc, name } = self;
        all_words::<F, D>(rt, alloc, name, D::default());
        two_words::<F, D>(rt, alloc, name, D::default());
    }
}

pub(crate) fn laws<F: CanonicalField>(rt: &impl Abort, alloc: Global) {
    for name in EVERY_ENGINE {
        let mut engine: TestEngine<F> = TestEngine::new(name);
        let name = engine.name;
        engine.with(CallersOfCodes { rt, alloc, name });
    }
    numbers::<F>(rt);
}

#[test]
fn callers_of_codes_have_their_laws(rt: HostRuntime) {
    over(&rt, rt.alloc(), FieldName::BabyBear, Topic::CodeLaws);
    over(&rt, rt.alloc(), FieldName::Goldilocks, Topic::CodeLaws);
}

#[test]
fn words_are_told_from_others_over_baby_bear(rt: HostRuntime) {
    let word = [9, 873820294, 1, 1139445637];
    let shifted = [13, 1747640583, 2013265918, 265625348];
    over(
        &rt,
        rt.alloc(),
        FieldName::BabyBear,
        Topic::Words(word, shifted),
    );
}

// By sums over big integers.
#[test]
fn words_are_told_from_others_over_goldilocks(rt: HostRuntime) {
    let word = [9, 1125899906842629, 1, 18445618169507741702];
    let shifted = [
        13,
        2251799813685253,
        18446744069414584318,
        18444492269600899078,
    ];
    over(
        &rt,
        rt.alloc(),
        FieldName::Goldilocks,
        Topic::Words(word, shifted),
    );
}

// An engine that makes so many transforms: a word takes two, and telling one takes one more.
fn within<F: CanonicalField>(rt: &impl Abort, alloc: Global, transforms: usize) {
    let mut code = of_two::<F, _>(rt, LimitedDft::new(transforms), F::ONE);
    let mat = extensible(rt, alloc, &[9, 1], 1);
    assert!(rt; mat.height() == code.message_height());
    match code.encode(mat) {
        Ok(word) => {
            assert!(rt; 2 <= transforms);
            assert_column(rt, &word, &[9, 873820294, 1, 1139445637]);
        }
        Err(_) => assert!(rt; transforms < 2),
    }
    let word = transformable(rt, alloc, &[9, 873820294, 1, 0]);
    assert!(rt; word.height() == code.word_height());
    match code.is_codeword(&word) {
        Ok(told) => assert!(rt; 3 <= transforms && !told),
        Err(_) => assert!(rt; transforms < 3),
    }
}

pub(crate) fn within_each<F: CanonicalField>(rt: &impl Abort, alloc: Global) {
    for transforms in 0..4usize {
        within::<F>(rt, alloc, transforms);
    }
}

#[test]
fn want_of_memory_leaves_the_code(rt: HostRuntime) {
    over(&rt, rt.alloc(), FieldName::BabyBear, Topic::CodesWithin);
}
