// Calls whose answers were worked out by hand or by another program, on every engine, one after another on the same
// engine and again on a clone: so that a call that left something behind for a later one would show.

use super::helpers::engines::{EVERY_ENGINE, TestEngine, assert_rows_of, input, rows_of};
use super::helpers::matrices::{assert_rows, column, matrix};
use super::{FieldName, Topic, over};
use engine_calls::answers::Input;
use engine_calls::changes::Change;
use engine_calls::engines::Engine;
use engine_calls::names::{Call, EngineName, Operation};
use p3_dft::{CanonicalField, Layout, Radix2DFTSmallBatch, TwoAdicField};
use std::alloc::Global;
use std::process::Abort;

// A call on rows with these numbers, and the numbers of its answer.
pub(crate) struct Worked {
    call: Call,
    change: Change,
    width: usize,
    rows: &'static [u64],
    added_bits: usize,
    shift: usize,
    answer: &'static [u64],
}

// The polynomials are 1 + 2 x + 3 x^2 + 4 x^3 and 5 + 4 x, and others.
const OVER_BABY_BEAR: [Worked; 40] = [
    Worked {
        call: Call::Batch(Operation::Dft),
        change: Change::Nothing,
        width: 1,
        rows: &[9, 1],
        added_bits: 0,
        shift: 1,
        answer: &[10, 8],
    },
    Worked {
        call: Call::Batch(Operation::CosetDft),
        change: Change::Nothing,
        width: 1,
        rows: &[9, 1],
        added_bits: 0,
        shift: 2,
        answer: &[11, 7],
    },
    Worked {
        call: Call::Batch(Operation::Lde),
        change: Change::Nothing,
        width: 1,
        rows: &[5, 4],
        added_bits: 1,
        shift: 1,
        answer: &[5, 864202261, 4, 1149063669],
    },
    Worked {
        call: Call::Vector(Operation::Dft),
        change: Change::Nothing,
        width: 1,
        rows: &[1, 2, 3, 4],
        added_bits: 0,
        shift: 1,
        answer: &[10, 569722814, 2013265919, 1443543103],
    },
    Worked {
        call: Call::Vector(Operation::CosetDft),
        change: Change::Nothing,
        width: 1,
        rows: &[5, 4],
        added_bits: 0,
        shift: 2,
        answer: &[13, 2013265918],
    },
    Worked {
        call: Call::Vector(Operation::CosetDft),
        change: Change::Nothing,
        width: 1,
        rows: &[5, 4],
        added_bits: 0,
        shift: 0,
        answer: &[5, 5],
    },
    Worked {
        call: Call::Vector(Operation::Idft),
        change: Change::Nothing,
        width: 1,
        rows: &[10, 569722814, 2013265919, 1443543103],
        added_bits: 0,
        shift: 1,
        answer: &[1, 2, 3, 4],
    },
    Worked {
        call: Call::Vector(Operation::Idft),
        change: Change::Nothing,
        width: 1,
        rows: &[9, 1],
        added_bits: 0,
        shift: 1,
        answer: &[5, 4],
    },
    Worked {
        call: Call::Vector(Operation::CosetIdft),
        change: Change::Nothing,
        width: 1,
        rows: &[13, 2013265918],
        added_bits: 0,
        shift: 2,
        answer: &[5, 4],
    },
    Worked {
        call: Call::Vector(Operation::CosetDft),
        change: Change::Nothing,
        width: 1,
        rows: &[5, 4],
        added_bits: 0,
        shift: 2,
        answer: &[13, 2013265918],
    },
    Worked {
        call: Call::Vector(Operation::CosetDft),
        change: Change::Nothing,
        width: 1,
        rows: &[1, 2, 3, 4],
        added_bits: 0,
        shift: 0,
        answer: &[1, 1, 1, 1],
    },
    Worked {
        call: Call::Vector(Operation::CosetDft),
        change: Change::Nothing,
        width: 1,
        rows: &[5, 4],
        added_bits: 0,
        shift: 3,
        answer: &[17, 2013265914],
    },
    Worked {
        call: Call::Vector(Operation::CosetDft),
        change: Change::Nothing,
        width: 1,
        rows: &[1, 2, 3, 4],
        added_bits: 0,
        shift: 0,
        answer: &[1, 1, 1, 1],
    },
    Worked {
        call: Call::Vector(Operation::CosetDft),
        change: Change::Nothing,
        width: 1,
        rows: &[5, 4],
        added_bits: 0,
        shift: 2,
        answer: &[13, 2013265918],
    },
    Worked {
        call: Call::Vector(Operation::CosetDft),
        change: Change::Nothing,
        width: 1,
        rows: &[1, 2, 3, 4],
        added_bits: 0,
        shift: 0,
        answer: &[1, 1, 1, 1],
    },
    Worked {
        call: Call::Vector(Operation::Lde),
        change: Change::Nothing,
        width: 1,
        rows: &[9, 1],
        added_bits: 1,
        shift: 1,
        answer: &[9, 873820294, 1, 1139445637],
    },
    Worked {
        call: Call::Vector(Operation::CosetLde),
        change: Change::Nothing,
        width: 1,
        rows: &[9, 1],
        added_bits: 1,
        shift: 0,
        answer: &[5, 5, 5, 5],
    },
    Worked {
        call: Call::Vector(Operation::CosetLde),
        change: Change::Nothing,
        width: 1,
        rows: &[7, 7],
        added_bits: 3,
        shift: 31,
        answer: &[7, 7, 7, 7, 7, 7, 7, 7, 7, 7, 7, 7, 7, 7, 7, 7],
    },
    Worked {
        call: Call::Batch(Operation::CosetLde),
        change: Change::Nothing,
        width: 2,
        rows: &[42, 7],
        added_bits: 2,
        shift: 31,
        answer: &[42, 7, 42, 7, 42, 7, 42, 7],
    },
    Worked {
        call: Call::Batch(Operation::Dft),
        change: Change::Nothing,
        width: 2,
        rows: &[42, 7],
        added_bits: 0,
        shift: 1,
        answer: &[42, 7],
    },
    Worked {
        call: Call::Batch(Operation::Idft),
        change: Change::Nothing,
        width: 2,
        rows: &[42, 7],
        added_bits: 0,
        shift: 1,
        answer: &[42, 7],
    },
    Worked {
        call: Call::Batch(Operation::CosetIdft),
        change: Change::Nothing,
        width: 1,
        rows: &[9, 1],
        added_bits: 0,
        shift: 2,
        answer: &[5, 2],
    },
    Worked {
        call: Call::Batch(Operation::CosetDft),
        change: Change::Nothing,
        width: 1,
        rows: &[5, 2, 0, 0],
        added_bits: 0,
        shift: 2,
        answer: &[9, 873820294, 1, 1139445637],
    },
    Worked {
        call: Call::WithTransform,
        change: Change::Doubled,
        width: 1,
        rows: &[9, 1],
        added_bits: 1,
        shift: 1,
        answer: &[18, 1747640588, 2, 265625353],
    },
    Worked {
        call: Call::Vector(Operation::Dft),
        change: Change::Nothing,
        width: 1,
        rows: &[7],
        added_bits: 0,
        shift: 1,
        answer: &[7],
    },
    Worked {
        call: Call::Vector(Operation::Dft),
        change: Change::Nothing,
        width: 1,
        rows: &[0, 0, 0, 0, 0, 0, 0, 0, 0, 0, 0, 0, 0, 0, 0, 0],
        added_bits: 0,
        shift: 1,
        answer: &[0, 0, 0, 0, 0, 0, 0, 0, 0, 0, 0, 0, 0, 0, 0, 0],
    },
    Worked {
        call: Call::Vector(Operation::Dft),
        change: Change::Nothing,
        width: 1,
        rows: &[1, 2, 3, 4, 5, 6, 7, 8],
        added_bits: 0,
        shift: 1,
        answer: &[
            36, 1976151680, 1139445628, 1710526337, 2013265917, 302739576, 873820285, 37114233,
        ],
    },
    Worked {
        call: Call::Vector(Operation::Dft),
        change: Change::Nothing,
        width: 1,
        rows: &[0, 0, 0, 0, 1, 0, 0, 0],
        added_bits: 0,
        shift: 1,
        answer: &[1, 2013265920, 1, 2013265920, 1, 2013265920, 1, 2013265920],
    },
    Worked {
        call: Call::Batch(Operation::Dft),
        change: Change::Nothing,
        width: 3,
        rows: &[5, 2, 0, 4, 3, 0],
        added_bits: 0,
        shift: 1,
        answer: &[9, 5, 0, 1, 2013265920, 0],
    },
    Worked {
        call: Call::Batch(Operation::Dft),
        change: Change::Nothing,
        width: 3,
        rows: &[1, 2, 3, 4, 5, 6, 7, 8, 9, 10, 11, 12],
        added_bits: 0,
        shift: 1,
        answer: &[
            22, 26, 30, 1709168442, 1709168442, 1709168442, 2013265915, 2013265915, 2013265915,
            304097467, 304097467, 304097467,
        ],
    },
    Worked {
        call: Call::WithTransform,
        change: Change::Reversed,
        width: 1,
        rows: &[9, 1],
        added_bits: 1,
        shift: 1,
        answer: &[9, 588958885, 2013265920, 1424307044],
    },
    Worked {
        call: Call::BitReversed,
        change: Change::Reversed,
        width: 1,
        rows: &[9, 1],
        added_bits: 1,
        shift: 1,
        answer: &[9, 588958885, 2013265920, 1424307044],
    },
    Worked {
        call: Call::OfCoefficients,
        change: Change::Nothing,
        width: 1,
        rows: &[5, 4],
        added_bits: 1,
        shift: 2,
        answer: &[13, 1747640583, 2013265918, 265625348],
    },
    Worked {
        call: Call::OfCoefficients,
        change: Change::Nothing,
        width: 2,
        rows: &[1, 2, 3, 4, 5, 6, 7, 8],
        added_bits: 1,
        shift: 3,
        answer: &[
            244, 284, 1262897813, 1139706338, 943405371, 1740281392, 1612002877, 1499696727,
            2013265769, 2013265749, 1285298363, 307516338, 1069860462, 272984425, 1879598714,
            1079612447,
        ],
    },
    Worked {
        call: Call::OfCoefficients,
        change: Change::Nothing,
        width: 3,
        rows: &[42, 7, 1],
        added_bits: 1,
        shift: 31,
        answer: &[42, 7, 1, 42, 7, 1],
    },
    Worked {
        call: Call::OfCoefficients,
        change: Change::Nothing,
        width: 1,
        rows: &[1, 2, 3, 4],
        added_bits: 0,
        shift: 3,
        answer: &[142, 870140696, 2013265835, 1143125173],
    },
    Worked {
        call: Call::OfCoefficients,
        change: Change::Nothing,
        width: 1,
        rows: &[5, 4],
        added_bits: 2,
        shift: 0,
        answer: &[5, 5, 5, 5, 5, 5, 5, 5],
    },
    Worked {
        call: Call::OfCoefficientsBitReversed,
        change: Change::Nothing,
        width: 1,
        rows: &[5, 4],
        added_bits: 1,
        shift: 2,
        answer: &[13, 1747640583, 2013265918, 265625348],
    },
    Worked {
        call: Call::OfCoefficientsBitReversed,
        change: Change::Nothing,
        width: 2,
        rows: &[1, 2, 3, 4, 5, 6, 7, 8],
        added_bits: 1,
        shift: 3,
        answer: &[
            244, 284, 1262897813, 1139706338, 943405371, 1740281392, 1612002877, 1499696727,
            2013265769, 2013265749, 1285298363, 307516338, 1069860462, 272984425, 1879598714,
            1079612447,
        ],
    },
    Worked {
        call: Call::OfCoefficientsBitReversed,
        change: Change::Nothing,
        width: 1,
        rows: &[5, 4],
        added_bits: 2,
        shift: 0,
        answer: &[5, 5, 5, 5, 5, 5, 5, 5],
    },
];

const OVER_GOLDILOCKS: [Worked; 29] = [
    Worked {
        call: Call::Vector(Operation::Dft),
        change: Change::Nothing,
        width: 1,
        rows: &[1, 2, 3, 4],
        added_bits: 0,
        shift: 1,
        answer: &[
            10,
            18446181119461163007,
            18446744069414584319,
            562949953421310,
        ],
    },
    Worked {
        call: Call::Vector(Operation::CosetDft),
        change: Change::Nothing,
        width: 1,
        rows: &[5, 4],
        added_bits: 0,
        shift: 2,
        answer: &[13, 18446744069414584318],
    },
    Worked {
        call: Call::Vector(Operation::CosetDft),
        change: Change::Nothing,
        width: 1,
        rows: &[5, 4],
        added_bits: 0,
        shift: 0,
        answer: &[5, 5],
    },
    Worked {
        call: Call::Vector(Operation::Idft),
        change: Change::Nothing,
        width: 1,
        rows: &[
            10,
            18446181119461163007,
            18446744069414584319,
            562949953421310,
        ],
        added_bits: 0,
        shift: 1,
        answer: &[1, 2, 3, 4],
    },
    Worked {
        call: Call::Vector(Operation::Idft),
        change: Change::Nothing,
        width: 1,
        rows: &[9, 1],
        added_bits: 0,
        shift: 1,
        answer: &[5, 4],
    },
    Worked {
        call: Call::Vector(Operation::CosetIdft),
        change: Change::Nothing,
        width: 1,
        rows: &[13, 18446744069414584318],
        added_bits: 0,
        shift: 2,
        answer: &[5, 4],
    },
    Worked {
        call: Call::Vector(Operation::CosetDft),
        change: Change::Nothing,
        width: 1,
        rows: &[5, 4],
        added_bits: 0,
        shift: 2,
        answer: &[13, 18446744069414584318],
    },
    Worked {
        call: Call::Vector(Operation::CosetDft),
        change: Change::Nothing,
        width: 1,
        rows: &[1, 2, 3, 4],
        added_bits: 0,
        shift: 0,
        answer: &[1, 1, 1, 1],
    },
    Worked {
        call: Call::Vector(Operation::CosetDft),
        change: Change::Nothing,
        width: 1,
        rows: &[5, 4],
        added_bits: 0,
        shift: 3,
        answer: &[17, 18446744069414584314],
    },
    Worked {
        call: Call::Vector(Operation::CosetDft),
        change: Change::Nothing,
        width: 1,
        rows: &[1, 2, 3, 4],
        added_bits: 0,
        shift: 0,
        answer: &[1, 1, 1, 1],
    },
    Worked {
        call: Call::Vector(Operation::CosetDft),
        change: Change::Nothing,
        width: 1,
        rows: &[5, 4],
        added_bits: 0,
        shift: 2,
        answer: &[13, 18446744069414584318],
    },
    Worked {
        call: Call::Vector(Operation::CosetDft),
        change: Change::Nothing,
        width: 1,
        rows: &[1, 2, 3, 4],
        added_bits: 0,
        shift: 0,
        answer: &[1, 1, 1, 1],
    },
    Worked {
        call: Call::Vector(Operation::Lde),
        change: Change::Nothing,
        width: 1,
        rows: &[9, 1],
        added_bits: 1,
        shift: 1,
        answer: &[9, 1125899906842629, 1, 18445618169507741702],
    },
    Worked {
        call: Call::Vector(Operation::CosetLde),
        change: Change::Nothing,
        width: 1,
        rows: &[9, 1],
        added_bits: 1,
        shift: 0,
        answer: &[5, 5, 5, 5],
    },
    Worked {
        call: Call::Vector(Operation::CosetLde),
        change: Change::Nothing,
        width: 1,
        rows: &[7, 7],
        added_bits: 3,
        shift: 31,
        answer: &[7, 7, 7, 7, 7, 7, 7, 7, 7, 7, 7, 7, 7, 7, 7, 7],
    },
    Worked {
        call: Call::Batch(Operation::CosetLde),
        change: Change::Nothing,
        width: 2,
        rows: &[42, 7],
        added_bits: 2,
        shift: 31,
        answer: &[42, 7, 42, 7, 42, 7, 42, 7],
    },
    Worked {
        call: Call::Batch(Operation::Dft),
        change: Change::Nothing,
        width: 2,
        rows: &[42, 7],
        added_bits: 0,
        shift: 1,
        answer: &[42, 7],
    },
    Worked {
        call: Call::Batch(Operation::Idft),
        change: Change::Nothing,
        width: 2,
        rows: &[42, 7],
        added_bits: 0,
        shift: 1,
        answer: &[42, 7],
    },
    Worked {
        call: Call::Batch(Operation::CosetIdft),
        change: Change::Nothing,
        width: 1,
        rows: &[9, 1],
        added_bits: 0,
        shift: 2,
        answer: &[5, 2],
    },
    Worked {
        call: Call::Batch(Operation::CosetDft),
        change: Change::Nothing,
        width: 1,
        rows: &[5, 2, 0, 0],
        added_bits: 0,
        shift: 2,
        answer: &[9, 1125899906842629, 1, 18445618169507741702],
    },
    Worked {
        call: Call::WithTransform,
        change: Change::Doubled,
        width: 1,
        rows: &[9, 1],
        added_bits: 1,
        shift: 1,
        answer: &[18, 2251799813685258, 2, 18444492269600899083],
    },
    Worked {
        call: Call::Vector(Operation::Dft),
        change: Change::Nothing,
        width: 1,
        rows: &[7],
        added_bits: 0,
        shift: 1,
        answer: &[7],
    },
    Worked {
        call: Call::Vector(Operation::Dft),
        change: Change::Nothing,
        width: 1,
        rows: &[0, 0, 0, 0, 0, 0, 0, 0, 0, 0, 0, 0, 0, 0, 0, 0],
        added_bits: 0,
        shift: 1,
        answer: &[0, 0, 0, 0, 0, 0, 0, 0, 0, 0, 0, 0, 0, 0, 0, 0],
    },
    Worked {
        call: Call::Vector(Operation::Dft),
        change: Change::Nothing,
        width: 1,
        rows: &[3, 1, 4, 1, 5, 9, 2, 6],
        added_bits: 0,
        shift: 1,
        answer: &[
            31,
            568447645776638,
            844424930131970,
            18446189915638069247,
            18446744069414584318,
            557452261065982,
            18445899644484452355,
            18446172323284256767,
        ],
    },
    Worked {
        call: Call::Vector(Operation::Dft),
        change: Change::Nothing,
        width: 1,
        rows: &[0, 1, 0, 0],
        added_bits: 0,
        shift: 1,
        answer: &[
            1,
            281474976710656,
            18446744069414584320,
            18446462594437873665,
        ],
    },
    Worked {
        call: Call::OfCoefficients,
        change: Change::Nothing,
        width: 1,
        rows: &[5, 4],
        added_bits: 1,
        shift: 2,
        answer: &[
            13,
            2251799813685253,
            18446744069414584318,
            18444492269600899078,
        ],
    },
    Worked {
        call: Call::OfCoefficients,
        change: Change::Nothing,
        width: 2,
        rows: &[1, 2, 3, 4, 5, 6, 7, 8],
        added_bits: 1,
        shift: 3,
        answer: &[
            244,
            284,
            12458566103383297,
            14962154029504514,
            18396078573606666197,
            18389323174165610445,
            18434067796687063298,
            18431531222908800003,
            18446744069414584169,
            18446744069414584149,
            12874181800575745,
            15437143455246338,
            50665495807918036,
            57420895248973772,
            18434087594238146306,
            18431557618435617795,
        ],
    },
    Worked {
        call: Call::OfCoefficientsBitReversed,
        change: Change::Nothing,
        width: 1,
        rows: &[5, 4],
        added_bits: 1,
        shift: 2,
        answer: &[
            13,
            2251799813685253,
            18446744069414584318,
            18444492269600899078,
        ],
    },
    Worked {
        call: Call::OfCoefficientsBitReversed,
        change: Change::Nothing,
        width: 2,
        rows: &[1, 2, 3, 4, 5, 6, 7, 8],
        added_bits: 1,
        shift: 3,
        answer: &[
            244,
            284,
            12458566103383297,
            14962154029504514,
            18396078573606666197,
            18389323174165610445,
            18434067796687063298,
            18431531222908800003,
            18446744069414584169,
            18446744069414584149,
            12874181800575745,
            15437143455246338,
            50665495807918036,
            57420895248973772,
            18434087594238146306,
            18431557618435617795,
        ],
    },
];

// All of these by one engine.
fn answers_of<F: CanonicalField>(
    rt: &impl Abort,
    alloc: Global,
    engine: &mut TestEngine<F>,
    cases: &[Worked],
) {
    for case in cases {
        let rows = Input {
            mat: matrix(rt, alloc, case.rows, case.width),
            added_bits: case.added_bits,
            shift: F::from_usize(case.shift),
            change: case.change,
        };
        let answer = matrix(rt, alloc, case.answer, case.width);
        assert_rows_of(rt, engine, case.call, rows, &answer);
    }
}

// By every engine, by a clone of it, and by tiles of some elements and of one row.
pub(crate) fn answers_over<F: CanonicalField>(rt: &impl Abort, alloc: Global, cases: &[Worked]) {
    for name in EVERY_ENGINE {
        let mut engine: TestEngine<F> = TestEngine::new(name);
        answers_of(rt, alloc, &mut engine, cases);
        answers_of(rt, alloc, &mut engine.copied(rt), cases);
    }
    for tile in [1usize, 6, 12, 192] {
        let mut engine: TestEngine<F> = by_tiles(rt, alloc, tile);
        answers_of(rt, alloc, &mut engine, cases);
    }
}

// An engine by tiles of one size.
pub(crate) fn by_tiles<F: TwoAdicField>(
    rt: &impl Abort,
    alloc: Global,
    tile: usize,
) -> TestEngine<F> {
    assert!(rt; 1 <= tile && tile <= 1 << 32);
    let engine = Radix2DFTSmallBatch::with_tile(alloc, 1, tile);
    TestEngine::of(
        EngineName::Small,
        Engine::Small(engine.expect(rt, "memory")),
    )
}

#[test]
fn calls_answer_worked_numbers_over_baby_bear(rt: HostRuntime) {
    over(
        &rt,
        rt.alloc(),
        FieldName::BabyBear,
        Topic::WorkedAnswers(&OVER_BABY_BEAR),
    );
}

#[test]
fn calls_answer_worked_numbers_over_goldilocks(rt: HostRuntime) {
    over(
        &rt,
        rt.alloc(),
        FieldName::Goldilocks,
        Topic::WorkedAnswers(&OVER_GOLDILOCKS),
    );
}

// The values of 1 + 2 x + 3 x^2 + 4 x^3, of 2 x and of 3 x^2.
#[derive(Drop)]
pub(crate) struct ValuesOfACubic {
    whole: [u64; 4],
    linear: [u64; 4],
    square: [u64; 4],
}

// Of the cubic the coefficient in row 1 stays: 2 x, or 3 x^2 where the rows are in bit reversed order.
fn coefficient_alone<F: CanonicalField>(
    rt: &impl Abort,
    alloc: Global,
    engine: &mut TestEngine<F>,
    values: &ValuesOfACubic,
) {
    let rows = Input {
        mat: matrix(rt, alloc, &values.whole, 1),
        added_bits: 0,
        shift: F::ONE,
        change: Change::EntryOneAlone,
    };
    let answer = match engine.layout() {
        Layout::Natural => &values.linear,
        Layout::BitReversed => &values.square,
    };
    let found = rows_of(rt, engine, Call::WithTransform, rows);
    assert_rows(rt, &found, answer, 1);
}

pub(crate) fn layouts_over<F: CanonicalField>(
    rt: &impl Abort,
    alloc: Global,
    values: &ValuesOfACubic,
) {
    for name in EVERY_ENGINE {
        let mut engine: TestEngine<F> = TestEngine::new(name);
        assert!(rt;
            engine.layout() == name.layout(),
            "layout of {}",
            name.word()
        );
        coefficient_alone(rt, alloc, &mut engine, values);
    }
}

#[test]
fn each_engine_hands_over_coefficients_in_its_order(rt: HostRuntime) {
    let values = ValuesOfACubic {
        whole: [10, 569722814, 2013265919, 1443543103],
        linear: [2, 1443543105, 2013265919, 569722816],
        square: [3, 2013265918, 3, 2013265918],
    };
    over(
        &rt,
        rt.alloc(),
        FieldName::BabyBear,
        Topic::Layouts(&values),
    );
    let values = ValuesOfACubic {
        whole: [
            10,
            18446181119461163007,
            18446744069414584319,
            562949953421310,
        ],
        linear: [
            2,
            562949953421312,
            18446744069414584319,
            18446181119461163009,
        ],
        square: [3, 18446744069414584318, 3, 18446744069414584318],
    };
    over(
        &rt,
        rt.alloc(),
        FieldName::Goldilocks,
        Topic::Layouts(&values),
    );
}

// A constant has one coefficient, and that of zeros is zero, at one height.
fn constants_at<F: TwoAdicField>(
    rt: &impl Abort,
    alloc: Global,
    engine: &mut TestEngine<F>,
    height: usize,
) {
    for (first, operation, later, value) in [
        (13, Operation::Dft, 0, 13),
        (7, Operation::Idft, 7, 0),
        (0, Operation::Dft, 0, 0),
        (0, Operation::Idft, 0, 0),
    ] {
        let rows = column(rt, alloc, height, first, later);
        let answer = column(rt, alloc, height, first, value);
        let rows = input(rt, &rows, 0, F::ONE);
        assert_rows_of(rt, engine, Call::Batch(operation), rows, &answer);
    }
}

pub(crate) fn constants_over<F: TwoAdicField>(rt: &impl Abort, alloc: Global) {
    for name in EVERY_ENGINE {
        let mut engine: TestEngine<F> = TestEngine::new(name);
        for height in [1usize, 2, 4, 8, 16, 32, 64] {
            constants_at(rt, alloc, &mut engine, height);
        }
    }
}

#[test]
fn constants_have_one_coefficient(rt: HostRuntime) {
    over(&rt, rt.alloc(), FieldName::BabyBear, Topic::Constants);
    over(&rt, rt.alloc(), FieldName::Goldilocks, Topic::Constants);
}
