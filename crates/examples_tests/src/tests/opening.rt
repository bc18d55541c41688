// Values at points of extension fields, as `vectors/opening.py` worked them out from the coefficients.

use super::FieldName;
use super::extensions::{Topic, coordinates_of, element, over};
use super::helpers::matrices::{assert_rows, sample};
use examples::extension::ExtensionField;
use examples::opening::open_in_extension;
use p3_dft::{CanonicalField, Field, Products, RowMajorMatrix, TwoAdicField, fits_dft};
use p3_interpolation::is_off_coset;
use std::alloc::Global;
use std::process::Abort;

// The matrix that `sample` makes, as values on a coset: what its columns' polynomials are at the point. Elements are
// given by their coordinates.
pub(crate) struct Case {
    shape: (usize, usize),
    seed: u8,
    shift: u64,
    point: &'static [u64],
    values: &'static [u64],
}

const OVER_BABY_BEAR: [Case; 10] = [
    Case {
        shape: (1, 1),
        seed: 1,
        shift: 3,
        point: &[33290501, 1753233343, 1313460341, 1579852286],
        values: &[1664526, 0, 0, 0],
    },
    Case {
        shape: (1, 3),
        seed: 2,
        shift: 4,
        point: &[0, 1, 0, 0],
        values: &[3329051, 0, 0, 0, 780801184, 0, 0, 0, 1288761972, 0, 0, 0],
    },
    Case {
        shape: (2, 1),
        seed: 3,
        shift: 5,
        point: &[36619551, 519104080, 197723537, 1150521293],
        values: &[632684657, 1506827006, 1671337849, 1731303530],
    },
    Case {
        shape: (2, 9),
        seed: 4,
        shift: 6,
        point: &[2013264918, 0, 0, 0],
        values: &[
            415458477, 0, 0, 0, 283692294, 0, 0, 0, 1393899801, 0, 0, 0, 808666760, 0, 0, 0,
            603099453, 0, 0, 0, 1344082517, 0, 0, 0, 1090770808, 0, 0, 0, 1739980376, 0, 0, 0,
            773261063, 0, 0, 0,
        ],
    },
    Case {
        shape: (4, 2),
        seed: 5,
        shift: 7,
        point: &[0, 1, 0, 0],
        values: &[
            906232828, 745877876, 961784397, 748677729, 1666919688, 1609716225, 1351823803,
            1324423935,
        ],
    },
    Case {
        shape: (4, 5),
        seed: 6,
        shift: 8,
        point: &[41613126, 1687809067, 537384252, 1513157764],
        values: &[
            1852966312, 324549749, 105662059, 1285809589, 1465637169, 1526372295, 241164336,
            1484099466, 636096529, 1636744584, 987658131, 1099992309, 1894420616, 502737375,
            1044328121, 6284775, 514826415, 922526383, 97970337, 235381359,
        ],
    },
    Case {
        shape: (8, 1),
        seed: 7,
        shift: 9,
        point: &[2013264915, 0, 0, 0],
        values: &[928032862, 0, 0, 0],
    },
    Case {
        shape: (8, 3),
        seed: 8,
        shift: 10,
        point: &[44942176, 453679804, 1434913369, 1083826771],
        values: &[
            718607654, 1466126328, 1713097420, 1888475824, 736896542, 1494048919, 269285308,
            461924329, 454203301, 1087780988, 615913181, 219105536,
        ],
    },
    Case {
        shape: (16, 2),
        seed: 9,
        shift: 11,
        point: &[46606701, 843248133, 877044967, 1875794235],
        values: &[
            284228231, 290822428, 1607301381, 430071480, 1597631723, 1477591855, 487578703,
            1726919267,
        ],
    },
    Case {
        shape: (32, 1),
        seed: 10,
        shift: 12,
        point: &[48271226, 1232816462, 319176565, 654495778],
        values: &[110547287, 1893366675, 1664099881, 556225500],
    },
];

const OVER_GOLDILOCKS: [Case; 10] = [
    Case {
        shape: (1, 1),
        seed: 1,
        shift: 3,
        point: &[33290501, 55412871177026],
        values: &[1664526, 0],
    },
    Case {
        shape: (1, 3),
        seed: 2,
        shift: 4,
        point: &[0, 1],
        values: &[3329051, 0, 5541288615776, 0, 9223613433174546401, 0],
    },
    Case {
        shape: (2, 1),
        seed: 3,
        shift: 5,
        point: &[36619551, 60954158128276],
        values: &[6455588468089253473, 13249024997502186407],
    },
    Case {
        shape: (2, 9),
        seed: 4,
        shift: 6,
        point: &[18446744069414583318, 0],
        values: &[
            10813629290220707439,
            0,
            16641364856496595479,
            0,
            4901733806310751098,
            0,
            8221815124082467188,
            0,
            17201987590977951974,
            0,
            10016606910653544546,
            0,
            5904999982757322332,
            0,
            4560304820161745229,
            0,
            16876680044016715652,
            0,
        ],
    },
    Case {
        shape: (4, 2),
        seed: 5,
        shift: 7,
        point: &[0, 1],
        values: &[
            17723808531850545271,
            7369795117807572889,
            10626960408893894865,
            12731843535202091799,
        ],
    },
    Case {
        shape: (4, 5),
        seed: 6,
        shift: 8,
        point: &[41613126, 69266088555151],
        values: &[
            7471514739497410887,
            16722022280773670563,
            4921323656326230291,
            5797541405370257959,
            2173397414601115985,
            15149020730060438140,
            9565109750795403532,
            17797809098855302303,
            16395119130165815843,
            17510602520913073347,
        ],
    },
    Case {
        shape: (8, 1),
        seed: 7,
        shift: 9,
        point: &[18446744069414583315, 0],
        values: &[1816693770900642309, 0],
    },
    Case {
        shape: (8, 3),
        seed: 8,
        shift: 10,
        point: &[44942176, 74807375506401],
        values: &[
            696625626707476604,
            2110614477007294314,
            6885835931138439362,
            6601064628398660721,
            1433420361200775874,
            16335108317077764,
        ],
    },
    Case {
        shape: (16, 2),
        seed: 9,
        shift: 11,
        point: &[46606701, 77578018982026],
        values: &[
            10840827125091609057,
            7330176292827930515,
            1360762931207788874,
            13317242453118457024,
        ],
    },
    Case {
        shape: (32, 1),
        seed: 10,
        shift: 12,
        point: &[48271226, 80348662457651],
        values: &[8600908034819320453, 18442097661728637939],
    },
];

fn assert_opening<F: CanonicalField, E: ExtensionField<F>>(
    rt: &impl Abort,
    alloc: Global,
    case: &Case,
) {
    let (height, width) = case.shape;
    let mat: RowMajorMatrix<F> = sample(rt, alloc, height, width, case.seed);
    assert!(rt; fits_dft::<F>(mat.height(), mat.width()));
    let shift = F::from_u64(case.shift);
    assert!(rt; shift.try_inverse().is_some());
    let point = element::<F, E>(rt, alloc, case.point);
    assert!(rt; is_off_coset(mat.height(), E::from_base(shift), point));
    let opened = open_in_extension(&mat, shift, point, &mut Products::new());
    let opened = RowMajorMatrix::new_col(opened.expect(rt, "memory"));
    let coordinates = coordinates_of::<F, E>(rt, &opened);
    assert_rows(rt, &coordinates, case.values, E::DIMENSION);
}

// Points of a coset are told from one off it.
fn assert_coset_told<F: CanonicalField, E: ExtensionField<F>>(rt: &impl Abort) {
    assert!(rt; 3 <= F::TWO_ADICITY);
    let step = F::two_adic_generator(3);
    let shift = F::from_u8(5);
    let mut point = shift;
    for _i in 0..8 {
        assert!(rt; !is_off_coset(8, E::from_base(shift), E::from_base(point)));
        point = point * step;
    }
    let root: E = ExtensionField::<F>::root();
    assert!(rt; is_off_coset(8, E::from_base(shift), root));
}

pub(crate) fn openings<F: CanonicalField, E: ExtensionField<F>>(
    rt: &impl Abort,
    alloc: Global,
    cases: &[Case],
) {
    for case in cases {
        assert_opening::<F, E>(rt, alloc, case);
    }
    assert_coset_told::<F, E>(rt);
}

#[test]
fn openings_in_extension_fields(rt: HostRuntime) {
    let topic = Topic::Openings(&OVER_BABY_BEAR);
    over(&rt, rt.alloc(), FieldName::BabyBear, topic);
    let topic = Topic::Openings(&OVER_GOLDILOCKS);
    over(&rt, rt.alloc(), FieldName::Goldilocks, topic);
}
