// Numbers that another program worked out (`vectors/interpolation.py`), over the three named fields.

use crate::{
    CosetGenerator, interpolate_coset, interpolate_subgroup, is_off_coset,
    vanishing_inverses_off_subgroups,
};
use p3_dft::fits_dft;
use p3_field::{
    BabyBear, CanonicalField, Field, Goldilocks, KoalaBear, Products, batch_multiplicative_inverse,
    first_without_inverse,
};
use p3_matrix::RowMajorMatrix;
use std::alloc::Global;
use std::process::Abort;

// Entry n of a matrix of so many rows is `n * n + seed`; what its columns' polynomials are at the point.
#[derive(Drop)]
struct Opening<'a> {
    height: usize,
    seed: usize,
    shift: u64,
    point: u64,
    values: &'a [u64],
}

// The inverses of a vanishing polynomial's values on the coset of `GENERATOR`.
#[derive(Drop)]
struct Vanishing<'a> {
    log_height: u8,
    added_bits: u8,
    inverses: &'a [u64],
}

// Of one field; elements stand beside their inverses.
#[derive(Drop)]
struct Table<'a> {
    openings: &'a [Opening<'a>],
    vanishing: &'a [Vanishing<'a>],
    inverses: &'a [(u64, u64)],
}

const BABY_BEAR: Table<'static> = Table {
    openings: &[
        Opening {
            height: 1,
            seed: 1,
            shift: 31,
            point: 2013265916,
            values: &[1],
        },
        Opening {
            height: 1,
            seed: 4,
            shift: 961,
            point: 2013264916,
            values: &[4, 5, 8],
        },
        Opening {
            height: 2,
            seed: 7,
            shift: 1,
            point: 2013263916,
            values: &[1010],
        },
        Opening {
            height: 2,
            seed: 10,
            shift: 923521,
            point: 2013262916,
            values: &[
                672579077, 374648666, 76718257, 1792053771, 1494123366, 1196192963, 898262562,
                600332163, 302401766,
            ],
        },
        Opening {
            height: 4,
            seed: 13,
            shift: 1,
            point: 2013261916,
            values: &[343955990, 1747669074],
        },
        Opening {
            height: 4,
            seed: 16,
            shift: 887503681,
            point: 2013260916,
            values: &[
                542496004, 1965361419, 1374960915, 784560413, 194159913, 1617025336, 1026624840,
                436224346, 1859089775, 1268689285, 678288797, 87888311, 1510753748, 920353266,
                329952786, 1752818229, 1162417753,
            ],
        },
        Opening {
            height: 8,
            seed: 19,
            shift: 1340157138,
            point: 2013259916,
            values: &[1950219574],
        },
        Opening {
            height: 8,
            seed: 22,
            shift: 1,
            point: 2013258916,
            values: &[402927929, 437583737, 472239547, 506895359, 541551173],
        },
        Opening {
            height: 16,
            seed: 25,
            shift: 1414086099,
            point: 2013257916,
            values: &[1371245394, 1102973378],
        },
        Opening {
            height: 32,
            seed: 28,
            shift: 1558084728,
            point: 2013256916,
            values: &[965316123, 1866065518, 753548994],
        },
    ],
    vanishing: &[
        Vanishing {
            log_height: 0,
            added_bits: 0,
            inverses: &[1946157057],
        },
        Vanishing {
            log_height: 0,
            added_bits: 1,
            inverses: &[1946157057, 62914560],
        },
        Vanishing {
            log_height: 1,
            added_bits: 0,
            inverses: &[2011168769],
        },
        Vanishing {
            log_height: 1,
            added_bits: 1,
            inverses: &[2011168769, 592260141],
        },
        Vanishing {
            log_height: 0,
            added_bits: 3,
            inverses: &[
                1946157057, 334273779, 764677444, 1800566699, 62914560, 415349505, 419842838,
                396546356,
            ],
        },
        Vanishing {
            log_height: 2,
            added_bits: 2,
            inverses: &[1301714455, 631102761, 1240000565, 985580981],
        },
        Vanishing {
            log_height: 3,
            added_bits: 1,
            inverses: &[1270857510, 808341871],
        },
        Vanishing {
            log_height: 5,
            added_bits: 2,
            inverses: &[1366701846, 467540740, 66262741, 336714977],
        },
        Vanishing {
            log_height: 8,
            added_bits: 3,
            inverses: &[
                1066652180, 1866182462, 1964901410, 1896225939, 1806581454, 1988221751, 1785932929,
                941261389,
            ],
        },
        Vanishing {
            log_height: 20,
            added_bits: 1,
            inverses: &[1103688197, 1151569887],
        },
    ],
    inverses: &[
        (1, 1),
        (2, 1006632961),
        (3, 1342177281),
        (7, 862828252),
        (10, 1811939329),
        (65537, 813852542),
        (1048576, 2013264001),
        (1000000007, 462668628),
        (1073741823, 350133203),
        (12345, 948982940),
    ],
};

const KOALA_BEAR: Table<'static> = Table {
    openings: &[
        Opening {
            height: 1,
            seed: 1,
            shift: 3,
            point: 2130706428,
            values: &[1],
        },
        Opening {
            height: 1,
            seed: 4,
            shift: 9,
            point: 2130705428,
            values: &[4, 5, 8],
        },
        Opening {
            height: 2,
            seed: 7,
            shift: 1,
            point: 2130704428,
            values: &[1010],
        },
        Opening {
            height: 2,
            seed: 10,
            shift: 81,
            point: 2130703428,
            values: &[
                1553, 1183727693, 236747402, 1420473546, 473493259, 1657219407, 710239124,
                1893965276, 946984997,
            ],
        },
        Opening {
            height: 4,
            seed: 13,
            shift: 1,
            point: 2130702428,
            values: &[1417873189, 2083432614],
        },
        Opening {
            height: 4,
            seed: 16,
            shift: 729,
            point: 2130701428,
            values: &[
                712011274, 1440013228, 37308751, 765310709, 1493312669, 90608198, 818610162,
                1546612128, 143907663, 871909633, 1599911605, 197207146, 925209122, 1653211100,
                250506647, 978508629, 1706510613,
            ],
        },
        Opening {
            height: 8,
            seed: 19,
            shift: 2187,
            point: 2130700428,
            values: &[1435307854],
        },
        Opening {
            height: 8,
            seed: 22,
            shift: 1,
            point: 2130699428,
            values: &[1487191987, 848638808, 210085631, 1702238889, 1063685716],
        },
        Opening {
            height: 16,
            seed: 25,
            shift: 19683,
            point: 2130698428,
            values: &[747424724, 219008807],
        },
        Opening {
            height: 32,
            seed: 28,
            shift: 59049,
            point: 2130697428,
            values: &[1091756009, 368501510, 1775953446],
        },
    ],
    vanishing: &[
        Vanishing {
            log_height: 0,
            added_bits: 0,
            inverses: &[1065353217],
        },
        Vanishing {
            log_height: 0,
            added_bits: 1,
            inverses: &[1065353217, 532676608],
        },
        Vanishing {
            log_height: 1,
            added_bits: 0,
            inverses: &[1864368129],
        },
        Vanishing {
            log_height: 1,
            added_bits: 1,
            inverses: &[1864368129, 1491494503],
        },
        Vanishing {
            log_height: 0,
            added_bits: 3,
            inverses: &[
                1065353217, 1264248816, 1709578650, 1019265060, 532676608, 1285873631, 1273410356,
                1939268149,
            ],
        },
        Vanishing {
            log_height: 2,
            added_bits: 2,
            inverses: &[1677931316, 958731947, 1377163914, 323198714],
        },
        Vanishing {
            log_height: 3,
            added_bits: 1,
            inverses: &[1527547615, 1706318547],
        },
        Vanishing {
            log_height: 5,
            added_bits: 2,
            inverses: &[1551981988, 607857650, 523407579, 532800566],
        },
        Vanishing {
            log_height: 8,
            added_bits: 3,
            inverses: &[
                141513720, 1700987112, 583016053, 1170308058, 1954983234, 398461790, 1949506948,
                1290034822,
            ],
        },
        Vanishing {
            log_height: 20,
            added_bits: 1,
            inverses: &[1668022917, 2062776267],
        },
    ],
    inverses: &[
        (1, 1),
        (2, 1065353217),
        (3, 710235478),
        (7, 913159900),
        (10, 639211930),
        (65537, 1969351839),
        (1048576, 2130704401),
        (1000000007, 1915031107),
        (1073741823, 1360974789),
        (12345, 564046061),
    ],
};

const GOLDILOCKS: Table<'static> = Table {
    openings: &[
        Opening {
            height: 1,
            seed: 1,
            shift: 7,
            point: 18446744069414584316,
            values: &[1],
        },
        Opening {
            height: 1,
            seed: 4,
            shift: 49,
            point: 18446744069414583316,
            values: &[4, 5, 8],
        },
        Opening {
            height: 2,
            seed: 7,
            shift: 1,
            point: 18446744069414582316,
            values: &[1010],
        },
        Opening {
            height: 2,
            seed: 10,
            shift: 2401,
            point: 18446744069414581316,
            values: &[
                8420504581457053169,
                6192451361910935134,
                3964398142364817101,
                1736344922818699070,
                17955035772687165362,
                15726982553141047335,
                13498929333594929310,
                11270876114048811287,
                9042822894502693266,
            ],
        },
        Opening {
            height: 4,
            seed: 13,
            shift: 1,
            point: 18446744069414580316,
            values: &[448011838850913764, 5171700880149572403],
        },
        Opening {
            height: 4,
            seed: 16,
            shift: 117649,
            point: 18446744069414579316,
            values: &[
                1778467798903943163,
                9433511163300436207,
                17088554527696929253,
                6296853822678837980,
                13951897187075331030,
                3160196482057239761,
                10815239846453732815,
                23539141435641550,
                7678582505832134608,
                15333625870228627668,
                4541925165210536409,
                12196968529607029473,
                1405267824588938218,
                9060311188985431286,
                16715354553381924356,
                5923653848363833107,
                13578697212760326181,
            ],
        },
        Opening {
            height: 8,
            seed: 19,
            shift: 823543,
            point: 18446744069414578316,
            values: &[17220997604991185181],
        },
        Opening {
            height: 8,
            seed: 22,
            shift: 1,
            point: 18446744069414577316,
            values: &[
                9169456173569127458,
                18384373001605552790,
                9152545760227393803,
                18367462588263819139,
                9135635346885660156,
            ],
        },
        Opening {
            height: 16,
            seed: 25,
            shift: 40353607,
            point: 18446744069414576316,
            values: &[14265315026139261076, 18036742197154657791],
        },
        Opening {
            height: 32,
            seed: 28,
            shift: 282475249,
            point: 18446744069414575316,
            values: &[
                15854552079562124447,
                3848558357569243627,
                10289308704990947130,
            ],
        },
    ],
    vanishing: &[
        Vanishing {
            log_height: 0,
            added_bits: 0,
            inverses: &[15372286724512153601],
        },
        Vanishing {
            log_height: 0,
            added_bits: 1,
            inverses: &[15372286724512153601, 2305843008676823040],
        },
        Vanishing {
            log_height: 1,
            added_bits: 0,
            inverses: &[18062436901301780481],
        },
        Vanishing {
            log_height: 1,
            added_bits: 1,
            inverses: &[18062436901301780481, 11436981323037042279],
        },
        Vanishing {
            log_height: 0,
            added_bits: 3,
            inverses: &[
                15372286724512153601,
                17840038741927071705,
                12174811679316886160,
                13846583412627264917,
                2305843008676823040,
                5997873833807795942,
                10699150966757198398,
                3018144964134660484,
            ],
        },
        Vanishing {
            log_height: 2,
            added_bits: 2,
            inverses: &[
                14749709112169411380,
                406914154860077854,
                10175660238124198262,
                3492461493429722003,
            ],
        },
        Vanishing {
            log_height: 3,
            added_bits: 1,
            inverses: &[12462684675146804821, 11173059858852192089],
        },
        Vanishing {
            log_height: 5,
            added_bits: 2,
            inverses: &[
                15415749239281190476,
                15991089729973957705,
                7585136886220616001,
                11295522812833845685,
            ],
        },
        Vanishing {
            log_height: 8,
            added_bits: 3,
            inverses: &[
                16588157237149865781,
                4779106426647384279,
                11224741721775367364,
                8783550784503381216,
                913421275223712453,
                14599810938235530709,
                16760721784757970787,
                5808368990975437893,
            ],
        },
        Vanishing {
            log_height: 20,
            added_bits: 1,
            inverses: &[207925557327343421, 4989607047505236288],
        },
    ],
    inverses: &[
        (1, 1),
        (2, 9223372034707292161),
        (3, 12297829379609722881),
        (7, 2635249152773512046),
        (10, 16602069662473125889),
        (65537, 18446462598732840961),
        (1048576, 18446726477228544001),
        (1000000007, 9081295222102570755),
        (1073741823, 8513881876869818210),
        (12345, 469200294677697811),
    ],
};

// Stops the test where elements have other numbers.
fn have_numbers<F: CanonicalField>(rt: &impl Abort, elements: &[F], numbers: &[u64]) {
    assert_eq!(rt; elements.len(), numbers.len());
    for (x, number) in elements.iter().zip(numbers) {
        assert_eq!(rt; x.as_canonical_u64(), *number);
    }
}

fn opening_agrees<F: CanonicalField>(rt: &impl Abort, alloc: Global, case: &Opening) {
    let width = case.values.len();
    let mut entries = Vec::new(alloc);
    for n in 0..case.height.saturating_mul(width) {
        let number = n.saturating_mul(n).saturating_add(case.seed);
        entries.push(F::from_usize(number)).expect(rt, "memory");
    }
    assert!(rt; width != 0 && entries.len() % width == 0);
    let mat = RowMajorMatrix::new(entries, width);
    let shift = F::from_u64(case.shift);
    let point = F::from_u64(case.point);
    assert!(rt; fits_dft::<F>(mat.height(), mat.width()));
    assert!(rt; shift.try_inverse().is_some());
    assert!(rt; is_off_coset(mat.height(), shift, point));
    let mut products = Products::new();
    let found = interpolate_coset(&mat, shift, point, &mut products).expect(rt, "memory");
    have_numbers(rt, found.as_slice(), case.values);
}

fn inverses_agree<F: CanonicalField>(
    rt: &impl Abort,
    alloc: Global,
    elements: &[F],
    numbers: &[u64],
) {
    let None = first_without_inverse(elements) else {
        panic!(rt; "each has an inverse");
    };
    let found = batch_multiplicative_inverse(alloc, elements).expect(rt, "memory");
    have_numbers(rt, found.as_slice(), numbers);
}

fn all_inverses_agree<F: CanonicalField>(rt: &impl Abort, alloc: Global, table: &[(u64, u64)]) {
    let mut elements = Vec::new(alloc);
    let mut numbers = Vec::new(alloc);
    for (x, inverse) in table {
        inverses_agree::<F>(rt, alloc, elements.as_slice(), numbers.as_slice());
        elements.push(F::from_u64(*x)).expect(rt, "memory");
        numbers.push(*inverse).expect(rt, "memory");
    }
    inverses_agree::<F>(rt, alloc, elements.as_slice(), numbers.as_slice());
    let place = elements.len();
    elements.push(F::ZERO).expect(rt, "memory");
    elements.push(F::ONE).expect(rt, "memory");
    assert_eq!(rt; first_without_inverse(elements.as_slice()), Some(place));
}

fn vanishing_agrees<F: CosetGenerator + CanonicalField>(
    rt: &impl Abort,
    alloc: Global,
    case: &Vanishing,
) {
    let log_height = usize::from(case.log_height);
    let added_bits = usize::from(case.added_bits);
    assert!(rt; log_height + added_bits <= F::TWO_ADICITY && added_bits < 64);
    let found = vanishing_inverses_off_subgroups::<F>(alloc, log_height, added_bits);
    have_numbers(rt, found.expect(rt, "memory").as_slice(), case.inverses);
}

fn table_agrees<F: CosetGenerator + CanonicalField>(rt: &impl Abort, alloc: Global, table: &Table) {
    for case in table.openings {
        opening_agrees::<F>(rt, alloc, case);
    }
    for case in table.vanishing {
        vanishing_agrees::<F>(rt, alloc, case);
    }
    all_inverses_agree::<F>(rt, alloc, table.inverses);
}

#[test]
fn openings_and_inverses_have_worked_numbers(rt: HostRuntime) {
    table_agrees::<BabyBear>(&rt, rt.alloc(), &BABY_BEAR);
    table_agrees::<KoalaBear>(&rt, rt.alloc(), &KOALA_BEAR);
    table_agrees::<Goldilocks>(&rt, rt.alloc(), &GOLDILOCKS);
}
