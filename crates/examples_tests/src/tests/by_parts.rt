// Transforms in every number of parts, against values that `vectors/by_parts.py` worked out one by one.

use super::helpers::matrices::{assert_rows, sample};
use super::{FieldName, Topic, over};
use examples::by_parts::coset_dft_by_parts;
use p3_dft::{CanonicalField, Radix2Dit, RowMajorMatrix, fits_dft};
use std::alloc::Global;
use std::process::Abort;

// The values on a coset of the polynomials whose coefficients `sample` makes.
pub(crate) struct Case {
    log_height: usize,
    width: usize,
    seed: u8,
    shift: u64,
    values: &'static [u64],
}

const OVER_BABY_BEAR: [Case; 10] = [
    Case {
        log_height: 0,
        width: 1,
        seed: 1,
        shift: 1,
        values: &[1664526],
    },
    Case {
        log_height: 0,
        width: 4,
        seed: 2,
        shift: 3,
        values: &[3329051, 780801184, 1288761972, 1417299381],
    },
    Case {
        log_height: 1,
        width: 1,
        seed: 3,
        shift: 31,
        values: &[47661901, 1975591172],
    },
    Case {
        log_height: 1,
        width: 3,
        seed: 4,
        shift: 2013265919,
        values: &[
            43987246, 1428899142, 210788806, 1982594877, 1690976542, 135261530,
        ],
    },
    Case {
        log_height: 2,
        width: 1,
        seed: 5,
        shift: 1,
        values: &[1339655494, 165395504, 1933835132, 620936216],
    },
    Case {
        log_height: 2,
        width: 5,
        seed: 6,
        shift: 3,
        values: &[
            138916017, 1565638273, 160649809, 1630432624, 1322360114, 1019045891, 1288502271,
            774275470, 1441185937, 1929886685, 576965989, 163407022, 834101509, 409625948,
            1874895531, 318286628, 298952671, 499924431, 766570992, 55107699,
        ],
    },
    Case {
        log_height: 3,
        width: 1,
        seed: 7,
        shift: 31,
        values: &[
            471332553, 109129874, 566413059, 1543892523, 23309689, 17819103, 73602231, 1314246218,
        ],
    },
    Case {
        log_height: 3,
        width: 2,
        seed: 8,
        shift: 2013265919,
        values: &[
            1856062459, 1118964498, 1734240319, 937431923, 1922442318, 1136615384, 504386367,
            779508975, 408737366, 545128270, 510625828, 1214779999, 644553829, 1383258233,
            578544806, 1723874614,
        ],
    },
    Case {
        log_height: 4,
        width: 1,
        seed: 9,
        shift: 1,
        values: &[
            1577860440, 126340483, 1798862267, 607011082, 523291859, 1047510659, 758279973,
            1770445580, 266010236, 402797949, 532439221, 1836832297, 500221850, 193731665,
            528514236, 1862403266,
        ],
    },
    Case {
        log_height: 5,
        width: 1,
        seed: 10,
        shift: 3,
        values: &[
            1424200946, 1720428117, 72784140, 618033157, 33679090, 389364553, 1479114735, 61019337,
            693513691, 1741701429, 761752573, 460451776, 107047001, 205262646, 570939492,
            178662153, 1186199228, 1142378821, 1087153085, 141335771, 1044295591, 1781466700,
            1283237979, 1213936401, 1925015957, 809559706, 1530950602, 1573888451, 293952712,
            134253893, 1842279850, 1210511343,
        ],
    },
];

const OVER_GOLDILOCKS: [Case; 10] = [
    Case {
        log_height: 0,
        width: 1,
        seed: 1,
        shift: 1,
        values: &[1664526],
    },
    Case {
        log_height: 0,
        width: 4,
        seed: 2,
        shift: 3,
        values: &[
            3329051,
            5541288615776,
            9223613433174546401,
            5208786213951105362,
        ],
    },
    Case {
        log_height: 1,
        width: 1,
        seed: 3,
        shift: 31,
        values: &[257669899827007, 18446486399524744466],
    },
    Case {
        log_height: 1,
        width: 3,
        seed: 4,
        shift: 18446744069414584319,
        values: &[
            6835215417436507526,
            7049759738932636300,
            10918058285742308411,
            11611528651991392997,
            11397006495633082073,
            7529645836251012570,
        ],
    },
    Case {
        log_height: 2,
        width: 1,
        seed: 5,
        shift: 1,
        values: &[
            10716552592794435223,
            14158012370584263940,
            16954762191744937260,
            13510905053153407044,
        ],
    },
    Case {
        log_height: 2,
        width: 5,
        seed: 6,
        shift: 3,
        values: &[
            6555664316423591673,
            6372497198061918741,
            7910785518674438929,
            8520353913049108903,
            5641206330791588969,
            5587476179833061729,
            14356563782510446193,
            6271860608335123802,
            10667409479727763163,
            16445800545010062100,
            4472392008998789768,
            3378637622060828778,
            4816906515528925802,
            2454733805560035701,
            11976324487998105505,
            1831211564199089755,
            12785856031646048034,
            17896810112736609787,
            3968472553797610369,
            8753804628926424250,
        ],
    },
    Case {
        log_height: 3,
        width: 1,
        seed: 7,
        shift: 31,
        values: &[
            5722359546058655692,
            8652908483825789332,
            15080250317617077713,
            296695033480437571,
            509466601744491360,
            6088867449235036625,
            9024123599571598904,
            9965561176803879174,
        ],
    },
    Case {
        log_height: 3,
        width: 2,
        seed: 8,
        shift: 18446744069414584319,
        values: &[
            3764021315709112801,
            84562533322547037,
            13772498786878774955,
            14227432116544959012,
            3290621429675901026,
            3734386731915692265,
            11276756747749740764,
            14454803046453664338,
            1430825026074462909,
            3346468547806503491,
            13630678956099501208,
            14557724428144027434,
            10800758175391496542,
            8990107906936176271,
            15820815840185876687,
            14391668287730523644,
        ],
    },
    Case {
        log_height: 4,
        width: 1,
        seed: 9,
        shift: 1,
        values: &[
            1329952587547013493,
            9626056568767944726,
            1974484200860769818,
            13815140471339401396,
            14370287550939595494,
            14490831150678439912,
            17451669035631430338,
            14693063388106892372,
            3847557483312099500,
            10397953171402996240,
            6819553339287003932,
            7645043309123998886,
            15046094194782977347,
            13020416987584105223,
            15574334233193380183,
            5918258952412901645,
        ],
    },
    Case {
        log_height: 5,
        width: 1,
        seed: 10,
        shift: 3,
        values: &[
            6477459334146403395,
            8433234073238643231,
            14936084776867068743,
            9508795151449865324,
            18242106020433481688,
            10799961863530521830,
            10551584016099041443,
            12119154502349495367,
            9717068291825780265,
            10191454671955040815,
            6607940784389359336,
            4336227860315220121,
            5172541355130102310,
            10818812767789822793,
            3736962176618793462,
            8620544909917752427,
            11974968847396976559,
            3903402624779341709,
            9627233758973843973,
            13132727705795396819,
            14088719264909817508,
            17069041841759101120,
            11890871360033160293,
            12091995168279310342,
            18389043792895889769,
            11104543614959048144,
            4501761451455478561,
            4530826540506052188,
            2754592183243957080,
            4770613562655396755,
            11853033001812258296,
            11641341905069159823,
        ],
    },
];

fn assert_values<F: CanonicalField>(rt: &impl Abort, alloc: Global, case: &Case, log_parts: usize) {
    assert!(rt; case.log_height < 64 && log_parts < 64);
    let height = 1 << case.log_height;
    let coefficients: RowMajorMatrix<F> = sample(rt, alloc, height, case.width, case.seed);
    assert!(rt; fits_dft::<F>(coefficients.height(), coefficients.width()));
    assert!(rt; 1 << log_parts <= coefficients.height());
    let mut engine: Radix2Dit<F> = Radix2Dit::default();
    let shift = F::from_u64(case.shift);
    let values = coset_dft_by_parts(&mut engine, coefficients, shift, log_parts);
    assert_rows(rt, &values.expect(rt, "memory"), case.values, case.width);
}

pub(crate) fn each_number_of_parts<F: CanonicalField>(
    rt: &impl Abort,
    alloc: Global,
    cases: &[Case],
) {
    for case in cases {
        for log_parts in 0..=case.log_height {
            assert_values::<F>(rt, alloc, case, log_parts);
        }
    }
}

#[test]
fn parts_have_the_values_of_the_whole(rt: HostRuntime) {
    let topic = Topic::Parts(&OVER_BABY_BEAR);
    over(&rt, rt.alloc(), FieldName::BabyBear, topic);
    let topic = Topic::Parts(&OVER_GOLDILOCKS);
    over(&rt, rt.alloc(), FieldName::Goldilocks, topic);
}
