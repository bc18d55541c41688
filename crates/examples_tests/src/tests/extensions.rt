// Extension fields of degree four over BabyBear and of degree two over Goldilocks, and foldings with challenges
// of them, as `vectors/extensions.py` worked them out.

ghost use Rattle.std.specs.Prelude.{◌≡◌, ◌*◌};

use super::helpers::matrices::{assert_rows, elements, matrix_of, sample};
use super::{FieldName, opening};
use examples::extension::ExtensionField;
use examples::extension_folding::{fold_into_extension, last_coefficients};
use examples::quadratic::{Eleven, Quadratic, Root, Seven, Square};
use p3_dft::{
    BabyBear, CanonicalField, FieldOps, Goldilocks, Layout, Radix2Dit, RowMajorMatrix, fits_dft,
};
use std::alloc::Global;
use std::fmt::{Debug, Display};
use std::process::Abort;

// Two elements by their coordinates, their product, and the inverse of the first.
pub(crate) struct Product {
    left: &'static [u64],
    right: &'static [u64],
    product: &'static [u64],
    inverse: &'static [u64],
}

// The folding of the matrix that `sample` makes, and its coefficients: coordinates of elements, row after row.
pub(crate) struct Folding {
    shape: (usize, usize),
    seed: u8,
    layout: Layout,
    shift: u64,
    beta: &'static [u64],
    values: &'static [u64],
    coefficients: &'static [u64],
}

const PRODUCTS_OVER_BABY_BEAR: [Product; 6] = [
    Product {
        left: &[0, 1, 0, 0],
        right: &[0, 0, 0, 1],
        product: &[11, 0, 0, 0],
        inverse: &[0, 0, 0, 549072524],
    },
    Product {
        left: &[1, 1, 1, 1],
        right: &[0, 0, 0, 1],
        product: &[11, 11, 11, 1],
        inverse: &[201326592, 1811939329, 0, 0],
    },
    Product {
        left: &[2013265920, 2013265920, 2013265920, 2013265920],
        right: &[2, 2013265918, 2013265918, 2013265918],
        product: &[97, 67, 37, 7],
        inverse: &[1811939329, 201326592, 0, 0],
    },
    Product {
        left: &[14980726, 1494513566, 1410215000, 921273866],
        right: &[292387804, 1918976482, 1042951923, 478612486],
        product: &[920699640, 634610541, 30024311, 24939094],
        inverse: &[303132348, 1521061695, 406892357, 1210217504],
    },
    Product {
        left: &[875703082, 986570999, 1411998801, 535399916],
        right: &[1043723925, 1031583938, 869771840, 1342057533],
        product: &[743786369, 870874832, 368804307, 1331396067],
        inverse: &[29392323, 1968887408, 1609359912, 1676859637],
    },
    Product {
        left: &[5, 0, 0, 0],
        right: &[14980726, 1494513566, 1410215000, 921273866],
        product: &[74903630, 1432770067, 1011277237, 579837488],
        inverse: &[1610612737, 0, 0, 0],
    },
];

const FOLDINGS_OVER_BABY_BEAR: [Folding; 10] = [
    Folding {
        shape: (2, 1),
        seed: 1,
        layout: Layout::Natural,
        shift: 3,
        beta: &[33290501, 1753233343, 1313460341, 1579852286],
        values: &[648904695, 408057347, 1704743188, 1681775401],
        coefficients: &[648904695, 408057347, 1704743188, 1681775401],
    },
    Folding {
        shape: (2, 3),
        seed: 2,
        layout: Layout::BitReversed,
        shift: 4,
        beta: &[0, 0, 0, 0],
        values: &[710314216, 0, 0, 0, 1066429889, 0, 0, 0, 635176105, 0, 0, 0],
        coefficients: &[710314216, 0, 0, 0, 1066429889, 0, 0, 0, 635176105, 0, 0, 0],
    },
    Folding {
        shape: (4, 1),
        seed: 3,
        layout: Layout::Natural,
        shift: 5,
        beta: &[1, 0, 0, 0],
        values: &[1100659942, 0, 0, 0, 755024171, 0, 0, 0],
        coefficients: &[1934475017, 0, 0, 0, 1979913318, 0, 0, 0],
    },
    Folding {
        shape: (4, 2),
        seed: 4,
        layout: Layout::BitReversed,
        shift: 6,
        beta: &[38284076, 908672409, 1653121056, 1942488757],
        values: &[
            1004480339, 743169497, 1637010927, 1408269388, 1527670054, 1147558369, 918816830,
            1746326454, 1012171503, 120096993, 1192676061, 1846084776, 1304435515, 1234179472,
            1887588187, 446751337,
        ],
        coefficients: &[
            1008325921, 431633245, 1414843494, 1627177082, 409419824, 184235960, 396569548,
            89905935, 111741285, 1127134852, 845032118, 1895337045, 590303040, 1760404610,
            797443616, 1891505442,
        ],
    },
    Folding {
        shape: (8, 1),
        seed: 5,
        layout: Layout::Natural,
        shift: 7,
        beta: &[39948601, 1298240738, 1095252654, 721190300],
        values: &[
            543447803, 1667113443, 326053980, 32705944, 11489607, 91625826, 1995140424, 1923895389,
            1509781486, 223159216, 791245870, 464688098, 1015346461, 835661704, 1272612295,
            1995210189,
        ],
        coefficients: &[
            266699859, 201073567, 592946662, 1104124905, 1108463075, 1956786525, 846765746,
            189205232, 999402857, 1456384979, 1370113377, 350141494, 570261035, 18468355,
            1864802775, 1104187565,
        ],
    },
    Folding {
        shape: (4, 3),
        seed: 6,
        layout: Layout::BitReversed,
        shift: 8,
        beta: &[0, 0, 0, 0],
        values: &[
            284312273, 0, 0, 0, 559027303, 0, 0, 0, 1532233165, 0, 0, 0, 1369046247, 0, 0, 0,
            34839618, 0, 0, 0, 1303562967, 0, 0, 0,
        ],
        coefficients: &[
            826679260, 0, 0, 0, 1303566421, 0, 0, 0, 1417898066, 0, 0, 0, 337555596, 0, 0, 0,
            1435401457, 0, 0, 0, 159072886, 0, 0, 0,
        ],
    },
    Folding {
        shape: (8, 2),
        seed: 7,
        layout: Layout::Natural,
        shift: 9,
        beta: &[1, 0, 0, 0],
        values: &[
            613980147, 0, 0, 0, 1191037551, 0, 0, 0, 1595056306, 0, 0, 0, 558298533, 0, 0, 0,
            424727030, 0, 0, 0, 365121996, 0, 0, 0, 1556068516, 0, 0, 0, 20846297, 0, 0, 0,
        ],
        coefficients: &[
            1550774480, 0, 0, 0, 30509614, 0, 0, 0, 43233444, 0, 0, 0, 971293876, 0, 0, 0,
            1209305930, 0, 0, 0, 313871662, 0, 0, 0, 1979015036, 0, 0, 0, 209996253, 0, 0, 0,
        ],
    },
    Folding {
        shape: (16, 1),
        seed: 8,
        layout: Layout::BitReversed,
        shift: 10,
        beta: &[44942176, 453679804, 1434913369, 1083826771],
        values: &[
            446609001, 472007965, 1641366344, 391482598, 1220227980, 540010221, 506895567,
            1545097276, 679454702, 183777529, 1054449416, 664128478, 706671857, 812332004,
            1876087346, 1991869606, 1419097550, 559424408, 301711990, 122193931, 936610768,
            1061743814, 838736672, 1819681260, 1807992269, 1277943045, 103296764, 1506710572,
            1848701288, 1265693433, 1517945993, 1509693996,
        ],
        coefficients: &[
            1384828917, 16641832, 1986694222, 1948831935, 1827053987, 1465000676, 1555720949,
            694465748, 1259224086, 889348306, 434872154, 201046025, 1434815179, 1984970046,
            733566963, 376478381, 239727459, 976030966, 567244788, 1317225234, 952720405,
            1223195370, 156923048, 71387889, 1842225169, 1450962664, 1004628053, 1276420698,
            71590296, 1059586522, 1767616837, 256527627,
        ],
    },
    Folding {
        shape: (8, 1),
        seed: 9,
        layout: Layout::Natural,
        shift: 11,
        beta: &[0, 0, 0, 0],
        values: &[
            445341904, 0, 0, 0, 233909322, 0, 0, 0, 404473940, 0, 0, 0, 728336891, 0, 0, 0,
        ],
        coefficients: &[
            1962964955, 0, 0, 0, 1678649854, 0, 0, 0, 1905904028, 0, 0, 0, 1280181797, 0, 0, 0,
        ],
    },
    Folding {
        shape: (16, 1),
        seed: 10,
        layout: Layout::BitReversed,
        shift: 12,
        beta: &[1, 0, 0, 0],
        values: &[
            1208098033, 0, 0, 0, 1063952165, 0, 0, 0, 1922634746, 0, 0, 0, 1277842384, 0, 0, 0,
            142494181, 0, 0, 0, 664315120, 0, 0, 0, 1541540514, 0, 0, 0, 1349804897, 0, 0, 0,
        ],
        coefficients: &[
            1146335255, 0, 0, 0, 1085696396, 0, 0, 0, 207436993, 0, 0, 0, 2003475109, 0, 0, 0,
            241080330, 0, 0, 0, 1430107437, 0, 0, 0, 150892593, 0, 0, 0, 586548757, 0, 0, 0,
        ],
    },
];

const PRODUCTS_OVER_GOLDILOCKS: [Product; 6] = [
    Product {
        left: &[0, 1],
        right: &[0, 1],
        product: &[7, 0],
        inverse: &[0, 2635249152773512046],
    },
    Product {
        left: &[1, 1],
        right: &[0, 1],
        product: &[7, 1],
        inverse: &[3074457344902430720, 15372286724512153601],
    },
    Product {
        left: &[18446744069414584320, 18446744069414584320],
        right: &[2, 18446744069414584318],
        product: &[19, 1],
        inverse: &[15372286724512153601, 3074457344902430720],
    },
    Product {
        left: &[14980726, 24935792945151],
        right: &[4377905383599788489, 4968431178202822170],
        product: &[7731858839580712908, 10474779359644283050],
        inverse: &[12065339964867564361, 10816910626435498273],
    },
    Product {
        left: &[4612762613198299634, 7298209606095522663],
        right: &[15158954036715144210, 5305638258594333117],
        product: &[11258218648728961074, 5158635996390829514],
        inverse: &[6630164884987543501, 594252100194304236],
    },
    Product {
        left: &[5, 0],
        right: &[14980726, 24935792945151],
        product: &[74903630, 124678964725755],
        inverse: &[14757395255531667457, 0],
    },
];

const FOLDINGS_OVER_GOLDILOCKS: [Folding; 10] = [
    Folding {
        shape: (2, 1),
        seed: 1,
        layout: Layout::BitReversed,
        shift: 3,
        beta: &[33290501, 55412871177026],
        values: &[9222975245219925079, 4385316486084728172],
        coefficients: &[9222975245219925079, 4385316486084728172],
    },
    Folding {
        shape: (2, 3),
        seed: 2,
        layout: Layout::Natural,
        shift: 4,
        beta: &[0, 0],
        values: &[
            11827765141684509367,
            0,
            9569730512789584969,
            0,
            15476700549140576411,
            0,
        ],
        coefficients: &[
            11827765141684509367,
            0,
            9569730512789584969,
            0,
            15476700549140576411,
            0,
        ],
    },
    Folding {
        shape: (4, 1),
        seed: 3,
        layout: Layout::BitReversed,
        shift: 5,
        beta: &[1, 0],
        values: &[3324775832706, 0, 13493910656955753850, 0],
        coefficients: &[6746956990865793278, 0, 4895210192792485187, 0],
    },
    Folding {
        shape: (4, 2),
        seed: 4,
        layout: Layout::Natural,
        shift: 6,
        beta: &[38284076, 63724801603901],
        values: &[
            3613702416595811744,
            9790388073580237891,
            2155573505302374242,
            12381909496907153029,
            4839900082863471078,
            18153615087198707962,
            17275201373687687868,
            14308257203573410296,
        ],
        coefficients: &[
            4226801249729641411,
            4748629545682180766,
            9715387439495031055,
            4121711315532989502,
            17917303988788239488,
            3726915750383337427,
            8500967645718202129,
            15089327116511030801,
        ],
    },
    Folding {
        shape: (8, 1),
        seed: 5,
        layout: Layout::BitReversed,
        shift: 7,
        beta: &[39948601, 66495445079526],
        values: &[
            15810497161771618814,
            3701014457322351708,
            6792719243302635041,
            10369988980651040023,
            3827943442469696106,
            2445643623726214115,
            14002616388434492940,
            15473399003984192657,
        ],
        coefficients: &[
            5496758041640964645,
            12609197533774595706,
            2774921860850192641,
            17363903506258296767,
            14611532152500095064,
            12586179284431906918,
            10351960707266427003,
            14835948726195440894,
        ],
    },
    Folding {
        shape: (4, 3),
        seed: 6,
        layout: Layout::Natural,
        shift: 8,
        beta: &[0, 0],
        values: &[
            8634487680653742714,
            0,
            1133557533081921726,
            0,
            9635613115003696666,
            0,
            12821658323709236991,
            0,
            10270162914372263326,
            0,
            13154525746859921673,
            0,
        ],
        coefficients: &[
            1504700967474197692,
            0,
            5701860223727092526,
            0,
            2171697396224517009,
            0,
            687863669562636151,
            0,
            13763678322519607447,
            0,
            15969294367759083083,
            0,
        ],
    },
    Folding {
        shape: (8, 2),
        seed: 7,
        layout: Layout::BitReversed,
        shift: 9,
        beta: &[1, 0],
        values: &[
            8198925349978528169,
            0,
            9127250572998973864,
            0,
            14870805516417148878,
            0,
            8682438086521266138,
            0,
            7394355574287484156,
            0,
            16240807936784939639,
            0,
            1229386385275001164,
            0,
            10159841572644609929,
            0,
        ],
        coefficients: &[
            12535054223843186672,
            0,
            1829212507530155232,
            0,
            4844963039909016900,
            0,
            14531737888382017720,
            0,
            6282312061319348166,
            0,
            12099285987275291312,
            0,
            17004511744409551938,
            0,
            9065670543061637544,
            0,
        ],
    },
    Folding {
        shape: (16, 1),
        seed: 8,
        layout: Layout::Natural,
        shift: 10,
        beta: &[44942176, 74807375506401],
        values: &[
            16252811923106992587,
            13585688124733924709,
            5759942647436025581,
            8348152314303635330,
            12005074733970095130,
            24415898466759425,
            17249357873165550163,
            9936375871127563752,
            3022533827529014399,
            2350720594484524823,
            14130296027901593252,
            14210913139575245641,
            11559629652413441903,
            7340819830081431111,
            3610407842924930104,
            14735134010077105118,
        ],
        coefficients: &[
            12754599824732778430,
            15734056498886742859,
            8825626324495491576,
            16213624265008822964,
            3565980048881368707,
            4700042087830240742,
            5364520883168246219,
            7059971460615613189,
            3155120985594419593,
            4252011671336628034,
            15002925509533043996,
            16855181926897351162,
            1632708847927453843,
            1100496646904212597,
            4583379096753650892,
            2561637387740337466,
        ],
    },
    Folding {
        shape: (8, 1),
        seed: 9,
        layout: Layout::BitReversed,
        shift: 11,
        beta: &[0, 0],
        values: &[
            9223384502611255099,
            0,
            15178858144354203309,
            0,
            13896540315608597490,
            0,
            1008924112947446503,
            0,
        ],
        coefficients: &[
            5215240751526729520,
            0,
            18290964696570724622,
            0,
            9152662714350078308,
            0,
            18226284801788788902,
            0,
        ],
    },
    Folding {
        shape: (16, 1),
        seed: 10,
        layout: Layout::Natural,
        shift: 12,
        beta: &[1, 0],
        values: &[
            14934694685669013076,
            0,
            16230455036874653067,
            0,
            2136469695541114039,
            0,
            3534150099343705006,
            0,
            14298981305854790281,
            0,
            8391255288256629194,
            0,
            844710035096927807,
            0,
            9644323732527966718,
            0,
        ],
        coefficients: &[
            17975252019602892059,
            0,
            15700239858650605218,
            0,
            8362826452822127081,
            0,
            10325026854983100466,
            0,
            7967917519737229471,
            0,
            308704538796589754,
            0,
            9295941901631457392,
            0,
            7065644783307166567,
            0,
        ],
    },
];

// The element with these coordinates.
pub(crate) fn element<F: CanonicalField, E: ExtensionField<F>>(
    rt: &impl Abort,
    alloc: Global,
    numbers: &[u64],
) -> E {
    let coordinates: Vec<F> = elements(rt, alloc, numbers);
    assert!(rt; coordinates.len() == E::DIMENSION);
    E::from_coordinates(&coordinates)
}

// The products, and the text of the root.
fn products<F: CanonicalField, E: ExtensionField<F> + Debug + Display>(
    rt: &impl Abort,
    alloc: Global,
    cases: &[Product],
    root: &str,
) {
    for case in cases {
        let left: E = element::<F, E>(rt, alloc, case.left);
        let right: E = element::<F, E>(rt, alloc, case.right);
        assert!(rt; left * right == element::<F, E>(rt, alloc, case.product));
        let inverse = left.try_inverse().expect(rt, "an inverse");
        assert!(rt; inverse == element::<F, E>(rt, alloc, case.inverse));
    }
    assert!(rt; E::ZERO.try_inverse().is_none());
    let x: E = ExtensionField::<F>::root();
    let text = format!(in alloc; "{x} {x:?}").expect(rt, "memory");
    assert!(rt; text.as_str() == root);
}

// The coordinates of a matrix's elements, row after row.
pub(crate) fn coordinates_of<F: CanonicalField, E: ExtensionField<F>>(
    rt: &impl Abort,
    mat: &RowMajorMatrix<E>,
) -> RowMajorMatrix<F> {
    let mut entries = Vec::new(*mat.allocator());
    for element in mat.values() {
        for t in 0..E::DIMENSION {
            entries.push(element.coordinate(t)).expect(rt, "memory");
        }
    }
    let width = mat
        .width()
        .checked_mul(E::DIMENSION)
        .expect(rt, "so many coordinates");
    matrix_of(rt, entries, width)
}

// Stops the test where the polynomials with these values on the coset of the shift have other coefficients.
fn assert_last_coefficients<F: CanonicalField, E: ExtensionField<F>>(
    rt: &impl Abort,
    values: RowMajorMatrix<E>,
    shift: F,
    coefficients: &[u64],
    entries: usize,
)
    requires { entries ≡ values.width * E.DIMENSION }
{
    assert!(rt; shift.try_inverse().is_some());
    assert!(rt; fits_dft::<F>(values.height(), entries));
    let mut engine: Radix2Dit<F> = Radix2Dit::default();
    let last = last_coefficients(&mut engine, values, shift).expect(rt, "memory");
    assert_rows(
        rt,
        &coordinates_of::<F, E>(rt, &last),
        coefficients,
        entries,
    );
}

// Stops the test where a folding does not have these values, or, in natural order, these coefficients.
fn foldings<F: CanonicalField, E: ExtensionField<F>>(
    rt: &impl Abort,
    alloc: Global,
    cases: &[Folding],
) {
    for case in cases {
        let (height, width) = case.shape;
        let values: RowMajorMatrix<F> = sample(rt, alloc, height, width, case.seed);
        assert!(rt; fits_dft::<F>(values.height(), values.width()));
        assert!(rt; values.height() >= 2);
        let shift = F::from_u64(case.shift);
        assert!(rt; shift.try_inverse().is_some());
        let beta = element::<F, E>(rt, alloc, case.beta);
        let folded = fold_into_extension(&values, case.layout, shift, beta).expect(rt, "memory");
        let entries = folded
            .width()
            .checked_mul(E::DIMENSION)
            .expect(rt, "so many coordinates");
        assert_rows(
            rt,
            &coordinates_of::<F, E>(rt, &folded),
            case.values,
            entries,
        );
        if case.layout == Layout::Natural {
            assert_last_coefficients(rt, folded, shift * shift, case.coefficients, entries);
        }
    }
}

// What is tested in a field that extends another.
#[derive(Clone, Copy)]
pub(crate) enum Topic<'a> {
    Products(&'a [Product], &'a str),
    Foldings(&'a [Folding]),
    Openings(&'a [opening::Case]),
}

fn hold<F: CanonicalField, E: ExtensionField<F> + Debug + Display>(
    rt: &impl Abort,
    alloc: Global,
    topic: Topic,
) {
    match topic {
        Topic::Products(cases, root) => products::<F, E>(rt, alloc, cases, root),
        Topic::Foldings(cases) => foldings::<F, E>(rt, alloc, cases),
        Topic::Openings(cases) => opening::openings::<F, E>(rt, alloc, cases),
    }
}

fn in_degree_two<F: CanonicalField + FieldOps, W: Square<F>>(
    rt: &impl Abort,
    alloc: Global,
    topic: Topic,
) {
    hold::<F, Quadratic<F, W>>(rt, alloc, topic);
}

fn in_degree_four<F: CanonicalField + FieldOps, W: Square<F>>(
    rt: &impl Abort,
    alloc: Global,
    topic: Topic,
) {
    hold::<F, Quadratic<Quadratic<F, W>, Root>>(rt, alloc, topic);
}

// Stops the test where a topic does not hold in the field that extends one.
pub(crate) fn over(rt: &impl Abort, alloc: Global, field: FieldName, topic: Topic) {
    match field {
        FieldName::BabyBear => in_degree_four::<BabyBear, Eleven>(rt, alloc, topic),
        FieldName::Goldilocks => in_degree_two::<Goldilocks, Seven>(rt, alloc, topic),
    }
}

#[test]
fn products_in_extension_fields(rt: HostRuntime) {
    let alloc = rt.alloc();
    let root = "((0 + 0 x) + (1 + 0 x) x) ((0 + 0 x) + (1 + 0 x) x)";
    let topic = Topic::Products(&PRODUCTS_OVER_BABY_BEAR, root);
    over(&rt, alloc, FieldName::BabyBear, topic);
    let topic = Topic::Products(&PRODUCTS_OVER_GOLDILOCKS, "(0 + 1 x) (0 + 1 x)");
    over(&rt, alloc, FieldName::Goldilocks, topic);
}

#[test]
fn foldings_into_extension_fields(rt: HostRuntime) {
    let topic = Topic::Foldings(&FOLDINGS_OVER_BABY_BEAR);
    over(&rt, rt.alloc(), FieldName::BabyBear, topic);
    let topic = Topic::Foldings(&FOLDINGS_OVER_GOLDILOCKS);
    over(&rt, rt.alloc(), FieldName::Goldilocks, topic);
}
