// Tests by what they are of: `helpers` has what they share.
//
// The numbers were worked out by hand or by another program; the rest are laws. A test stops where it fails, and where
// memory is refused.
//
// What is known of a concrete field is dear to prove, at each call that names it, and most where an engine or a vector
// space over it is named too. So tests are generic over the field, and `over` names fields. Beside it a field is named
// where coordinates and lanes are: that there is room for them is known of concrete ones alone.

mod algebra;
mod answers;
mod blocks;
mod columns;
mod groups;
mod helpers;
mod jobs;
mod laws;
mod products;
mod reed_solomon;
mod shifts;
mod tables;
mod tiles;
mod util;

use p3_dft::{BabyBear, CanonicalField, Goldilocks, KoalaBear};
use std::alloc::Global;
use std::process::Abort;

#[derive(Clone, Copy)]
enum FieldName {
    BabyBear,
    KoalaBear,
    Goldilocks,
}

// What is tested over a field.
#[derive(Clone, Copy)]
enum Topic<'a> {
    FormsInDimensionOne,
    WorkedAnswers(&'a [answers::Worked]),
    Layouts(&'a answers::ValuesOfACubic),
    Constants,
    Published(&'a [blocks::Worked]),
    NothingLent,
    Changes,
    ColumnsOnCosets(&'a str),
    RefusedJobs,
    Lists,
    Transforms,
    Columns,
    Agreement,
    ManyCalls,
    Tiles,
    Extensions,
    LargeShapes,
    CodeLaws,
    Words([u64; 4], [u64; 4]),
    CodesWithin,
    Shifts,
    Tables,
    ReversedRows(&'a [u64]),
    HandedOn,
    TablesByTiles,
    Shapes,
}

impl<'a> Topic<'a> {
    fn hold<F: CanonicalField>(self, rt: &impl Abort, alloc: Global) {
        match self {
            Topic::FormsInDimensionOne => algebra::forms_over::<F>(rt, alloc),
            Topic::WorkedAnswers(cases) => answers::answers_over::<F>(rt, alloc, cases),
            Topic::Layouts(values) => answers::layouts_over::<F>(rt, alloc, values),
            Topic::Constants => answers::constants_over::<F>(rt, alloc),
            Topic::Published(cases) => blocks::published::<F>(rt, alloc, cases),
            Topic::NothingLent => blocks::nothing_lent::<F>(rt, alloc),
            Topic::Changes => blocks::changes_over::<F>(rt, alloc),
            Topic::ColumnsOnCosets(cases) => columns::columns_on_cosets::<F>(rt, alloc, cases),
            Topic::RefusedJobs => jobs::refused_within::<F>(rt, alloc),
            Topic::Lists => jobs::lists::<F>(rt, alloc),
            Topic::Transforms => laws::transforms_over::<F>(rt, alloc),
            Topic::Columns => laws::columns_over::<F>(rt, alloc),
            Topic::Agreement => laws::agree_over::<F>(rt, alloc),
            Topic::ManyCalls => laws::again_and_again::<F>(rt, alloc),
            Topic::Tiles => laws::tiles_over::<F>(rt, alloc),
            Topic::Extensions => laws::extensions_over::<F>(rt, alloc),
            Topic::LargeShapes => laws::large_shapes_over::<F>(rt, alloc),
            Topic::CodeLaws => reed_solomon::laws::<F>(rt, alloc),
            Topic::Words(word, on_two) => reed_solomon::words::<F>(rt, alloc, word, on_two),
            Topic::CodesWithin => reed_solomon::within_each::<F>(rt, alloc),
            Topic::Shifts => shifts::shifts::<F>(rt, alloc),
            Topic::Tables => tables::tables_over::<F>(rt, alloc),
            Topic::ReversedRows(physical) => tables::leaves_reversed::<F>(rt, alloc, physical),
            Topic::HandedOn => tables::hands_a_column_on::<F>(rt, alloc),
            Topic::TablesByTiles => tables::goes_by_tiles::<F>(rt, alloc),
            Topic::Shapes => util::shapes_and_heights::<F>(rt, alloc),
        }
    }
}

// Stops the test where a topic does not hold over a field.
fn over(rt: &impl Abort, alloc: Global, field: FieldName, topic: Topic) {
    match field {
        FieldName::BabyBear => topic.hold::<BabyBear>(rt, alloc),
        FieldName::KoalaBear => topic.hold::<KoalaBear>(rt, alloc),
        FieldName::Goldilocks => topic.hold::<Goldilocks>(rt, alloc),
    }
}
