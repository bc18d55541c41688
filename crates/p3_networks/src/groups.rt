//! Layers in groups of three, on cells that lie one after another.
//!
//! Three layers that follow one another do not leave the blocks of the largest of them, and meet only cells
//! at one place of the eighths of such a block. So they are done together, on one piece of the eighths after
//! another, that stays in the cache from layer to layer; two layers go on quarters, one on halves.

ghost use Rattle.std.specs.Prelude.{◌≡◌, ◌⊎◌, ℕ, ◌+◌, ◌-◌, ◌*◌, ◌/◌, ◌^◌, ◌<◌, ◌≤◌, List, length, get_or};
ghost use Rattle.p3_networks.specs.Counts.{RisesAtMost};
ghost use Rattle.p3_networks.specs.Groups.{AreLayersInOrder, HoldsColumns, IsGroupChunk, MeetInColumns, TakesCells};
ghost use Rattle.p3_networks.specs.Groups.{TakesColumns, cells_of, group_end, group_of, layer_of};
ghost use Rattle.p3_networks.specs.Layers.{AreRows, HoldsCells, IsLayer};

use crate::butterfly_layers::{Rule, meet_ranges};
use crate::chunks::{ChunkWork, on_each_chunk};
use p3_field::{Products, TwoAdicField};
use p3_matrix::log2_strict_usize;

/// About how many elements a tile has where a caller does not say it, over every field.
pub const DEFAULT_TILE: usize = 8192;

/// The largest number of elements that a tile may have to be about.
pub const MAX_TILE: usize = 4294967296;

// How many layers a group has, and how many parts of a block go through them together.
const LAYERS_PER_GROUP: usize = 3;

const PARTS: usize = 1 << LAYERS_PER_GROUP;

/// The logarithm of the number of rows of a tile of about `tile` elements: the least power of two that is
/// not below the rows that fit into it, or the height if that is less. `tile` is at most `MAX_TILE`, and
/// `width` at least one.
pub fn log_tile_rows(tile: usize, width: usize, log_h: usize) -> usize
    requires width { 1 ≤ width }
    requires tile { tile ≤ MAX_TILE }
    ensures inside { result ≤ log_h }
    ensures enough { result < log_h → tile / width ≤ 2 ^ result }
    ensures least { (r : ℕ) → r < result → 2 ^ r < tile / width }
{
    let rows = (tile / width).next_power_of_two();
    log_h.min(log2_strict_usize(rows))
}

/// How many elements a piece has of each eighth of a block, so that those of all eighths are about as many
/// as a tile has: at least one. Quarters and halves have pieces of the same size. `tile` is at most `MAX_TILE`.
pub fn piece_size(tile: usize) -> usize
    requires tile { tile ≤ MAX_TILE }
    ensures nonzero { 1 ≤ result }
    ensures enough { tile ≤ PARTS * result }
    ensures most { 2 ≤ result → PARTS * result < 2 * tile }
{
    (tile.next_power_of_two() / PARTS).max(1)
}

/// How rows are cut for the cache: a tile has `2^log_rows` rows, and a piece so many entries of each part of a block.
#[derive(Clone, Copy)]
pub struct Tiling {
    /// The logarithm of the number of rows of a tile.
    pub log_rows: usize,
    /// How many entries a piece has of each part.
    pub piece: usize,
}

/// Which layers of a network come first: those of large blocks or those of small ones.
#[derive(Clone, Copy)]
pub enum Order {
    /// The layer whose blocks are the largest is done first.
    LargestFirst,
    /// The layer whose blocks are the smallest is done first.
    SmallestFirst,
}

impl Order {
    // The layer that comes when `done` layers are done of those from `from` up to `to`.
    pub(crate) fn layer(self, from: usize, to: usize, done: usize) -> usize
        requires { done < to - from }
        ensures layer { result ≡ layer_of self from to done }
        ensures first { from ≤ result }
        ensures last { result < to }
    {
        match self {
            Order::LargestFirst => to - 1 - done,
            Order::SmallestFirst => from + done,
        }
    }

    // The group that comes when `done` groups are done of `count`, which are counted from the largest blocks.
    fn group(self, count: usize, done: usize) -> usize
        requires { done < count }
        ensures group { result ≡ group_of self count done }
        ensures inside { result < count }
    {
        match self {
            Order::LargestFirst => done,
            Order::SmallestFirst => count - 1 - done,
        }
    }
}

/// How many groups there are of `layers` layers, fewer than 64: of three each, but for one or two that are
/// left.
pub fn groups(layers: usize) -> usize
    requires { layers < 64 }
    ensures { result ≡ (layers + 2) / 3 }
{
    layers.div_ceil(LAYERS_PER_GROUP)
}

/// Where group g ends, and where the one before it begins: group g has the layers from `group_end` of
/// `g + 1` up to that of g. Threes are counted from `log_h` down, and what is left goes down to `log_rows`,
/// which is at most `log_h`. `g` is below 64.
pub fn group_end(log_rows: usize, log_h: usize, g: usize) -> usize
    requires below { log_rows ≤ log_h }
    requires fits_u64 { g < 64 }
    ensures { result ≡ group_end log_rows log_h g }
{
    log_rows + (log_h - log_rows).saturating_sub(LAYERS_PER_GROUP * g)
}

// The layers from `log_rows` up to `log_h` on the whole, group after group. A piece has
// `piece` cells of each eighth.
pub(crate) fn layers_in_groups<F: TwoAdicField, R: Rule<F>>(
    rule: R,
    order: Order,
    values: &mut [F],
    width: usize,
    log_rows: usize,
    log_h: usize,
    piece: usize,
    products: &mut Products,
)
    requires rows { AreRows log_h width (length values.old) }
    requires below { log_rows ≤ log_h }
    requires piece { 1 ≤ piece }
    requires in_table { (b : ℕ) → 2 * b < 2 ^ log_h → R.has rule b 0 }
    ensures cells { (cells : ℕ → ℕ → F.Element)
        → AreLayersInOrder order log_h width (λ b. R.near F.Element F.ring F.value rule b 0)
        (λ b. R.far F.Element F.ring F.value rule b 0) cells
        → HoldsCells F.value F.zero 0 (cells (cells_of order log_rows log_h 0)) values.old
        → HoldsCells F.value F.zero 0 (cells (cells_of order log_rows log_h (log_h - log_rows))) values.new }
    ensures cost { RisesAtMost (R.cost * ((log_h - log_rows) * length values.old))
        (2 * products.old) (2 * products.new) }
{
    let count = groups(log_h - log_rows);
    for done in 0..count {
        let group = order.group(count, done);
        let from = group_end(log_rows, log_h, group + 1);
        let to = group_end(log_rows, log_h, group);
        let layers = GroupLayers {
            rule,
            order,
            width,
            from,
            to,
            piece,
        };
        group_on_chunks(layers, values, log_h, products);
    }
}

// The layers of a group, on a block of its largest one, piece after piece.
#[derive(Drop)]
struct GroupLayers<R> {
    rule: R,
    order: Order,
    width: usize,
    from: usize,
    to: usize,
    piece: usize,
}

// Does them on one block after another.
fn group_on_chunks<F: TwoAdicField, R: Rule<F>>(
    layers: GroupLayers<R>,
    values: &mut [F],
    log_h: usize,
    products: &mut Products,
)
    requires rows { AreRows log_h layers.width (length values.old) }
    requires order { layers.from ≤ layers.to }
    requires below { layers.to ≤ log_h }
    requires piece { 1 ≤ layers.piece }
    requires in_table { (b : ℕ) → 2 * b < 2 ^ log_h → R.has layers.rule b 0 }
    ensures cells { let it = layers in
        (cells : ℕ → ℕ → F.Element)
        → AreLayersInOrder it.order log_h it.width (λ b. R.near F.Element F.ring F.value it.rule b 0)
        (λ b. R.far F.Element F.ring F.value it.rule b 0) cells
        → HoldsCells F.value F.zero 0 (cells (cells_of it.order it.from it.to 0)) values.old
        → HoldsCells F.value F.zero 0 (cells (cells_of it.order it.from it.to (it.to - it.from))) values.new }
    ensures cost { RisesAtMost (R.cost * ((layers.to - layers.from) * length values.old))
        (2 * products.old) (2 * products.new) }
{
    let chunks = 1usize << (log_h - layers.to);
    let size = values.len() / chunks;
    on_each_chunk(layers, values, size, chunks, products);
}

impl<F: TwoAdicField, R: Rule<F>> ChunkWork<F> for GroupLayers<R> {
    ghost accepts = { λ it n. IsGroupChunk it.width it.from it.to it.piece n (λ b. R.has it.rule b 0) };

    ghost takes = { λ it n. TakesCells F.value F.value F.zero it.order it.width it.to n
        (λ b. R.near F.Element F.ring F.value it.rule b 0) (λ b. R.far F.Element F.ring F.value it.rule b 0)
        (cells_of it.order it.from it.to 0) (cells_of it.order it.from it.to (it.to - it.from)) };

    ghost cost = { λ it size. R.cost * ((it.to - it.from) * size) };

    #[inline(always)]
    fn on_chunk(&self, number: usize, chunk: &mut [F], products: &mut Products) {
        let part = (1usize << self.from) * self.width;
        let pieces = (part - 1) / self.piece + 1;
        for p in 0..pieces {
            let at = p * self.piece;
            let end = at + self.piece.min(part - at);
            self.on_piece(number, chunk, at, end, products);
        }
    }
}

impl<R> GroupLayers<R> {
    // One piece: each part of the chunk, of `2^from` rows, goes by itself from cell `at` up to `end`.
    fn on_piece<F: TwoAdicField>(
        &self,
        number: usize,
        chunk: &mut [F],
        at: usize,
        end: usize,
        products: &mut Products,
    )
    where
        R: Rule<F>,
        requires group { let it = self.now in
            IsGroupChunk it.width it.from it.to it.piece number (λ b. R.has it.rule b 0) (length chunk.old) }
        requires ordered { at ≤ end }
        requires inside { end ≤ 2 ^ self.now.from * self.now.width }
        ensures cells { let it = self.now in
            let part = 2 ^ it.from * it.width in
            let rows = 2 ^ (it.to - it.from) in
            (k : ℕ) (cells : ℕ → ℕ → F.Element)
            → AreLayersInOrder it.order k it.width (λ b. R.near F.Element F.ring F.value it.rule b 0)
            (λ b. R.far F.Element F.ring F.value it.rule b 0) cells
            → (number + 1) * 2 ^ it.to ≤ 2 ^ k
            → HoldsColumns F.value F.zero part rows (number * length chunk.old) at end
            (cells (cells_of it.order it.from it.to 0)) chunk.old
            → TakesColumns F.value F.zero part rows (number * length chunk.old) at end
            (cells (cells_of it.order it.from it.to (it.to - it.from))) chunk.old chunk.new }
        ensures cost { let it = self.now in
            RisesAtMost (R.cost * ((it.to - it.from) * (2 ^ (it.to - it.from) * (end - at))))
            (2 * products.old) (2 * products.new) }
    {
        let part = (1usize << self.from) * self.width;
        for done in 0..self.to - self.from {
            let log_half = self.order.layer(self.from, self.to, done);
            let half = 1usize << (log_half - self.from);
            let blocks = 1usize << (self.to - 1 - log_half);
            let first_block = number * blocks;
            let meet = Columns {
                rule: self.rule,
                part,
                half,
                first_block,
                at,
                end,
            };
            layer_of_columns(meet, chunk, blocks, products);
        }
    }
}

// One layer, on columns: of rows of `part` cells, `half` of which are half a block, those from cell `at` up
// to `end` meet. Blocks count from `first_block` on.
#[derive(Drop)]
struct Columns<R> {
    rule: R,
    part: usize,
    half: usize,
    first_block: usize,
    at: usize,
    end: usize,
}

// Does it on so many blocks.
fn layer_of_columns<F: TwoAdicField, R: Rule<F>>(
    meet: Columns<R>,
    values: &mut [F],
    blocks: usize,
    products: &mut Products,
)
    requires ordered { meet.at ≤ meet.end }
    requires inside { meet.end ≤ meet.part }
    requires blocks { 1 ≤ blocks }
    requires numbers { meet.first_block + blocks < 2 ^ 64 }
    requires size { length values.old ≡ blocks * (2 * (meet.half * meet.part)) }
    requires in_table { (b : ℕ) → b < blocks → R.has meet.rule (meet.first_block + b) 0 }
    ensures cells { let first = meet.first_block * (2 * (meet.half * meet.part)) in
        (all : ℕ) (before after : ℕ → F.Element)
        → IsLayer all (meet.half * meet.part) (λ b i. R.near F.Element F.ring F.value meet.rule b 0)
        (λ b i. R.far F.Element F.ring F.value meet.rule b 0) before after
        → meet.first_block + blocks ≤ all
        → HoldsColumns F.value F.zero meet.part (blocks * (2 * meet.half)) first meet.at meet.end before values.old
        → TakesColumns F.value F.zero meet.part (blocks * (2 * meet.half)) first meet.at meet.end after
        values.old values.new }
    ensures cost { RisesAtMost (R.cost * (blocks * (meet.half * (meet.end - meet.at)))) products.old products.new }
{
    let size = 2 * (meet.half * meet.part);
    on_each_chunk(meet, values, size, blocks, products);
}

impl<F: TwoAdicField, R: Rule<F>> ChunkWork<F> for Columns<R> {
    ghost accepts = { λ it n size. (it.at ≤ it.end) × ((it.end ≤ it.part) × ((it.first_block + n < 2 ^ 64)
        × ((size ≡ 2 * (it.half * it.part)) × R.has it.rule (it.first_block + n) 0))) };

    ghost takes = { λ it n. MeetInColumns F.value F.zero it.part it.half it.at it.end
        (R.near F.Element F.ring F.value it.rule (it.first_block + n) 0)
        (R.far F.Element F.ring F.value it.rule (it.first_block + n) 0) };

    ghost cost = { λ it size. 2 * (R.cost * (it.half * (it.end - it.at))) };

    #[inline(always)]
    fn on_chunk(&self, number: usize, chunk: &mut [F], products: &mut Products) {
        let (low, high) = chunk.split_at_mut(self.half * self.part);
        self.on_halves(self.first_block + number, low, high, products);
    }
}

impl<R> Columns<R> {
    // The rows of a block's two halves, pair by pair.
    fn on_halves<F: TwoAdicField>(
        &self,
        block: usize,
        low: &mut [F],
        high: &mut [F],
        products: &mut Products,
    )
    where
        R: Rule<F>,
        requires ordered { self.now.at ≤ self.now.end }
        requires inside { self.now.end ≤ self.now.part }
        requires low { length low.old ≡ self.now.half * self.now.part }
        requires high { length high.old ≡ self.now.half * self.now.part }
        requires in_table { R.has self.now.rule block 0 }
        ensures near { let it = self.now in let cell = λ (xs : List F) (n : ℕ). F.value (get_or xs n F.zero) in
            (t j : ℕ) → t < it.half → j < it.part → it.at ≤ j → j < it.end → cell low.new (t * it.part + j)
            ≡ R.near F.Element F.ring F.value it.rule block 0 (cell low.old (t * it.part + j))
            (cell high.old (t * it.part + j)) }
        ensures far { let it = self.now in let cell = λ (xs : List F) (n : ℕ). F.value (get_or xs n F.zero) in
            (t j : ℕ) → t < it.half → j < it.part → it.at ≤ j → j < it.end → cell high.new (t * it.part + j)
            ≡ R.far F.Element F.ring F.value it.rule block 0 (cell low.old (t * it.part + j))
            (cell high.old (t * it.part + j)) }
        ensures kept { let it = self.now in (t j : ℕ) → t < it.half → j < it.part → (j < it.at) ⊎ (it.end ≤ j)
            → (get_or low.new (t * it.part + j) F.zero ≡ get_or low.old (t * it.part + j) F.zero)
            × (get_or high.new (t * it.part + j) F.zero ≡ get_or high.old (t * it.part + j) F.zero) }
        ensures grows { products.old ≤ products.new }
        ensures cost { products.new ≤ products.old + R.cost * (self.now.half * (self.now.end - self.now.at)) }
    {
        for t in 0..self.half {
            let start = t * self.part;
            meet_ranges(
                self.rule,
                low,
                high,
                start + self.at,
                start + self.end,
                block,
                0,
                products,
            );
        }
    }
}
