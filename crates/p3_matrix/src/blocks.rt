//! Blocks of rows that are lent to a consumer, which may refuse one.

ghost use Rattle.std.specs.Prelude.{◌≡◌, ℕ, ◌+◌, ◌*◌, ◌/◌, ◌%◌, ◌<◌, ◌≤◌, ◌++◌, Bool, IfErr, IfOk};
ghost use Rattle.std.specs.Prelude.{OnOk, [], false, get_or, length, vec_capacity, vec_len};
ghost use Rattle.p3_matrix.specs.Blocks.{Run, RunToRefusal, block, first_blocks};
ghost use Rattle.std.specs.Mem.{type_size};
ghost use Rattle.p3_matrix.specs.Consumers.{place_bytes};
ghost use Rattle.p3_matrix.specs.Room.{IsWithinEither};
ghost use Rattle.p3_matrix.specs.RowMajor.{IsRowMajor, RowMajor, height};

use crate::dense::RowMajorMatrix;
use crate::error::DftError;
use crate::views::RowMajorMatrixView;
use std::alloc::Global;
use std::marker::Model;
use thiserror::Error;

/// What is lent blocks of rows, one after another, and may refuse one.
///
/// An impl says in `step` what it makes of a block, and repeats the clause of `consume`.
pub trait BlockConsumer<T> {
    ghost use Rattle.std.specs.Prelude.{ℕ, Result, ⊤};
    ghost use Rattle.p3_matrix.specs.RowMajor.{RowMajor};

    /// Why a block is refused.
    type Refusal;

    // From the consumer, lent the rows that begin at a row, by its answer to what it is afterwards.
    ghost step: { Self → ℕ → RowMajor T → Result ⊤ Self.Refusal → Self → Type 0 };

    /// Takes the block of rows whose first row has the number `start`, or refuses it.
    fn consume(
        &mut self,
        start: usize,
        block: RowMajorMatrixView<'_, T>,
    ) -> Result<(), Self::Refusal>
        ensures { step self.old start block.entry result self.new };
}

/// Lends a consumer each block of `block_height` rows, in order, until it refuses one. The height of a
/// block is not zero and divides that of the matrix.
pub fn publish<T, C: BlockConsumer<T>>(
    mat: &RowMajorMatrix<T>,
    block_height: usize,
    consumer: &mut C,
) -> Result<(), C::Refusal>
    requires block_height { 1 ≤ block_height }
    requires divides { height mat.now % block_height ≡ 0 }
    ensures accepted { OnOk result
        (Run C.step consumer.old (first_blocks block_height mat.now (height mat.now / block_height)) consumer.new) }
    ensures refused { IfErr result (λ refusal. (q : ℕ) × (q < height mat.now / block_height)
        × RunToRefusal C.step consumer.old (first_blocks block_height mat.now q) (block block_height mat.now q) refusal
        consumer.new) }
    ensures whole { IsRowMajor mat.now }
{
    for q in 0..mat.height() / block_height {
        let start = q * block_height;
        consumer.consume(start, mat.view_rows(start, block_height))?;
    }
    Ok(())
}

/// A consumer that takes so many blocks, and refuses every one after them.
#[derive(Debug, Drop)]
pub struct BlockLimit {
    limit: usize,
    seen: usize,
}

/// The block that was one too many.
#[derive(Clone, Copy, Debug, PartialEq, Eq, Error)]
#[error("the block from row {start} on was one too many")]
pub struct BlockRefused {
    /// The number of its first row.
    pub start: usize,
}

impl Model for BlockLimit {
    ghost use Rattle.std.specs.Prelude.{◌≤◌};
    ghost use Rattle.p3_matrix.specs.Consumers.{Limited};

    ghost Value = { Limited };

    ghost view = { λ c. record { limit = c.limit; seen = c.seen } };

    ghost invariant = { λ c. c.seen ≤ c.limit };
}

impl BlockLimit {
    /// Takes `limit` blocks.
    pub fn new(limit: usize) -> Self
        ensures { result ≡ record { limit = limit; seen = 0 } }
    {
        BlockLimit { limit, seen: 0 }
    }

    /// How many blocks were taken: at most as many as the limit says.
    pub fn seen(&self) -> usize
        ensures seen { result ≡ self.now.seen }
        ensures within { self.now.seen ≤ self.now.limit }
    {
        self.seen
    }
}

impl<T> BlockConsumer<T> for BlockLimit {
    ghost use Rattle.p3_matrix.specs.Consumers.{IsCounted};

    type Refusal = BlockRefused;

    ghost step = { λ c start block answer e. IsCounted c start answer e };

    fn consume(
        &mut self,
        start: usize,
        block: RowMajorMatrixView<'_, T>,
    ) -> Result<(), BlockRefused>
        ensures { ⟦<BlockLimit as BlockConsumer<T>>⟧.step self.old start block.entry result self.new }
    {
        let _ = block;
        if self.seen == self.limit {
            return Err(BlockRefused { start });
        }
        self.seen += 1;
        Ok(())
    }
}

/// A consumer that keeps a copy of each block for which it has room, and accepts all.
///
/// Contracts see the blocks that it keeps, in the order in which they came, and how much room is left.
#[derive(Debug, Drop)]
pub struct Recorder<T> {
    places: Vec<Place>,
    elements: Vec<T>,
    blocks_left: usize,
    elements_left: usize,
    missed: bool,
}

// Where a block that is kept begins in the matrix, how wide it is, and which elements are its own.
#[derive(Clone, Copy, Debug)]
struct Place {
    start: usize,
    width: usize,
    first: usize,
    end: usize,
}

impl<T> Model for Recorder<T> {
    ghost use Rattle.std.specs.Prelude.{map};
    ghost use Rattle.p3_matrix.specs.Consumers.{Recording, AreRoomy, block_at};

    ghost Value = { Recording T };

    ghost view = { λ r. record {
      blocks = map (block_at r.elements.items) r.places.items;
      missed = r.missed;
      blocks_left = r.blocks_left;
      elements_left = r.elements_left;
    } };

    ghost invariant = { λ r. AreRoomy r.places r.blocks_left r.elements r.elements_left };
}

impl<T> Recorder<T> {
    /// A recorder with room for `blocks` blocks and `elements` elements in all, in memory that is taken at
    /// once. Where it is refused, there is nothing but the error.
    pub fn with_room(alloc: Global, blocks: usize, elements: usize) -> Result<Self, DftError>
        ensures made { IfOk result (λ r. r ≡ record
            { blocks = []; missed = false; blocks_left = blocks; elements_left = elements }) }
        ensures room { IfErr result (IsWithinEither place_bytes blocks (type_size T.row) elements) }
    {
        Ok(Recorder {
            places: growth::with_capacity(alloc, blocks)?,
            elements: growth::with_capacity(alloc, elements)?,
            blocks_left: blocks,
            elements_left: elements,
            missed: false,
        })
    }

    /// How many blocks are kept.
    pub fn blocks(&self) -> usize
        ensures { result ≡ length self.now.blocks }
    {
        self.places.len()
    }

    /// The number of the first row of the block that was kept after i others, where i is below `blocks()`.
    pub fn start(&self, i: usize) -> usize
        requires { i < length self.now.blocks }
        ensures { (d : ℕ × RowMajor T) → result ≡ (get_or self.now.blocks i d).0 }
    {
        self.places[i].start
    }

    /// The rows of the block that was kept after i others, where i is below `blocks()`.
    pub fn rows(&self, i: usize) -> RowMajorMatrixView<'_, T>
        requires { i < length self.now.blocks }
        ensures { (d : ℕ × RowMajor T) → result ≡ (get_or self.now.blocks i d).1 }
    {
        let place = self.places[i];
        RowMajorMatrixView::new(&self.elements[place.first..place.end], place.width)
    }

    /// Whether there was a block for which there was no room.
    pub fn missed(&self) -> bool
        ensures { result ≡ self.now.missed }
    {
        self.missed
    }
}

impl<T: Copy> BlockConsumer<T> for Recorder<T> {
    ghost use Rattle.p3_matrix.specs.Consumers.{IsRecorded};

    type Refusal = ();

    ghost step = { λ c start block answer e. IsRecorded c start block answer e };

    /// Where one more block and all its elements have room they are kept, else nothing of them is, and
    /// `missed` says so from then on.
    fn consume(&mut self, start: usize, block: RowMajorMatrixView<'_, T>) -> Result<(), ()>
        ensures { ⟦<Recorder<T> as BlockConsumer<T>>⟧.step self.old start block.entry result self.new }
    {
        let rows = block.values();
        if self.blocks_left == 0 || self.elements_left < rows.len() {
            self.missed = true;
            return Ok(());
        }
        let first = self.elements.len();
        append_reserved(&mut self.elements, rows);
        self.places.push_reserved(Place {
            start,
            width: block.width(),
            first,
            end: first + rows.len(),
        });
        self.blocks_left -= 1;
        self.elements_left -= rows.len();
        Ok(())
    }
}

// Appends the elements, for which the vector has room: nothing is asked of the allocator.
fn append_reserved<T: Copy>(elements: &mut Vec<T>, more: &[T])
    requires { vec_len elements.old + length more.now ≤ vec_capacity elements.old }
    ensures items { elements.new.items ≡ elements.old.items ++ more.now }
    ensures capacity { vec_capacity elements.old ≤ vec_capacity elements.new }
{
    let _appended = elements.extend_from_slice(more);
}
