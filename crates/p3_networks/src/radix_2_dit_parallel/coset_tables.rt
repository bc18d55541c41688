//! The tables of cosets that the engine keeps until it ends.

ghost use Rattle.std.specs.Prelude.{◌≡◌, ◌⊎◌, ◌↔◌, ℕ, ◌+◌, ◌-◌, ◌^◌, ◌<◌, ◌≤◌, [], ◌∷◌, ◌++◌, length, get_or};
ghost use Rattle.std.specs.Prelude.{IsTrue, IsOk, IfErr, IfOk, OnOk, OnErr, IfSome, IsNone};
ghost use Rattle.std.specs.Mem.{type_size};
ghost use Rattle.p3_matrix.specs.Cosets.{Coset, HasCoset, HasCosets, IsCosetAt, IsCosetOf, AddsCosets, point};
ghost use Rattle.p3_networks.specs.Twiddles.{IsCosetTable, forward_root};
ghost use Rattle.p3_matrix.specs.BitOrder.{rev};
ghost use Rattle.p3_matrix.specs.Room.{IsWithin, IsWithinEither};
ghost use Rattle.p3_networks.specs.CosetTables.{coset_table_bytes};

use crate::twiddles::{held, push_layer};
use p3_field::{Field, TwoAdicField};
use p3_matrix::{DftError, reverse_bits_len};
use std::alloc::Global;
use std::marker::Model;

/// The twiddles of one coset: those of layer l begin at place `2^l - 1`. In the layers of the first half
/// they lie in natural order, and in those of the second in bit reversed order.
///
/// Contracts see which coset that is.
#[derive(Drop)]
pub struct CosetTable<F: TwoAdicField> {
    log_h: usize,
    shift: F,
    twiddles: Vec<F>,
}

impl<F: TwoAdicField> Model for CosetTable<F> {
    ghost use Rattle.std.specs.Prelude.{◌≡◌, ◌-◌, ◌^◌, ◌≤◌, length};
    ghost use Rattle.p3_matrix.specs.Cosets.{Coset};
    ghost use Rattle.p3_networks.specs.Twiddles.{IsCosetTable};

    ghost Value = { Coset F };

    ghost view = { λ t. record { log_h = t.log_h; shift = t.shift } };

    ghost invariant = { λ t.
        (length t.twiddles.items ≡ 2 ^ t.log_h - 1)
        × IsCosetTable F.Valued F.generator (F.Valued.value t.shift) t.log_h t.twiddles.items
        × (t.log_h ≤ F.TWO_ADICITY) };
}

impl<F: TwoAdicField> CosetTable<F> {
    // That of the coset of `shift` of order `2^log_h`.
    fn new(alloc: Global, log_h: usize, shift: F) -> Result<Self, DftError>
        requires within { log_h ≤ F.TWO_ADICITY }
        requires fits_u64 { log_h < 64 }
        ensures made { IfOk result (λ t. t ≡ record { log_h = log_h; shift = shift }) }
        ensures room { IfErr result (IsWithin (type_size F.row) (2 ^ log_h - 1)) }
    {
        let twiddles = coset_layers(alloc, log_h, shift)?;
        Ok(CosetTable {
            log_h,
            shift,
            twiddles,
        })
    }

    // Whether it is that of a coset.
    fn is_of(&self, log_h: usize, shift: F) -> bool
        ensures { IsTrue result ↔ IsCosetOf F.Valued.own log_h (F.value shift) self.now }
    {
        self.log_h == log_h && self.shift == shift
    }

    /// The twiddles, `2^log_h - 1` of them, layer after layer.
    pub fn twiddles(&self) -> &[F]
        ensures within { self.now.log_h ≤ F.TWO_ADICITY }
        ensures size { length result.now ≡ 2 ^ self.now.log_h - 1 }
        ensures table { IsCosetTable F.Valued.own F.generator (F.value self.now.shift) self.now.log_h result.now }
    {
        self.twiddles.as_slice()
    }
}

// The twiddles of the coset of `shift` of order `2^log_h`, layer after layer.
fn coset_layers<F: TwoAdicField>(alloc: Global, log_h: usize, shift: F) -> Result<Vec<F>, DftError>
    requires within { log_h ≤ F.TWO_ADICITY }
    requires fits_u64 { log_h < 64 }
    ensures size { IfOk result (λ v. length v.items ≡ 2 ^ log_h - 1) }
    ensures table { IfOk result (λ v. IsCosetTable F.Valued.own F.generator (F.value shift) log_h v.items) }
    ensures room { IfErr result (IsWithin (type_size F.row) (2 ^ log_h - 1)) }
{
    let mid = (log_h + 1) / 2;
    let mut twiddles = growth::with_capacity(alloc, (1 << log_h) - 1)?;
    for l in 0..log_h {
        let first = shift.exp_power_of_2(log_h - 1 - l);
        let root = F::two_adic_generator(l + 1);
        push_layer(&mut twiddles, first, root, l, mid <= l)?;
    }
    Ok(twiddles)
}

/// The shift of the coset of a slot: `shift` times a power of the generator of the larger order, whose
/// exponent is the number of the slot in bit reversed order.
pub(crate) fn slot_shift<F: TwoAdicField>(
    log_h: usize,
    added_bits: usize,
    shift: F,
    slot: usize,
) -> F
    requires within { log_h + added_bits ≤ F.TWO_ADICITY }
    requires fits_u64 { log_h + added_bits < 64 }
    ensures { F.value result
        ≡ point F.ring (forward_root F.Valued.own F.generator) (log_h + added_bits) (F.value shift)
        (rev added_bits slot) }
{
    let root = F::two_adic_generator(log_h + added_bits);
    shift * root.exp_u64(reverse_bits_len(slot, added_bits) as u64)
}

// How many slots have a coset that none before them has: all `2^added_bits`, but one where the shift is
// zero, since all cosets of zero are one.
fn slots_apart<F: TwoAdicField>(added_bits: usize, shift: F) -> usize
    requires { added_bits < 64 }
    ensures { ((F.value shift ≡ F.ring.zero) × (result ≡ 1))
        ⊎ (¬ (F.value shift ≡ F.ring.zero) × (result ≡ 2 ^ added_bits)) }
{
    if shift.is_zero() { 1 } else { 1 << added_bits }
}

/// The tables of cosets, in the order in which they were made. A coset never has two.
///
/// Contracts see a list of the cosets.
#[derive(Drop)]
pub struct CosetTables<F: TwoAdicField> {
    tables: Option<Vec<CosetTable<F>>>,
}

impl<F: TwoAdicField> Model for CosetTables<F> {
    ghost use Rattle.std.specs.Prelude.{List};
    ghost use Rattle.p3_matrix.specs.Cosets.{Coset};
    ghost use Rattle.p3_networks.specs.Twiddles.{items_if_any};
    ghost use Rattle.p3_networks.specs.CosetTables.{HasEachOnce};

    ghost Value = { List (Coset F) };

    ghost view = { λ t. items_if_any t.tables };

    ghost invariant = { λ t. HasEachOnce F.Valued (items_if_any t.tables) };
}

impl<F: TwoAdicField> CosetTables<F> {
    /// None. It takes no memory.
    pub fn new() -> Self
        ensures { result ≡ [] }
    {
        CosetTables { tables: None }
    }

    // The tables, of which there are none before the first was made.
    fn as_slice(&self) -> &[CosetTable<F>]
        ensures { result.now ≡ self.now }
    {
        held(&self.tables)
    }

    /// That in a place, which is below their number.
    pub fn get(&self, place: usize) -> &CosetTable<F>
        requires { place < length self.now }
        ensures { (d : Coset F) → result.now ≡ get_or self.now place d }
    {
        &self.as_slice()[place]
    }

    // The place of the table of a coset, if it lies in a place from `start` on that is below `end`.
    fn find_within(&self, log_h: usize, shift: F, start: usize, end: usize) -> Option<usize>
        requires { end ≤ length self.now }
        ensures found { IfSome result (IsCosetAt F.Valued.own self.now log_h (F.value shift)) }
        ensures none { IsNone result → (i : ℕ) → start ≤ i → i < end
            → ¬ (IsCosetAt F.Valued.own self.now log_h (F.value shift) i) }
    {
        for place in start..end {
            if self.get(place).is_of(log_h, shift) {
                return Some(place);
            }
        }
        None
    }

    // The place of the table of a coset, if it lies in a place below `end`. The search begins at `start` and
    // goes round: tables that were made together lie one after another, and so they are asked for.
    fn find(&self, log_h: usize, shift: F, start: usize, end: usize) -> Option<usize>
        requires { end ≤ length self.now }
        ensures found { IfSome result (IsCosetAt F.Valued.own self.now log_h (F.value shift)) }
        ensures none { IsNone result → (i : ℕ) → i < end → ¬ (IsCosetAt F.Valued.own self.now log_h (F.value shift) i) }
    {
        if let Some(place) = self.find_within(log_h, shift, start, end) {
            return Some(place);
        }
        self.find_within(log_h, shift, 0, start.min(end))
    }

    /// The place of the table of a coset, which is made unless it is there: then no memory is taken. The
    /// logarithm is at most `TWO_ADICITY` and below 64. Where memory is refused, what is there stays.
    pub fn make(&mut self, alloc: Global, log_h: usize, shift: F) -> Result<usize, DftError>
        requires within { log_h ≤ F.TWO_ADICITY }
        requires fits_u64 { log_h < 64 }
        ensures made { IfOk result (IsCosetAt F.Valued.own self.new log_h (F.value shift)) }
        ensures succeeds { HasCoset F.Valued.own self.old log_h (F.value shift) → IsOk result }
        ensures once { HasCoset F.Valued.own self.old log_h (F.value shift) → self.new ≡ self.old }
        ensures only { (self.new ≡ self.old) ⊎ (self.new ≡ self.old ++ record { log_h = log_h; shift = shift } ∷ []) }
        ensures refused { OnErr result (self.new ≡ self.old) }
        ensures room { IfErr result (IsWithinEither (type_size F.row) (2 ^ log_h - 1)
            (coset_table_bytes F.row) (length self.new + 1)) }
    {
        let end = self.as_slice().len();
        self.make_among(alloc, log_h, shift, 0, end)
    }

    // The place of the table of a coset, which is made unless it is there, where it lies in no place from `end`
    // on. The search begins at `start`.
    fn make_among(
        &mut self,
        alloc: Global,
        log_h: usize,
        shift: F,
        start: usize,
        end: usize,
    ) -> Result<usize, DftError>
        requires within { log_h ≤ F.TWO_ADICITY }
        requires fits_u64 { log_h < 64 }
        requires end { end ≤ length self.old }
        requires others { (i : ℕ) → end ≤ i → ¬ (IsCosetAt F.Valued.own self.old log_h (F.value shift) i) }
        ensures made { IfOk result (IsCosetAt F.Valued.own self.new log_h (F.value shift)) }
        ensures succeeds { HasCoset F.Valued.own self.old log_h (F.value shift) → IsOk result }
        ensures once { HasCoset F.Valued.own self.old log_h (F.value shift) → self.new ≡ self.old }
        ensures only { (self.new ≡ self.old) ⊎ (self.new ≡ self.old ++ record { log_h = log_h; shift = shift } ∷ []) }
        ensures refused { OnErr result (self.new ≡ self.old) }
        ensures room { IfErr result (IsWithinEither (type_size F.row) (2 ^ log_h - 1)
            (coset_table_bytes F.row) (length self.new + 1)) }
    {
        if let Some(place) = self.find(log_h, shift, start, end) {
            return Ok(place);
        }
        let table = CosetTable::new(alloc, log_h, shift)?;
        let place = self.as_slice().len();
        self.push(alloc, table)?;
        Ok(place)
    }

    /// The place of the table of a coset that has one. The search begins at `start` and goes round.
    pub(crate) fn place_of(&self, log_h: usize, shift: F, start: usize) -> usize
        requires { HasCoset F.Valued.own self.now log_h (F.value shift) }
        ensures { IsCosetAt F.Valued.own self.now log_h (F.value shift) result }
    {
        match self.find(log_h, shift, start, self.as_slice().len()) {
            Some(place) => place,
            None => unreachable!(),
        }
    }

    /// Makes the tables of the `2^added_bits` cosets of order `2^log_h` that are, together, the coset of
    /// `shift` of order `2^(log_h + added_bits)`, and no others. Those that are there are not made again, so
    /// that each coset has one table: where all are there, no memory is taken. The logarithm of the larger
    /// order is at most `TWO_ADICITY` and below 64. Where memory is refused, those that were made stay.
    pub fn make_all(
        &mut self,
        alloc: Global,
        log_h: usize,
        added_bits: usize,
        shift: F,
    ) -> Result<(), DftError>
        requires within { log_h + added_bits ≤ F.TWO_ADICITY }
        requires fits_u64 { log_h + added_bits < 64 }
        ensures made { OnOk result (HasCosets F.Valued.own F.generator self.new log_h added_bits (F.value shift)) }
        ensures succeeds { HasCosets F.Valued.own F.generator self.old log_h added_bits (F.value shift) → IsOk result }
        ensures once { HasCosets F.Valued.own F.generator self.old log_h added_bits (F.value shift)
            → self.new ≡ self.old }
        ensures keeps { (k : ℕ) (s : F.Element) → HasCoset F.Valued.own self.old k s
            → HasCoset F.Valued.own self.new k s }
        ensures only { AddsCosets F.Valued.own F.generator log_h added_bits (F.value shift) self.old self.new }
        ensures few { length self.new ≤ length self.old + 2 ^ added_bits }
        ensures room { IfErr result (IsWithinEither (type_size F.row) (2 ^ log_h - 1)
            (coset_table_bytes F.row) (length self.new + 1)) }
    {
        // The tables that are made here are of other cosets, and are not searched.
        let there = self.as_slice().len();
        let slots = slots_apart(added_bits, shift);
        let mut place = 0;
        for slot in 0..slots {
            let coset = slot_shift(log_h, added_bits, shift, slot);
            place = self.make_among(alloc, log_h, coset, place, there)?;
        }
        Ok(())
    }

    // Adds one at the end, of a coset that has none.
    fn push(&mut self, alloc: Global, table: CosetTable<F>) -> Result<(), DftError>
        requires { ¬ (HasCoset F.Valued.own self.old table.log_h (F.value table.shift)) }
        ensures added { IfOk result (λ _. self.new ≡ self.old ++ table ∷ []) }
        ensures refused { OnErr result (self.new ≡ self.old) }
        ensures room { IfErr result (IsWithin (coset_table_bytes F.row) (length self.new + 1)) }
    {
        let mut tables = match self.tables.take() {
            Some(tables) => tables,
            None => growth::with_capacity(alloc, 1)?,
        };
        let pushed = growth::push(&mut tables, table);
        // The tables go back before an error is returned.
        self.tables = Some(tables);
        pushed?;
        Ok(())
    }
}
