//! Growths of vectors, each of which either happens or leaves the evidence that it was refused.
//!
//! Each function is the one of `Vec` with its name, and has the clauses of that one, but for those that say the
//! elements or the length once more (`by_index`, `lower_bound`, `upper_bound`). Three things differ. The vectors
//! are those in the process's own memory, since an allocator of a caller's could refuse at will. A value for which
//! there is no room is dropped by `push`, where std's gives it back with its error. And the clause `room` of each
//! says, of an error, the fact `WasRefused`, which can be shown here alone, each where the allocator, or a length
//! beyond every memory, refused just that growth. So a function whose error has that fact in a clause was refused
//! a growth before, in the same call or in an earlier one, from which the fact was kept.
//!
//! The fact has two numbers: how many bytes an element takes, and for how many elements room was needed. So a vector of
//! a few vast elements, which every machine refuses, does not show that memory for many small ones was refused.
//! `with_capacity`, `from_slice` and `reserve_exact` ask the allocator for just these elements. The others ask as std's
//! vectors do, so that many pushes copy little: where the room at hand is too small, for twice that room if this is
//! more, and for no fewer than 4 elements (8 of one byte, one of more than 1,024 bytes). Who makes the room first, by
//! one of the three, asks for no more than the numbers say.
#![tactic(auto)]

ghost use Rattle.std.specs.Prelude.{◌≡◌, ◌+◌, ◌-◌, ◌<◌, ◌≤◌, ◌++◌, ◌∷◌, [], ℕ, IfOk, IsOk, OnOk, OnErr, is_ok};
ghost use Rattle.std.specs.Prelude.{if◌then◌else◌, length, max, take, replicate, vec_len, vec_capacity};
ghost use Rattle.std.specs.Mem.{type_size};
ghost use Rattle.growth.specs.Evidence.{IsEvidence};
ghost use Rattle.growth.specs.Refusals.{WasRefused};

mod count;

pub use count::Count;
use std::alloc::{AllocError, AllocFailed, Global};
use thiserror::Error;

/// A vector asked for memory and was refused. It is a plain value that takes no bytes, and nothing else makes one.
#[derive(Clone, Copy, Debug, Drop, PartialEq, Eq, Error)]
#[error("out of memory")]
pub struct Refused {
    // Nothing outside this module can make one.
    made: (),
}

// The one place where a refusal is told: of an error of std's. Contracts of this crate alone can name
// `IsEvidence`, and no other crate can name this function's. No clause says that std refused: the calls of this function are read for that.
fn refusal<T>(_error: AllocError, _room: usize) -> Refused
    ensures { IsEvidence (type_size T.row) _room }
{
    Refused { made: () }
}

/// An empty vector with room for `capacity` elements.
pub fn with_capacity<T>(alloc: Global, capacity: usize) -> Result<Vec<T>, Refused>
    ensures items { IfOk result (λ v. v.items ≡ []) }
    ensures len { IfOk result (λ v. vec_len v ≡ 0) }
    ensures capacity { IfOk result (λ v. capacity ≤ vec_capacity v) }
    ensures exact { IfOk result (λ v. vec_capacity v ≡ capacity) }
    ensures succeeds { capacity ≡ 0 → IsOk result }
    ensures room { OnErr result (WasRefused (type_size T.row) capacity) }
{
    match Vec::with_capacity(alloc, capacity) {
        Ok(items) => Ok(items),
        Err(error) => Err(refusal::<T>(error, capacity)),
    }
}

/// A vector of these elements.
pub fn from_slice<T: Copy>(alloc: Global, from: &[T]) -> Result<Vec<T>, Refused>
    ensures items { IfOk result (λ v. v.items ≡ from.now) }
    ensures len { IfOk result (λ v. vec_len v ≡ length from.now) }
    ensures room { OnErr result (WasRefused (type_size T.row) (length from.now)) }
{
    match Vec::from_slice(alloc, from) {
        Ok(items) => Ok(items),
        Err(error) => Err(refusal::<T>(error, from.len())),
    }
}

/// Makes room for `additional` more elements, and for others as `push` does.
pub fn reserve<T>(items: &mut Vec<T>, additional: usize) -> Result<(), Refused>
    ensures items { items.new.items ≡ items.old.items }
    ensures len { vec_len items.new ≡ vec_len items.old }
    ensures ok { OnOk result (vec_len items.new + additional ≤ vec_capacity items.new) }
    ensures capacity { vec_capacity items.old ≤ vec_capacity items.new }
    ensures succeeds { vec_len items.old + additional ≤ vec_capacity items.old → IsOk result }
    ensures full { OnErr result (vec_capacity items.old < vec_len items.old + additional) }
    ensures err { OnErr result (vec_capacity items.new ≡ vec_capacity items.old) }
    ensures room { OnErr result (WasRefused (type_size T.row) (vec_len items.old + additional)) }
{
    match items.reserve(additional) {
        Ok(()) => Ok(()),
        Err(error) => Err(refusal::<T>(error, items.len().saturating_add(additional))),
    }
}

/// Makes room for `additional` more elements, and for no others.
pub fn reserve_exact<T>(items: &mut Vec<T>, additional: usize) -> Result<(), Refused>
    ensures items { items.new.items ≡ items.old.items }
    ensures len { vec_len items.new ≡ vec_len items.old }
    ensures ok { OnOk result (vec_len items.new + additional ≤ vec_capacity items.new) }
    ensures capacity { vec_capacity items.old ≤ vec_capacity items.new }
    ensures capacity_exact { OnOk result
        (vec_capacity items.new ≡ max (vec_capacity items.old) (vec_len items.old + additional)) }
    ensures succeeds { vec_len items.old + additional ≤ vec_capacity items.old → IsOk result }
    ensures full { OnErr result (vec_capacity items.old < vec_len items.old + additional) }
    ensures err { OnErr result (vec_capacity items.new ≡ vec_capacity items.old) }
    ensures room { OnErr result (WasRefused (type_size T.row) (vec_len items.old + additional)) }
{
    match items.reserve_exact(additional) {
        Ok(()) => Ok(()),
        Err(error) => Err(refusal::<T>(error, items.len().saturating_add(additional))),
    }
}

/// Appends an element. A full vector asks for twice the room that it has. Where memory is refused, the element is
/// dropped.
pub fn push<T: Drop>(items: &mut Vec<T>, value: T) -> Result<(), Refused>
    ensures items { items.new.items
        ≡ (if is_ok result then items.old.items ++ value ∷ [] else items.old.items) }
    ensures len { vec_len items.new ≡ (if is_ok result then vec_len items.old + 1 else vec_len items.old) }
    ensures capacity { vec_capacity items.old ≤ vec_capacity items.new }
    ensures succeeds { vec_len items.old < vec_capacity items.old → IsOk result }
    ensures full { OnErr result (vec_capacity items.old ≤ vec_len items.old) }
    ensures room { OnErr result (WasRefused (type_size T.row) (vec_len items.old + 1)) }
{
    match items.push(value) {
        Ok(()) => Ok(()),
        Err(AllocFailed { value: _value }) => Err(refusal::<T>(
            AllocError,
            items.len().saturating_add(1),
        )),
    }
}

/// Cuts the vector to n elements, or fills it up with `value`.
pub fn resize<T: Copy>(items: &mut Vec<T>, n: usize, value: T) -> Result<(), Refused>
    ensures items { items.new.items
        ≡ (if is_ok result then take n items.old.items ++ replicate (n - vec_len items.old) value
        else items.old.items) }
    ensures len { vec_len items.new ≡ (if is_ok result then n else vec_len items.old) }
    ensures capacity { vec_capacity items.old ≤ vec_capacity items.new }
    ensures succeeds { n ≤ vec_capacity items.old → IsOk result }
    ensures full { OnErr result (vec_capacity items.old < n) }
    ensures room { OnErr result (WasRefused (type_size T.row) n) }
{
    match items.resize(n, value) {
        Ok(()) => Ok(()),
        Err(error) => Err(refusal::<T>(error, n)),
    }
}

/// Appends copies of these elements.
pub fn extend_from_slice<T: Copy>(items: &mut Vec<T>, from: &[T]) -> Result<(), Refused>
    ensures items { items.new.items
        ≡ (if is_ok result then items.old.items ++ from.now else items.old.items) }
    ensures len { vec_len items.new
        ≡ (if is_ok result then vec_len items.old + length from.now else vec_len items.old) }
    ensures capacity { vec_capacity items.old ≤ vec_capacity items.new }
    ensures succeeds { vec_len items.old + length from.now ≤ vec_capacity items.old → IsOk result }
    ensures full { OnErr result (vec_capacity items.old < vec_len items.old + length from.now) }
    ensures room { OnErr result (WasRefused (type_size T.row) (vec_len items.old + length from.now)) }
{
    match items.extend_from_slice(from) {
        Ok(()) => Ok(()),
        Err(error) => Err(refusal::<T>(error, items.len().saturating_add(from.len()))),
    }
}
