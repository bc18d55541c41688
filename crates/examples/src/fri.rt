//! The commit phase of FRI, the opening of a query and its check, for every field, hash and way to draw challenges.
//!
//! A codeword, whose rows lie in bit reversed order, is committed to by the tree over its pairs of neighbouring rows,
//! which are the values at a point and at minus it, and folded with the challenge that is drawn from the root; and so
//! on, down to the last codeword, which is sent whole.
//!
//! Proved: `check` says yes exactly where each path leads to its layer's root, and each pair that is opened folds, with
//! that layer's challenge and at its point, to the row that is opened of the next layer, the last to that of the last
//! codeword. What `open` opens of layers that `commit` made has those paths, and folds so, hence an honest query is
//! accepted (`honest_query`). `commit` draws the challenge of each layer of its root, after those of the layers before.
//! `verify` draws challenges and the numbers of queries itself, in the order in which a prover commits, and says yes
//! exactly where `check` does of each query. It has no condition.
//!
//! Not proved: that whoever has many queries accepted has committed to a codeword of low degree. A pair that is opened is
//! the one that was committed to, unless a collision was found: of `join`, two pairs of digests that differ and are
//! joined to one, or of `hash_row`, two pairs of rows that differ and have digests of one worth.

ghost use Rattle.std.specs.Prelude.{◌≡◌, ◌↔◌, ℕ, suc, ◌+◌, ◌-◌, ◌*◌, ◌/◌, ◌%◌, ◌^◌, ◌<◌, ◌≤◌, IfErr, IfOk, IsTrue};
ghost use Rattle.std.specs.Prelude.{List, [], get_or, length, map, vec_len};
ghost use Rattle.std.specs.List.{FoldsTo as Chained};
ghost use Rattle.p3_field.specs.Ring.{IsInvertible, power};
ghost use Rattle.p3_matrix.specs.Cosets.{values_of};
ghost use Rattle.p3_matrix.specs.Room.{WasOutOfMemory};
ghost use Rattle.p3_matrix.specs.RowMajor.{height, rows_from};
ghost use Rattle.p3_matrix.specs.BitOrder.{bit_reversal};
ghost use Rattle.p3_dft.specs.Codes.{HasDegreeBelow};
ghost use Rattle.p3_dft.specs.Shapes.{FitsDft};
ghost use Rattle.examples.specs.Fri.{AreDrawn, AreLayers, FoldsDown, FoldsTo, HasProofShape, IsAcceptedQuery, IsLayer};
ghost use Rattle.examples.specs.Fri.{IsOpened};

use crate::folding::{fold, folds_to};
use crate::merkle_paths::{path_of, root_of_path, tree_of_pairs};
use crate::merkle_root::RowHash;
use p3_dft::{
    DftError, Layout, RowMajorMatrix, TwoAdicField, growth, invertible_square, reverse_bits_len,
};
use std::alloc::Global;

/// A codeword that was committed to and folded.
#[derive(Drop)]
pub struct Layer<F, D> {
    /// The codeword, with its rows in bit reversed order.
    pub codeword: RowMajorMatrix<F>,
    /// The nodes of the tree over its pairs of rows.
    pub nodes: Vec<D>,
    /// The challenge with which it was folded.
    pub challenge: F,
}

/// What is opened of a layer.
#[derive(Drop)]
pub struct Opening<F, D> {
    /// Two neighbouring rows of the codeword.
    pub pair: RowMajorMatrix<F>,
    /// The path of their leaf.
    pub path: Vec<D>,
}

/// What the challenges are drawn from: it takes in the roots, in their order, as a sponge does.
pub trait Transcript<F, D> {
    // From one state it draws this challenge of this root, and is then in the other.
    ghost draws: { Self → D → F → Self → Type 0 };

    /// Takes in a root, and makes a challenge of it and of what it took in before.
    fn draw(&mut self, root: D) -> F
        ensures { draws self.old root result self.new };
}

/// Commits to a codeword of two rows or more, in bit reversed order, and folds it with the challenge that is drawn of
/// the root. It answers the layer, to open pairs of, and the next codeword, on the coset of the squared shift.
pub fn commit_layer<F: TwoAdicField, H: RowHash<F>, T: Transcript<F, H::Digest>>(
    hash: &H,
    codeword: RowMajorMatrix<F>,
    shift: F,
    transcript: &mut T,
) -> Result<(Layer<F, H::Digest>, RowMajorMatrix<F>), DftError>
    requires fits { FitsDft F.TWO_ADICITY (height codeword) codeword.width }
    requires pairs { 2 ≤ height codeword }
    requires invertible { IsInvertible F.ring (F.value shift) }
    ensures codeword { IfOk result (λ p. p.0.codeword ≡ codeword) }
    ensures shape { IfOk result (λ p. (2 * height p.1 ≡ height codeword) × (p.1.width ≡ codeword.width)) }
    ensures layer { IfOk result (λ p. (k : ℕ) → height codeword ≡ 2 ^ suc k
        → IsLayer F.Valued.own (λ n. F.value (F.generator n)) H.worth (H.of_pair hash.now) (H.of_row hash.now) k
        (F.value shift) (F.value p.0.challenge) codeword p.1 p.0.nodes.items) }
    ensures degree { IfOk result (λ p. (k h : ℕ) → height codeword ≡ 2 ^ suc k
        → HasDegreeBelow F.Valued.own F.generator h (suc k) (F.value shift)
        (bit_reversal (suc k) (values_of F.Valued.own codeword))
        → HasDegreeBelow F.Valued.own F.generator ((h + 1) / 2) k (F.ring.mul (F.value shift) (F.value shift))
        (bit_reversal k (values_of F.Valued.own p.1))) }
    ensures drawn { IfOk result (λ p. (root : H.Digest) × (root ≡ get_or p.0.nodes.items 1 root)
        × T.draws transcript.old root p.0.challenge transcript.new) }
    ensures refused { IfErr result WasOutOfMemory }
{
    let leaves = codeword.height() / 2;
    let nodes = tree_of_pairs(hash, &codeword, leaves)?;
    let challenge = transcript.draw(nodes[1]);
    let folded = fold(&codeword, Layout::BitReversed, shift, challenge)?;
    let layer = Layer {
        codeword,
        nodes,
        challenge,
    };
    Ok((layer, folded))
}

/// What is opened of pair `index` of a layer of `2^(log_half + 1)` rows: what `check` accepts of it.
pub fn open_layer<F: TwoAdicField, H: RowHash<F>>(
    layer: &Layer<F, H::Digest>,
    log_half: usize,
    index: usize,
) -> Result<Opening<F, H::Digest>, DftError>
    requires height { height layer.now.codeword ≡ 2 * 2 ^ log_half }
    requires nodes { length layer.now.nodes.items ≡ 2 * 2 ^ log_half }
    requires inside { index < 2 ^ log_half }
    ensures pair { IfOk result (λ o. o.pair ≡ rows_from layer.now.codeword (2 * index) 2) }
    ensures entries { IfOk result (λ o. (r j : ℕ) → r < 2 → j < layer.now.codeword.width
        → (values_of F.Valued.own o.pair).entry r j
        ≡ (values_of F.Valued.own layer.now.codeword).entry (2 * index + r) j) }
    ensures opened { IfOk result (λ o. (h : H) (s beta : F.Element) (next : _) (d : H.Digest)
        → IsLayer F.Valued.own (λ n. F.value (F.generator n)) H.worth (H.of_pair h) (H.of_row h) log_half s beta
        layer.now.codeword next layer.now.nodes.items
        → IsOpened H.worth (H.of_pair h) (H.of_row h) log_half index layer.now.codeword.width
        (H.worth (get_or layer.now.nodes.items 1 d)) o.pair o.path.items) }
    ensures folds { IfOk result (λ o. (h : H) (s beta : F.Element) (next : _)
        → IsLayer F.Valued.own (λ n. F.value (F.generator n)) H.worth (H.of_pair h) (H.of_row h) log_half s beta
        layer.now.codeword next layer.now.nodes.items
        → FoldsTo F.Valued.own (λ n. F.value (F.generator n)) log_half s beta index (values_of F.Valued.own o.pair)
        ((values_of F.Valued.own next).entry index)) }
    ensures refused { IfErr result WasOutOfMemory }
{
    let alloc = *layer.codeword.allocator();
    let rows = layer.codeword.view_rows(2 * index, 2);
    let pair = RowMajorMatrix::new(growth::from_slice(alloc, rows.values())?, rows.width());
    let path = path_of::<F, H>(alloc, &layer.nodes, log_half, index)?;
    Ok(Opening { pair, path })
}

// Whether two rows of this width were opened, with a path that leads to the root.
fn is_opened<F: TwoAdicField, H: RowHash<F>>(
    hash: &H,
    root: H::Digest,
    opening: &Opening<F, H::Digest>,
    width: usize,
    log_half: usize,
    index: usize,
) -> bool
    requires inside { index < 2 ^ log_half }
    requires fits_u64 { log_half < 63 }
    ensures { IsTrue result ↔ IsOpened H.worth (H.of_pair hash.now) (H.of_row hash.now) log_half index width
        (H.worth root) opening.now.pair opening.now.path.items }
{
    if opening.pair.height() != 2
        || opening.pair.width() != width
        || opening.path.len() != log_half
    {
        return false;
    }
    let leaf = hash.hash_row(opening.pair.values());
    let reached = root_of_path::<F, H>(hash, (1 << log_half) + index, leaf, &opening.path);
    hash.are_equal(reached, root)
}

// Whether a pair that was opened folds to this row of a matrix.
fn is_folded<F: TwoAdicField>(
    pair: &RowMajorMatrix<F>,
    next: &RowMajorMatrix<F>,
    row: usize,
    shift: F,
    challenge: F,
    log_half: usize,
    index: usize,
) -> bool
    requires height { height pair.now ≡ 2 }
    requires width { next.now.width ≡ pair.now.width }
    requires row { row < height next.now }
    requires within { log_half < F.TWO_ADICITY }
    requires fits_u64 { log_half < 63 }
    ensures { IsTrue result ↔ FoldsTo F.Valued.own (λ n. F.value (F.generator n)) log_half (F.value shift)
        (F.value challenge) index (values_of F.Valued.own pair.now) ((values_of F.Valued.own next.now).entry row) }
{
    let root = F::two_adic_generator(log_half + 1);
    let x = shift * root.exp_u64(reverse_bits_len(index, log_half) as u64);
    // Tells the prover that the rows are whole.
    let (_whole, _whole_too) = (pair.width(), next.width());
    folds_to(x, challenge, pair.row(0), pair.row(1), next.row(row))
}

/// What a verifier knows: the roots and the last codeword, which the prover sent, the challenges, which it draws from
/// the roots itself, and the coset of the first codeword. Before `check` it tests how many roots there are and the
/// shape of the last codeword, which are conditions there, and that the last codeword has the degree that it wants.
#[derive(Drop)]
pub struct Commitment<F, D> {
    /// The root of each layer.
    pub roots: Vec<D>,
    /// The challenge of each layer.
    pub challenges: Vec<F>,
    /// The last codeword, with its rows in bit reversed order.
    pub last: RowMajorMatrix<F>,
    /// The logarithm of the first codeword's height.
    pub log_height: usize,
    /// The shift of the first codeword's coset.
    pub shift: F,
}

// Whether the pairs that were opened have the width of the last codeword, and paths to the roots.
fn are_opened<F: TwoAdicField, H: RowHash<F>>(
    hash: &H,
    commitment: &Commitment<F, H::Digest>,
    index: usize,
    openings: &[Opening<F, H::Digest>],
) -> bool
    requires count { length openings.now ≡ vec_len commitment.now.roots }
    requires layers { vec_len commitment.now.roots ≤ commitment.now.log_height }
    requires fits_u64 { commitment.now.log_height < 64 }
    requires inside { 2 * index < 2 ^ commitment.now.log_height }
    ensures { IsTrue result ↔ ((l : ℕ) (o : _) (d : H.Digest) → l < length openings.now
        → IsOpened H.worth (H.of_pair hash.now) (H.of_row hash.now) (commitment.now.log_height - suc l)
        (index / 2 ^ l) commitment.now.last.width (H.worth (get_or commitment.now.roots.items l d))
        (get_or openings.now l o).pair (get_or openings.now l o).path.items) }
{
    let width = commitment.last.width();
    for l in 0..openings.len() {
        let log_half = commitment.log_height - 1 - l;
        if !is_opened(
            hash,
            commitment.roots[l],
            &openings[l],
            width,
            log_half,
            index >> l,
        ) {
            return false;
        }
    }
    true
}

// Whether pair l folds to the row that was opened of the next layer, or to that of the last codeword.
fn layer_folds<F: TwoAdicField, D>(
    commitment: &Commitment<F, D>,
    index: usize,
    openings: &[Opening<F, D>],
    l: usize,
) -> bool
    requires at { l < length openings.now }
    requires layers { length openings.now ≤ commitment.now.log_height }
    requires challenges { vec_len commitment.now.challenges ≡ length openings.now }
    requires fits_u64 { commitment.now.log_height < 64 }
    requires within { commitment.now.log_height ≤ F.TWO_ADICITY }
    requires inside { 2 * index < 2 ^ commitment.now.log_height }
    requires last { height commitment.now.last ≡ 2 ^ (commitment.now.log_height - length openings.now) }
    requires pairs { (q : ℕ) (o : _) → q < length openings.now → (height (get_or openings.now q o).pair ≡ 2)
        × ((get_or openings.now q o).pair.width ≡ commitment.now.last.width) }
    ensures between { (o : _) → suc l < length openings.now → (IsTrue result
        ↔ FoldsTo F.Valued.own (λ n. F.value (F.generator n)) (commitment.now.log_height - suc l)
        (power F.ring (F.value commitment.now.shift) (2 ^ l))
        (F.value (get_or commitment.now.challenges.items l F.zero)) (index / 2 ^ l)
        (values_of F.Valued.own (get_or openings.now l o).pair)
        ((values_of F.Valued.own (get_or openings.now (suc l) o).pair).entry ((index / 2 ^ l) % 2))) }
    ensures to_last { (o : _) → suc l ≡ length openings.now → (IsTrue result
        ↔ FoldsTo F.Valued.own (λ n. F.value (F.generator n)) (commitment.now.log_height - suc l)
        (power F.ring (F.value commitment.now.shift) (2 ^ l))
        (F.value (get_or commitment.now.challenges.items l F.zero)) (index / 2 ^ l)
        (values_of F.Valued.own (get_or openings.now l o).pair)
        ((values_of F.Valued.own commitment.now.last).entry (index / 2 ^ l))) }
{
    let pair = &openings[l].pair;
    let shift = commitment.shift.exp_u64(1 << l);
    let challenge = commitment.challenges[l];
    let log_half = commitment.log_height - 1 - l;
    let place = index >> l;
    if l + 1 < openings.len() {
        let next = &openings[l + 1].pair;
        is_folded(pair, next, place % 2, shift, challenge, log_half, place)
    } else {
        is_folded(
            pair,
            &commitment.last,
            place,
            shift,
            challenge,
            log_half,
            place,
        )
    }
}

// Whether every pair that was opened folds to the row that was opened of the next layer, the last to that of the last
// codeword.
fn are_folded<F: TwoAdicField, D>(
    commitment: &Commitment<F, D>,
    index: usize,
    openings: &[Opening<F, D>],
) -> bool
    requires layers { length openings.now ≤ commitment.now.log_height }
    requires challenges { vec_len commitment.now.challenges ≡ length openings.now }
    requires fits_u64 { commitment.now.log_height < 64 }
    requires within { commitment.now.log_height ≤ F.TWO_ADICITY }
    requires inside { 2 * index < 2 ^ commitment.now.log_height }
    requires last { height commitment.now.last ≡ 2 ^ (commitment.now.log_height - length openings.now) }
    requires pairs { (q : ℕ) (o : _) → q < length openings.now → (height (get_or openings.now q o).pair ≡ 2)
        × ((get_or openings.now q o).pair.width ≡ commitment.now.last.width) }
    ensures { IsTrue result ↔ ((o : _) → FoldsDown F.Valued.own (λ n. F.value (F.generator n))
        commitment.now.log_height (length openings.now) (F.value commitment.now.shift)
        (λ l. F.value (get_or commitment.now.challenges.items l F.zero)) index
        (λ l. values_of F.Valued.own (get_or openings.now l o).pair) (values_of F.Valued.own commitment.now.last)) }
{
    for l in 0..openings.len() {
        if !layer_folds(commitment, index, openings, l) {
            return false;
        }
    }
    true
}

/// Whether a query is accepted: what was opened of pair `index` of the first codeword, and of those after it.
///
/// It says yes exactly where there is an opening for each root, whose path leads from the digest of its pair to that
/// root, and each pair folds, with its layer's challenge and at its point, to the row of the next one or of the last
/// codeword. What is opened need not have any shape. The shift should have an inverse: at zero each pair of equal rows
/// folds to every row.
pub fn check<F: TwoAdicField, H: RowHash<F>>(
    hash: &H,
    commitment: &Commitment<F, H::Digest>,
    index: usize,
    openings: &[Opening<F, H::Digest>],
) -> bool
    requires layers { vec_len commitment.now.roots ≤ commitment.now.log_height }
    requires challenges { vec_len commitment.now.challenges ≡ vec_len commitment.now.roots }
    requires fits_u64 { commitment.now.log_height < 64 }
    requires within { commitment.now.log_height ≤ F.TWO_ADICITY }
    requires last { height commitment.now.last ≡ 2 ^ (commitment.now.log_height - vec_len commitment.now.roots) }
    requires inside { 2 * index < 2 ^ commitment.now.log_height }
    ensures { IsTrue result ↔ (length openings.now ≡ vec_len commitment.now.roots)
        × ((l : ℕ) (o : _) (d : H.Digest) → l < length openings.now
        → IsOpened H.worth (H.of_pair hash.now) (H.of_row hash.now) (commitment.now.log_height - suc l)
        (index / 2 ^ l) commitment.now.last.width (H.worth (get_or commitment.now.roots.items l d))
        (get_or openings.now l o).pair (get_or openings.now l o).path.items)
        × ((o : _) → FoldsDown F.Valued.own (λ n. F.value (F.generator n)) commitment.now.log_height
        (length openings.now) (F.value commitment.now.shift)
        (λ l. F.value (get_or commitment.now.challenges.items l F.zero)) index
        (λ l. values_of F.Valued.own (get_or openings.now l o).pair) (values_of F.Valued.own commitment.now.last)) }
{
    if openings.len() != commitment.roots.len() {
        return false;
    }
    if !are_opened(hash, commitment, index, openings) {
        return false;
    }
    are_folded(commitment, index, openings)
}

/// Commits to a codeword of `2^log_height` rows, in bit reversed order, which it folds so many times. It answers the
/// layers, to open queries of, and what a verifier knows. An error is out of memory, and no clause then speaks of the
/// transcript, which has taken in some of the roots.
pub fn commit<F: TwoAdicField, H: RowHash<F>, T: Transcript<F, H::Digest>>(
    hash: &H,
    codeword: RowMajorMatrix<F>,
    log_height: usize,
    shift: F,
    folds: usize,
    transcript: &mut T,
) -> Result<(Vec<Layer<F, H::Digest>>, Commitment<F, H::Digest>), DftError>
    requires fits { FitsDft F.TWO_ADICITY (height codeword) codeword.width }
    requires height { height codeword ≡ 2 ^ log_height }
    requires folds { folds ≤ log_height }
    requires invertible { IsInvertible F.ring (F.value shift) }
    ensures count { IfOk result (λ p. (vec_len p.0 ≡ folds) × (vec_len p.1.roots ≡ folds)
        × (vec_len p.1.challenges ≡ folds)) }
    ensures shapes { IfOk result (λ p. (l : ℕ) (y : _) → l < length p.0.items
        → (height (get_or p.0.items l y).codeword ≡ 2 * 2 ^ (log_height - suc l))
        × (length (get_or p.0.items l y).nodes.items ≡ 2 * 2 ^ (log_height - suc l))) }
    ensures first { IfOk result (λ p. get_or (map (λ y. y.codeword) p.0.items) 0 p.1.last ≡ codeword) }
    ensures layers { IfOk result (λ p. AreLayers F.Valued.own (λ n. F.value (F.generator n)) H.worth (H.of_pair hash.now)
        (H.of_row hash.now) log_height folds (F.value shift) (λ l. F.value (get_or p.1.challenges.items l F.zero))
        (λ l. get_or (map (λ y. y.codeword) p.0.items) l p.1.last)
        (λ l. get_or (map (λ y. y.nodes.items) p.0.items) l [])) }
    ensures last { IfOk result (λ p. (height p.1.last ≡ 2 ^ (log_height - folds)) × (p.1.last.width ≡ codeword.width)) }
    ensures roots { IfOk result (λ p. (l : ℕ) (d : H.Digest) → l < folds
        → get_or p.1.roots.items l d ≡ get_or (get_or (map (λ y. y.nodes.items) p.0.items) l []) 1 d) }
    ensures challenges { IfOk result (λ p. p.1.challenges.items ≡ map (λ y. y.challenge) p.0.items) }
    ensures known { IfOk result (λ p. (p.1.log_height ≡ log_height) × (p.1.shift ≡ shift)) }
    ensures drawn { IfOk result (λ p. Chained (λ t y u. (root : H.Digest) × (root ≡ get_or y.nodes.items 1 root)
        × T.draws t root y.challenge u) transcript.old p.0.items transcript.new) }
    ensures refused { IfErr result WasOutOfMemory }
{
    let alloc = *codeword.allocator();
    let mut layers = growth::with_capacity(alloc, folds)?;
    let mut roots = growth::with_capacity(alloc, folds)?;
    let mut challenges = growth::with_capacity(alloc, folds)?;
    let mut last = codeword;
    let mut last_shift = shift;
    for _fold in 0..folds {
        let (layer, next) = commit_layer(hash, last, last_shift, transcript)?;
        roots.push_reserved(layer.nodes[1]);
        challenges.push_reserved(layer.challenge);
        layers.push_reserved(layer);
        last = next;
        last_shift = invertible_square(last_shift);
    }
    let commitment = Commitment {
        roots,
        challenges,
        last,
        log_height,
        shift,
    };
    Ok((layers, commitment))
}

/// What is opened for a query: pair `index` of the first codeword, of `2^log_height` rows, and in each layer after it
/// the pair that has the row to which the one before is folded. It is what `check` accepts.
pub fn open<F: TwoAdicField, H: RowHash<F>>(
    alloc: Global,
    layers: &[Layer<F, H::Digest>],
    log_height: usize,
    index: usize,
) -> Result<Vec<Opening<F, H::Digest>>, DftError>
    requires layers { length layers.now ≤ log_height }
    requires fits_u64 { log_height < 64 }
    requires inside { 2 * index < 2 ^ log_height }
    requires height { (l : ℕ) (y : _) → l < length layers.now
        → height (get_or layers.now l y).codeword ≡ 2 * 2 ^ (log_height - suc l) }
    requires nodes { (l : ℕ) (y : _) → l < length layers.now
        → length (get_or layers.now l y).nodes.items ≡ 2 * 2 ^ (log_height - suc l) }
    ensures count { IfOk result (λ v. vec_len v ≡ length layers.now) }
    ensures pairs { IfOk result (λ v. (l : ℕ) (y : _) (o : _) → l < length layers.now → (get_or v.items l o).pair
        ≡ rows_from (get_or layers.now l y).codeword (2 * (index / 2 ^ l)) 2) }
    ensures opened { IfOk result (λ v. (h : H) (s : F.Element) (betas : ℕ → F.Element) (last : _)
        → AreLayers F.Valued.own (λ n. F.value (F.generator n)) H.worth (H.of_pair h) (H.of_row h) log_height
        (length layers.now) s betas (λ l. get_or (map (λ y. y.codeword) layers.now) l last)
        (λ l. get_or (map (λ y. y.nodes.items) layers.now) l [])
        → (l : ℕ) (o : _) (d : H.Digest) → l < length layers.now
        → IsOpened H.worth (H.of_pair h) (H.of_row h) (log_height - suc l) (index / 2 ^ l) last.width
        (H.worth (get_or (get_or (map (λ y. y.nodes.items) layers.now) l []) 1 d))
        (get_or v.items l o).pair (get_or v.items l o).path.items) }
    ensures folds { IfOk result (λ v. (h : H) (s : F.Element) (betas : ℕ → F.Element) (last : _)
        → AreLayers F.Valued.own (λ n. F.value (F.generator n)) H.worth (H.of_pair h) (H.of_row h) log_height
        (length layers.now) s betas (λ l. get_or (map (λ y. y.codeword) layers.now) l last)
        (λ l. get_or (map (λ y. y.nodes.items) layers.now) l [])
        → (o : _) → FoldsDown F.Valued.own (λ n. F.value (F.generator n)) log_height (length layers.now) s betas index
        (λ l. values_of F.Valued.own (get_or v.items l o).pair) (values_of F.Valued.own last)) }
    ensures refused { IfErr result WasOutOfMemory }
{
    let mut openings = growth::with_capacity(alloc, layers.len())?;
    for l in 0..layers.len() {
        let opening = open_layer::<F, H>(&layers[l], log_height - 1 - l, index >> l)?;
        openings.push_reserved(opening);
    }
    Ok(openings)
}

/// Commits to a codeword, opens a query of it and checks that, as a prover and a verifier do who draw the same
/// challenges: the answer is always yes. An error is out of memory.
pub fn honest_query<F: TwoAdicField, H: RowHash<F>, T: Transcript<F, H::Digest>>(
    hash: &H,
    codeword: RowMajorMatrix<F>,
    log_height: usize,
    shift: F,
    folds: usize,
    transcript: &mut T,
    index: usize,
) -> Result<bool, DftError>
    requires fits { FitsDft F.TWO_ADICITY (height codeword) codeword.width }
    requires height { height codeword ≡ 2 ^ log_height }
    requires folds { folds ≤ log_height }
    requires fits_u64 { log_height < 64 }
    requires invertible { IsInvertible F.ring (F.value shift) }
    requires inside { 2 * index < 2 ^ log_height }
    ensures accepted { IfOk result IsTrue }
    ensures refused { IfErr result WasOutOfMemory }
{
    let alloc = *codeword.allocator();
    let (layers, commitment) = commit(hash, codeword, log_height, shift, folds, transcript)?;
    let openings = open::<F, H>(alloc, &layers, log_height, index)?;
    Ok(check(hash, &commitment, index, &openings))
}

/// A transcript that takes in the last codeword too, and from which the numbers of queries are drawn then.
pub trait QueryTranscript<F, D>: Transcript<F, D> {
    ghost use Rattle.std.specs.Prelude.{◌^◌, ◌<◌, ℕ};
    ghost use Rattle.p3_matrix.specs.RowMajor.{RowMajor};

    // From one state it takes in this matrix, and is then in the other.
    ghost takes: { Self → RowMajor F → Self → Type 0 };

    // From one state it draws this number of so many bits, and is then in the other.
    ghost draws_index: { Self → ℕ → ℕ → Self → Type 0 };

    /// Takes in a matrix.
    fn take(&mut self, last: &RowMajorMatrix<F>)
        ensures { takes self.old last.now self.new };

    /// Makes a number below `2^bits` of all that it took in before.
    fn draw_index(&mut self, bits: usize) -> usize
        requires { bits < 64 }
        ensures drawn { draws_index self.old bits result self.new }
        ensures below { result < 2 ^ bits };
}

/// What a verifier asks of a proof.
#[derive(Clone, Copy)]
pub struct Parameters<F> {
    /// The logarithm of the first codeword's height, at least one.
    pub log_height: usize,
    /// The shift of its coset.
    pub shift: F,
    /// How many queries are drawn.
    pub queries: usize,
}

// Whether so many roots and queries and a last codeword of this height fit the parameters.
fn has_shape<F: TwoAdicField>(
    parameters: &Parameters<F>,
    roots: usize,
    height: usize,
    queries: usize,
) -> bool
    ensures { IsTrue result ↔ HasProofShape F.TWO_ADICITY parameters.now.log_height parameters.now.queries roots
        height queries }
{
    let log_height = parameters.log_height;
    if log_height < 1 || log_height >= 64 {
        return false;
    }
    if log_height > F::TWO_ADICITY || roots > log_height {
        return false;
    }
    height == 1 << (log_height - roots) && queries == parameters.queries
}

// The challenges of the roots, each drawn after those before it.
fn draw_challenges<F: TwoAdicField, D: Copy, T: Transcript<F, D>>(
    alloc: Global,
    transcript: &mut T,
    roots: &[D],
) -> Result<Vec<F>, DftError>
    ensures count { IfOk result (λ v. vec_len v ≡ length roots.now) }
    ensures drawn { IfOk result (λ v. AreDrawn T.draws transcript.old roots.now v.items transcript.new) }
    ensures refused { IfErr result WasOutOfMemory }
{
    let mut challenges = growth::with_capacity(alloc, roots.len())?;
    for l in 0..roots.len() {
        challenges.push_reserved(transcript.draw(roots[l]));
    }
    Ok(challenges)
}

// Whether each query that is drawn is accepted.
fn are_accepted<F: TwoAdicField, H: RowHash<F>, T: QueryTranscript<F, H::Digest>>(
    hash: &H,
    transcript: &mut T,
    commitment: &Commitment<F, H::Digest>,
    queries: &[Vec<Opening<F, H::Digest>>],
) -> bool
    requires some { 1 ≤ commitment.now.log_height }
    requires layers { vec_len commitment.now.roots ≤ commitment.now.log_height }
    requires challenges { vec_len commitment.now.challenges ≡ vec_len commitment.now.roots }
    requires fits_u64 { commitment.now.log_height < 64 }
    requires within { commitment.now.log_height ≤ F.TWO_ADICITY }
    requires last { height commitment.now.last ≡ 2 ^ (commitment.now.log_height - vec_len commitment.now.roots) }
    ensures { (indexes : List ℕ) × (length indexes ≡ length queries.now)
        × Chained (λ t i u. T.draws_index t (commitment.now.log_height - 1) i u) transcript.old indexes transcript.new
        × (IsTrue result ↔ ((q : ℕ) (d : _) → q < length queries.now → IsAcceptedQuery F.Valued.own
        (λ n. F.value (F.generator n)) H.worth (H.of_pair hash.now) (H.of_row hash.now) commitment.now.log_height
        (F.value commitment.now.shift) (λ l. F.value (get_or commitment.now.challenges.items l F.zero))
        commitment.now.roots.items commitment.now.last (get_or indexes q 0) (get_or queries.now q d).items)) }
{
    let mut accepted = true;
    for q in 0..queries.len() {
        let index = transcript.draw_index(commitment.log_height - 1);
        if !check(hash, commitment, index, &queries[q]) {
            accepted = false;
        }
    }
    accepted
}

/// Whether a proof is accepted by a verifier who draws the challenges and the numbers of the queries itself, in the
/// order in which a prover commits: the challenge of each root after it, then, when the last codeword was taken in, the
/// numbers. The roots, the last codeword and what is opened need not have any shape.
///
/// It says yes exactly where the shapes are those that the parameters ask for and `check` accepts each query that is
/// drawn, with the challenges that are drawn. It does not test the degree of the last codeword, which the caller tests.
/// An error is out of memory.
pub fn verify<F: TwoAdicField, H: RowHash<F>, T: QueryTranscript<F, H::Digest>>(
    hash: &H,
    transcript: &mut T,
    parameters: Parameters<F>,
    roots: Vec<H::Digest>,
    last: RowMajorMatrix<F>,
    queries: &[Vec<Opening<F, H::Digest>>],
) -> Result<bool, DftError>
    ensures shape { IfOk result (λ yes. IsTrue yes → HasProofShape F.TWO_ADICITY parameters.log_height
        parameters.queries (vec_len roots) (height last) (length queries.now)) }
    ensures verdict { IfOk result (λ yes. HasProofShape F.TWO_ADICITY parameters.log_height parameters.queries
        (vec_len roots) (height last) (length queries.now)
        → (challenges : List F) × (indexes : List ℕ) × (drawn : T) × (taken : T)
        × AreDrawn T.draws transcript.old roots.items challenges drawn × T.takes drawn last taken
        × (length indexes ≡ length queries.now)
        × Chained (λ t i u. T.draws_index t (parameters.log_height - 1) i u) taken indexes transcript.new
        × (IsTrue yes ↔ ((q : ℕ) (d : _) → q < length queries.now → IsAcceptedQuery F.Valued.own
        (λ n. F.value (F.generator n)) H.worth (H.of_pair hash.now) (H.of_row hash.now) parameters.log_height
        (F.value parameters.shift) (λ l. F.value (get_or challenges l F.zero)) roots.items last
        (get_or indexes q 0) (get_or queries.now q d).items))) }
    ensures refused { IfErr result WasOutOfMemory }
{
    if !has_shape(&parameters, roots.len(), last.height(), queries.len()) {
        return Ok(false);
    }
    let alloc = *last.allocator();
    let challenges = draw_challenges::<F, H::Digest, T>(alloc, transcript, &roots)?;
    transcript.take(&last);
    let commitment = Commitment {
        roots,
        challenges,
        last,
        log_height: parameters.log_height,
        shift: parameters.shift,
    };
    Ok(are_accepted(hash, transcript, &commitment, queries))
}
