//! A Merkle tree over pairs of rows, kept whole to open any of them: the path of a leaf, and what it leads to.
//!
//! Proved: the nodes are those of the tree over the digests of the pairs, and the path of a leaf leads from its digest
//! to the root. A path of a tree's height that leads to its root starts from the digest of the tree's own leaf, or it
//! meets a collision: a pair that differs from the tree's pair in its place, and is joined to the same. Rows that differ
//! may have digests of one worth, which is a collision of `hash_row`.

ghost use Rattle.std.specs.Prelude.{◌≡◌, ℕ, ◌+◌, ◌-◌, ◌*◌, ◌%◌, ◌^◌, ◌<◌, ◌≤◌, IfErr, IfOk, get_or, length, map};
ghost use Rattle.std.specs.Prelude.{vec_len};
ghost use Rattle.std.specs.Mem.{type_size};
ghost use Rattle.p3_matrix.specs.Room.{IsWithin, WasOutOfMemory};
ghost use Rattle.p3_matrix.specs.RowMajor.{height, rows_from};
ghost use Rattle.examples.specs.MerkleTrees.{AreNodes, AreToldApartOnPath, climbed, tree};

use crate::merkle_root::RowHash;
use p3_dft::{DftError, Field, RowMajorMatrix, growth};
use std::alloc::Global;

// Fills the nodes above the leaves, from the last one up.
fn join_nodes<F: Field, H: RowHash<F>>(hash: &H, nodes: &mut [H::Digest], leaves: usize)
    requires size { length nodes.old ≡ 2 * leaves }
    ensures below { (n : ℕ) (d : H.Digest) → leaves ≤ n → get_or nodes.new n d ≡ get_or nodes.old n d }
    ensures joined { (n : ℕ) (d : H.Digest) → 1 ≤ n → n < leaves → H.worth (get_or nodes.new n d)
        ≡ H.of_pair hash.now (H.worth (get_or nodes.new (2 * n) d)) (H.worth (get_or nodes.new (2 * n + 1) d)) }
{
    for done in 1..leaves {
        let n = leaves - done;
        nodes[n] = hash.join(nodes[2 * n], nodes[2 * n + 1]);
    }
}

/// The nodes of the tree over the pairs of neighbouring rows of a matrix, whose height is even: the root is node 1.
pub fn tree_of_pairs<F: Field, H: RowHash<F>>(
    hash: &H,
    values: &RowMajorMatrix<F>,
    leaves: usize,
) -> Result<Vec<H::Digest>, DftError>
    requires { height values.now ≡ 2 * leaves }
    ensures nodes { IfOk result (λ nodes. AreNodes H.worth (H.of_pair hash.now) leaves
        (λ i. H.of_row hash.now (rows_from values.now (2 * i) 2).values) nodes.items) }
    ensures refused { IfErr result WasOutOfMemory }
{
    let mut nodes = Vec::new(*values.allocator());
    // Each place but the first is written below, so any digest will do.
    growth::resize(&mut nodes, values.height(), hash.hash_row(&[]))?;
    for i in 0..leaves {
        nodes[leaves + i] = hash.hash_row(values.view_rows(2 * i, 2).values());
    }
    join_nodes(hash, &mut nodes, leaves);
    Ok(nodes)
}

// The other child of a node's parent.
fn sibling_of(node: usize) -> usize
    requires { 1 ≤ node }
    ensures even { node % 2 ≡ 0 → result ≡ node + 1 }
    ensures odd { node % 2 ≡ 1 → result ≡ node - 1 }
{
    if node % 2 == 0 { node + 1 } else { node - 1 }
}

/// The siblings of a leaf and of the nodes above it, from the leaf up, in the tree with these nodes.
pub fn path_of<F: Field, H: RowHash<F>>(
    alloc: Global,
    nodes: &[H::Digest],
    log_leaves: usize,
    leaf: usize,
) -> Result<Vec<H::Digest>, DftError>
    requires size { length nodes.now ≡ 2 * 2 ^ log_leaves }
    requires inside { leaf < 2 ^ log_leaves }
    ensures long { IfOk result (λ path. vec_len path ≡ log_leaves) }
    ensures leads { IfOk result (λ path. (h : H) (digest : ℕ → H.Worth) (d : H.Digest)
        → AreNodes H.worth (H.of_pair h) (2 ^ log_leaves) digest nodes.now
        → climbed (H.of_pair h) (2 ^ log_leaves + leaf) (digest leaf) (map H.worth path.items)
        ≡ H.worth (get_or nodes.now 1 d)) }
    ensures refused { IfErr result (IsWithin (type_size H.Digest.row) log_leaves) }
{
    let mut path = growth::with_capacity(alloc, log_leaves)?;
    let mut node = nodes.len() / 2 + leaf;
    for _level in 0..log_leaves {
        path.push_reserved(nodes[sibling_of(node)]);
        node /= 2;
    }
    Ok(path)
}

// `root_of_path`, one step up for each sibling.
fn climb<F: Field, H: RowHash<F>>(
    hash: &H,
    mut node: usize,
    mut digest: H::Digest,
    path: &[H::Digest],
) -> H::Digest
    ensures { H.worth result ≡ climbed (H.of_pair hash.now) node (H.worth digest) (map H.worth path.now) }
{
    for sibling in path {
        digest = if node % 2 == 0 {
            hash.join(digest, *sibling)
        } else {
            hash.join(*sibling, digest)
        };
        node /= 2;
    }
    digest
}

/// What the root has to be where a node has this digest and this path.
///
/// The root of a tree comes out where its leaf was put in. Where it comes out of another digest, a pair on the way up
/// and the tree's pair in its place are a collision (`bound`): they differ, and are joined to one.
pub fn root_of_path<F: Field, H: RowHash<F>>(
    hash: &H,
    node: usize,
    digest: H::Digest,
    path: &[H::Digest],
) -> H::Digest
    ensures leads { H.worth result ≡ climbed (H.of_pair hash.now) node (H.worth digest) (map H.worth path.now) }
    ensures bound { (leaf : ℕ → H.Worth) (i : ℕ) → i < 2 ^ length path.now → node ≡ 2 ^ length path.now + i
        → AreToldApartOnPath (H.of_pair hash.now) i (H.worth digest) (map H.worth path.now) leaf
        → H.worth result ≡ tree (H.of_pair hash.now) (length path.now) leaf → H.worth digest ≡ leaf i }
{
    climb::<F, H>(hash, node, digest, path)
}
