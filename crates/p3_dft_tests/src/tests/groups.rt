// Which layers go over a whole matrix together, by height and tile.

ghost use Rattle.std.specs.Prelude.{◌≤◌};

use p3_networks::groups::{group_end, groups, log_tile_rows, piece_size};
use std::process::Abort;

// How many layers each group has, from the largest blocks on, at height 64 and width 3.
fn assert_groups(rt: &impl Abort, tile: usize, sizes: &[usize])
    requires { tile ≤ 4294967296 }
{
    let log_rows = log_tile_rows(tile, 3, 6);
    let count = groups(6 - log_rows);
    assert!(rt; count == sizes.len());
    for (g, size) in sizes.iter().enumerate() {
        let from = group_end(log_rows, 6, g + 1);
        let to = group_end(log_rows, 6, g);
        assert!(rt; to - from == *size);
    }
}

#[test]
fn groups_take_three_layers_and_then_the_rest(rt: HostRuntime) {
    assert_groups(&rt, 1, &[3, 3]);
    assert_groups(&rt, 6, &[3, 2]);
    assert_groups(&rt, 12, &[3, 1]);
    assert_groups(&rt, 192, &[]);
}

// A tile of each size has pieces of an eighth, and of one at least.
#[test]
fn a_piece_is_an_eighth_of_a_tile(rt: HostRuntime) {
    for (tile, size) in [(1usize, 1usize), (6, 1), (12, 2), (192, 32), (8192, 1024)] {
        assert!(rt; piece_size(tile) == size);
    }
}
