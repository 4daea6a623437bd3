//! Sets of tiles as words, whose bit t stands for tile t.

ghost use Rattle.std.specs.Prelude.{◌≡◌, ◌≤◌, ◌&&◌, not, nat_lt};
ghost use Rattle.mesh_gen.specs.TileSet.{has_tile};

use mesh_gen::has_tile;

/// Whether a number is one of so many tiles, and not in the set.
pub(crate) fn lacks(set: u64, tiles: usize, t: u8) -> bool
    requires { tiles ≤ 64 }
    ensures { result ≡ (nat_lt t tiles && not (has_tile set t)) }
{
    usize::from(t) < tiles && !has_tile(set, t)
}
