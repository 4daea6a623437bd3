//! A window of a broadcast: some tiles make a request each and post it, and the window's ticks pass.
ghost use Rattle.std.specs.Prelude.{◌≡◌, ◌+◌, ◌≤◌, ◌++◌, length, map, filter};
ghost use Rattle.mesh_gen.specs.TileSet.{has_tile};
ghost use Rattle.order_tracker.specs.Order.{upwards, expansion};
ghost use Rattle.report_text.specs.declared.event.Event.TheVariants.{Inject, Post};
ghost use Rattle.chip_model.specs.Chip.{tile_count};
ghost use Rattle.chip_model.specs.Delivery.{window_events};
ghost use Rattle.broadcast.specs.Broadcasts.{BeginsWindow, TicksFor, WindowPasses};

use mesh_gen::{Kind, has_tile};
use net_iface::OrderedNet;

// Each tile of the set makes a request, where its router has a channel for it.
fn inject(net: &mut OrderedNet, set: u64)
    ensures { BeginsWindow
        (map Inject (filter (has_tile set) (upwards 0 (tile_count net.old.chip)))) net.old net.new }
{
    for t in 0..net.tiles() {
        if has_tile(set, t) {
            let _request = net.inject(t, Kind::GetS, 0);
        }
    }
}

// Each tile of the set posts, where it may.
fn post(net: &mut OrderedNet, set: u64)
    ensures { BeginsWindow
        (map Post (filter (has_tile set) (upwards 0 (tile_count net.old.chip)))) net.old net.new }
{
    for t in 0..net.tiles() {
        if has_tile(set, t) {
            let _posted = net.post(t);
        }
    }
}

// The ticks of a window pass, where a tile posted.
fn tick(net: &mut OrderedNet)
    requires closed { net.old.network.windows.phase ≡ 0 }
    requires room { length net.old.network.ordered + tile_count net.old.chip ≤ net.old.room }
    ensures { TicksFor net.old.chip.window net.old net.new }
{
    for _ in 0..net.window() {
        let _ticked = net.tick();
    }
}

// A window of the tiles of a set.
pub(crate) fn pass_window(net: &mut OrderedNet, set: u64)
    requires closed { net.old.network.windows.phase ≡ 0 }
    requires room { length net.old.network.ordered + tile_count net.old.chip ≤ net.old.room }
    ensures { WindowPasses
        (window_events net.old.chip (expansion (tile_count net.old.chip) 0 set)) net.old net.new }
{
    inject(net, set);
    post(net, set);
    tick(net);
}
