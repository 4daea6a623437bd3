//! The channels of the reply network's routers.
ghost use Rattle.std.specs.Prelude.{◌≡◌, ◌<◌};
ghost use Rattle.mesh_gen.specs.Grid.{tiles};
ghost use Rattle.mesh_gen.specs.Mesh.{grid};
ghost use Rattle.chip_model.specs.Replies.{next_channel};

use chip_model::Channel;
use mesh_gen::{Mesh, Msg};
use vc_bank::{Bank, free_slot};

// The channel to which a message at the router `r` goes next.
pub(crate) fn next_channel(mesh: &Mesh, banks: &[Bank<Msg>], r: u8, msg: Msg) -> Option<Channel>
    requires from { r < tiles (grid mesh.now) }
    requires to { msg.to < tiles (grid mesh.now) }
    ensures { result ≡ next_channel (grid mesh.now) banks.now r msg }
{
    let out = mesh.route(r, msg.to);
    let port = out.opposite();
    match mesh.neighbour(r, out) {
        Some(router) => match free_slot(banks, router, port) {
            Some(slot) => Some(Channel { router, port, slot }),
            None => None,
        },
        None => None,
    }
}
