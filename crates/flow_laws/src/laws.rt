ghost use Rattle.std.specs.Prelude.{◌≡◌, ◌⊎◌, ◌<◌, ℕ, false};
ghost use Rattle.mesh_gen.specs.declared.msg.Msg.{Msg};
ghost use Rattle.mesh_gen.specs.Grid.{Grid};
ghost use Rattle.mesh_gen.specs.Routes.{HasTiles};
ghost use Rattle.vc_bank.specs.Places.{Network};
ghost use Rattle.chip_model.specs.Chip.{Chip};
ghost use Rattle.chip_model.specs.OrderedNetwork.{OrderedNetwork};
ghost use Rattle.chip_model.specs.NetworkShape.{HasChannels, IsOnRoute};
ghost use Rattle.chip_model.specs.NetworkFits.{NetworkFits};
ghost use Rattle.flow_laws.specs.NetworkMoves.{DeliveryMoves, NetworkMoves};
ghost use Rattle.flow_laws.specs.NetworkMoves.{AllDelivered, NetworkRests};
ghost use Rattle.flow_laws.specs.MessageMoves.{MessageMoves, NoMessages, AreForTiles};

/// The ordered network is never stuck. At run time it does nothing.
pub fn request_progress_laws()
    // A take, a hop or a delivery is possible, or every tile has delivered all that is ordered.
    ensures delivers { (chip : Chip) (net : OrderedNetwork) → HasTiles chip.grid
        → NetworkFits chip net → DeliveryMoves chip net ⊎ AllDelivered net }

    // With ticks and posts: or there is nothing left to do.
    ensures moves { (chip : Chip) (net : OrderedNetwork) → HasTiles chip.grid
        → NetworkFits chip net → NetworkMoves chip net ⊎ NetworkRests net }
{}

/// The reply network is never stuck: a message hops or is taken by its tile, or no message stands
/// anywhere. At run time it does nothing.
pub fn message_progress_laws()
    ensures moves { (g : Grid) (data_vcs : ℕ) (net : Network Msg) → HasTiles g → 0 < data_vcs
        → HasChannels g data_vcs false net → IsOnRoute g net → AreForTiles g net
        → MessageMoves g net ⊎ NoMessages net }
{}
