ghost use Rattle.std.specs.Prelude.{◌≡◌, ◌+◌, ℕ, List, Some, false};
ghost use Rattle.mesh_gen.specs.declared.msg.Msg.{Msg};
ghost use Rattle.mesh_gen.specs.declared.port.Port.{Port};
ghost use Rattle.mesh_gen.specs.Grid.{Grid};
ghost use Rattle.mesh_gen.specs.Routes.{HasTiles};
ghost use Rattle.vc_bank.specs.Places.{Network};
ghost use Rattle.chip_model.specs.Chip.{Chip};
ghost use Rattle.chip_model.specs.NetworkShape.{HasChannels, MessageFits};
ghost use Rattle.chip_model.specs.Replies.{no_replies, after_send, after_data_hop, after_data_eject};
ghost use Rattle.reply_net.specs.MessagesHold.{MessagesHold, MessageCame};
ghost use Rattle.reply_net.specs.ReplyNetwork.{total};
ghost use Rattle.reply_net.specs.ReplyRuns.{ReplyEvent, Account, opening_account, account_of, IsBalanced, AreAtTheirTiles};

use mesh_gen::route_laws;

/// The laws of replies, over every list of calls on every grid with tiles: each message that was put in stands in
/// exactly one channel or was taken, and not both, and it was taken by the tile that it names. At run time it does nothing.
pub fn reply_laws()
    ensures once { (g : Grid) (data_vcs : ℕ) (events : List ReplyEvent) (account : Account)
        → HasTiles g
        → account_of g (opening_account g data_vcs) events ≡ Some account → IsBalanced account }
    ensures at_their_tiles { (g : Grid) (data_vcs : ℕ) (events : List ReplyEvent)
        (account : Account)
        → account_of g (opening_account g data_vcs) events ≡ Some account
        → AreAtTheirTiles account }
{
    route_laws();
}

/// The laws of what holds of messages: before any step, and after each of them. At run time it does nothing.
pub fn message_laws()
    ensures opened { (chip : Chip) → MessagesHold chip (no_replies chip.grid chip.data_vcs) }
    ensures sent { (chip : Chip) (old new : Network Msg) (t : ℕ) (msg : Msg)
        → MessagesHold chip old → MessageFits chip msg → after_send old t msg ≡ Some new
        → MessagesHold chip new }
    ensures hopped { (chip : Chip) (old new : Network Msg) (r : ℕ) (port : Port) (slot : ℕ)
        → MessagesHold chip old → after_data_hop chip.grid old r port slot ≡ Some new
        → MessagesHold chip new }
    ensures came { (chip : Chip) (old new : Network Msg) (t : ℕ) (port : Port) (slot : ℕ)
        (msg : Msg)
        → MessagesHold chip old → after_data_eject old t port slot ≡ Some (msg, new)
        → MessageCame chip msg new }
    ensures here { (old new : Network Msg) (t : ℕ) (port : Port) (slot : ℕ) (msg : Msg)
        → after_data_eject old t port slot ≡ Some (msg, new) → msg.to ≡ t }
{
    route_laws();
}

/// The laws of the channels of replies: no step gives a router more or fewer of them. At run time it does nothing.
pub fn channel_laws()
    ensures sent { (g : Grid) (data_vcs : ℕ) (old new : Network Msg) (t : ℕ) (msg : Msg)
        → HasChannels g data_vcs false old → after_send old t msg ≡ Some new
        → HasChannels g data_vcs false new }
    ensures hopped { (g : Grid) (data_vcs : ℕ) (old new : Network Msg) (r : ℕ) (port : Port)
        (slot : ℕ)
        → HasChannels g data_vcs false old → after_data_hop g old r port slot ≡ Some new
        → HasChannels g data_vcs false new }
    ensures came { (g : Grid) (data_vcs : ℕ) (old new : Network Msg) (t : ℕ) (port : Port)
        (slot : ℕ) (msg : Msg)
        → HasChannels g data_vcs false old → after_data_eject old t port slot ≡ Some (msg, new)
        → HasChannels g data_vcs false new }
{}

/// The laws of sums over the messages in all channels, whatever each weighs. At run time it does nothing.
pub fn weight_laws()
    ensures none { (weight : Msg → ℕ) (g : Grid) (data_vcs : ℕ)
        → total weight (no_replies g data_vcs) ≡ 0 }
    ensures adds { (weight : Msg → ℕ) (old new : Network Msg) (t : ℕ) (msg : Msg)
        → after_send old t msg ≡ Some new → total weight new ≡ total weight old + weight msg }
    ensures keeps { (weight : Msg → ℕ) (g : Grid) (old new : Network Msg) (r : ℕ) (port : Port)
        (slot : ℕ)
        → HasTiles g → after_data_hop g old r port slot ≡ Some new
        → total weight new ≡ total weight old }
    ensures takes { (weight : Msg → ℕ) (old new : Network Msg) (t : ℕ) (port : Port) (slot : ℕ)
        (msg : Msg)
        → after_data_eject old t port slot ≡ Some (msg, new)
        → total weight new + weight msg ≡ total weight old }
{
    route_laws();
}
