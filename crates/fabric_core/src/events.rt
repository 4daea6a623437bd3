ghost use Rattle.std.specs.Prelude.{◌≡◌, ◌<◌, Some, None, IfOk, OnOk, OnErr};
ghost use Rattle.chip_model.specs.Chip.{tile_count};
ghost use Rattle.fabric_core.specs.Fabric.{MayNote, fabric_after_inject, fabric_after_post, fabric_after_tick, fabric_after_take, fabric_after_hop, fabric_after_send, fabric_after_data_hop, fabric_after_eject, fabric_after_data_eject};

use crate::{Fabric, Made};
use mesh_gen::{Kind, Msg, NotEnabled, Port, Request};
use reply_net::channel_laws;
use report_text::Event;

// The events that touch the fabric. Each is one step of the chip, and one entry of the journal.
impl Fabric {
    /// The tile `who.by` makes its next request, which enters its router. Refused exactly where its router's local port has
    /// no free channel.
    pub fn inject(&mut self, who: Made, kind: Kind, line: u16) -> Result<(), NotEnabled>
        requires { MayNote who self.old }
        ensures ok { OnOk result (fabric_after_inject who kind line self.old ≡ Some self.new) }
        ensures err { OnErr result (fabric_after_inject who kind line self.old ≡ None) }
        ensures kept { OnErr result (self.new ≡ self.old) }
    {
        self.networks_fit();
        match self.network.inject(who.by, kind, line) {
            Ok(_) => {
                self.log.note(who, Event::Inject { t: who.by });
                Ok(())
            }
            Err(_) => Err(NotEnabled),
        }
    }

    /// The tile posts in the open window for its first request that it has not posted. Refused exactly where it has none
    /// or may not post.
    pub fn post(&mut self, who: Made, t: u8) -> Result<(), NotEnabled>
        requires { MayNote who self.old }
        ensures ok { OnOk result (fabric_after_post who t self.old ≡ Some self.new) }
        ensures err { OnErr result (fabric_after_post who t self.old ≡ None) }
        ensures kept { OnErr result (self.new ≡ self.old) }
    {
        self.networks_fit();
        self.network.post(t)?;
        self.log.note(who, Event::Post { t });
        Ok(())
    }

    /// The latches merge one step. The last step of a window orders one request of each tile that posted in it. Refused
    /// exactly where no tile posted.
    pub fn tick(&mut self, who: Made) -> Result<(), NotEnabled>
        requires { MayNote who self.old }
        ensures ok { OnOk result (fabric_after_tick who self.old ≡ Some self.new) }
        ensures err { OnErr result (fabric_after_tick who self.old ≡ None) }
        ensures kept { OnErr result (self.new ≡ self.old) }
    {
        self.networks_fit();
        self.network.tick()?;
        self.log.note(who, Event::Tick);
        Ok(())
    }

    /// The tile takes the vector of the next closed window. Refused exactly where it has taken all of them, or is no tile.
    pub fn take(&mut self, who: Made, t: u8) -> Result<(), NotEnabled>
        requires { MayNote who self.old }
        ensures ok { OnOk result (fabric_after_take who t self.old ≡ Some self.new) }
        ensures err { OnErr result (fabric_after_take who t self.old ≡ None) }
        ensures kept { OnErr result (self.new ≡ self.old) }
    {
        self.networks_fit();
        self.network.take(t)?;
        self.log.note(who, Event::Take { t });
        Ok(())
    }

    /// A copy of a request leaves a channel of the router `r` by an output port that it owes, and comes to the next router.
    /// Refused exactly where the channel holds no such copy, no router is next there, or that has no channel for it.
    pub fn hop(
        &mut self,
        who: Made,
        r: u8,
        port: Port,
        slot: u8,
        out: Port,
    ) -> Result<(), NotEnabled>
        requires { MayNote who self.old }
        ensures ok { OnOk result (fabric_after_hop who r port slot out self.old ≡ Some self.new) }
        ensures err { OnErr result (fabric_after_hop who r port slot out self.old ≡ None) }
        ensures kept { OnErr result (self.new ≡ self.old) }
    {
        self.networks_fit();
        self.network.hop(r, port, slot, out)?;
        self.log.note(who, Event::Hop { r, port, slot, out });
        self.hops += 1;
        Ok(())
    }

    /// A message enters the router of the tile `r`. Refused exactly where `r` is no tile or its local port has no free
    /// channel.
    pub fn send(&mut self, who: Made, r: u8, m: Msg) -> Result<(), NotEnabled>
        requires note { MayNote who self.old }
        requires to { m.to < tile_count self.old.chip }
        ensures ok { OnOk result (fabric_after_send who r m self.old ≡ Some self.new) }
        ensures err { OnErr result (fabric_after_send who r m self.old ≡ None) }
        ensures kept { OnErr result (self.new ≡ self.old) }
    {
        self.networks_fit();
        channel_laws();
        match self.replies.inject(r, m) {
            Ok(()) => {
                self.log.note(who, Event::Send { t: r });
                Ok(())
            }
            Err(_) => Err(NotEnabled),
        }
    }

    /// The message in a channel of the router `r` goes on to the next router of its route. Refused exactly where the
    /// channel holds no message for another tile, or that router has no free channel for it.
    pub fn data_hop(&mut self, who: Made, r: u8, port: Port, slot: u8) -> Result<(), NotEnabled>
        requires { MayNote who self.old }
        ensures ok { OnOk result (fabric_after_data_hop who r port slot self.old ≡ Some self.new) }
        ensures err { OnErr result (fabric_after_data_hop who r port slot self.old ≡ None) }
        ensures kept { OnErr result (self.new ≡ self.old) }
    {
        self.networks_fit();
        channel_laws();
        self.replies.hop(r, port, slot)?;
        self.log.note(who, Event::DataHop { r, port, slot });
        Ok(())
    }

    /// The tile delivers the request that comes next in the order. Refused exactly where it knows of none, or no copy of it
    /// is there.
    pub fn eject(&mut self, who: Made, t: u8) -> Result<Request, NotEnabled>
        requires { MayNote who self.old }
        ensures ok { IfOk result (λ q. fabric_after_eject who t self.old ≡ Some (q, self.new)) }
        ensures err { OnErr result (fabric_after_eject who t self.old ≡ None) }
        ensures kept { OnErr result (self.new ≡ self.old) }
    {
        self.networks_fit();
        let q = self.network.eject(t)?;
        self.log.note(who, Event::Eject { t });
        Ok(q)
    }

    /// The message in a channel of the router `r` comes to its tile. Refused exactly where the channel holds no message for
    /// that tile.
    pub fn data_eject(&mut self, who: Made, r: u8, port: Port, slot: u8) -> Result<Msg, NotEnabled>
        requires { MayNote who self.old }
        ensures ok { IfOk result (λ msg. fabric_after_data_eject who r port slot self.old ≡ Some (msg, self.new)) }
        ensures err { OnErr result (fabric_after_data_eject who r port slot self.old ≡ None) }
        ensures kept { OnErr result (self.new ≡ self.old) }
    {
        self.networks_fit();
        channel_laws();
        let msg = self.replies.eject(r, port, slot)?;
        self.log.note(who, Event::DataEject { r, port, slot });
        Ok(msg)
    }
}
