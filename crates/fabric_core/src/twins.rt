ghost use Rattle.std.specs.Prelude.{◌≡◌, ◌<◌, is_some};
ghost use Rattle.chip_model.specs.Chip.{tile_count};
ghost use Rattle.fabric_core.specs.Fabric.{fabric_after_inject, fabric_after_post, fabric_after_tick, fabric_after_take, fabric_after_hop, fabric_after_send, fabric_after_data_hop, fabric_after_eject, fabric_after_data_eject};

use crate::{Fabric, Made};
use mesh_gen::{Kind, Msg, Port};

// Whether a call would be answered by Ok.
impl Fabric {
    /// Whether [`Fabric::inject`] would be answered by Ok.
    pub fn can_inject(&self, who: Made, kind: Kind, line: u16) -> bool
        ensures { result ≡ is_some (fabric_after_inject who kind line self.now) }
    {
        self.network.can_inject(who.by, kind, line)
    }

    /// Whether [`Fabric::post`] would be answered by Ok.
    pub fn can_post(&self, who: Made, t: u8) -> bool
        ensures { result ≡ is_some (fabric_after_post who t self.now) }
    {
        self.network.can_post(t)
    }

    /// Whether [`Fabric::tick`] would be answered by Ok.
    pub fn can_tick(&self, who: Made) -> bool
        ensures { result ≡ is_some (fabric_after_tick who self.now) }
    {
        self.network.can_tick()
    }

    /// Whether [`Fabric::take`] would be answered by Ok.
    pub fn can_take(&self, who: Made, t: u8) -> bool
        ensures { result ≡ is_some (fabric_after_take who t self.now) }
    {
        self.network.can_take(t)
    }

    /// Whether [`Fabric::hop`] would be answered by Ok.
    pub fn can_hop(&self, who: Made, r: u8, port: Port, slot: u8, out: Port) -> bool
        ensures { result ≡ is_some (fabric_after_hop who r port slot out self.now) }
    {
        self.network.can_hop(r, port, slot, out)
    }

    /// Whether [`Fabric::send`] would be answered by Ok.
    pub fn can_send(&self, who: Made, r: u8, m: Msg) -> bool
        requires { m.to < tile_count self.now.chip }
        ensures { result ≡ is_some (fabric_after_send who r m self.now) }
    {
        self.replies.can_inject(r, m)
    }

    /// Whether [`Fabric::data_hop`] would be answered by Ok.
    pub fn can_data_hop(&self, who: Made, r: u8, port: Port, slot: u8) -> bool
        ensures { result ≡ is_some (fabric_after_data_hop who r port slot self.now) }
    {
        self.replies.can_hop(r, port, slot)
    }

    /// Whether [`Fabric::eject`] would be answered by Ok.
    pub fn can_eject(&self, who: Made, t: u8) -> bool
        ensures { result ≡ is_some (fabric_after_eject who t self.now) }
    {
        self.network.can_eject(t)
    }

    /// Whether [`Fabric::data_eject`] would be answered by Ok.
    pub fn can_data_eject(&self, who: Made, r: u8, port: Port, slot: u8) -> bool
        ensures { result ≡ is_some (fabric_after_data_eject who r port slot self.now) }
    {
        self.replies.can_eject(r, port, slot)
    }
}
