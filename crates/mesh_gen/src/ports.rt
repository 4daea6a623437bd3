ghost use Rattle.std.specs.Prelude.{⊤, ◌≡◌, ◌<◌, ℕ, ◌&&◌, not, true, false, [], ◌∷◌, codes};
ghost use Rattle.mesh_gen.specs.Ports.{has, without_port, same_port};

use crate::Port;
use bitflags::{Flag, Flags, bitflag_items};

/// A set of ports. Contracts see its bits: that of a port's number says whether the port is in it.
/// Its calls with a meaning are those of [`Flags`], as `union` and `contains`, and those below; of the operators no
/// contract speaks.
#[derive(Clone, Copy, Debug, PartialEq, Eq)]
pub struct Ports(u8);

bitflag_items! {
    impl Ports: u8 {
        const L = 1;
        const E = 2;
        const W = 4;
        const N = 8;
        const S = 16;
    }
}

impl Flags for Ports {
    type Bits = u8;

    ghost exact = { ⊤ };

    ghost table = { (codes "L", 1) ∷ (codes "E", 2) ∷ (codes "W", 4) ∷ (codes "N", 8)
        ∷ (codes "S", 16) ∷ [] };

    ghost set_of = { λ ports. ports.0 };

    fn flags<'a>() -> &'a [Flag<Ports>] {
        Ports::FLAGS
    }

    fn bits(&self) -> u8 {
        self.0
    }

    fn from_bits_retain(bits: u8) -> Ports {
        Ports(bits)
    }
}

impl Ports {
    ghost use Rattle.mesh_gen.specs.Ports.{mask};
    ghost use Rattle.mesh_gen.specs.PortSets.{bits_of};

    /// The set of one port.
    pub fn only(port: Port) -> Ports
        ensures { bits_of result ≡ mask port }
    {
        match port {
            Port::L => Ports::L,
            Port::E => Ports::E,
            Port::W => Ports::W,
            Port::N => Ports::N,
            Port::S => Ports::S,
        }
    }

    /// Whether the port is in the set.
    #[tactic(auto, unfolding(crate::specs::Ports::has))]
    pub fn has(self, port: Port) -> bool
        ensures { result ≡ has (bits_of self) port }
    {
        self.contains(Ports::only(port))
    }

    /// The set without the port.
    #[tactic(auto, unfolding(crate::specs::Ports::without_port))]
    pub fn without(self, port: Port) -> Ports
        ensures { bits_of result ≡ without_port (bits_of self) port }
    {
        self.difference(Ports::only(port))
    }
}

/// The laws of sets of ports, by their bits. At run time it does nothing.
pub fn port_set_laws()
    ensures empty { (port : Port) → has 0 port ≡ false }
    ensures some { (ports : ℕ) → ports < 32 → 0 < ports → (port : Port) × (has ports port ≡ true) }
    ensures without { (ports : ℕ) (port gone : Port) → ports < 32
        → has (without_port ports gone) port ≡ (has ports port && not (same_port port gone)) }
    ensures small { (ports : ℕ) (gone : Port) → ports < 32 → without_port ports gone < 32 }
{}
