ghost use Rattle.std.specs.Prelude.{◌≡◌};

/// A side of a router: its own tile's (`L`), and those of its neighbours to the east, west, north and south.
#[derive(Clone, Copy, Debug, PartialEq, Eq)]
pub enum Port {
    L,
    E,
    W,
    N,
    S,
}

impl Port {
    ghost use Rattle.mesh_gen.specs.Ports.{port_number, opposite};

    /// Its place in the order L, E, W, N, S, from 0.
    pub fn number(self) -> u8
        ensures { result ≡ port_number self }
    {
        match self {
            Port::L => 0,
            Port::E => 1,
            Port::W => 2,
            Port::N => 3,
            Port::S => 4,
        }
    }

    /// The port at which the neighbour on this side takes in what leaves here. The own tile's port is its own.
    pub fn opposite(self) -> Port
        ensures { result ≡ opposite self }
    {
        match self {
            Port::L => Port::L,
            Port::E => Port::W,
            Port::W => Port::E,
            Port::N => Port::S,
            Port::S => Port::N,
        }
    }
}
