ghost use Rattle.std.specs.Prelude.{◌≡◌, ◌↔◌, IsTrue};

use mesh_gen::Port;

/// The greatest number of a tile or a router, and that of a slot, which is read and packed.
pub(crate) const LAST_TILE: u8 = 63;

pub(crate) const LAST_SLOT: u8 = 15;

/// What an event names besides its kind, in the order of its line.
#[derive(Clone, Copy)]
pub(crate) enum Operands {
    Nothing,
    Tile(u8),
    /// A slot of a port of a router.
    Channel {
        r: u8,
        port: Port,
        slot: u8,
    },
    /// A channel, and the port by which what it holds goes on.
    Way {
        r: u8,
        port: Port,
        slot: u8,
        out: Port,
    },
}

/// The numbers of what an event names. Those that it lacks are 0.
#[derive(Clone, Copy)]
pub(crate) struct Fields {
    pub tile: u8,
    pub port: u8,
    pub slot: u8,
    pub out: u8,
}

impl Operands {
    ghost use Rattle.report_text.specs.Events.{AreWithin};
    ghost use Rattle.report_text.specs.Entry.{fields_of};

    pub fn fields(self) -> Fields
        ensures { result ≡ fields_of self }
    {
        let none = Fields {
            tile: 0,
            port: 0,
            slot: 0,
            out: 0,
        };
        match self {
            Operands::Nothing => none,
            Operands::Tile(tile) => Fields { tile, ..none },
            Operands::Channel { r, port, slot } => Fields {
                tile: r,
                port: port.number(),
                slot,
                out: 0,
            },
            Operands::Way { r, port, slot, out } => Fields {
                tile: r,
                port: port.number(),
                slot,
                out: out.number(),
            },
        }
    }

    /// Whether they are within the limits of what is read and packed.
    pub fn are_within(self) -> bool
        ensures { IsTrue result ↔ AreWithin self }
    {
        match self {
            Operands::Nothing => true,
            Operands::Tile(t) => t <= LAST_TILE,
            Operands::Channel { r, slot, .. } => r <= LAST_TILE && slot <= LAST_SLOT,
            Operands::Way { r, slot, out, .. } => r <= LAST_TILE
                && slot <= LAST_SLOT
                && out != Port::L,
        }
    }
}
