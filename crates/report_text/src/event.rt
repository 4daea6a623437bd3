ghost use Rattle.std.specs.Prelude.{◌≡◌};

use crate::operands::{Fields, Operands};
use crate::ports::port_numbered;
use mesh_gen::Port;

/// An event of a run, as the journal records it. A tile and its router have one number; a slot is a place in a channel
/// buffer of a port.
#[derive(Clone, Copy, Debug, PartialEq, Eq)]
pub enum Event {
    /// The latches of the notification network merge one step.
    Tick,
    /// The tile's core works.
    Core {
        t: u8,
    },
    /// The tile's request enters its router.
    Inject {
        t: u8,
    },
    /// The tile announces its request in the open window.
    Post {
        t: u8,
    },
    /// The tile takes the next closed window.
    Take {
        t: u8,
    },
    /// The request that is next in the order is delivered to the tile.
    Eject {
        t: u8,
    },
    /// The tile's next reply enters its router.
    Send {
        t: u8,
    },
    /// A request is copied to the router after `out`.
    Hop {
        r: u8,
        port: Port,
        slot: u8,
        out: Port,
    },
    /// A reply goes on to the next router of its way.
    DataHop {
        r: u8,
        port: Port,
        slot: u8,
    },
    /// A reply is delivered to the router's tile.
    DataEject {
        r: u8,
        port: Port,
        slot: u8,
    },
}

impl Event {
    ghost use Rattle.report_text.specs.Events.{event_form};
    ghost use Rattle.report_text.specs.Unpacking.{event_numbered};

    /// The word of its kind.
    pub(crate) fn word(&self) -> &'static str
        ensures { result.now ≡ (event_form self.now).word }
    {
        match self {
            Event::Tick => "tick",
            Event::Core { .. } => "core",
            Event::Inject { .. } => "inject",
            Event::Post { .. } => "post",
            Event::Take { .. } => "take",
            Event::Eject { .. } => "eject",
            Event::Send { .. } => "send",
            Event::Hop { .. } => "hop",
            Event::DataHop { .. } => "datahop",
            Event::DataEject { .. } => "dataeject",
        }
    }

    /// The number of its kind.
    pub(crate) fn number(&self) -> u8
        ensures { result ≡ (event_form self.now).number }
    {
        match self {
            Event::Tick => 0,
            Event::Core { .. } => 1,
            Event::Inject { .. } => 2,
            Event::Post { .. } => 3,
            Event::Take { .. } => 4,
            Event::Eject { .. } => 5,
            Event::Send { .. } => 6,
            Event::Hop { .. } => 7,
            Event::DataHop { .. } => 8,
            Event::DataEject { .. } => 9,
        }
    }

    pub(crate) fn operands(&self) -> Operands
        ensures { result ≡ (event_form self.now).operands }
    {
        match *self {
            Event::Tick => Operands::Nothing,
            Event::Core { t }
            | Event::Inject { t }
            | Event::Post { t }
            | Event::Take { t }
            | Event::Eject { t }
            | Event::Send { t } => Operands::Tile(t),
            Event::Hop { r, port, slot, out } => Operands::Way { r, port, slot, out },
            Event::DataHop { r, port, slot } | Event::DataEject { r, port, slot } => {
                Operands::Channel { r, port, slot }
            }
        }
    }

    /// The event of the kind with this number that has these fields, of which it takes those that it names.
    pub(crate) fn numbered(number: u8, fields: Fields) -> Option<Event>
        ensures { result ≡ event_numbered number fields }
    {
        let Fields {
            tile,
            port,
            slot,
            out,
        } = fields;
        match number {
            0 => Some(Event::Tick),
            1 => Some(Event::Core { t: tile }),
            2 => Some(Event::Inject { t: tile }),
            3 => Some(Event::Post { t: tile }),
            4 => Some(Event::Take { t: tile }),
            5 => Some(Event::Eject { t: tile }),
            6 => Some(Event::Send { t: tile }),
            7 => Some(Event::Hop {
                r: tile,
                port: port_numbered(port)?,
                slot,
                out: port_numbered(out)?,
            }),
            8 => Some(Event::DataHop {
                r: tile,
                port: port_numbered(port)?,
                slot,
            }),
            9 => Some(Event::DataEject {
                r: tile,
                port: port_numbered(port)?,
                slot,
            }),
            _ => None,
        }
    }
}
