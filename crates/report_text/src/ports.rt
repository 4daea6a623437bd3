//! The names of ports in a report and in a packed word.
ghost use Rattle.std.specs.Prelude.{◌≡◌};
ghost use Rattle.report_text.specs.Events.{port_word};
ghost use Rattle.report_text.specs.Unpacking.{port_numbered};

use mesh_gen::Port;

pub(crate) fn port_word(port: Port) -> &'static str
    ensures { result.now ≡ port_word port }
{
    match port {
        Port::L => "l",
        Port::E => "e",
        Port::W => "w",
        Port::N => "n",
        Port::S => "s",
    }
}

pub(crate) fn port_numbered(number: u8) -> Option<Port>
    ensures { result ≡ port_numbered number }
{
    match number {
        0 => Some(Port::L),
        1 => Some(Port::E),
        2 => Some(Port::W),
        3 => Some(Port::N),
        4 => Some(Port::S),
        _ => None,
    }
}
