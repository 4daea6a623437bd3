//! What a place of a list holds. A place that is not used holds a value that nothing reads.
ghost use Rattle.std.specs.Prelude.{◌≡◌};
ghost use Rattle.chip_model.specs.Misses.{is_getm};
ghost use Rattle.chip_model.specs.Node.{is_back};

use chip_model::Waiting;
use mesh_gen::{Kind, Msg, MsgKind};
use std::marker::Model;

/// A place of the tiles that wait.
#[derive(Clone, Copy)]
pub(crate) struct WaitingPlace {
    waiting: Waiting,
}

impl Model for WaitingPlace {
    ghost use Rattle.chip_model.specs.declared.waiting.Waiting.{Waiting};

    ghost Value = { Waiting };

    ghost view = { λ place. place.waiting };

    ghost inverse = { λ waiting. record { waiting = waiting } };
}

impl Default for WaitingPlace {
    fn default() -> WaitingPlace {
        WaitingPlace::new(Waiting {
            tile: 0,
            kind: Kind::GetS,
        })
    }
}

impl WaitingPlace {
    pub(crate) fn new(waiting: Waiting) -> WaitingPlace
        ensures { result ≡ waiting }
    {
        WaitingPlace { waiting }
    }

    pub(crate) fn waiting(&self) -> Waiting
        ensures { result ≡ self.now }
    {
        self.waiting
    }

    // Whether it asked for a copy to write.
    pub(crate) fn is_getm(&self) -> bool
        ensures { result ≡ is_getm self.now.kind }
    {
        match self.waiting.kind {
            Kind::GetM => true,
            Kind::GetS | Kind::PutM => false,
        }
    }
}

/// A place of the messages that are to be sent.
#[derive(Clone, Copy)]
pub(crate) struct MsgPlace {
    msg: Msg,
}

impl Model for MsgPlace {
    ghost use Rattle.mesh_gen.specs.declared.msg.Msg.{Msg};

    ghost Value = { Msg };

    ghost view = { λ place. place.msg };

    ghost inverse = { λ msg. record { msg = msg } };
}

impl Default for MsgPlace {
    fn default() -> MsgPlace {
        MsgPlace::new(Msg {
            to: 0,
            kind: MsgKind::Data,
            line: 0,
            words: [0; 4],
        })
    }
}

impl MsgPlace {
    pub(crate) fn new(msg: Msg) -> MsgPlace
        ensures { result ≡ msg }
    {
        MsgPlace { msg }
    }

    pub(crate) fn msg(&self) -> Msg
        ensures { result ≡ self.now }
    {
        self.msg
    }

    // Whether it gives words back to memory.
    pub(crate) fn is_back(&self) -> bool
        ensures { result ≡ is_back self.now.kind }
    {
        match self.msg.kind {
            MsgKind::Back => true,
            MsgKind::Data => false,
        }
    }
}
