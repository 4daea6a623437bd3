ghost use Rattle.std.specs.Prelude.{◌≡◌};
ghost use Rattle.chip_model.specs.Cache.{is_shared};

use chip_model::State;
use mesh_gen::Words;
use std::marker::Model;

/// A line in a way, with its state and its words.
#[derive(Clone, Copy)]
pub(crate) struct HeldLine {
    line: u16,
    state: State,
    words: Words,
}

impl Model for HeldLine {
    ghost use Rattle.chip_model.specs.Cache.{Held};

    ghost Value = { Held };

    ghost view = { λ held. record { line = held.line; state = held.state; words = held.words } };

    ghost inverse = { λ held. record { line = held.line; state = held.state; words = held.words } };
}

impl HeldLine {
    pub(crate) fn new(line: u16, state: State, words: Words) -> HeldLine
        ensures { result ≡ record { line = line; state = state; words = words } }
    {
        HeldLine { line, state, words }
    }

    pub(crate) fn line(&self) -> u16
        ensures { result ≡ self.now.line }
    {
        self.line
    }

    pub(crate) fn copy(&self) -> (State, Words)
        ensures state { result.0 ≡ self.now.state }
        ensures words { result.1 ≡ self.now.words }
    {
        (self.state, self.words)
    }

    pub(crate) fn is_shared(&self) -> bool
        ensures { result ≡ is_shared self.now.state }
    {
        match self.state {
            State::S => true,
            State::M | State::O => false,
        }
    }
}
