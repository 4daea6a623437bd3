ghost use Rattle.std.specs.Prelude.{◌≡◌, ◌+◌, ◌^◌, ◌<◌, Some, None, IfOk, OnErr};
ghost use Rattle.chip_model.specs.Chip.{address_in};
ghost use Rattle.chip_model.specs.Units.{in_order, core_event};
ghost use Rattle.chip_laws.proofs.InOrderLaws.{in_order_laws};
ghost use Rattle.core_unit.specs.InOrderCounts.{in_order_counts};
ghost use Rattle.core_unit.specs.Works.{work_of};

use crate::Unit;
use crate::completion::{complete, performed_by};
use crate::work::Work;
use chip_laws::access_laws;
use chip_model::Pending;
use core_isa::{Core, Next, Program};
use mesh_gen::{Mesh, Msg, NoMemory, NotEnabled, Request};
use report_text::{Access, AccessKind};
use snoop_core::Node;
use std::alloc::Global;
use std::marker::Model;

/// An in-order core over its node. It does one instruction after the other, and waits for the words of each access.
#[derive(Drop)]
pub struct InOrder {
    node: Node,
    tile: u8,
    lines: u16,
    program: Program,
    core: Core,
    halted: bool,
}

impl Model for InOrder {
    ghost use Rattle.std.specs.Prelude.{[]};
    ghost use Rattle.chip_model.specs.Units.{UnitState};
    ghost use Rattle.core_unit.specs.Works.{RunsInOrder};

    ghost Value = { UnitState };

    ghost view = { λ unit. record {
      node = unit.node;
      program = unit.program;
      core = unit.core;
      halted = unit.halted;
      buffered = [];
    } };

    ghost invariant = { λ unit. RunsInOrder unit.tile unit.lines (record {
      node = unit.node;
      program = unit.program;
      core = unit.core;
      halted = unit.halted;
      buffered = [];
    }) };
}

impl Unit for InOrder {
    ghost meaning = { λ unit. unit };

    ghost behaviour = { in_order };

    ghost laws = { in_order_laws };

    ghost counts = { in_order_counts };

    fn open(
        alloc: Global,
        mesh: &Mesh,
        tile: u8,
        program: Program,
        memory: &[u32],
    ) -> Result<InOrder, NoMemory> {
        Ok(InOrder {
            node: Node::open(alloc, mesh, tile, memory)?,
            tile,
            lines: mesh.lines,
            program,
            core: Core::new(tile),
            halted: false,
        })
    }

    fn node(&self) -> &Node {
        &self.node
    }

    fn core_ready(&self) -> bool {
        match self.work() {
            Work::Wait => false,
            Work::Execute | Work::Halt => true,
            Work::Try(access) => {
                self.node
                    .can_access(access.kind, access.address, access.value)
            }
        }
    }

    fn core_step(&mut self) -> Result<Option<Access>, NotEnabled> {
        self.execute()
    }

    fn deliver(&mut self, q: Request) -> Option<Access> {
        access_laws();
        let done = self.node.on_request(q);
        complete(self.tile, &self.program, &mut self.core, done)
    }

    fn receive(&mut self, m: Msg) -> Option<Access> {
        access_laws();
        let done = self.node.on_data(m);
        complete(self.tile, &self.program, &mut self.core, done)
    }

    fn mark_sent(&mut self) {
        access_laws();
        self.node.mark_sent();
    }

    fn drop_out(&mut self) {
        self.node.drop_out();
    }

    fn halted(&self) -> bool {
        self.halted
    }

    fn steps(&self) -> u64 {
        self.core.steps()
    }
}

impl InOrder {
    // A core event.
    fn execute(&mut self) -> Result<Option<Access>, NotEnabled>
        requires steps { self.old.core.steps + 1 < 2 ^ 63 }
        ensures ok { IfOk result (λ access. core_event self.old ≡ Some (self.new, access)) }
        ensures err { OnErr result (core_event self.old ≡ None) }
        ensures kept { OnErr result (self.new ≡ self.old) }
    {
        match self.work() {
            Work::Wait => Err(NotEnabled),
            Work::Execute => {
                let _ = self.core.advance(&self.program, 1);
                Ok(None)
            }
            Work::Halt => {
                self.halted = true;
                Ok(None)
            }
            Work::Try(access) => {
                access_laws();
                let outcome = self.node.access(access.kind, access.address, access.value)?;
                let done = performed_by(outcome);
                Ok(complete(self.tile, &self.program, &mut self.core, done))
            }
        }
    }

    // What a core event is to do.
    fn work(&self) -> Work
        ensures { result ≡ work_of self.now }
    {
        if self.halted || self.node.has_entry() {
            return Work::Wait;
        }
        match self.core.next(&self.program) {
            Next::Register => Work::Execute,
            Next::Halted => Work::Halt,
            Next::Load { address, .. } => self.attempt(AccessKind::Load, address, 0),
            Next::Store { address, value } => self.attempt(AccessKind::Store, address, value),
            Next::Swap { address, value, .. } => self.attempt(AccessKind::Swap, address, value),
            Next::Add { address, value, .. } => self.attempt(AccessKind::Add, address, value),
        }
    }

    // An access at an address of the chip's memory: a sum of addresses wraps at its end.
    fn attempt(&self, kind: AccessKind, sum: u32, value: u32) -> Work
        ensures { result ≡ Work.Try (record { kind = kind; address = address_in self.now.node.chip sum; value = value }) }
    {
        Work::Try(Pending {
            kind,
            address: sum % (4 * u32::from(self.lines)),
            value,
        })
    }
}
