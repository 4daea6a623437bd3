ghost use Rattle.std.specs.Prelude.{◌≡◌, ◌+◌, ◌^◌, ◌<◌, Option, Some, IfSome};
ghost use Rattle.chip_model.specs.Node.{Node};
ghost use Rattle.chip_model.specs.Units.{UnitState, performed, core_after};
ghost use Rattle.snoop_core.specs.Outcomes.{access_performed};
ghost use Rattle.core_unit.specs.Works.{access_next};

use chip_model::Done;
use core_isa::{Core, Program};
use report_text::{Access, AccessKind};
use snoop_core::Outcome;

/// What the node performed, where an access of the core was possible.
pub(crate) fn performed_by(outcome: Outcome) -> Option<Done>
    ensures { result ≡ access_performed outcome }
{
    match outcome {
        Outcome::Hit(done) => Some(done),
        Outcome::Started => None,
    }
}

/// The core's own access, where its node performed one. The core goes on by it.
pub(crate) fn complete(
    tile: u8,
    program: &Program,
    core: &mut Core,
    done: Option<Done>,
) -> Option<Access>
    requires next { IfSome done (λ one. access_next program.now core.old ≡ Some one.kind) }
    requires steps { core.old.steps + 1 < 2 ^ 63 }
    ensures { (unit : UnitState) (node : Node) → unit.node.tile ≡ tile
        → unit.program ≡ program.now → unit.core ≡ core.old
        → performed unit (node, done) ≡ (record unit { node = node; core = core.new }, result) }
{
    let done = done?;
    let access = Access {
        tile,
        number: core.steps(),
        kind: done.kind,
        address: done.address,
        value: done.value,
        time: done.time,
        old: done.old,
    };
    go_on(core, program, access);
    Some(access)
}

// The core after its access.
fn go_on(core: &mut Core, program: &Program, access: Access)
    requires next { access_next program.now core.old ≡ Some access.kind }
    requires steps { core.old.steps + 1 < 2 ^ 63 }
    ensures { core.new ≡ core_after program.now access core.old }
{
    match access.kind {
        AccessKind::Load => core.load_done(program, access.value),
        AccessKind::Store => core.store_done(program),
        AccessKind::Swap | AccessKind::Add => core.both_done(program, access.old),
    }
}
