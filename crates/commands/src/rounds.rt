ghost use Rattle.std.specs.Prelude.{◌≡◌, Some, IfOk};
ghost use Rattle.outside_io.specs.Streams.{stream};
ghost use Rattle.mesh_gen.specs.Limits.{IsFrom};
ghost use Rattle.report_text.specs.Report.{IsTabular};
ghost use Rattle.doc_text.specs.Doc.{doc_of};
ghost use Rattle.commands.specs.declared.command.Command.TheVariants.{Run};
ghost use Rattle.commands.specs.Outcome.{Did};
ghost use Rattle.commands.specs.Rounds.{HasRounded, IsReportOfRounds};

use crate::step::write_run;
use crate::{Gate, Outcome, Stop};
use bound_laws::{bound_laws, run_laws};
use core_unit::InOrder;
use machine_core::Machine;
use mesh_doc::Document;
use mesh_gen::NoMemory;
use order_witness::witness;
use outside_io::Sink;
use report_text::Report;
use std::alloc::Global;
use std::thread::Threads;
use tile_pool::run_tiles;

/// Runs the document's programs by rounds with a thread for each tile, until the chip is finished or the budget of events is
/// spent, and writes the report. The machine's memory is taken before the run; a round for whose table there is none is left
/// out. Nothing is written before the run has ended.
pub(crate) fn write_rounds<R: Threads + Sync, K: Sink, G: Gate>(
    rt: &R,
    alloc: Global,
    document: Document,
    budget: u32,
    sink: &mut K,
    gate: &G,
) -> Outcome
    requires { IsFrom 1 4000000 budget }
    ensures { Did (Run budget) (doc_of document) (stream K.held K.faults sink.old sink.new)
        result.left result.report result.result }
{
    match run_rounds(rt, alloc, document, budget, gate) {
        Ok((report, left)) => write_run(report, left, sink),
        Err(_) => Outcome::plain(Err(Stop::NoMemory)),
    }
}

// The report of the state in which the rounds end, and how many were left out.
fn run_rounds<R: Threads + Sync, G: Gate>(
    rt: &R,
    alloc: Global,
    document: Document,
    budget: u32,
    gate: &G,
) -> Result<(Report, u32), NoMemory>
    requires { IsFrom 1 4000000 budget }
    ensures reported { IfOk result (λ run. IsReportOfRounds budget run.1 (doc_of document) run.0) }
    ensures tabular { IfOk result (λ run. IsTabular run.0) }
{
    let (machine, left) = rounded_machine(rt, alloc, document, budget, gate)?;
    machine.stands();
    run_laws();
    bound_laws();
    Ok((witness(machine), left))
}

// The machine in which they have ended.
fn rounded_machine<R: Threads + Sync, G: Gate>(
    rt: &R,
    alloc: Global,
    document: Document,
    budget: u32,
    gate: &G,
) -> Result<(Machine<InOrder>, u32), NoMemory>
    requires { IsFrom 1 4000000 budget }
    ensures { IfOk result (λ run. HasRounded budget run.1 (doc_of document) run.0) }
{
    let machine: Machine<InOrder> = Machine::open(alloc, document, budget)?;
    let (machine, _finish, left) = run_tiles(rt, alloc, machine, budget, gate);
    Ok((machine, left))
}
