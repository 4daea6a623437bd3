ghost use Rattle.std.specs.Prelude.{◌≡◌, ◌<◌, ◌+◌, ◌*◌, ◌%◌, ◌^◌, Some, IfOk, IfErr};
ghost use Rattle.outside_io.specs.Streams.{stream, Writes};
ghost use Rattle.mesh_gen.specs.Limits.{IsFrom};
ghost use Rattle.report_text.specs.Report.{IsTabular, report_text};
ghost use Rattle.doc_text.specs.Doc.{doc_of};
ghost use Rattle.commands.specs.declared.command.Command.TheVariants.{Step};
ghost use Rattle.commands.specs.declared.stop.Stop.TheVariants.{WriteFault};
ghost use Rattle.commands.specs.Steps.{HasSwept, IsReportOfSteps};
ghost use Rattle.commands.specs.Outcome.{Did};

use crate::{Outcome, Stop};
use bound_laws::{bound_laws, run_laws};
use core_unit::InOrder;
use machine_core::Machine;
use mesh_doc::Document;
use mesh_gen::NoMemory;
use order_witness::witness;
use outside_io::Sink;
use pace_core::Pace;
use progress_core::run_paced;
use report_text::{Report, write_report};
use std::alloc::Global;

/// Runs the document's programs by the pace of a number, until the chip is finished or the budget of events is spent, and
/// writes the report. All memory is taken before the run, and nothing is written before it has ended.
pub(crate) fn write_steps<K: Sink>(
    alloc: Global,
    document: Document,
    pace: u32,
    budget: u32,
    sink: &mut K,
) -> Outcome
    requires { IsFrom 1 4000000 budget }
    ensures did { Did (Step pace budget) (doc_of document)
        (stream K.held K.faults sink.old sink.new) result.left result.report result.result }
    ensures left { result.left ≡ 0 }
{
    match run_steps(alloc, document, pace, budget) {
        Ok(report) => write_run(report, 0, sink),
        Err(_) => Outcome {
            report: None,
            result: Err(Stop::NoMemory),
            left: 0,
        },
    }
}

/// Writes the text of a report of a run, in which so many rounds were left out.
pub(crate) fn write_run<K: Sink>(report: Report, left: u32, sink: &mut K) -> Outcome
    requires { IsTabular report }
    ensures report { result.report ≡ Some report }
    ensures left { result.left ≡ left }
    ensures written { Writes (stream K.held K.faults sink.old sink.new) (report_text report)
        result.result }
    ensures fault { IfErr result.result (λ stop. stop ≡ WriteFault) }
{
    let result = match write_report(&report, sink) {
        Ok(()) => Ok(()),
        Err(_) => Err(Stop::WriteFault),
    };
    Outcome {
        report: Some(report),
        result,
        left,
    }
}

/// The report of the state in which the sweeps by the pace end.
pub(crate) fn run_steps(
    alloc: Global,
    document: Document,
    pace: u32,
    budget: u32,
) -> Result<Report, NoMemory>
    requires { IsFrom 1 4000000 budget }
    ensures reported { IfOk result (IsReportOfSteps pace budget (doc_of document)) }
    ensures tabular { IfOk result IsTabular }
{
    let machine = swept_machine(alloc, document, pace, budget)?;
    machine.stands();
    run_laws();
    bound_laws();
    Ok(witness(machine))
}

// The machine in which they have ended.
fn swept_machine(
    alloc: Global,
    document: Document,
    pace: u32,
    budget: u32,
) -> Result<Machine<InOrder>, NoMemory>
    requires { IsFrom 1 4000000 budget }
    ensures { IfOk result (HasSwept pace budget (doc_of document)) }
{
    let mut machine: Machine<InOrder> = Machine::open(alloc, document, budget)?;
    let offsets = Pace::new(
        move |sweep: u64, slots: u32|
            requires { 0 < slots }
            ensures { result ≡ (pace * (sweep % 2 ^ 32 + 1)) % slots }
        { pace_offset(pace, sweep, slots) },
    );
    run_paced(&mut machine, &offsets, budget);
    Ok(machine)
}

// The slot from which a sweep begins: sweeps after each other begin as many slots apart as the pace's number says.
fn pace_offset(pace: u32, sweep: u64, slots: u32) -> u32
    requires { 0 < slots }
    ensures { result ≡ (pace * (sweep % 2 ^ 32 + 1)) % slots }
{
    let turns = sweep % (1 << 32) + 1;
    (u64::from(pace) * turns % u64::from(slots)) as u32
}
