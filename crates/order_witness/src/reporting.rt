ghost use Rattle.std.specs.Prelude.{◌≡◌};
ghost use Rattle.chip_model.specs.Reports.{report_of};

use crate::put_in_sequence;
use core_unit::{Unit, kind_laws};
use machine_core::Machine;
use mesh_gen::Items;
use report_text::Report;
use value_laws::access_turn_laws;

/// The report of a machine's state, with the accesses in sequence: for in-order cores they are one sequential execution of the
/// programs. It takes no memory.
pub fn witness<U: Unit>(machine: Machine<U>) -> Report
    ensures { result ≡ report_of machine.document machine.state }
{
    machine.stands();
    kind_laws::<U>();
    access_turn_laws();
    let mut report = machine.into_report();
    let mut accesses = report.accesses.into_vec();
    put_in_sequence(&mut accesses);
    report.accesses = Items::new(accesses);
    report
}
