ghost use Rattle.std.specs.Prelude.{◌≡◌, ◌≤◌, if◌then◌else◌, length, map, true, vec_capacity};
ghost use Rattle.chip_model.specs.Chip.{chip_of};
ghost use Rattle.chip_model.specs.ChipState.{finished};
ghost use Rattle.std.specs.List.{list_all};
ghost use Rattle.machine_core.specs.Stations.{StationState, is_quiet};
ghost use Rattle.machine_core.specs.Machine.{report_as_performed};
ghost use Rattle.machine_core.specs.FinalWords.{EachOwnerKeeps};

use crate::final_words::final_memory;
use crate::{Machine, Station};
use core_unit::Unit;
use doc_text::Document;
use fabric_core::FabricLists;
use mesh_gen::Items;
use report_text::{Finish, Report};

impl<U: Unit> Machine<U> {
    /// Whether all cores have halted and nothing is on its way.
    pub fn finished(&self) -> bool
        ensures { result ≡ finished self.now.state }
    {
        self.laws();
        core_unit::kind_laws::<U>();
        self.fabric.idle() && self.all_quiet()
    }

    // Whether each core has halted and waits for nothing, and no message is to be sent.
    fn all_quiet(&self) -> bool
        ensures { result ≡ list_all is_quiet self.now.state.units }
    {
        let mut all = true;
        for station in self.stations.iter() {
            all = all && station.quiet();
        }
        all
    }

    /// The report of the state, with the accesses in the order in which they were performed. It takes no memory.
    pub fn into_report(self) -> Report
        ensures { result ≡ report_as_performed self }
    {
        self.laws();
        core_unit::kind_laws::<U>();
        self.owners_keep();
        let is_finished = self.finished();
        let Machine {
            fabric,
            stations,
            rest,
        } = self;
        let (document, steps) = rest.into_parts();
        let Document { mesh, memory, .. } = document;
        let memory = final_memory(&stations, &mesh, memory.into_vec(), is_finished);
        let lists = Box::into_inner(fabric).into_lists();
        Report {
            requests: lists.requests,
            seen: lists.seen,
            steps: Items::new(steps_done(&stations, steps)),
            accesses: lists.accesses,
            memory: Items::new(memory),
            journal: lists.journal,
            windows: lists.windows,
            hops: lists.hops,
            ended: finish_of(is_finished),
        }
    }

    // In a finished chip the owner of each line keeps its words. At run time it does nothing.
    fn owners_keep(&self)
        ensures { finished self.now.state ≡ true
            → EachOwnerKeeps (chip_of self.now.document) self.now.state }
    {
        self.laws();
        core_unit::kind_laws::<U>();
        chip_laws::tile_laws();
        chip_laws::done_laws();
        supply_laws::owner_laws();
        progress_laws::chip_progress_laws();
    }
}

// How a run ended.
fn finish_of(is_finished: bool) -> Finish
    ensures { result ≡ (if is_finished then Finish.Finished else Finish.Budget) }
{
    if is_finished {
        Finish::Finished
    } else {
        Finish::Budget
    }
}

// How many instructions each core has done.
fn steps_done<U: Unit>(stations: &[Station<U>], mut steps: Vec<u64>) -> Vec<u64>
    requires { length stations.now ≤ vec_capacity steps }
    ensures { result.items ≡ map (λ
        (station : StationState). station.unit.core.steps) stations.now }
{
    steps.clear();
    for station in stations {
        steps.push_reserved(station.unit.steps());
    }
    steps
}
