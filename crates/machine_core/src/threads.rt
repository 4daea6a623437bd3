use crate::{Machine, Station};
use core_unit::Unit;

fn goes<T: Send>() {}

/// A station may be moved to another thread, and so may a machine. At run time it does nothing.
pub fn stations_go_to_threads<U: Unit>() {
    goes::<Station<U>>();
    goes::<Machine<U>>();
}
