//! A unit: a core over the node of its tile. `Unit` is what the chip asks of one, whatever its core is, and `InOrder` is
//! the in-order core.
#![tactic(auto)]

mod completion;
mod in_order;
mod unit;
mod work;

pub use in_order::InOrder;
pub use unit::{Unit, count_laws, kind_laws};
