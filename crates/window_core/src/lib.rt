//! The windows of the notification network: a merge of one bit a tile over a fixed number of ticks, and what each tile
//! has taken of the merged vectors.
#![tactic(auto)]

mod laws;
mod tile_set;
mod windows;

pub use laws::window_laws;
pub use windows::Windows;
