//! Words of 512 lanes: words of 128 lanes side by side.
#![tactic(auto)]

mod copies;
mod wide;
mod wide_overlay;

pub use copies::{Both, Copies, Four, High, Low, side_by_side};
pub use wide::Wide;
pub use wide_overlay::WideOverlay;
