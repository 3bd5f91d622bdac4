//! Further reports, from the bytes of a bench file and a test file to bytes.
//!
//! [`write_detections_of_run`] counts the tests that detect each fault, and
//! [`write_histogram_of_run`] the faults of each count. [`write_reasons_of_run`] writes why no test
//! detects a fault. [`write_kept_of_run`] writes fewer tests that detect the same faults,
//! [`responses_text`] the responses of the circuit without faults, and [`pairs_text`] the
//! pairs of launch-on-capture tests. [`write_blocks_of_run`] writes the coverage of each block of a
//! design, and [`write_blocking_of_run`] the pins that block the effects of undetected faults. They
//! are called as the functions of the crate `report` are, which writes their lines of faults and of
//! coverage, and their contracts define the bytes.
#![tactic(auto)]

mod blocking;
mod blocks;
mod compacted;
mod detected;
mod histogram;
mod launched;
mod reason_lines;
mod reasoned;
mod responses;
mod whole;

pub use blocking::{NamedPin, named_pin, write_blocking_of_run};
pub use blocks::{count_flags, detected_flags, write_blocks, write_blocks_of_run};
pub use compacted::{KeptCount, KeptForm, KeptLayout, write_kept_of_run};
pub use compaction::TestOrder;
pub use detected::write_detections_of_run;
pub use histogram::{histogram_of, write_histogram_of_run};
pub use launched::pairs_text;
pub use reasoned::{reason_counts, words_of, write_reasons_of_run};
pub use responses::responses_text;
pub use undetected::Reason;
