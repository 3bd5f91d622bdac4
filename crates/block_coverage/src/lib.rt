//! The coverage of a design by block.
//!
//! A flattened design keeps its hierarchy in its names: `cpu.alu.n12` stands in the block
//! `cpu.alu`, and this one in the block `cpu`. A block of a name is what stands before some place
//! of the separator in it. [`block_rows`] counts the faults of each block, and the detected ones.
#![tactic(auto)]

mod laws;
mod owner;
mod rows;
mod separator;
mod sorted;
mod tally;

pub use laws::{block_holds, inner_block};
pub use rows::{BlockRow, block_rows};
pub use separator::Separator;
