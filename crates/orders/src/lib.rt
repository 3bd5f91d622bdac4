//! Orders: the moves of a schedule, and their reader.
//!
//! An order is a list of worker numbers. By it a schedule lets one worker after another move. An
//! order file has a row for each move, as `text_lines` cuts files into rows. For example, the rows
//! `0`, `1` and `0` let worker 0 move, then worker 1, then worker 0 again.
#![tactic(auto)]

pub mod laws;
mod order_text;

pub use order_text::read_order;
use std::alloc::AllocFailed;
use thiserror::Error;

/// The greatest number of moves of an order.
pub const MAX_MOVES: usize = 1_000_000;

/// An error of an order file.
#[derive(Clone, Copy, Debug, PartialEq, Eq, Error)]
pub enum OrderFault {
    /// The row at this line, counted from 1, is not a number of 1 to 9 decimal digits.
    #[error("order line {0}: not a number")]
    BadNumber(u64),
    /// The number at this line, counted from 1, is not below the number of workers.
    #[error("order line {0}: no such worker")]
    NoSuchWorker(u64),
    /// There are more than [`MAX_MOVES`] rows.
    #[error("order: more than {MAX_MOVES} moves")]
    TooMany,
    /// There is no memory for the moves.
    #[error("out of memory")]
    Memory,
}

impl<T: Drop> From<AllocFailed<T>> for OrderFault {
    ghost use Rattle.std.specs.Prelude.{◌≡◌};
    ghost use Rattle.orders.specs.declared.OrderFault.TheVariants as fault;

    ghost from_gives = { λ _ f. f ≡ fault.Memory };

    fn from(_error: AllocFailed<T>) -> OrderFault {
        OrderFault::Memory
    }
}
