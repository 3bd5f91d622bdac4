//! The fault ledger: seats that never met, a ledger without a piece, and workers in threads.

mod limits;
mod seats;
mod staffed;
mod threads;
