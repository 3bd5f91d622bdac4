//! Order files, and the moves that are read.

use crate::checks::check_ok;
use patterns::{OrderFault, read_order};
use std::alloc::Global;

/// Files, each with its moves.
static READ: [(&str, &[u32]); 4] = [
    ("000000003", &[3]),
    ("0\n# none\n003\n", &[0, 3]),
    ("\t2 # x\r\n\r\n1\r", &[2, 1]),
    ("# none\n", &[]),
];

/// Returns whether an order of four workers has these moves.
fn has_moves(alloc: Global, text: &str, moves: &[u32]) -> Result<bool, OrderFault> {
    let read = read_order(alloc, text.as_bytes(), 4)?;
    Ok(read.as_slice() == moves)
}

#[test]
fn moves_of_orders(rt: HostRuntime) {
    for (text, moves) in &READ {
        check_ok(&rt, has_moves(rt.alloc(), text, moves), text);
    }
}
