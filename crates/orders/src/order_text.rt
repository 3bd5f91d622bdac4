//! The reader of orders.

ghost use Rattle.std.specs.Prelude.{◌≡◌, ◌⊎◌, IfOk, IfErr, if◌then◌else◌};
ghost use Rattle.orders.specs.Order.{HasMoves, IsOrderRefusal, is_number, number, order_fault};
ghost use Rattle.text_lines.specs.Reading.{row_of};

use crate::{MAX_MOVES, OrderFault};
use std::alloc::Global;
use text_lines::{Row, Rows};

/// The greatest number of digits of a worker number.
const MAX_DIGITS: usize = 9;

/// Reads an order file: a row for each move, with the number of the worker that moves, from 0.
///
/// # Errors
///
/// The first row with an error decides. A row past [`MAX_MOVES`] is [`OrderFault::TooMany`]
/// whatever its bytes. A row that is not 1 to 9 decimal digits, of which the first may be 0, is
/// [`OrderFault::BadNumber`]. A number that is not below `workers` is [`OrderFault::NoSuchWorker`].
/// [`OrderFault::Memory`] may come instead of any result, if memory ran out.
pub fn read_order(alloc: Global, text: &[u8], workers: u32) -> Result<Vec<u32>, OrderFault>
    ensures moves { IfOk result (λ moves. HasMoves text.now workers moves.items) }
    ensures refused { IfErr result (λ fault.
        (fault ≡ OrderFault.Memory) ⊎ IsOrderRefusal text.now workers fault) }
{
    let mut moves = Vec::new(alloc);
    for row in Rows::new(text, 1) {
        let worker = worker_of(moves.len(), row, workers)?;
        moves.push(worker)?;
    }
    Ok(moves)
}

/// Returns the worker that a row names, given with the row's place among the rows.
fn worker_of(place: usize, row: Row<'_>, workers: u32) -> Result<u32, OrderFault>
    ensures accepted { IfOk result (λ worker.
        (order_fault workers (place, row_of row.entry) ≡ None)
        × (worker ≡ number row.entry.bytes.now)) }
    ensures refused { IfErr result (λ fault.
        order_fault workers (place, row_of row.entry) ≡ Some fault) }
{
    if place >= MAX_MOVES {
        return Err(OrderFault::TooMany);
    }
    let worker = number(row.bytes).ok_or(OrderFault::BadNumber(row.line))?;
    if worker < workers {
        Ok(worker)
    } else {
        Err(OrderFault::NoSuchWorker(row.line))
    }
}

/// Returns the number of at most 9 decimal digits; none if there is another byte or a tenth digit.
fn number(bytes: &[u8]) -> Option<u32>
    ensures { result ≡ (if is_number bytes.now then Some (number bytes.now) else None) }
{
    if bytes.len() > MAX_DIGITS {
        return None;
    }
    let mut number = 0;
    for byte in bytes {
        if !byte.is_ascii_digit() {
            return None;
        }
        number = 10 * number + u32::from(byte - b'0');
    }
    Some(number)
}
