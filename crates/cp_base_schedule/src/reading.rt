//! Reading an order text.

ghost use Rattle.std.specs.Prelude.{◌≡◌, ◌<◌, ◌≤◌, ◌+◌, ◌∷◌, Some, IfErr, IfOk, length};
ghost use Rattle.cp_model.specs.OrderText.{Orders as TextOrders, line_events, lines_of};
ghost use Rattle.cp_base_schedule.specs.Events.{events_of};
ghost use Rattle.cp_base_schedule.specs.Reading.{AllWithin, FailsAt, Refuses, appended, judged};
ghost use Rattle.cp_base_schedule.specs.Rounds.{rounds_of};
ghost use Rattle.cp_base_schedule.specs.declared.reading.OrderError.TheVariants.{Memory};

use crate::event::Event;
use crate::orders::Orders;
use crate::pieces::{after, length_before};
use crate::words::event;
use std::alloc::{AllocError, AllocFailed, Global};

/// The largest number of bytes that an order text may have.
pub const MAX_SCHEDULE_BYTES: usize = 1_048_576;

/// Why an order text was not read.
#[derive(Clone, Copy)]
pub enum OrderError {
    /// O1: the line that begins at this byte isn't well formed, or the text is longer than this
    /// many bytes.
    Line { at: usize },
    /// M: memory was refused. This says nothing about the text.
    Memory,
}

impl From<AllocError> for OrderError {
    ghost from_gives = { λ _ error. error ≡ Memory };

    fn from(_error: AllocError) -> OrderError {
        OrderError::Memory
    }
}

impl<T: Drop> From<AllocFailed<T>> for OrderError {
    ghost from_gives = { λ _ error. error ≡ Memory };

    fn from(_error: AllocFailed<T>) -> OrderError {
        OrderError::Memory
    }
}

// Appends the events of the words of a line that begins at `at` and isn't empty.
fn read_words(
    line: &[u8],
    at: usize,
    processes: usize,
    events: &mut Vec<Event>,
) -> Result<(), OrderError>
    requires some { 0 < length line.now }
    ensures ok { IfOk result (λ _. appended (events_of events.old.items)
        (line_events processes line.now) ≡ Some (events_of events.new.items)) }
    ensures refused { IfErr result (FailsAt at (line_events processes line.now)) }
{
    let mut rest = line;
    loop {
        let end = length_before(b' ', rest);
        let Some(event) = event(&rest[..end], processes) else {
            return Err(OrderError::Line { at });
        };
        events.push(event)?;
        if end == rest.len() {
            return Ok(());
        }
        rest = after(rest, end);
    }
}

// Appends the events of a line that begins at `at`.
fn read_line(
    line: &[u8],
    at: usize,
    processes: usize,
    events: &mut Vec<Event>,
) -> Result<(), OrderError>
    ensures ok { IfOk result (λ _. appended (events_of events.old.items)
        (line_events processes line.now) ≡ Some (events_of events.new.items)) }
    ensures refused { IfErr result (FailsAt at (line_events processes line.now)) }
{
    if line.is_empty() {
        Ok(())
    } else {
        read_words(line, at, processes, events)
    }
}

// Cuts the first line off a text that isn't empty.
fn next_line(text: &[u8]) -> (&[u8], &[u8])
    requires some { 0 < length text.now }
    ensures lines { lines_of text.now ≡ result.0.now ∷ lines_of result.1.now }
    ensures shorter { length result.0.now + length result.1.now ≤ length text.now }
    ensures less { length result.1.now < length text.now }
{
    let end = length_before(b'\n', text);
    if end == text.len() {
        (text, &[])
    } else {
        (&text[..end], after(text, end))
    }
}

// Reads a text within the limit.
fn read_lines(alloc: Global, text: &[u8], processes: usize) -> Result<Orders, OrderError>
    requires within { length text.now ≤ MAX_SCHEDULE_BYTES }
    ensures ok { IfOk result (λ orders. judged processes text.now ≡ TextOrders (rounds_of orders)) }
    ensures refused { IfErr result (Refuses processes text.now) }
{
    let mut events = Vec::new(alloc);
    let mut ends = Vec::new(alloc);
    let mut at = 0;
    let mut rest = text;
    while !rest.is_empty() {
        let (line, more) = next_line(rest);
        read_line(line, at, processes, &mut events)?;
        ends.push(events.len())?;
        at += line.len() + 1;
        rest = more;
    }
    Ok(Orders { events, ends })
}

/// Reads an order text for the processes 1 to `processes`.
///
/// # Errors
///
/// `Line` at the first byte of the first line that isn't well formed, or at [`MAX_SCHEDULE_BYTES`]
/// if the text is too long, whatever it contains. `Memory` says only that memory was refused.
pub fn read_orders(alloc: Global, text: &[u8], processes: usize) -> Result<Orders, OrderError>
    ensures ok { IfOk result (λ orders. judged processes text.now ≡ TextOrders (rounds_of orders)) }
    ensures within { IfOk result (λ orders. AllWithin processes (rounds_of orders)) }
    ensures refused { IfErr result (Refuses processes text.now) }
{
    if text.len() > MAX_SCHEDULE_BYTES {
        return Err(OrderError::Line {
            at: MAX_SCHEDULE_BYTES,
        });
    }
    let orders = read_lines(alloc, text, processes)?;
    Ok(orders)
}
