//! The words of a line: events, and the numbers in them.

ghost use Rattle.std.specs.Prelude.{◌≡◌, ◌≤◌, ◌+◌, ◌-◌, ◌*◌, ◌^◌, IfNone, IfSome, true, option_map};
ghost use Rattle.cp_model.specs.OrderText.{at_most, event_named, is_digit, number_from};
ghost use Rattle.cp_model.specs.OrderText as definition;
ghost use Rattle.cp_base_schedule.specs.Events.{event_of};

use crate::event::Event;

// A number with one more digit, or `None` if the byte isn't a digit or the number is too large.
fn with_digit(value: usize, byte: u8) -> Option<usize>
    ensures digit { IfSome result (λ n. (is_digit byte ≡ true)
        × (n ≡ 10 * value + (byte - 48))) }
    ensures large { IfNone result (is_digit byte ≡ true → 2 ^ 64 ≤ 10 * value + (byte - 48)) }
{
    if !byte.is_ascii_digit() {
        return None;
    }
    value.checked_mul(10)?.checked_add(usize::from(byte - b'0'))
}

// The number that the digits spell, if it is at most `most`.
fn number(digits: &[u8], most: usize) -> Option<usize>
    ensures { result ≡ at_most most (number_from 0 digits.now) }
{
    let mut value = 0;
    for byte in digits {
        value = with_digit(value, *byte)?;
    }
    (value <= most).then_some(value)
}

// The number above 0 that digits without leading zeros spell, if it is at most `most`.
fn numeral(digits: &[u8], most: usize) -> Option<usize>
    ensures { result ≡ at_most most (definition.numeral digits.now) }
{
    if *digits.first()? == b'0' {
        return None;
    }
    number(digits, most)
}

/// The event that a word names, if it is one of the processes 1 to `processes`.
pub(crate) fn event(word: &[u8], processes: usize) -> Option<Event>
    ensures { option_map event_of result ≡ event_named processes word.now }
{
    match word {
        [b'P', digits @ ..] => Some(Event::P(numeral(digits, processes)?)),
        [b'K', digits @ ..] => Some(Event::K(numeral(digits, processes)?)),
        _ => None,
    }
}
