//! Texts and their reports.

pub(crate) const COUNTERS: &[u8] = b"type p = process; var x: integer;
  begin x := 2; cycle display(x); x := x * x end end;
var a, b: p; y: integer;
begin init a, b; y := 7 - 10;
  display(y div 2); display(y mod 2); init a end.
";

pub(crate) const AFTER_THREE_ROUNDS: &[u8] = b"rounds 3
process 1 initial fault 7
out '-1-1'
var y = -3
process 2 a ready
out '24'
var x = 16
process 3 b ready
out '24'
var x = 16
";

pub(crate) const SEVEN: &[u8] = b"type p = process; begin display(7) end;
var a: p;
begin init a end.
";

// The report after `K1` and a round of `P2 P1 P1`, with turns of ten steps.
pub(crate) const AFTER_SEVEN: &[u8] = b"rounds 2
process 1 initial ended
out ''
process 2 a ready
out '7'
";
