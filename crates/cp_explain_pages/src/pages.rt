//! The pages of `explain RULE`, written by `docs/make_pages.py` from docs/rules.md, docs/faults.md,
//! docs/deadlocks.md and their examples.

/// A page: the rule or the fault, and what it means.
#[derive(Clone, Copy)]
pub struct RulePage {
    pub(crate) rule: &'static str,
    pub(crate) text: &'static str,
}

/// One page for each rule about names and types, in the order of docs/rules.md.
pub const NAME_RULES: [RulePage; 13] = [
    RulePage {
        rule: "C1",
        text: "C1: a name is declared before it is used, and once\n\nWhy: an undeclared name is a mistake, and a name that hides another misleads\nthe reader. So names are declared first, and none hides another.\nFix: spell the name as it is declared, or declare it. If it is declared twice,\nrename one of the two.\n\nThis program is refused C1 at 89: the cycle assigns `totl`, which nobody\ndeclared.\n\n  \"A counter that misspells its variable.\"\n  var total: integer;\n  begin\n    total := 0;\n    cycle totl := total + 1 end\n  end.\n\nFixed:\n\n  \"A counter.\"\n  var total: integer;\n  begin\n    total := 0;\n    cycle total := total + 1 end\n  end.\n",
    },
    RulePage {
        rule: "C2",
        text: "C2: types and sorts of names agree\n\nWhy: a character, a Boolean, an integer and a value of an enumeration are\ndifferent things even if they are stored alike.\nFix: convert explicitly, here by `count := ord('5') - ord('0')`. If a name has\nthe wrong sort, such as a type in place of a value, use one of the right sort.\nIf a call has too few or too many arguments, count the parameters.\n\nThis program is refused C2 at 87: `count := '5'` assigns a character to an\ninteger.\n\n  \"A digit is a character, and a count is an integer.\"\n  var count: integer;\n  begin\n    count := '5'\n  end.\n\nFixed:\n\n  \"A digit and its count.\"\n  var count: integer;\n  begin\n    count := ord('5') - ord('0')\n  end.\n",
    },
    RulePage {
        rule: "C3",
        text: "C3: bounds rise, and labels differ\n\nWhy: a variable of an empty type could hold nothing, and the second of two\nequal labels could never be chosen.\nFix: write `0..9`; merge the arms of a label that is used twice.\n\nThis program is refused C3 at 66: the subrange `9..0` is empty.\n\n  \"The digits, written from the last to the first.\"\n  type digit = 9..0;\n  var d: digit;\n  begin\n    d := 3\n  end.\n\nFixed:\n\n  \"The digits.\"\n  type digit = 0..9;\n  var d: digit;\n  begin\n    d := 3\n  end.\n",
    },
    RulePage {
        rule: "C4",
        text: "C4: nothing is used inside its own definition\n\nWhy: without recursion the compiler knows the depth of every chain of calls,\nand with it the memory that a process needs. A type that contains itself would\nhave no size.\nFix: write a loop: `result := 1; for i := 2 to n do result := result * i`. In\na function's own body its name can only be on the left of `:=`.\n\nThis program is refused C4 at 136: `factorial` calls itself.\n\n  \"A function that calls itself.\"\n  function factorial(n: integer): integer;\n  begin\n    if n = 0\n    then factorial := 1\n    else factorial := n * factorial(n - 1)\n  end;\n  begin\n    display(factorial(5))\n  end.\n\nFixed:\n\n  \"A function that multiplies in a loop.\"\n  function factorial(n: integer): integer;\n    var result, i: integer;\n  begin\n    result := 1;\n    for i := 2 to n do result := result * i;\n    factorial := result\n  end;\n  begin\n    display(factorial(5))\n  end.\n",
    },
    RulePage {
        rule: "C5",
        text: "C5: other components call entry routines, and only those\n\nWhy: entry routines are a component's door. The others are its own, and can be\ncalled while its variables are being changed.\nFix: declare `procedure entry add`. A component never calls its own entry\nroutines: put what both need into a routine without `entry`.\n\nThis program is refused C5 at 204: the worker calls `add`, which has no\n`entry`.\n\n  \"A process calls a routine that the monitor keeps for itself.\"\n  type counter = monitor;\n    var n: integer;\n    procedure add; begin n := n + 1 end;\n    begin n := 0 end;\n  worker = process(c: counter);\n    begin c.add end;\n  var c: counter; w: worker;\n  begin\n    init c, w(c)\n  end.\n\nFixed:\n\n  \"A process calls an entry routine of a monitor.\"\n  type counter = monitor;\n    var n: integer;\n    procedure entry add; begin n := n + 1 end;\n    begin n := 0 end;\n  worker = process(c: counter);\n    begin c.add end;\n  var c: counter; w: worker;\n  begin\n    init c, w(c)\n  end.\n",
    },
    RulePage {
        rule: "C6",
        text: "C6: components are in variables of their own\n\nWhy: each component has a name, so that the program shows which components\nthere are and how they are connected.\nFix: declare `var a, b, c: worker`. Only the initial process declares monitors\nand processes; other components also declare classes.\n\nThis program is refused C6 at 105: an array of processes.\n\n  \"Three workers in an array.\"\n  type worker = process;\n    begin display(1) end;\n  var workers: array [1..3] of worker;\n  begin\n  end.\n\nFixed:\n\n  \"Three workers.\"\n  type worker = process;\n    begin display(1) end;\n  var a, b, c: worker;\n  begin\n    init a, b, c\n  end.\n",
    },
    RulePage {
        rule: "C7",
        text: "C7: rights go to monitors, and classes stay with their owner\n\nWhy: a class has no gate. If two processes had a right to it, they would\nchange its variables at the same time. A right to a process would give its\nvariables away.\nFix: make the stack a monitor. A class may be given to a class of the same\nowner. Parameters of routines are data, not components.\n\nThis program is refused C7 at 166: two processes are given the same class.\n\n  \"Two processes that share a stack.\"\n  type stack = class;\n    var top: integer;\n    procedure entry push; begin top := top + 1 end;\n    begin top := 0 end;\n  user = process(s: stack);\n    begin s.push end;\n  var s: stack; a, b: user;\n  begin\n    init s, a(s), b(s)\n  end.\n\nFixed:\n\n  \"Two processes that share a monitor.\"\n  type stack = monitor;\n    var top: integer;\n    procedure entry push; begin top := top + 1 end;\n    begin top := 0 end;\n  user = process(s: stack);\n    begin s.push end;\n  var s: stack; a, b: user;\n  begin\n    init s, a(s), b(s)\n  end.\n",
    },
    RulePage {
        rule: "C8",
        text: "C8: queues belong to monitors\n\nWhy: to wait in a queue means to leave a monitor, and to come back when\nanother process continues the queue. Outside a monitor nobody can do that.\nFix: declare the queue, or an array of queues, as a variable of a monitor, and\nname it only in `delay`, `continue` and `empty`.\n\nThis program is refused C8 at 78: a process declares a queue.\n\n  \"A process that keeps a queue to wait in.\"\n  type sleeper = process;\n    var bed: queue;\n    begin delay(bed) end;\n  var s: sleeper;\n  begin\n    init s\n  end.\n\nFixed:\n\n  \"A monitor that keeps a queue for its callers to wait in.\"\n  type house = monitor;\n    var bed: queue;\n    procedure entry sleep; begin delay(bed) end;\n    procedure entry wake; begin continue(bed) end;\n    begin end;\n  sleeper = process(h: house);\n    begin h.sleep end;\n  var h: house; s: sleeper;\n  begin\n    init h, s(h)\n  end.\n",
    },
    RulePage {
        rule: "C9",
        text: "C9: waiting and continuing are where they have a meaning\n\nWhy: nobody else can enter a monitor while it is being initialised, so nobody\ncould ever continue. `continue` returns from its entry routine at once, so\nonly the body of an entry routine can have it.\nFix: initialise variables in the body, and delay in entry routines. `wait` can\nonly be used in processes.\n\nThis program is refused C9 at 158: a monitor delays the process that is\ninitialising it.\n\n  \"A monitor that waits while it is being initialised.\"\n  type gate = monitor;\n    var arrived: queue;\n    procedure entry open; begin continue(arrived) end;\n    begin delay(arrived) end;\n  var g: gate;\n  begin\n    init g\n  end.\n\nFixed:\n\n  \"A monitor in whose entry routine a process waits.\"\n  type gate = monitor;\n    var arrived: queue;\n    procedure entry arrive; begin delay(arrived) end;\n    procedure entry open; begin continue(arrived) end;\n    begin end;\n  var g: gate;\n  begin\n    init g\n  end.\n",
    },
    RulePage {
        rule: "C10",
        text: "C10: only variables are changed\n\nWhy: a value parameter is the caller's value under another name. If it could\nbe changed, the reader would think that the caller's variable changes, as in\nthis program.\nFix: write `procedure double(var n: integer)` to change the caller's variable,\nor copy the value into a variable of the routine. An argument for a `var`\nparameter is a variable of the very same type.\n\nThis program is refused C10 at 115: `n` is a value parameter.\n\n  \"A procedure that means to double a variable of its caller.\"\n  var x: integer;\n  procedure double(n: integer);\n  begin\n    n := n + n\n  end;\n  begin\n    x := 3;\n    double(x);\n    display(x)\n  end.\n\nFixed:\n\n  \"A procedure that doubles a variable of its caller.\"\n  var x: integer;\n  procedure double(var n: integer);\n  begin\n    n := n + n\n  end;\n  begin\n    x := 3;\n    double(x);\n    display(x)\n  end.\n",
    },
    RulePage {
        rule: "C11",
        text: "C11: functions have no `var` parameters, and simple results\n\nWhy: a function is part of an expression, where an effect on another operand\nwould depend on the order of evaluation.\nFix: make it a procedure with two `var` parameters, or a function that\ncomputes and a statement that stores.\n\nThis program is refused C11 at 78: the function changes its argument.\n\n  \"A function that also changes its argument.\"\n  var seed: integer;\n  function next(var s: integer): integer;\n  begin\n    s := (s * 7 + 3) mod 101;\n    next := s\n  end;\n  begin\n    seed := 1;\n    display(next(seed))\n  end.\n\nFixed:\n\n  \"A function that computes, and a statement that stores.\"\n  var seed: integer;\n  function next(s: integer): integer;\n  begin\n    next := (s * 7 + 3) mod 101\n  end;\n  begin\n    seed := 1;\n    seed := next(seed);\n    display(seed)\n  end.\n",
    },
    RulePage {
        rule: "C12",
        text: "C12: `init` connects components, once, where they are declared\n\nWhy: components are connected once, in the body of the component that declares\nthem, so that the program shows the whole system. A routine could do it again.\nFix: write the `init` in the body, and an entry procedure that sets the\nvariables again: `procedure entry clear; begin ticks := 0 end`.\n\nThis program is refused C12 at 149: `init` in a procedure.\n\n  \"A procedure that starts a component anew.\"\n  type timer = class;\n    var ticks: integer;\n    begin ticks := 0 end;\n  var t: timer;\n  procedure reset;\n  begin\n    init t\n  end;\n  begin\n    reset\n  end.\n\nFixed:\n\n  \"A timer with an entry procedure that sets it back.\"\n  type timer = class;\n    var ticks: integer;\n    procedure entry reset; begin ticks := 0 end;\n    begin ticks := 0 end;\n  var t: timer;\n  begin\n    init t;\n    t.reset\n  end.\n",
    },
    RulePage {
        rule: "C13",
        text: "C13: everything fits\n\nWhy: the memory of every process is known before it starts, and bounded. A\ntype and an owner of variables have at most 65,536 words, and there are at\nmost 255 processes and 255 monitors.\nFix: use a smaller array, or spread the data over several processes.\n\nThis program is refused C13 at 57: the picture has 90,000 words.\n\n  \"A picture of 300 lines of 300 characters.\"\n  var picture: array [1..300, 1..300] of char;\n  begin\n    picture[1, 1] := '.'\n  end.\n\nFixed:\n\n  \"A picture of 200 lines of 300 characters.\"\n  var picture: array [1..200, 1..300] of char;\n  begin\n    picture[1, 1] := '.'\n  end.\n",
    },
];

/// One page for each other rule, in the order of docs/rules.md.
pub const OTHER_RULES: [RulePage; 15] = [
    RulePage {
        rule: "S1",
        text: "S1: a program is spelled with letters, digits, blanks and marks\n\nWhy: each character has one meaning, and a character without one is a mistake.\nFix: put remarks between `\"` and `\"`, and other characters into character\nconstants.\n\nThis program is refused S1 at 54: `#` can't appear there.\n\n  \"A remark as in another language.\"\n  begin\n    display(1) # one\n  end.\n\nFixed:\n\n  \"A remark is a comment.\"\n  begin\n    display(1) \"one\"\n  end.\n",
    },
    RulePage {
        rule: "S2",
        text: "S2: a comment ends\n\nWhy: the rest of the program would be a comment.\nFix: write the second `\"`.\n\nThis program is refused S2 at 19: the comment begins after `display(1)`, and\nhas no second `\"`.\n\n  begin\n    display(1) \"one\n  end.\n\nFixed:\n\n  begin\n    display(1) \"one\"\n  end.\n",
    },
    RulePage {
        rule: "S3",
        text: "S3: a character constant has one character\n\nWhy: a character is one of 128, and strings are arrays of them.\nFix: write one printable character between apostrophes, or an ordinal as in\n`'(:10:)'`.\n\nThis program is refused S3 at 68: `'ok'` has two.\n\n  \"A character constant of two characters.\"\n  var c: char;\n  begin\n    c := 'ok'\n  end.\n\nFixed:\n\n  \"A character constant of one character.\"\n  var c: char;\n  begin\n    c := 'o'\n  end.\n",
    },
    RulePage {
        rule: "S4",
        text: "S4: a number is at most 32767\n\nWhy: integers have 16 bits.\nFix: use two numbers, or larger units.\n\nThis program is refused S4 at 61: `40000`.\n\n  \"A number beyond the integers.\"\n  var n: integer;\n  begin\n    n := 40000\n  end.\n\nFixed:\n\n  \"Two numbers that share the digits.\"\n  var thousands, rest: integer;\n  begin\n    thousands := 40;\n    rest := 0\n  end.\n",
    },
    RulePage {
        rule: "S5",
        text: "S5: a word has at most 64 characters\n\nWhy: people read names.\nFix: choose a shorter one.\n\nThis program is refused S5 at 28: the name has 66.\n\n  \"A name of 66 letters.\"\n  var counter_of_the_messages_that_were_sent_and_received_and_sent_again: integer;\n  begin end.\n\nFixed:\n\n  \"A short name.\"\n  var messages: integer;\n  begin end.\n",
    },
    RulePage {
        rule: "S6",
        text: "S6: a source has at most 1,048,576 bytes\n\nWhy: a bound on the source bounds the memory that a check needs.\nFix: shorten it.\n",
    },
    RulePage {
        rule: "Y1",
        text: "Y1: each token can follow the ones before it\n\nWhy: the place is the first token that can't follow the ones before it, so the\nmistake is there or just before.\nFix: look at what comes before it: a `;` between two statements, an `end` for\neach `begin`, `cycle` and `case`, a `)` or `]`.\n\nThis program is refused Y1 at 77: after `n := 1` a `;` is missing.\n\n  \"Two statements with nothing between them.\"\n  var n: integer;\n  begin\n    n := 1\n    display(n)\n  end.\n\nFixed:\n\n  \"Two statements with a semicolon between them.\"\n  var n: integer;\n  begin\n    n := 1;\n    display(n)\n  end.\n",
    },
    RulePage {
        rule: "Y2",
        text: "Y2: a program has an end\n\nWhy: the whole program is one body, with `end.` after it.\nFix: close what is open.\n\nThis program is refused Y2 at 67: the last `end.` is missing.\n\n  \"A text that stops before its end.\"\n  var n: integer;\n  begin\n    n := 1\n\nFixed:\n\n  \"A whole text.\"\n  var n: integer;\n  begin\n    n := 1\n  end.\n",
    },
    RulePage {
        rule: "Y3",
        text: "Y3: a program is at most 200 levels deep\n\nWhy: a reader, and the checker, keep all open levels in mind.\nFix: name the inner types, and put inner statements into routines.\n",
    },
    RulePage {
        rule: "I1",
        text: "I1: a file can be opened and read\n\nWhy: without its program or its input there is no answer.\nFix: look at the name and the permissions; `cpm explain` prints what the\nsystem says.\n",
    },
    RulePage {
        rule: "I2",
        text: "I2: the answer can be written\n\nWhy: an incomplete answer is no answer.\nFix: make room on the disk, or don't close the pipe.\n",
    },
    RulePage {
        rule: "I3",
        text: "I3: the bytes of an input are characters\n\nWhy: characters have the ordinals 0 to 127. The place is the first byte above.\nFix: convert the input to ASCII.\n",
    },
    RulePage {
        rule: "I4",
        text: "I4: an input has at most 1,048,576 bytes\n\nWhy: a bound on the input bounds the memory that a run needs.\nFix: shorten it.\n",
    },
    RulePage {
        rule: "O1",
        text: "O1: each line of an order is a row of events\n\nWhy: a line is a round, and says which steps it has: no events, or events with\none space between them. An event is `P` or `K` and the number of a process,\nwithout leading zeros. The place is the first byte of the line, or 1048576 if\nthe order is longer than that.\nFix: look for a second space, a small letter, or a number above that of the\nlast process.\n",
    },
    RulePage {
        rule: "M",
        text: "M: there is memory for it\n\nWhy: cpm reports that memory ran out, and loses nothing.\nFix: free some, or raise the limit (`ulimit -v`).\n",
    },
];

/// One page for each fault, in the order of docs/faults.md.
pub const FAULTS: [RulePage; 9] = [
    RulePage {
        rule: "F1",
        text: "F1: a value is in the range of its type\n\nWhy: a subrange says which values a variable has, so that a mistake shows\nwhere it happens, and not later, where the value is used.\nFix: test the value before it is assigned, as in `if d < 9 then d := d + 1`;\nwrap it by `mod`, as in `d := (d + 1) mod 10`; or declare a wider subrange.\n`succ` of a last value, `pred` of a first one and `chr` beyond 0 to 127 are\nthis fault too.\n\nIn this program: `d` has the values 0 to 9, and the second assignment gives it\n10.\n\n  \"A digit that counts one step too far.\"\n  var d: 0..9;\n  begin\n    d := 9;\n    d := d + 1\n  end.\n\n`cpm run f1_beyond_the_subrange.cp --rounds 2` reports:\n\n  rounds 2\n  process 1 initial fault 1\n  out ''\n  var d = 9\n",
    },
    RulePage {
        rule: "F2",
        text: "F2: an index is within the bounds of its array\n\nWhy: beyond the last element are other variables, which the program doesn't\nname there.\nFix: let the loop end at the last bound. If both are one constant, as in\n`array [1..size]` and `for i := 1 to size`, they can't differ.\n\nIn this program: the array has the elements 1 to 3, and `i` reaches 4.\n\n  \"A loop that runs past the end of an array.\"\n  var v: array [1..3] of integer; i: integer;\n  begin\n    for i := 1 to 4 do v[i] := i\n  end.\n\n`cpm run f2_beyond_the_array.cp --rounds 2` reports:\n\n  rounds 2\n  process 1 initial fault 2\n  out ''\n  var v[1] = 1\n  var v[2] = 2\n  var v[3] = 3\n  var i = 4\n",
    },
    RulePage {
        rule: "F3",
        text: "F3: arithmetic stays within the integers\n\nWhy: integers are -32768 to 32767. A result that wraps to the other end would\nbe wrong, and nobody would notice.\nFix: test before the operation, as in `if x < 32767 then x := x + 1`; count in\nlarger units; or keep a large number in two variables, its thousands and the\nrest.\n\nIn this program: 32767 + 1 is no integer.\n\n  \"One more than the greatest integer.\"\n  var x: integer;\n  begin\n    x := 32767;\n    x := x + 1\n  end.\n\n`cpm run f3_too_large.cp --rounds 2` reports:\n\n  rounds 2\n  process 1 initial fault 3\n  out ''\n  var x = 32767\n",
    },
    RulePage {
        rule: "F4",
        text: "F4: a divisor isn't zero\n\nWhy: there is no quotient by 0, and no remainder.\nFix: test the divisor first: `if count > 0 then display(sum div count)`. `&`\ndoesn't help, since it evaluates both sides.\n\nIn this program: `count` is 0.\n\n  \"The mean of no numbers.\"\n  var sum, count: integer;\n  begin\n    sum := 10; count := 0;\n    display(sum div count)\n  end.\n\n`cpm run f4_nothing_counted.cp --rounds 2` reports:\n\n  rounds 2\n  process 1 initial fault 4\n  out ''\n  var sum = 10\n  var count = 0\n",
    },
    RulePage {
        rule: "F5",
        text: "F5: a queue has one process\n\nWhy: `continue(q)` resumes one process. So a queue has one, and the queues of\na program say which process resumes first.\nFix: keep an array of queues, and delay each process in a queue of its own; or\ntest `empty(q)` first.\n\nIn this program: `a` waits in `door` when `b` comes to wait there. `b` keeps\nthe gate.\n\n  \"Two guests that wait in one queue.\"\n  type house = monitor;\n    var door: queue;\n    procedure entry enter; begin delay(door) end;\n    begin end;\n  guest = process(h: house);\n    begin h.enter end;\n  var h: house; a, b: guest;\n  begin\n    init h, a(h), b(h)\n  end.\n\n`cpm run f5_two_in_a_queue.cp --rounds 5` reports:\n\n  rounds 5\n  process 1 initial ended\n  out ''\n  process 2 a delayed h door\n  out ''\n  process 3 b fault 5\n  out ''\n  monitor h held 3 askers -\n  queue door = 2\n",
    },
    RulePage {
        rule: "F6",
        text: "F6: a component is initialised before it is called\n\nWhy: the variables of a component have no meaning before its body has run.\nFix: `init` it before the first call, and before it is given to another\ncomponent: `init c; c.add`. The component that declares a class initialises\nit.\n\nIn this program: `c` is called, and there is no `init c` before it.\n\n  \"A counter that is called before it is initialised.\"\n  type counter = monitor;\n    var n: integer;\n    procedure entry add; begin n := n + 1 end;\n    begin n := 0 end;\n  var c: counter;\n  begin\n    c.add\n  end.\n\n`cpm run f6_without_init.cp --rounds 2` reports:\n\n  rounds 2\n  process 1 initial fault 6\n  out ''\n  monitor c unset askers -\n  var n = 0\n",
    },
    RulePage {
        rule: "F7",
        text: "F7: a component is initialised once\n\nWhy: others may use the component already, and its rights would change while\nthey do. A loop with an `init` in it does it again, too.\nFix: write an entry procedure that sets the variables again, and call it:\n`t.reset`.\n\nIn this program: there are two `init t`.\n\n  \"A timer that is initialised again to set it back.\"\n  type timer = class;\n    var ticks: integer;\n    begin ticks := 0 end;\n  var t: timer;\n  begin\n    init t;\n    init t\n  end.\n\n`cpm run f7_init_twice.cp --rounds 2` reports:\n\n  rounds 2\n  process 1 initial fault 7\n  out ''\n  var t.ticks = 0\n",
    },
    RulePage {
        rule: "F8",
        text: "F8: a `case` has an arm for the value\n\nWhy: the program doesn't say what should happen for another value, and doing\nnothing might be wrong.\nFix: add the label, if necessary with an empty statement, or test first: `if\nday <= 2 then case day of 1: display('m'); 2: display('t') end`.\n\nIn this program: `day` is 3, and the labels are 1 and 2.\n\n  \"A day for which there is no arm.\"\n  var day: integer;\n  begin\n    day := 3;\n    case day of\n      1: display('m');\n      2: display('t')\n    end\n  end.\n\n`cpm run f8_no_arm.cp --rounds 2` reports:\n\n  rounds 2\n  process 1 initial fault 8\n  out ''\n  var day = 3\n",
    },
    RulePage {
        rule: "F9",
        text: "F9: a function sets its result\n\nWhy: the value of the call would be anything.\nFix: assign to the function's name on every path through its body. For\ninstance, do it first: `sign := 0`.\n\nIn this program: `sign(0)` assigns nothing to `sign`.\n\n  \"A sign that isn't told of zero.\"\n  function sign(n: integer): integer;\n  begin\n    if n > 0 then sign := 1;\n    if n < 0 then sign := -1\n  end;\n  begin\n    display(sign(5));\n    display(sign(0))\n  end.\n\n`cpm run f9_no_result.cp --rounds 2` reports:\n\n  rounds 2\n  process 1 initial fault 9\n  out '1'\n",
    },
];

/// The page of docs/deadlocks.md.
pub const DEADLOCK: RulePage = RulePage {
    rule: "DEADLOCK",
    text: "Deadlocks\n\nA process waits where it asks for the gate of a monitor, where it is delayed\nin a queue, or for the clock. In a deadlock, processes wait for each other,\nand none can let another one continue. `cpm outcome` runs a program until\nnothing can move. It prints why each process waits, and who could let it\ncontinue. If some wait for each other, the line `circle:` says in which order.\n`cpm outcome --dot` draws the circle in red.\n\nProcesses that only ask for gates never wait in a circle. A component is\ninitialised before it is passed to another, so gates are always asked for in\none order. So a circle has a delay in it, and whoever looks for a deadlock\nlooks at the queues.\n\nA process that serves others waits for the next request, and is no deadlock if\nthere is none. Name such processes, as in `--servers printer,disk`. The\nverdict is then `ended` if all others have ended and these wait in queues.\n`cpm search` takes the same option. A server that has faulted or asks for a\ngate doesn't wait in a queue. If all that haven't ended are delayed, the last\nline of an outcome names them: `with --servers .. the verdict would be:\nended`. It is for you to judge whether each of them is a server.\n\nA circle\n\nEach philosopher has one fork, and waits for the fork of the other.\nFix: take the forks in the same order everywhere, here `f` before `g`. Or let\none monitor have all forks, so that a philosopher takes both or none.\n\n  \"Two philosophers. Each takes its left fork, and then waits for its right one.\"\n  type fork = monitor;\n    var taken: boolean; waiting: queue;\n    procedure entry get;\n    begin if taken then delay(waiting); taken := true end;\n    procedure entry put;\n    begin taken := false; continue(waiting) end;\n    begin taken := false end;\n  philosopher = process(left, right: fork);\n    var meals: integer;\n    begin\n      left.get; meals := 0; right.get;\n      meals := meals + 1;\n      right.put; left.put\n    end;\n  var f, g: fork; a, b: philosopher;\n  begin init f, g, a(f, g), b(g, f) end.\n\n`cpm outcome circle.cp` prints:\n\n  stuck after round 3\n  process 2 a: delayed in g.waiting at 5:23, called at 12:27; only g.put continues it, which b can call\n  process 3 b: delayed in f.waiting at 5:23, called at 12:27; only f.put continues it, which a can call\n  circle: a -> g -> b -> f -> a\n  with --servers a,b the verdict would be: ended\n\nNested gates\n\nA delay passes on only the gate of its own monitor. The reader keeps the gate\nof the store while it waits in the slot. The writer needs that gate to come to\nthe slot.\nFix: delay only in monitors that are called by processes. Or let the store\nhave no gate to keep: make it a class, one for each process.\n\n  \"A reader waits in the slot, inside of the store. So the writer can't enter the store.\"\n  type slot = monitor;\n    var full: boolean; readers: queue;\n    procedure entry put; begin full := true; continue(readers) end;\n    procedure entry get;\n    begin if not full then delay(readers); full := false end;\n    begin full := false end;\n  store = monitor(s: slot);\n    procedure entry write; begin s.put end;\n    procedure entry read; begin s.get end;\n    begin end;\n  reader = process(t: store); begin t.read end;\n  writer = process(t: store); begin t.write end;\n  var s: slot; t: store; a: reader; b: writer;\n  begin init s, t(s), a(t), b(t) end.\n\n`cpm outcome nested.cp` prints:\n\n  stuck after round 2\n  process 2 a: delayed in s.readers at 6:26, called at 12:35, then at 10:31; only s.put continues it, which b can call\n  process 3 b: asks for t at 13:35, held by a, which is delayed in s.readers\n  circle: a -> s -> b -> t -> a\n\nA lost wakeup\n\nA `continue` of an empty queue only returns. Nothing remembers it.\nFix: keep in a variable what has happened: `ring` sets `rung := true`, and\n`listen` delays only if it is false.\n\n  \"The host rings before the guest listens, and nobody rings again.\"\n  type bell = monitor;\n    var guest: queue;\n    procedure entry listen; begin delay(guest) end;\n    procedure entry ring; begin continue(guest) end;\n    begin end;\n  host_process = process(b: bell); begin b.ring end;\n  guest_process = process(b: bell); begin b.listen end;\n  var b: bell; host: host_process; guest: guest_process;\n  begin init b, host(b), guest(b) end.\n\n`cpm outcome lost.cp` prints:\n\n  stuck after round 3\n  process 3 guest: delayed in b.guest at 4:33, called at 8:41; only b.ring continues it; host, who calls it, has ended\n  with --servers guest the verdict would be: ended\n\nStarvation\n\nThis is no deadlock, since the readers move. But the writer waits forever,\nbecause its turn depends on what others do at the same time.\nFix: let newcomers wait as soon as somebody waits: `start` delays if the queue\nof the writer isn't empty.\n\n  \"Two readers take turns to read, so that one of them always reads. The writer waits until none does.\"\n  type page = monitor;\n    var readers: integer; writer: queue;\n    procedure entry start; begin readers := readers + 1 end;\n    procedure entry stop;\n    begin readers := readers - 1; if readers = 0 then continue(writer) end;\n    procedure entry write; begin if readers > 0 then delay(writer) end;\n    begin readers := 0 end;\n  reader = process(p: page);\n    var x: integer;\n    begin p.start; cycle x := 1; p.stop; p.start end end;\n  scribe = process(p: page); begin p.write end;\n  var p: page; a, b: reader; w: scribe;\n  begin init p, a(p), b(p), w(p) end.\n\n`cpm outcome starved.cp --limit 1000` prints:\n\n  running after round 1000\n  process 2 a: ready at 11:24\n  process 3 b: ready at 11:24\n  process 4 w: delayed in p.writer at 7:52, called at 12:34; only p.stop continues it, which a and b can call\n  loop: the state after round 1000 came again after round 1001; a and b move; w never does\n\nA fault inside a monitor\n\nA queue has room for one process, and the second one has fault 5. It keeps the\ngate, so nobody can enter the monitor again.\nFix: have a queue for each process, in an array, as in `delay(doors[me])`.\n\n  \"Two guests wait at one door, which has room for one.\"\n  type house = monitor;\n    var door: queue;\n    procedure entry arrive; begin delay(door) end;\n    procedure entry open; begin continue(door) end;\n    begin end;\n  guest_process = process(h: house); begin h.arrive end;\n  host_process = process(h: house); begin h.open end;\n  var h: house; a, b: guest_process; host: host_process;\n  begin init h, a(h), b(h), host(h) end.\n\n`cpm outcome taken.cp` prints:\n\n  fault after round 2\n  process 2 a: delayed in h.door at 4:33, called at 7:42; only h.open continues it, which host can call\n  process 3 b: fault 5 at 4:33: a delay in a queue that has a process, `delay(door)`\n  process 4 host: asks for h at 8:41, held by b, which has faulted\n",
};
