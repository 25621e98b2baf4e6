//! Names of other languages, for names that a text uses and doesn't declare: what each means here.
//!
//! This is a table of words. What a word means where a parser stops is cp_explain_syntax's.
#![tactic(auto)]

const WRITE: &str = "write one value by `display(x)`";

const READ: &str = "read one character by `accept(c)`";

const REAL: &str = "there are no reals, only integers from -32768 to 32767";

const STRING: &str = "there are no strings, so use an array of char";

const POINTER: &str = "there are no pointers, so use an array and an index into it";

const LEAVE: &str = "nothing leaves a loop but its condition, so test a Boolean variable";

const CONTINUE: &str = "a monitor lets the process in queue `q` run by `continue(q)`";

const DELAY: &str = "a process waits in queue `q` of a monitor by `delay(q)`";

const OWN: &str = "a component names its own variables directly, as in `n := 1`";

const START: &str = "processes are started by `init a, b`";

const OTHERWISE: &str = "a `case` has no such label, so list each value";

const LOCK: &str = "a monitor lets in one process at a time, without a lock";

const INTEGER: &str = "the type of integers is `integer`";

const BOOLEAN: &str = "the type of `false` and `true` is `boolean`";

const CHARACTER: &str = "the type of characters is `char`";

const QUEUE: &str = "the type of what a process waits in is `queue`";

const CLOCK: &str = "a process waits for the next tick of the clock by `wait`";

/// Names of other languages, and what each means here.
const FOREIGN: [(&str, &str); 74] = [
    ("write", WRITE),
    ("writeln", WRITE),
    ("print", WRITE),
    ("printf", WRITE),
    ("println", WRITE),
    ("puts", WRITE),
    ("putchar", WRITE),
    ("cout", WRITE),
    ("read", READ),
    ("readln", READ),
    ("scanf", READ),
    ("getchar", READ),
    ("input", READ),
    ("real", REAL),
    ("float", REAL),
    ("double", REAL),
    ("string", STRING),
    ("nil", POINTER),
    ("null", POINTER),
    ("new", "a component is a variable, and `init c` starts it"),
    ("int", INTEGER),
    ("long", INTEGER),
    ("short", INTEGER),
    ("byte", INTEGER),
    ("unsigned", INTEGER),
    ("bool", BOOLEAN),
    ("character", CHARACTER),
    ("condition", QUEUE),
    (
        "semaphore",
        "there are no semaphores, so write a monitor with a `queue`",
    ),
    ("mutex", LOCK),
    ("lock", LOCK),
    ("unlock", LOCK),
    ("acquire", LOCK),
    ("release", LOCK),
    ("synchronized", LOCK),
    ("inc", "write `n := n + 1`"),
    ("dec", "write `n := n - 1`"),
    ("incr", "write `n := n + 1`"),
    ("decr", "write `n := n - 1`"),
    ("sqrt", "there is no such function, so declare one"),
    ("sqr", "write `n * n`"),
    ("power", "multiply in a `for` loop"),
    ("odd", "write `n mod 2 <> 0`"),
    ("even", "write `n mod 2 = 0`"),
    ("round", REAL),
    ("trunc", REAL),
    ("maxint", "the largest integer is 32767"),
    ("minint", "the least integer is -32767 - 1"),
    (
        "return",
        "a function's result is what is assigned to its name last, as in `f := 1`",
    ),
    (
        "result",
        "a function's result is what is assigned to its name last, as in `f := 1`",
    ),
    ("exit", LEAVE),
    ("halt", LEAVE),
    ("break", LEAVE),
    ("skip", "an empty statement is written as nothing"),
    ("pass", "an empty statement is written as nothing"),
    ("signal", CONTINUE),
    ("notify", CONTINUE),
    ("notifyall", CONTINUE),
    ("broadcast", CONTINUE),
    ("resume", CONTINUE),
    ("await", DELAY),
    ("suspend", DELAY),
    ("block", DELAY),
    ("sleep", CLOCK),
    ("this", OWN),
    ("self", OWN),
    ("me", OWN),
    ("cobegin", START),
    ("parbegin", START),
    ("start", START),
    ("fork", START),
    ("default", OTHERWISE),
    ("otherwise", OTHERWISE),
    ("others", OTHERWISE),
];

/// What a name of another language means here, if it is one.
pub fn meaning_of(name: &[u8]) -> Option<&'static str> {
    for (known, meaning) in FOREIGN.as_slice() {
        if known.as_bytes() == name {
            return Some(*meaning);
        }
    }
    None
}
