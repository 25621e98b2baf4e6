//! Words of other languages, and what to write instead. This is data: `words` says where a word
//! shows that it is meant so.

use crate::messages as m;
use cp_output::message::Message;

/// A word, and what to write instead.
type Habit = (&'static str, Message);

/// Words that begin a statement or a declaration, before the token that is unexpected.
const LEADING: [Habit; 45] = [
    ("cobegin", m::COBEGIN),
    ("parbegin", m::COBEGIN),
    ("run", m::START),
    ("start", m::START),
    ("fork", m::START),
    ("spawn", m::START),
    ("activate", m::START),
    ("call", m::CALL),
    ("exec", m::CALL),
    ("perform", m::CALL),
    ("elif", m::ELSE_IF),
    ("elsif", m::ELSE_IF),
    ("elseif", m::ELSE_IF),
    ("return", m::RESULT),
    ("loop", m::CYCLE),
    ("forever", m::CYCLE),
    ("exit", m::LEAVE),
    ("break", m::LEAVE),
    ("let", m::LET),
    ("local", m::TYPE_FIRST),
    ("integer", m::TYPE_FIRST),
    ("int", m::TYPE_FIRST),
    ("char", m::TYPE_FIRST),
    ("boolean", m::TYPE_FIRST),
    ("bool", m::TYPE_FIRST),
    ("queue", m::TYPE_FIRST),
    ("real", m::TYPE_FIRST),
    ("float", m::TYPE_FIRST),
    ("string", m::TYPE_FIRST),
    ("condition", m::TYPE_FIRST),
    ("void", m::ROUTINE_WORD),
    ("proc", m::ROUTINE_WORD),
    ("func", m::ROUTINE_WORD),
    ("def", m::ROUTINE_WORD),
    ("sub", m::ROUTINE_WORD),
    ("method", m::ROUTINE_WORD),
    ("public", m::ENTRY_WORD),
    ("private", m::ENTRY_WORD),
    ("export", m::ENTRY_WORD),
    ("uses", m::NO_MODULES),
    ("import", m::NO_MODULES),
    ("include", m::NO_MODULES),
    ("module", m::NO_MODULES),
    ("unit", m::NO_MODULES),
    ("package", m::NO_MODULES),
];

/// Words that are unexpected themselves.
const UNEXPECTED: [Habit; 21] = [
    ("elif", m::ELSE_IF),
    ("elsif", m::ELSE_IF),
    ("elseif", m::ELSE_IF),
    ("endif", m::END_WORD),
    ("endwhile", m::END_WORD),
    ("endfor", m::END_WORD),
    ("endcase", m::END_WORD),
    ("fi", m::END_WORD),
    ("od", m::END_WORD),
    ("esac", m::END_WORD),
    ("coend", m::COBEGIN),
    ("parend", m::COBEGIN),
    ("public", m::ENTRY_WORD),
    ("private", m::ENTRY_WORD),
    ("export", m::ENTRY_WORD),
    ("uses", m::NO_MODULES),
    ("import", m::NO_MODULES),
    ("include", m::NO_MODULES),
    ("module", m::NO_MODULES),
    ("unit", m::NO_MODULES),
    ("xor", m::XOR),
];

/// Words that name a type in some language, and the type that is meant, if there is one.
const TYPES: [(&str, &str); 16] = [
    ("integer", "integer"),
    ("int", "integer"),
    ("long", "integer"),
    ("short", "integer"),
    ("byte", "integer"),
    ("unsigned", "integer"),
    ("char", "char"),
    ("character", "char"),
    ("boolean", "boolean"),
    ("bool", "boolean"),
    ("queue", "queue"),
    ("condition", "queue"),
    ("real", "real"),
    ("float", "real"),
    ("double", "real"),
    ("string", "string"),
];

fn find(habits: &[Habit], word: &[u8]) -> Option<Message> {
    for (known, message) in habits {
        if known.as_bytes() == word {
            return Some(*message);
        }
    }
    None
}

/// What is meant by a word that begins a statement or a declaration.
pub fn of_leading(word: &[u8]) -> Option<Message> {
    find(LEADING.as_slice(), word)
}

/// What is meant by a word that is unexpected.
pub fn of_unexpected_word(word: &[u8]) -> Option<Message> {
    find(UNEXPECTED.as_slice(), word)
}

/// The type that a word means, if it names one in some language.
pub fn type_of_word(word: &[u8]) -> Option<&'static [u8]> {
    for (known, meant) in TYPES.as_slice() {
        if known.as_bytes() == word {
            return Some(meant.as_bytes());
        }
    }
    None
}
