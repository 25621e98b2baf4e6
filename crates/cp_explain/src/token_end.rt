//! Where the token at a place of a text ends.

// The length of the word or the number that begins some bytes.
fn word_length(bytes: &[u8]) -> usize {
    for i in 0..bytes.len() {
        if !bytes[i].is_ascii_alphanumeric() && bytes[i] != b'_' {
            return i;
        }
    }
    bytes.len()
}

// The length of the character constant that begins some bytes.
fn character_length(bytes: &[u8]) -> usize {
    for i in 1..bytes.len() {
        match bytes[i] {
            b'\'' => return i + 1,
            b'\n' => return i,
            _ => {}
        }
    }
    bytes.len()
}

fn length(bytes: &[u8]) -> usize {
    match bytes {
        [] => 0,
        [b'\'', ..] => character_length(bytes),
        [b':', b'=', ..] | [b'<', b'=' | b'>', ..] | [b'>', b'=', ..] | [b'.', b'.', ..] => 2,
        [b'(', b'.', ..] | [b'.', b')', ..] => 2,
        [byte, ..] if byte.is_ascii_alphanumeric() || *byte == b'_' => word_length(bytes),
        _ => 1,
    }
}

/// The place after the token at a place, which is the end of the text if none is there.
pub fn token_end(text: &[u8], at: usize) -> usize {
    let from = at.min(text.len());
    from.saturating_add(length(&text[from..]))
}
