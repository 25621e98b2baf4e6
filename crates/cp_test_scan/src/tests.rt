//! Texts with their tokens or their refusals, which were worked out by hand.

use cp_model::token::{Kind, Token};
use cp_scan::{MAX_SOURCE_BYTES, ScanError, scan};
use std::alloc::{AllocError, Global};
use std::test::Fail;

// The tokens as `KIND@FROM..TO` with a blank between them, or the refusal as `CAUSE at PLACE`.
fn show(alloc: Global, text: &[u8]) -> Result<String, AllocError> {
    match scan(alloc, text) {
        Ok(tokens) => show_tokens(alloc, &tokens),
        Err(ScanError::Refused { cause, at }) => format!(in alloc; "{cause:?} at {at}"),
        Err(ScanError::Memory) => Err(AllocError),
    }
}

fn show_tokens(alloc: Global, tokens: &[Token]) -> Result<String, AllocError> {
    let mut line = String::new(alloc);
    for token in tokens {
        if !line.is_empty() {
            line.push(' ')?;
        }
        let kind = shown_kind(alloc, token.kind())?;
        line.push_str(kind.as_str())?;
        let span = format!(in alloc; "@{}..{}", token.place(), token.end())?;
        line.push_str(span.as_str())?;
    }
    Ok(line)
}

fn shown_kind(alloc: Global, kind: &Kind) -> Result<String, AllocError> {
    match kind {
        Kind::Short(_) | Kind::Long(_) => {
            let mut letters = String::new(alloc);
            for letter in kind.letters() {
                letters.push(char::from(*letter))?;
            }
            Ok(letters)
        }
        Kind::Number(n) => format!(in alloc; "{n}"),
        Kind::Character(ordinal) => format!(in alloc; "'{ordinal}'"),
        Kind::Symbol(symbol) => format!(in alloc; "{symbol:?}"),
    }
}

#[test]
fn longest_marks(rt: HostRuntime) -> Result<(), Fail> {
    let rows = [
        ("a(.1.)", "a@0..1 OpenBracket@1..3 1@3..4 CloseBracket@4..6"),
        ("(..)", "OpenBracket@0..2 CloseBracket@2..4"),
        ("(..1", "OpenBracket@0..2 Dot@2..3 1@3..4"),
        ("1..2", "1@0..1 DotDot@1..3 2@3..4"),
        ("...", "DotDot@0..2 Dot@2..3"),
        ("..)", "DotDot@0..2 CloseParenthesis@2..3"),
        ("(.)", "OpenBracket@0..2 CloseParenthesis@2..3"),
        ("1.)", "1@0..1 CloseBracket@1..3"),
        (
            ":=:<><=<>=>=",
            "Assign@0..2 Colon@2..3 Unequal@3..5 AtMost@5..7 Unequal@7..9 Equal@9..10 AtLeast@10..12",
        ),
        (
            "< > ( . :",
            "Less@0..1 Greater@2..3 OpenParenthesis@4..5 Dot@6..7 Colon@8..9",
        ),
        ("+-*&", "Plus@0..1 Minus@1..2 Star@2..3 Ampersand@3..4"),
        (
            "[],;=)",
            "OpenBracket@0..1 CloseBracket@1..2 Comma@2..3 Semicolon@3..4 Equal@4..5 CloseParenthesis@5..6",
        ),
    ];
    for (text, want) in rows {
        assert_eq!(rt; show(rt.alloc(), text.as_bytes())?.as_str(), want, "{text}");
    }
    Ok(())
}

#[test]
fn character_constants(rt: HostRuntime) -> Result<(), Fail> {
    let rows = [
        ("'a'", "'97'@0..3"),
        ("'('", "'40'@0..3"),
        ("'\"'", "'34'@0..3"),
        ("'(:0:)'", "'0'@0..7"),
        ("'(:10:)'", "'10'@0..8"),
        ("'(:007:)'", "'7'@0..9"),
        ("'(:127:)'", "'127'@0..9"),
        ("'(:39:)'x", "'39'@0..8 x@8..9"),
        ("'(:0007:)'", "Character at 0"),
        ("'(:128:)'", "Character at 0"),
        ("'(::)'", "Character at 0"),
        ("'(:7)'", "Character at 0"),
        ("'(:7:'", "Character at 0"),
        ("'''", "Character at 0"),
        ("''", "Character at 0"),
        ("'", "Character at 0"),
        ("x'ab'", "Character at 1"),
        ("'\n'", "Character at 0"),
        ("'\x7f'", "Character at 0"),
    ];
    for (text, want) in rows {
        assert_eq!(rt; show(rt.alloc(), text.as_bytes())?.as_str(), want, "{text}");
    }
    Ok(())
}

#[test]
fn words_and_numbers(rt: HostRuntime) -> Result<(), Fail> {
    let rows = [
        (
            "BEGIN Abc_9 end.",
            "Begin@0..5 abc_9@6..11 End@12..15 Dot@15..16",
        ),
        ("beginx ends", "beginx@0..6 ends@7..11"),
        ("_x", "Byte at 0"),
        ("x_", "x_@0..2"),
        ("1a", "1@0..1 a@1..2"),
        ("32767", "32767@0..5"),
        ("32768", "Number at 0"),
        ("000032767", "32767@0..9"),
        ("000032768", "Number at 0"),
        ("begin display(32768) end.", "Number at 14"),
        ("begin display(-32768) end.", "Number at 15"),
        ("99999999999999999999999999999999999999999", "Number at 0"),
    ];
    for (text, want) in rows {
        assert_eq!(rt; show(rt.alloc(), text.as_bytes())?.as_str(), want, "{text}");
    }
    Ok(())
}

#[test]
fn comments_and_refusals(rt: HostRuntime) -> Result<(), Fail> {
    let rows = [
        ("", ""),
        (" \t\r\n", ""),
        ("\"\"", ""),
        ("a\"it's {1}\n_\"b", "a@0..1 b@13..14"),
        ("begin \"x", "Comment at 6"),
        ("begin \"x\" end. \" end. (* 'x' 99999 _", "Comment at 15"),
        ("\"", "Comment at 0"),
        ("begin !", "Byte at 6"),
        ("begin display('(:128:)') end.", "Character at 14"),
        ("! 99999 \"", "Byte at 0"),
        ("99999 ! \"", "Number at 0"),
    ];
    for (text, want) in rows {
        assert_eq!(rt; show(rt.alloc(), text.as_bytes())?.as_str(), want, "{text}");
    }
    Ok(())
}

#[test]
fn reserved_words(rt: HostRuntime) -> Result<(), Fail> {
    let words =
        "array begin case class const cycle div do downto else end entry for function if in init mod monitor not of or \
        procedure process program record repeat set then to type univ until var while with";
    let mut count = 0usize;
    for word in words.split_whitespace() {
        let tokens = show(rt.alloc(), word.as_bytes())?;
        let want = format!(in rt.alloc(); "{word}@0..{}", word.len())?;
        assert!(rt;
            tokens.as_str().eq_ignore_ascii_case(want.as_str()),
            "{word}"
        );
        assert!(rt; tokens.as_str() != want.as_str(), "{word} is a name");
        count = count.saturating_add(1);
    }
    assert_eq!(rt; count, 36);
    Ok(())
}

#[test]
fn bytes_that_begin_nothing(rt: HostRuntime) -> Result<(), Fail> {
    for b in [0u8, 11, 12, 127, 128, 255] {
        let outside = [b'a', b' ', b];
        assert_eq!(rt; show(rt.alloc(), &outside)?.as_str(), "Byte at 2", "{b}");
        let inside = [b'"', b, b'"', b'a'];
        assert_eq!(rt; show(rt.alloc(), &inside)?.as_str(), "a@3..4", "{b}");
    }
    Ok(())
}

// The text of `front`, `n` bytes `b`, and `end`.
fn pad(alloc: Global, front: &str, b: u8, n: usize, end: &str) -> Result<Vec<u8>, AllocError> {
    let mut text = Vec::from_slice(alloc, front.as_bytes())?;
    for _ in 0..n {
        text.push(b)?;
    }
    text.extend_from_slice(end.as_bytes())?;
    Ok(text)
}

#[test]
fn long_pieces(rt: HostRuntime) -> Result<(), Fail> {
    let alloc = rt.alloc();
    let longest = pad(alloc, "x", b'Y', 63, " z")?;
    assert_eq!(rt;
        show(alloc, &longest)?.as_str(),
        "xyyyyyyyyyyyyyyyyyyyyyyyyyyyyyyyyyyyyyyyyyyyyyyyyyyyyyyyyyyyyyyy@0..64 z@65..66"
    );
    let rows = [
        ("var ", b'a', 65, ": integer; begin end.", "Word at 4"),
        ("", b'a', 1_000_000, "", "Word at 0"),
        ("", b'0', 1_000_000, "7", "7@0..1000001"),
        ("-", b'9', 1_000_000, "", "Number at 1"),
        (
            "begin end.",
            b' ',
            1_048_566,
            "",
            "Begin@0..5 End@6..9 Dot@9..10",
        ),
        ("begin end.", b' ', 1_048_567, "", "Size at 1048576"),
        ("!", b'!', 1_048_576, "", "Size at 1048576"),
    ];
    for (front, b, n, end, want) in rows {
        let text = pad(alloc, front, b, n, end)?;
        assert_eq!(rt; show(alloc, &text)?.as_str(), want, "{front} {b} {n}");
    }
    Ok(())
}

#[test]
fn the_limit_counts_bytes(rt: HostRuntime) -> Result<(), Fail> {
    let text = pad(rt.alloc(), "", b';', MAX_SOURCE_BYTES, "")?;
    let Ok(tokens) = scan(rt.alloc(), &text) else {
        return Err("refused".into());
    };
    assert_eq!(rt; tokens.len(), 1_048_576);
    Ok(())
}
