//! The letters of short names, which are within a name or a token.

ghost use Rattle.std.specs.Prelude.{◌≡◌, ◌≤◌, length, map, take};
ghost use Rattle.cp_model.specs.Characters.{lower};
ghost use Rattle.cp_model.specs.declared.short.TheConstants.{MAX_SHORT_BYTES};

/// The most letters of a short name. With so many, a kind of token takes 16 bytes.
pub const MAX_SHORT_BYTES: usize = 14;

/// How many letters at the front of a text are read at once: two machine words, in bytes.
pub const FRONT: usize = 16;

/// The letters of a short name.
#[derive(Clone, Copy)]
pub struct ShortWord {
    length: u8,
    letters: [u8; MAX_SHORT_BYTES],
    ghost fits: { length ≤ MAX_SHORT_BYTES },
}

impl ShortWord {
    pub(crate) fn in_lower_case(word: &[u8]) -> ShortWord
        requires { length word.now ≤ MAX_SHORT_BYTES }
        ensures { take result.length result.letters ≡ map lower word.now }
    {
        let mut letters = [0; MAX_SHORT_BYTES];
        for i in 0..word.len() {
            letters[i] = word[i].to_ascii_lowercase();
        }
        ShortWord {
            length: word.len() as u8,
            letters,
        }
    }

    /// The short name that is the first `length` of these letters.
    #[inline(always)]
    pub fn of_front(front: &[u8; FRONT], length: usize) -> ShortWord
        requires { length ≤ MAX_SHORT_BYTES }
        ensures { take result.length result.letters ≡ take length front.now }
    {
        let mut letters = [0; MAX_SHORT_BYTES];
        for i in 0..MAX_SHORT_BYTES {
            letters[i] = front[i];
        }
        ShortWord {
            length: length as u8,
            letters,
        }
    }

    pub(crate) fn as_bytes(&self) -> &[u8]
        ensures { result.now ≡ take self.now.length self.now.letters }
    {
        &self.letters[..usize::from(self.length)]
    }
}
