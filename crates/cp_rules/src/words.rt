//! Numbers of words, counted up to one above the limit, since larger ones make no difference.

ghost use Rattle.std.specs.Prelude.{◌≡◌, ◌+◌, ◌*◌};
ghost use Rattle.cp_model.specs.RulesTypes.{cap_words, is_within};

// The largest number of words that an owner or a type may have.
const MAX_WORDS: usize = 65_536;

/// Whether this number of words is within the limit.
pub fn is_within(words: usize) -> bool
    ensures { result ≡ is_within words }
{
    words <= MAX_WORDS
}

/// This number of words, or one above the limit if it is larger.
pub fn cap(words: usize) -> usize
    ensures { result ≡ cap_words words }
{
    words.min(MAX_WORDS + 1)
}

/// The sum of two numbers of words.
pub fn sum(a: usize, b: usize) -> usize
    ensures { result ≡ cap_words (a + b) }
{
    cap(cap(a) + cap(b))
}

/// The number of words of `count` items that take `words` words each.
pub fn product(count: usize, words: usize) -> usize
    ensures { result ≡ cap_words (count * words) }
{
    cap(cap(count) * cap(words))
}
