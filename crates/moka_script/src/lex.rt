//! The words and the numbers of a line.
ghost use Rattle.std.specs.Prelude.{◌≡◌, ◌≤◌, ◌==◌, length, not, take};
ghost use Rattle.std.specs.List.{list_all};
ghost use Rattle.std.specs.Char.{is_ascii_digit};
ghost use Rattle.moka_script.specs.Lex.{texts, alone, key_at, lone_number, words_of, number_of, number_or_none, is_numeral, is_printable};

use moka_parts::policy::Instant;

/// A number has at most twenty digits.
const MAX_DIGITS: usize = 20;

/// One word more than the longest line with a meaning has.
pub const MAX_WORDS: usize = 6;

/// Tells whether each byte may stand in a line.
pub fn is_printable(line: &[u8]) -> bool
    ensures { result ≡ list_all is_printable line.now }
{
    line.iter().all(|byte| matches!(byte, b' '..=b'~'))
}

/// Tells whether each byte is a digit.
fn has_only_digits(word: &str) -> bool
    ensures { result ≡ list_all is_ascii_digit word.now }
{
    word.bytes().all(|byte| byte.is_ascii_digit())
}

/// Tells whether a word is one to twenty digits.
fn is_numeral(word: &str) -> bool
    ensures { result ≡ is_numeral word.now }
{
    !word.is_empty() && word.len() <= MAX_DIGITS && has_only_digits(word)
}

/// The number that a word says, if it fits in 64 bits.
pub fn number(word: &str) -> Option<u64>
    ensures { result ≡ number_of 64 word.now }
{
    if is_numeral(word) {
        word.parse().ok()
    } else {
        None
    }
}

/// The number that a word says, if it fits in 32 bits.
pub fn small_number(word: &str) -> Option<u32>
    ensures { result ≡ number_of 32 word.now }
{
    if is_numeral(word) {
        word.parse().ok()
    } else {
        None
    }
}

/// The number that a word says, if it fits in 64 bits, or none if the word is `none`.
pub fn number_or_none(word: &str) -> Option<Option<u64>>
    ensures { result ≡ number_or_none word.now }
{
    match word {
        "none" => Some(None),
        _ => Some(Some(number(word)?)),
    }
}

/// The key and the moment that two words say.
pub fn key_at(key: &str, now: &str) -> Option<(u32, Instant)>
    ensures { result ≡ key_at key.now now.now }
{
    let key = small_number(key)?;
    let now = Instant(number(now)?);
    Some((key, now))
}

/// Tells whether something stands between two spaces.
pub fn is_word(word: &&str) -> bool
    ensures { result ≡ not (length word.now.now == 0) }
{
    !word.is_empty()
}

/// What stands between the spaces of a text: its first words, and how many of these there are.
pub fn first_words(text: &str) -> ([&str; MAX_WORDS], usize)
    ensures words { texts (take result.1 result.0) ≡ take MAX_WORDS (words_of text.now) }
    ensures fits { result.1 ≤ MAX_WORDS }
{
    let mut words = [""; MAX_WORDS];
    let mut count = 0;
    let all = text.split(' ').filter(is_word);
    for word in all.take(MAX_WORDS) {
        words[count] = word;
        count += 1;
    }
    (words, count)
}

/// What a line asks for whose first word stands alone.
pub fn alone<T: Drop>(asked: T, arguments: &[&str]) -> Option<T>
    ensures { result ≡ alone asked (texts arguments.now) }
{
    if arguments.is_empty() {
        Some(asked)
    } else {
        None
    }
}

/// The number of a line that asks for one alone.
pub fn lone_number(arguments: &[&str]) -> Option<u64>
    ensures { result ≡ lone_number (texts arguments.now) }
{
    match arguments {
        [word] => number(word),
        _ => None,
    }
}
