//! The formats of traces, and which keys a line of each names.
ghost use Rattle.std.specs.Prelude.{◌≡◌, ◌+◌, ◌^◌, ◌≤◌, IfOk, OnErr};
ghost use Rattle.moka_hit_ratio.specs.Line.{number_in};

use std::fmt;
use std::ops::Range;

/// How the lines of a trace name keys. Blank lines name none.
#[derive(Clone, Copy)]
pub enum Format {
    /// One key a line.
    Keys,
    /// A time and a key a line. No cache here lets time pass, so the time is only checked to be a number.
    Timed,
    /// The first key and the count of keys that follow one another; further columns are passed over.
    Arc,
    /// One key a line, and lines of one `*` that name none.
    Lirs,
}

/// What is wrong with a line.
#[derive(Clone, Copy)]
pub enum BadLine {
    /// It is not UTF-8.
    NotText,
    /// It is longer than any line of a trace.
    TooLong,
    /// A key, a start or a count is missing, or is no whole number.
    NoNumber,
    /// A time is no number.
    NoTime,
    /// There is more on it than its format has.
    TooMuch,
    /// A key of it is above the largest.
    TooLarge,
}

impl fmt::Display for BadLine {
    fn fmt<W: fmt::Write>(&self, f: &mut fmt::Formatter<W>) -> fmt::Result {
        let text = match self {
            BadLine::NotText => "it is not UTF-8",
            BadLine::TooLong => "it is too long",
            BadLine::NoNumber => "a whole number below 2^64 is wanted",
            BadLine::NoTime => "a time is wanted",
            BadLine::TooMuch => "there is more on it than the format has",
            BadLine::TooLarge => "a key is above 2^64 - 2",
        };
        f.write_str(text)
    }
}

/// The keys that a line names, which follow one another.
///
/// # Errors
/// What is wrong with the line.
pub fn line_keys(format: Format, line: &[u8]) -> Result<Range<u64>, BadLine> {
    let Ok(text) = str::from_utf8(line) else {
        return Err(BadLine::NotText);
    };
    let mut words = text.split_ascii_whitespace();
    let Some(first) = words.next() else {
        return Ok(0..0);
    };
    let second = words.next();
    let has_third = words.next().is_some();
    match (format, second) {
        (Format::Arc, Some(second)) => arc_keys(first, second),
        (Format::Timed, Some(second)) if !has_third => timed_key(first, second),
        (Format::Arc | Format::Timed, None) => Err(BadLine::NoNumber),
        (Format::Lirs, None) if first == "*" => Ok(0..0),
        (Format::Keys | Format::Lirs, None) => one_key(first),
        (_, Some(_)) => Err(BadLine::TooMuch),
    }
}

/// The one key of a line.
fn one_key(key: &str) -> Result<Range<u64>, BadLine>
    ensures start { IfOk result (λ keys. keys.start ≡ number_in key.now) }
    ensures end { IfOk result (λ keys. keys.end ≡ number_in key.now + 1) }
{
    run(number(key)?, 1)
}

/// The key of a line with a time.
fn timed_key(time: &str, key: &str) -> Result<Range<u64>, BadLine>
    ensures start { IfOk result (λ keys. keys.start ≡ number_in key.now) }
    ensures end { IfOk result (λ keys. keys.end ≡ number_in key.now + 1) }
{
    if !is_time(time) {
        return Err(BadLine::NoTime);
    }
    one_key(key)
}

/// The keys of a line with a first key and a count.
fn arc_keys(first: &str, count: &str) -> Result<Range<u64>, BadLine>
    ensures start { IfOk result (λ keys. keys.start ≡ number_in first.now) }
    ensures end { IfOk result (λ keys. keys.end ≡ number_in first.now + number_in count.now) }
{
    run(number(first)?, number(count)?)
}

/// So many keys from a first one on.
///
/// # Errors
/// `BadLine::TooLarge` if the last one is above 2^64 - 2.
fn run(first: u64, count: u64) -> Result<Range<u64>, BadLine>
    ensures start { IfOk result (λ keys. keys.start ≡ first) }
    ensures end { IfOk result (λ keys. keys.end ≡ first + count) }
    ensures err { OnErr result (2 ^ 64 ≤ first + count) }
{
    match first.checked_add(count) {
        Some(end) => Ok(first..end),
        None => Err(BadLine::TooLarge),
    }
}

/// The number that a text says.
fn number(text: &str) -> Result<u64, BadLine>
    ensures { IfOk result (λ n. n ≡ number_in text.now) }
{
    match text.parse::<u64>() {
        Ok(number) => Ok(number),
        Err(_) => Err(BadLine::NoNumber),
    }
}

/// Whether a text is a number of seconds or of some other unit, with or without a fraction.
fn is_time(text: &str) -> bool {
    let (whole, fraction) = text.split_once('.').unwrap_or((text, "0"));
    is_digits(whole) && is_digits(fraction)
}

/// Whether a text is digits alone.
fn is_digits(text: &str) -> bool {
    !text.is_empty() && text.bytes().all(|byte| byte.is_ascii_digit())
}
