//! Scripts: settings, and then calls on the cache, one a line.
ghost use Rattle.std.specs.Prelude.{◌≡◌, ◌<◌, ◌^◌, length, option_map};
ghost use Rattle.moka_script.specs.Lex.{texts, words_of};
ghost use Rattle.moka_script.specs.Script.{line_text, asked_by, asked_by_few, asked_in, IsParseOf};

use crate::failure::Failure;
use crate::lex::{first_words, is_printable};
use crate::rules::Rule;
use calls::{LineCall, parse_call};
use clock::{Readings, is_clock};
use moka_parts::calls::Call;
use settings::{Setting, parse_rule, parse_setting};
use std::alloc::Global;

mod calls;
mod clock;
mod settings;

pub use calls::{ScriptCall, ScriptReply};
pub use settings::{KeeperTerms, Settings};

/// A script: what it sets, the rules of its expiry, and then its calls in order.
#[derive(Drop)]
pub struct Script {
    pub settings: Settings,
    pub rules: Vec<Rule>,
    /// What the clock tells, one reading after the other; empty if the script sets no clock.
    pub clock: Vec<u64>,
    pub calls: Vec<ScriptCall>,
}

impl Script {
    ghost use Rattle.std.specs.Prelude.{◌≡◌, Some, None, if◌then◌else◌};
    ghost use Rattle.moka_script.specs.Clock.{told_readings};
    ghost use Rattle.moka_script.specs.Script.{no_text, text_of, joined, IsAdded, IsJoined};
    ghost use Rattle.moka_script.specs.declared.script.Line.TheVariants as line;

    /// A script without a line.
    fn new(alloc: Global) -> Script
        ensures { text_of result ≡ no_text }
    {
        Script {
            settings: Settings::new(),
            rules: Vec::new(alloc),
            clock: Vec::new(alloc),
            calls: Vec::new(alloc),
        }
    }

    /// Reads the line of that number, and adds what it asks for.
    fn read(&mut self, alloc: Global, number: u64, line: &[u8]) -> Result<(), Failure>
        ensures { IsAdded number (text_of self.old) line.now result (text_of self.new) }
    {
        let fault = Failure::BadLine(number);
        let Some(asked) = parse_line(line) else {
            return Err(fault);
        };
        match self.add(alloc, asked) {
            Ok(true) => Ok(()),
            Ok(false) => Err(fault),
            Err(failure) => Err(failure),
        }
    }

    /// Adds what a line asks for. Whether it may stand there: settings, each at most once, rules and the clock come
    /// before the first call. Only a rule, a clock and a call need memory.
    fn add(&mut self, alloc: Global, asked: ReadLine<'_>) -> Result<bool, Failure>
        ensures { IsJoined (text_of self.old) (line_text asked.entry) result (text_of self.new) }
    {
        match asked {
            Line::Nothing => Ok(true),
            Line::Setting(setting) => Ok(self.set(setting)),
            Line::Rule(rule) => self.add_rule(rule),
            Line::Clock(readings) => self.set_clock(alloc, readings),
            Line::Call(call) => {
                self.calls.push(call.into_call(alloc)?)?;
                Ok(true)
            }
        }
    }

    /// Sets something. Whether the line may stand there.
    fn set(&mut self, asked: Setting) -> bool
        ensures { joined (text_of self.old) (line.Setting asked) ≡ (if result then Some (text_of self.new) else None) }
    {
        if !self.calls.is_empty() {
            return false;
        }
        match self.settings.with(asked) {
            Some(settings) => {
                self.settings = settings;
                true
            }
            None => false,
        }
    }

    /// Adds a rule. Whether the line may stand there.
    fn add_rule(&mut self, rule: Rule) -> Result<bool, Failure>
        ensures { IsJoined (text_of self.old) (line.Rule rule) result (text_of self.new) }
    {
        if !self.calls.is_empty() {
            return Ok(false);
        }
        self.rules.push(rule)?;
        Ok(true)
    }

    /// Sets the clock. Whether the line may stand there.
    fn set_clock(&mut self, alloc: Global, readings: Readings<'_>) -> Result<bool, Failure>
        ensures { IsJoined (text_of self.old) (line.Clock (told_readings readings.entry)) result (text_of self.new) }
    {
        if !self.calls.is_empty() || !self.clock.is_empty() {
            return Ok(false);
        }
        self.clock = readings.collect(alloc)?;
        Ok(true)
    }
}

/// What a line asks for: the readings of a clock as an `R`, and a call as a `C`.
#[derive(Drop)]
enum Line<R, C> {
    Nothing,
    Setting(Setting),
    Rule(Rule),
    Clock(R),
    Call(C),
}

/// A line whose words still stand in it, so that reading it needs no memory.
type ReadLine<'a> = Line<Readings<'a>, LineCall<'a>>;

/// What the words ask for, which set no clock.
fn parse_words<'a>(words: &[&'a str]) -> Option<ReadLine<'a>>
    ensures { option_map line_text result ≡ asked_by_few (texts words.now) }
{
    let Some((name, arguments)) = words.split_first() else {
        return Some(Line::Nothing);
    };
    if name.starts_with('#') {
        return Some(Line::Nothing);
    }
    if let Some(setting) = parse_setting(name, arguments) {
        return Some(Line::Setting(setting));
    }
    if let Some(rule) = parse_rule(name, arguments) {
        return Some(Line::Rule(rule));
    }
    Some(Line::Call(parse_call(name, arguments)?))
}

/// What a text asks for.
fn parse_text(text: &str) -> Option<ReadLine<'_>>
    ensures { option_map line_text result ≡ asked_by (words_of text.now) }
{
    let (words, count) = first_words(text);
    let words = &words[..count];
    if is_clock(words) {
        return Some(Line::Clock(Readings::new(text)?));
    }
    parse_words(words)
}

/// What a line asks for.
fn parse_line(line: &[u8]) -> Option<ReadLine<'_>>
    ensures { option_map line_text result ≡ asked_in line.now }
{
    if !is_printable(line) {
        return None;
    }
    let Ok(text) = str::from_utf8(line) else {
        return None;
    };
    parse_text(text)
}

/// Reads a script, shorter than 2^63 bytes as all that a `Vec` holds. The first faulty line is named.
///
/// # Errors
/// `BadLine` if a line is faulty, and `OutOfMemory` if memory is refused to a rule, a clock or a call in front of
/// the first such line.
pub fn parse(alloc: Global, text: &[u8]) -> Result<Script, Failure>
    requires { length text.now < 2 ^ 63 }
    ensures { IsParseOf text.now result }
{
    let mut script = Script::new(alloc);
    let mut number = 0;
    for line in text.split(|byte| *byte == b'\n') {
        number += 1;
        script.read(alloc, number, line)?;
    }
    Ok(script)
}
