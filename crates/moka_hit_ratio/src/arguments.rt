//! The arguments of the program.
use crate::line::Format;
use crate::trace::Shape;
use anyhow::{Context, Result, bail};
use std::alloc::Global;

/// What `--help` prints.
pub const HELP: &str = "\
usage: moka-hit-ratio [OPTION..] CAPACITY,.. TRACE..

Plays each trace through caches of each capacity, in entries, and prints how often an access found its key: in this
engine under TinyLFU and under LRU, in plain FIFO, and with --optimum in a cache that knows the accesses to come.

A trace is made, or read from a FILE, where - is standard input:
  zipf:HUNDREDTHS:KEYS  by a Zipf law of exponent 0.01 to 0.99, in hundredths
  loop:KEYS             all keys in turn, again and again
  scan:KEYS             by a Zipf law of exponent 0.9, with a scan of new keys after each three times as many accesses
  moving:KEYS           a working set that moves on by one key with each eight accesses
  keys:FILE             one key a line
  timed:FILE            a time and a key a line
  arc:FILE              the first key and the count of keys that follow one another; further columns are passed over
  lirs:FILE             one key a line, and lines of one *, which are passed over

Options:
  --warm N       the first N accesses of a trace fill the caches and are not counted (0)
  --accesses N   no more than N accesses are counted (1000000 of a made trace, all of one that is read)
  --optimum      also the optimum, which keeps the whole trace in memory
  --svg FILE     also draws a chart of the one trace into a file; - draws it on standard output, without the table
  --title TEXT   the title of the chart (the name of the trace)
  --help         prints this";

/// How many accesses of a made trace are counted if the arguments do not say.
const MADE_ACCESSES: u64 = 1_000_000;

/// What the arguments ask for.
pub struct Request {
    pub capacities: Vec<u64>,
    /// How many accesses fill the caches first.
    pub warm: u64,
    /// How many are counted then; `None` if the arguments do not say.
    pub accesses: Option<u64>,
    pub has_optimum: bool,
    /// The file that a chart is drawn into.
    pub svg: Option<String>,
    /// The title of the chart.
    pub title: Option<String>,
    /// The names of the traces.
    pub traces: Vec<String>,
    pub is_help: bool,
}

// Written out so that an owner's drop is one call.
impl Drop for Request {
    fn drop(self) {
        let Request {
            capacities: _,
            warm: _,
            accesses: _,
            has_optimum: _,
            svg: _,
            title: _,
            traces: _,
            is_help: _,
        } = self;
    }
}

/// What a word of the arguments is.
#[derive(Clone, Copy)]
enum Place {
    /// An option, the capacities or a trace.
    Any,
    /// The number behind `--warm`.
    Warm,
    /// The number behind `--accesses`.
    Accesses,
    /// The file behind `--svg`.
    Svg,
    /// The text behind `--title`.
    Title,
}

/// Where the keys of a trace come from.
#[derive(Clone, Copy)]
pub enum Origin<'a> {
    /// It is made, over so many keys.
    Made(Shape, u32),
    /// It is read from a file.
    Read(Format, &'a str),
}

impl Request {
    /// What the arguments ask for, the first of which is the program's name.
    ///
    /// # Errors
    /// What cannot be read.
    pub fn read(alloc: Global, arguments: &[String]) -> Result<Self> {
        let mut request = Request {
            capacities: Vec::new(alloc),
            warm: 0,
            accesses: None,
            has_optimum: false,
            svg: None,
            title: None,
            traces: Vec::new(alloc),
            is_help: false,
        };
        let mut place = Place::Any;
        for word in arguments.iter().skip(1) {
            place = request.take(alloc, place, word)?;
        }
        if request.is_help {
            return Ok(request);
        }
        if !matches!(place, Place::Any) {
            bail!("the last option is without its value");
        }
        request.check()?;
        Ok(request)
    }

    /// Takes a word. What the next one is.
    fn take(&mut self, alloc: Global, place: Place, word: &str) -> Result<Place> {
        match place {
            Place::Warm => self.warm = number(word)?,
            Place::Accesses => self.accesses = Some(number(word)?),
            Place::Svg => self.svg = Some(String::from_str(alloc, word)?),
            Place::Title => self.title = Some(String::from_str(alloc, word)?),
            Place::Any => return self.take_any(alloc, word),
        }
        Ok(Place::Any)
    }

    /// Takes an option, the capacities or a trace.
    fn take_any(&mut self, alloc: Global, word: &str) -> Result<Place> {
        match word {
            "--warm" => return Ok(Place::Warm),
            "--accesses" => return Ok(Place::Accesses),
            "--svg" => return Ok(Place::Svg),
            "--title" => return Ok(Place::Title),
            "--optimum" => self.has_optimum = true,
            "--help" => self.is_help = true,
            _ => self.take_name(alloc, word)?,
        }
        Ok(Place::Any)
    }

    /// Takes the capacities, or a trace behind them.
    fn take_name(&mut self, alloc: Global, word: &str) -> Result<()> {
        if word.starts_with("--") {
            bail!("there is no option {word:?}; --help shows all");
        }
        if self.capacities.is_empty() {
            return push_numbers(&mut self.capacities, word);
        }
        self.traces.push(String::from_str(alloc, word)?)?;
        Ok(())
    }

    /// Checks what the words say together, and brings the capacities into order.
    fn check(&mut self) -> Result<()> {
        if self.traces.is_empty() {
            bail!("capacities and a trace are wanted; --help shows how");
        }
        if self.svg.is_some() && self.traces.len() > 1 {
            bail!("a chart shows one trace");
        }
        self.capacities.sort()?;
        Ok(())
    }

    /// How many accesses are played at most.
    pub fn most_accesses(&self, origin: Origin<'_>) -> u64 {
        let counted = match (self.accesses, origin) {
            (Some(counted), _) => counted,
            (None, Origin::Made(..)) => MADE_ACCESSES,
            (None, Origin::Read(..)) => u64::MAX,
        };
        self.warm.saturating_add(counted)
    }
}

/// Where the keys of a trace come from, by its name, as `loop:5000`, `zipf:90:5000` or `arc:FILE`.
///
/// # Errors
/// What cannot be read.
pub fn named_trace(name: &str) -> Result<Origin<'_>> {
    let Some((kind, rest)) = name.split_once(':') else {
        return no_trace(name);
    };
    match kind {
        "loop" => made(Shape::Loop, rest),
        "scan" => made(Shape::Scan, rest),
        "moving" => made(Shape::Moving, rest),
        "zipf" => zipf(rest),
        "keys" => Ok(Origin::Read(Format::Keys, rest)),
        "timed" => Ok(Origin::Read(Format::Timed, rest)),
        "arc" => Ok(Origin::Read(Format::Arc, rest)),
        "lirs" => Ok(Origin::Read(Format::Lirs, rest)),
        _ => no_trace(name),
    }
}

/// Refuses a name.
fn no_trace(name: &str) -> Result<Origin<'_>> {
    bail!("no trace has the name {name:?}; --help shows all")
}

/// The exponent and the number of keys of a Zipf law.
fn zipf(text: &str) -> Result<Origin<'_>> {
    let Some((exponent, keys)) = text.split_once(':') else {
        bail!("a trace by a Zipf law is named zipf:HUNDREDTHS:KEYS");
    };
    let hundredths = small_number(exponent)?;
    if hundredths == 0 || hundredths >= 100 {
        bail!("an exponent is from 1 to 99 hundredths");
    }
    made(Shape::Zipf(hundredths), keys)
}

/// A made trace, and over how many keys, at least one.
fn made(shape: Shape, keys: &str) -> Result<Origin<'_>> {
    let count = small_number(keys)?;
    if count == 0 {
        bail!("a number of keys is above 0");
    }
    Ok(Origin::Made(shape, count))
}

/// A number of 32 bits.
fn small_number(text: &str) -> Result<u32> {
    text.parse::<u32>()
        .context(format_args!("reading {text:?}"))
}

/// A number.
fn number(text: &str) -> Result<u64> {
    text.parse::<u64>()
        .context(format_args!("reading {text:?}"))
}

/// Adds numbers with commas between them.
fn push_numbers(all: &mut Vec<u64>, text: &str) -> Result<()> {
    for word in text.split(',') {
        all.push(number(word)?)?;
    }
    Ok(())
}
