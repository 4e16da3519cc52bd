//! Traces played through the caches.
use crate::arguments::{Origin, Request, named_trace};
use crate::bench::Bench;
use crate::line::{BadLine, Format, line_keys};
use crate::row::Row;
use crate::trace::Trace;
use anyhow::{Context, Result, bail};
use std::fs::File;
use std::io::{BufRead, BufReader, Read};
use std::ops::Range;
use std::rt::Files;

/// After so many accesses each a line on standard error says how many there were.
const PROGRESS: u64 = 10_000_000;

/// A line of a trace has fewer bytes.
const LONGEST_LINE: usize = 4096;

/// A trace under way.
#[derive(Drop)]
struct Session {
    bench: Bench,
    /// How many accesses are played at most.
    most: u64,
}

impl Session {
    /// Whether no more accesses are asked for.
    fn is_done(&self) -> bool {
        self.bench.reads() >= self.most
    }

    /// Reads a key through the caches, and tells of progress.
    fn read(&mut self, rt: &impl Eprint, name: &str, key: u64) -> Result<()> {
        self.bench.read(key)?;
        let reads = self.bench.reads();
        if reads % PROGRESS == 0 {
            eprintln!(rt; "{name}: {reads} accesses")?;
        }
        Ok(())
    }

    /// Plays a trace.
    fn play<R: Files + Input + Eprint + AllocGlobal>(
        &mut self,
        rt: &R,
        name: &str,
        origin: Origin<'_>,
    ) -> Result<()> {
        match origin {
            Origin::Made(shape, keys) => self.play_made(rt, name, Trace::new(shape, keys)),
            Origin::Read(format, "-") => self.play_lines(rt, name, format, rt.reader()),
            Origin::Read(format, path) => self.play_lines(rt, name, format, open(rt, path)?),
        }
    }

    /// What the caches found, if accesses were counted behind those that fill them.
    fn rows(&self, name: &str, warm: u64) -> Result<Vec<Row>> {
        let reads = self.bench.reads();
        if reads <= warm {
            bail!("{name}: none of {reads} accesses is counted");
        }
        self.bench.rows()
    }

    /// Plays a trace that is made.
    fn play_made(&mut self, rt: &impl Eprint, name: &str, mut trace: Trace) -> Result<()> {
        for _ in 0..self.most {
            self.read(rt, name, trace.next_key())?;
        }
        Ok(())
    }

    /// Plays the lines of a trace, to the end or as far as they are asked for.
    fn play_lines<R: Read + Drop>(
        &mut self,
        rt: &(impl Eprint + AllocGlobal),
        name: &str,
        format: Format,
        source: R,
    ) -> Result<()> {
        let mut source = BufReader::new(rt.alloc(), source)?;
        let mut line = Vec::new(rt.alloc());
        self.play_lines_of(rt, name, format, &mut source, &mut line)
    }

    /// Plays lines, each by way of a buffer.
    fn play_lines_of<S: BufRead>(
        &mut self,
        rt: &impl Eprint,
        name: &str,
        format: Format,
        source: &mut S,
        line: &mut Vec<u8>,
    ) -> Result<()> {
        for number in 1..u64::MAX {
            if self.is_done() || !read_line(name, number, source, line)? {
                break;
            }
            let keys = keys_of(name, number, format, line)?;
            self.play_keys(rt, name, keys)?;
        }
        Ok(())
    }

    /// Plays keys that follow one another, as far as they are asked for.
    fn play_keys(&mut self, rt: &impl Eprint, name: &str, keys: Range<u64>) -> Result<()> {
        for key in keys {
            if self.is_done() {
                break;
            }
            self.read(rt, name, key)?;
        }
        Ok(())
    }
}

/// Reads the line of that number into a buffer, or as many bytes of it as a line may have. Whether there was one.
fn read_line<S: BufRead>(
    name: &str,
    number: u64,
    source: &mut S,
    line: &mut Vec<u8>,
) -> Result<bool> {
    line.clear();
    let size = source
        .take(LONGEST_LINE as u64)
        .read_until(b'\n', line)
        .context(format_args!("{name}: line {number}"))?;
    Ok(size > 0)
}

/// The keys that the line of that number names.
fn keys_of(name: &str, number: u64, format: Format, line: &[u8]) -> Result<Range<u64>> {
    match whole_line_keys(format, line) {
        Ok(keys) => Ok(keys),
        Err(bad) => bail!("{name}: line {number}: {bad}"),
    }
}

/// The keys that a line names, if it was read whole.
fn whole_line_keys(format: Format, line: &[u8]) -> Result<Range<u64>, BadLine> {
    if line.len() >= LONGEST_LINE {
        return Err(BadLine::TooLong);
    }
    line_keys(format, line)
}

/// Opens the file of a trace.
fn open<R: Files>(rt: &R, path: &str) -> Result<R::File> {
    File::open(rt, path).context(format_args!("opening {path}"))
}

/// What caches of the asked capacities find in a trace.
///
/// # Errors
/// What cannot be read, by the number of its line; what memory was refused for; that no access was counted.
pub fn play<R: Files + Input + Eprint + AllocGlobal>(
    rt: &R,
    request: &Request,
    name: &str,
) -> Result<Vec<Row>> {
    let origin = named_trace(name)?;
    let bench = Bench::new(
        rt.alloc(),
        &request.capacities,
        request.warm,
        request.has_optimum,
    )?;
    let mut session = Session {
        bench,
        most: request.most_accesses(origin),
    };
    session.play(rt, name, origin)?;
    session.rows(name, request.warm)
}
