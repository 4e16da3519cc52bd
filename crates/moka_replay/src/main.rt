//! `moka-replay [file]` replays a script on the cache, from the file or from standard input.
#![tactic(auto)]

ghost use Rattle.moka_replay.specs.Replay.{IsReplayedBuffered};

mod arguments;
mod replay;

use crate::arguments::script_path;
use crate::replay::replay_opened;
use moka_script::failure::{Failure, tell};
use moka_script::streams::{Sink, Source};
use std::alloc::Global;
use std::env;
use std::fmt::Display;
use std::fs::File;
use std::io::{self, BufWriter, Write};
use std::process::ExitCode;
use std::rt::Env;

/// Ends with what `replay` answers as the status, with 2 if there are more arguments than one,
/// and with 3 if the file cannot be opened.
fn main(rt: HostRuntime) -> ExitCode {
    let mut err = rt.stderr();
    let status = match arguments_of(&rt) {
        Ok(arguments) => match script_path(&arguments) {
            Ok(None) => replay_buffered(rt.alloc(), Ok(rt.stdin()), rt.stdout(), &mut err),
            Ok(Some(path)) => {
                replay_buffered(rt.alloc(), File::open(&rt, path), rt.stdout(), &mut err)
            }
            Err(failure) => tell(&mut err, failure),
        },
        Err(failure) => tell(&mut err, failure),
    };
    ExitCode::from(status)
}

/// The arguments, the first of which is the program's name.
fn arguments_of<R: Env + AllocGlobal>(rt: &R) -> Result<Vec<String>, Failure> {
    Ok(env::args(rt)?.collect(rt.alloc())?)
}

/// A buffer in front of a writer, which is left empty by each line that is taken.
#[derive(Drop)]
struct Output<W: Write + Drop>(BufWriter<W>);

impl<W: Write + Drop> Sink for Output<W> {
    ghost use Rattle.std.specs.Prelude.{◌≡◌, ◌++◌, [], codes, true};
    ghost use Rattle.std.specs.Io.Buffered.{writer_buffer, writer_contents};
    ghost use Rattle.std.specs.Io.KnownBytes.{Appends};

    ghost takes = { λ before line taken after. taken ≡ true
        → Appends (writer_contents W.contents before.0) (writer_contents W.contents after.0) (line ++ codes "\n")
        × (writer_buffer after.0 ≡ []) };

    fn write_line<D: Display + Drop>(&mut self, line: D) -> io::Result<()> {
        writeln!(self.0, "{line}")?;
        self.0.flush()
    }
}

/// Replays a script over a buffer in front of a writer. If memory for the buffer is refused, one line says so.
fn replay_buffered<R: Source + Drop, W: Write + Drop, E: Sink>(
    alloc: Global,
    input: io::Result<R>,
    out: W,
    err: &mut E,
) -> u8
    ensures { IsReplayedBuffered R.gives ⟦<Output<W> as Sink>⟧.takes E.takes result input out err.old err.new }
{
    let Ok(buffer) = BufWriter::new(alloc, out) else {
        return tell(err, Failure::OutOfMemory);
    };
    let mut output = Output(buffer);
    let status = replay_opened(alloc, input, &mut output, err);
    // What a refused write left is let go, and not written after all.
    let (_out, _unwritten) = output.0.into_parts();
    status
}
