//! The streams of a replay, each seen by what it answers: a clause that names one of these relations speaks of a call
//! that was made, so a refusal is the stream's own.
use std::alloc::Global;
use std::fmt::Display;
use std::io::{self, Read, Write};

/// What a script is read from. Every reader is one.
pub trait Source {
    ghost use Rattle.std.specs.Prelude.{ℕ, Result};
    ghost use Rattle.std.specs.declared.alloc.Global.{Global};
    ghost use Rattle.std.specs.declared.io.Error.{Error};
    ghost use Rattle.std.specs.declared.vec.Vec.{Vec};

    /// A reading to the end may give this answer.
    ghost gives: { Self → Result (Vec ℕ Global) Error → Self → Type 0 };

    /// All that is left.
    fn read_all(&mut self, alloc: Global) -> io::Result<Vec<u8>>
        ensures { gives self.old result self.new };
}

impl<R: Read> Source for R {
    ghost use Rattle.std.specs.Prelude.{◌≡◌, IfOk, IfSome};

    ghost gives = { λ s answer _. IfOk answer (λ text. IfSome (R.remaining s) (λ bytes. text.items ≡ bytes)) };

    fn read_all(&mut self, alloc: Global) -> io::Result<Vec<u8>> {
        let mut text = Vec::new(alloc);
        self.read_to_end(&mut text)?;
        Ok(text)
    }
}

/// What lines are written to. Every writer is one.
pub trait Sink {
    ghost use Rattle.std.specs.Prelude.{ℕ, Bool, List, IfSome, is_ok};

    /// The line, without its line feed, may be taken or refused.
    ghost takes: { Self → List ℕ → Bool → Self → Type 0 };

    /// Writes a line, to its end.
    fn write_line<D: Display + Drop>(&mut self, line: D) -> io::Result<()>
        ensures { IfSome (D.output line) (λ bytes. takes self.old bytes (is_ok result) self.new) };
}

impl<W: Write> Sink for W {
    ghost use Rattle.std.specs.Prelude.{◌≡◌, ◌++◌, codes, true};
    ghost use Rattle.std.specs.Io.KnownBytes.{Appends};

    ghost takes = { λ before line taken after. taken ≡ true
        → Appends (W.contents before) (W.contents after) (line ++ codes "\n") };

    fn write_line<D: Display + Drop>(&mut self, line: D) -> io::Result<()> {
        writeln!(self, "{line}")?;
        self.flush()
    }
}
