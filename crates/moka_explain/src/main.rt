//! `moka-explain [file]` plays a script, and says beneath each reply why it is so.
#![tactic(auto)]

mod explain;
mod look;
mod text;

use crate::explain::explain_script;
use anyhow::{Result, anyhow, bail};
use moka_script::script::{Script, parse};
use moka_script::streams::Source;
use std::alloc::Global;
use std::env;
use std::fs::File;
use std::io::{BufWriter, Write};

/// Plays the script of the file that is named, or of standard input.
fn main(rt: HostRuntime) -> Result<()> {
    let alloc = rt.alloc();
    let arguments: Vec<String> = env::args(&rt)?.collect(alloc)?;
    let script = match arguments.as_slice() {
        [] | [_] => read_script(alloc, rt.stdin())?,
        [_, path] => read_script(alloc, File::open(&rt, path)?)?,
        _ => bail!("usage: moka-explain [file]"),
    };
    let mut out = BufWriter::new(alloc, rt.stdout())?;
    explain_script(alloc, script, &mut out)?;
    out.flush()?;
    Ok(())
}

/// Reads a script to its end.
fn read_script<R: Source + Drop>(alloc: Global, mut input: R) -> Result<Script> {
    let text = input.read_all(alloc)?;
    match parse(alloc, &text) {
        Ok(script) => Ok(script),
        Err(failure) => Err(anyhow!("{failure}")),
    }
}
