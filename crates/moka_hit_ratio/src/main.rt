//! `moka-hit-ratio` plays traces through caches, and prints how often their keys were there.
#![tactic(auto)]

mod arguments;
mod bench;
mod chart;
mod escape;
mod fifo;
mod line;
mod optimum;
mod play;
mod ranks;
mod read_through;
mod row;
mod scale;
mod table;
mod tally;
mod trace;

use crate::arguments::{HELP, Request};
use crate::chart::draw_chart;
use crate::play::play;
use crate::row::Row;
use crate::table::print_table;
use anyhow::{Context, Result};
use std::alloc::Global;
use std::env;
use std::fs::File;
use std::io::{self, BufWriter, Write};
use std::rt::{Env, Files};

/// Prints a table for each trace that the arguments name, or draws a chart.
fn main(rt: HostRuntime) -> Result<()> {
    let arguments = arguments_of(&rt)?;
    let request = Request::read(rt.alloc(), &arguments)?;
    answer(&rt, &request)
}

/// Does what the arguments ask for.
fn answer<R: Files + Input + Print + Eprint + AllocGlobal>(
    rt: &R,
    request: &Request,
) -> Result<()> {
    if request.is_help {
        println!(rt; "{HELP}")?;
        return Ok(());
    }
    for name in &request.traces {
        let rows = play(rt, request, name)?;
        report(rt, request, name, &rows)?;
    }
    Ok(())
}

/// Prints a table of what the caches found in a trace, draws a chart of it into a file, or both.
fn report<R: Files + Print + AllocGlobal>(
    rt: &R,
    request: &Request,
    name: &str,
    rows: &[Row],
) -> Result<()> {
    let title = request.title.as_deref().unwrap_or(name);
    match request.svg.as_deref() {
        None => Ok(print_table(rt, name, rows)?),
        Some("-") => write_chart(rt.alloc(), io::writer(rt), title, rows),
        Some(path) => {
            print_table(rt, name, rows)?;
            write_file(rt, path, title, rows)
        }
    }
}

/// Draws a chart into a file.
fn write_file<R: Files + AllocGlobal>(rt: &R, path: &str, title: &str, rows: &[Row]) -> Result<()> {
    let file = File::create(rt, path).context(format_args!("creating {path}"))?;
    write_chart(rt.alloc(), file, title, rows)
}

/// Draws a chart through a buffer.
fn write_chart<W: Write + Drop>(alloc: Global, out: W, title: &str, rows: &[Row]) -> Result<()> {
    let mut out = BufWriter::new(alloc, out)?;
    draw_chart(&mut out, title, rows)?;
    out.flush()?;
    Ok(())
}

/// The arguments, the first of which is the program's name.
fn arguments_of<R: Env + AllocGlobal>(rt: &R) -> Result<Vec<String>> {
    Ok(env::args(rt)?.collect(rt.alloc())?)
}
