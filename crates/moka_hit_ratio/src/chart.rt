//! What the caches found, as a line chart in SVG, in light and in dark.
ghost use Rattle.std.specs.Prelude.{◌≡◌, ◌≤◌, ◌+◌, ◌-◌, ◌*◌, ◌/◌, max, min};

use crate::escape::Escaped;
use crate::row::{POLICIES, Policy, Row};
use crate::scale::{Grouped, MAX_TICKS, axis_end, place, tick_step};
use crate::tally::WHOLE;
use std::io::{self, Write};

/// The colours, by class. A viewer that knows whether its reader wants light or dark takes its own.
const STYLE: &str = "\
<style>
text { font-family: system-ui, 'Segoe UI', Helvetica, Arial, sans-serif; font-size: 140px; fill: #1f2328 }
.title { font-size: 190px; font-weight: 600 }
.paper { fill: #ffffff }
.grid { stroke: #d8dee4; stroke-width: 10 }
.axis { stroke: #59636e; stroke-width: 12 }
.dot { fill: currentColor }
.line { fill: none; stroke: currentColor; stroke-width: 26; stroke-linejoin: round; stroke-linecap: round }
.optimum { color: #59636e; stroke-dasharray: 70 60 }
.tiny-lfu { color: #0969da }
.lru { color: #bc4c00 }
.fifo { color: #8250df }
@media (prefers-color-scheme: dark) {
text { fill: #e6edf3 }
.paper { fill: #0d1117 }
.grid { stroke: #30363d }
.axis { stroke: #8b949e }
.optimum { color: #9da7b1 }
.tiny-lfu { color: #58a6ff }
.lru { color: #f0883e }
.fifo { color: #bc8cff }
}
</style>";

// The picture is drawn in tenths of a pixel. The plot's corner above and to the left, and its size:
const LEFT: u64 = 800;

const TOP: u64 = 1150;

const WIDTH: u64 = 6400;

const HEIGHT: u64 = 3000;

/// How far the entries of the legend are from one another.
const LEGEND_STEP: u64 = 1400;

/// Ticks of the hit ratio are so far apart: a tenth of the whole.
const RATIO_STEP: u64 = WHOLE / 10;

/// What lies where on a chart.
#[derive(Clone, Copy)]
struct Scales {
    /// The capacity at the right end.
    capacity: u64,
    /// How far ticks of capacities are apart.
    step: u64,
    /// The ratio at the top, in ten-thousandths.
    ratio: u64,
}

impl Scales {
    /// Scales on which all rows have room.
    fn new(rows: &[Row]) -> Self {
        let mut capacity = 0;
        let mut ratio = 0;
        for row in rows {
            capacity = row.capacity.max(capacity);
            ratio = highest(row).max(ratio);
        }
        let step = tick_step(capacity);
        Scales {
            capacity: axis_end(capacity, step),
            step,
            ratio: axis_end(ratio, RATIO_STEP),
        }
    }

    /// How far from the left a capacity lies.
    fn across(self, capacity: u64) -> u64
        ensures share { result ≡ LEFT + min (capacity * WIDTH / max self.capacity 1) WIDTH }
        ensures within { result ≤ LEFT + WIDTH }
    {
        LEFT + place(capacity, self.capacity, WIDTH)
    }

    /// How far from above a ratio lies.
    fn down(self, ratio: u64) -> u64
        ensures share { result ≡ TOP + HEIGHT - min (ratio * HEIGHT / max self.ratio 1) HEIGHT }
        ensures within { result ≤ TOP + HEIGHT }
    {
        TOP + HEIGHT - place(ratio, self.ratio, HEIGHT)
    }

    /// Where the ratio of a row lies, if its policy was played.
    fn point(self, row: &Row, policy: Policy) -> Option<(u64, u64)> {
        let ratio = row.ratio(policy)?;
        Some((self.across(row.capacity), self.down(ratio.0)))
    }
}

/// The highest ratio of a row, in ten-thousandths.
fn highest(row: &Row) -> u64 {
    let mut highest = 0;
    for policy in POLICIES {
        if let Some(ratio) = row.ratio(policy) {
            highest = ratio.0.max(highest);
        }
    }
    highest
}

/// Draws lines across at ratios, with their percentages.
fn draw_ratios<W: Write>(out: &mut W, scales: Scales) -> io::Result<()> {
    let right = LEFT + WIDTH;
    for tick in 0..=WHOLE / RATIO_STEP {
        let ratio = tick * RATIO_STEP;
        if ratio <= scales.ratio {
            let y = scales.down(ratio);
            let percent = tick * 10;
            let class = if tick == 0 { "axis" } else { "grid" };
            let (x, below) = (LEFT - 90, y + 50);
            writeln!(
                out,
                "<line class='{class}' x1='{LEFT}' y1='{y}' x2='{right}' y2='{y}'/>\n\
                <text x='{x}' y='{below}' text-anchor='end'>{percent}%</text>"
            )?;
        }
    }
    writeln!(out, "<text x='{LEFT}' y='1000'>hit ratio</text>")
}

/// Draws ticks at capacities, with their numbers.
fn draw_capacities<W: Write>(out: &mut W, scales: Scales) -> io::Result<()> {
    let (top, bottom) = (TOP + HEIGHT, TOP + HEIGHT + 70);
    for tick in 0..=MAX_TICKS + 1 {
        let Some(capacity) = scales.step.checked_mul(tick) else {
            break;
        };
        if capacity <= scales.capacity {
            let x = scales.across(capacity);
            let (number, below) = (Grouped(capacity), bottom + 160);
            writeln!(
                out,
                "<line class='axis' x1='{x}' y1='{top}' x2='{x}' y2='{bottom}'/>\n\
                <text x='{x}' y='{below}' text-anchor='middle'>{number}</text>"
            )?;
        }
    }
    let (middle, y) = (LEFT + WIDTH / 2, TOP + HEIGHT + 520);
    writeln!(
        out,
        "<text x='{middle}' y='{y}' text-anchor='middle'>capacity in entries</text>"
    )
}

/// Draws the line of each policy that was played, and its entry of the legend.
fn draw_lines<W: Write>(out: &mut W, scales: Scales, rows: &[Row]) -> io::Result<()> {
    let Some(first) = rows.first() else {
        return Ok(());
    };
    let mut x = LEFT;
    for policy in POLICIES {
        if first.ratio(policy).is_some() {
            draw_line(out, scales, rows, policy)?;
            draw_dots(out, scales, rows, policy)?;
            draw_entry(out, x, policy)?;
            x = x.saturating_add(LEGEND_STEP);
        }
    }
    Ok(())
}

/// Draws the line of a policy.
fn draw_line<W: Write>(
    out: &mut W,
    scales: Scales,
    rows: &[Row],
    policy: Policy,
) -> io::Result<()> {
    let class = class_of(policy);
    write!(out, "<polyline class='line {class}' points='")?;
    for row in rows {
        if let Some((x, y)) = scales.point(row, policy) {
            write!(out, " {x},{y}")?;
        }
    }
    writeln!(out, "'/>")
}

/// Draws a dot at each ratio of a policy.
fn draw_dots<W: Write>(
    out: &mut W,
    scales: Scales,
    rows: &[Row],
    policy: Policy,
) -> io::Result<()> {
    let class = class_of(policy);
    for row in rows {
        if let Some((x, y)) = scales.point(row, policy) {
            writeln!(
                out,
                "<circle class='dot {class}' cx='{x}' cy='{y}' r='38'/>"
            )?;
        }
    }
    Ok(())
}

/// Draws an entry of the legend, so far from the left.
fn draw_entry<W: Write>(out: &mut W, x: u64, policy: Policy) -> io::Result<()> {
    let class = class_of(policy);
    let name = policy.name();
    let (end, text) = (x.saturating_add(350), x.saturating_add(430));
    let middle = x.saturating_add(175);
    writeln!(
        out,
        "<polyline class='line {class}' points='{x},660 {end},660'/>\n\
        <circle class='dot {class}' cx='{middle}' cy='660' r='38'/>\n\
        <text x='{text}' y='710'>{name}</text>"
    )
}

/// The class of a policy's line.
fn class_of(policy: Policy) -> &'static str {
    match policy {
        Policy::Optimum => "optimum",
        Policy::TinyLfu => "tiny-lfu",
        Policy::Lru => "lru",
        Policy::Fifo => "fifo",
    }
}

/// Draws a chart of the hit ratios by capacity, under a title.
///
/// # Errors
/// A write that was refused.
pub fn draw_chart<W: Write>(out: &mut W, title: &str, rows: &[Row]) -> io::Result<()> {
    let scales = Scales::new(rows);
    draw_head(out, title)?;
    draw_ratios(out, scales)?;
    draw_capacities(out, scales)?;
    draw_lines(out, scales, rows)?;
    writeln!(out, "</svg>")
}

/// Draws the paper with its title.
fn draw_head<W: Write>(out: &mut W, title: &str) -> io::Result<()> {
    let title = Escaped(title);
    writeln!(
        out,
        "<svg xmlns='http://www.w3.org/2000/svg' viewBox='0 0 7600 4800' width='760' height='480' role='img'>\n\
        <title>{title}</title>\n\
        {STYLE}\n\
        <rect class='paper' width='7600' height='4800'/>\n\
        <text class='title' x='{LEFT}' y='380'>{title}</text>"
    )
}
