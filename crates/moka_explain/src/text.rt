//! The lines beneath a reply.
ghost use Rattle.std.specs.Prelude.{◌≡◌, IfOk};
ghost use Rattle.std.specs.Fmt.{WritesOnOk};
ghost use Rattle.std.specs.Io.KnownBytes.{Appends};
ghost use Rattle.std.specs.List.{zip, list_any};
ghost use Rattle.moka_explain.specs.Text.{answer_text, applied_in, applied_text, became_text, behind_text, departure_text, explained_text, fate_line, fate_lines, has_any_gone, hidden_text, is_above, is_absent, is_any, is_applied, is_hit, is_stayed, leaving_of, met_text, reads_queued_by, reason_text, stay_text};

use crate::explain::{Answer, Explained, Fates, Queued};
use crate::look::Look;
use anyhow::Result;
use moka_engine::base_cache::Sight;
use moka_parts::calls::Reply;
use moka_parts::policy::{EvictionPolicy, Instant};
use moka_script::print::ReplyText;
use moka_script::script::ScriptReply;
use std::fmt;
use std::io::Write;

/// Prints a reply, and beneath it, indented, what explains it, of a cache with this policy.
pub fn write_explained<W: Write>(
    out: &mut W,
    explained: &Explained,
    policy: EvictionPolicy,
) -> Result<()>
    ensures { IfOk result (λ _. Appends (W.contents out.old) (W.contents out.new)
        (explained_text explained.now policy)) }
{
    write!(out, "{}", ExplainedText { explained, policy })?;
    Ok(())
}

/// A reply, and beneath it, indented, what explains it, of a cache with this policy.
#[derive(Clone, Copy)]
struct ExplainedText<'a> {
    explained: &'a Explained,
    policy: EvictionPolicy,
}

impl fmt::Display for ExplainedText<'_> {
    ghost use Rattle.std.specs.Prelude.{Some};
    ghost use Rattle.moka_explain.specs.Text.{explained_text};

    ghost output = { λ text. Some (explained_text text.explained.now text.policy) };

    fn fmt<W: fmt::Write>(&self, f: &mut fmt::Formatter<W>) -> fmt::Result {
        let Explained { reply, answer } = self.explained;
        writeln!(f, "{}", ReplyText(reply))?;
        write_answer(f, reply, answer, self.policy)
    }
}

/// Says what explains a reply.
fn write_answer<W: fmt::Write>(
    f: &mut fmt::Formatter<W>,
    reply: &ScriptReply,
    answer: &Answer,
    policy: EvictionPolicy,
) -> fmt::Result
    ensures { WritesOnOk W.write_str_gives f.old result (answer_text reply.now answer.now policy) f.new }
{
    match answer {
        Answer::Met(look) => write_met(f, look),
        Answer::Became(fates) => write_became(f, fates, policy, applied_in(fates, 0), None),
        Answer::MetAndBecame(look, fates) => {
            write_met(f, look)?;
            let applied = applied_in(fates, reads_queued_by(reply));
            write_behind(f, look, fates, policy, applied)
        }
        Answer::Nothing => Ok(()),
    }
}

/// Says what a call applied that looked a key up first, and what became of each key, if it applied or removed anything.
fn write_behind<W: fmt::Write>(
    f: &mut fmt::Formatter<W>,
    look: &Look,
    fates: &Fates,
    policy: EvictionPolicy,
    applied: Queued,
) -> fmt::Result
    ensures { WritesOnOk W.write_str_gives f.old result
        (behind_text look.now fates.entry.now policy applied) f.new }
{
    if applied.is_any() || has_any_gone(&fates.after) {
        return write_became(f, fates, policy, applied, Some(look.key));
    }
    Ok(())
}

/// Says what a call applied, and what became of each key, of which a look-up may have hit one.
fn write_became<W: fmt::Write>(
    f: &mut fmt::Formatter<W>,
    fates: &Fates,
    policy: EvictionPolicy,
    applied: Queued,
    hit: Option<u32>,
) -> fmt::Result
    ensures { WritesOnOk W.write_str_gives f.old result
        (became_text fates.entry.now policy applied hit) f.new }
{
    write_applied(f, fates.now, applied)?;
    write_fates(
        f,
        &fates.before,
        &fates.after,
        leaving_of(fates, policy),
        hit,
    )
}

impl Queued {
    /// Whether there are any.
    fn is_any(self) -> bool
        ensures { result ≡ is_any self }
    {
        self.writes > 0 || self.reads > 0
    }
}

/// How many reads a get that was replied to so has queued, behind the run that it made, if any. A disabled cache, which
/// keeps nothing, queues none.
fn reads_queued_by(reply: &ScriptReply) -> usize
    ensures { result ≡ reads_queued_by reply.now }
{
    match reply {
        Reply::Get(Ok(_)) => 1,
        _ => 0,
    }
}

/// How many operations were applied in a call that then queued so many reads.
fn applied_in(fates: &Fates, queued_reads: usize) -> Queued
    ensures { result ≡ applied_in fates.entry.now queued_reads }
{
    let (before, after) = (fates.queued_before, fates.queued_after);
    let reads_after = after.reads.saturating_sub(queued_reads);
    Queued {
        writes: before.writes.saturating_sub(after.writes),
        reads: before.reads.saturating_sub(reads_after),
    }
}

/// Whether the key has no record.
fn is_absent(look: &Look) -> bool
    ensures { result ≡ is_absent look.now }
{
    matches!(look.sight, Sight::Absent)
}

/// Whether a key has no record any more.
fn has_any_gone(after: &[Look]) -> bool
    ensures { result ≡ has_any_gone after.now }
{
    after.iter().any(is_absent)
}

/// Says what the look-up met.
fn write_met<W: fmt::Write>(f: &mut fmt::Formatter<W>, look: &Look) -> fmt::Result
    ensures { WritesOnOk W.write_str_gives f.old result (met_text look.now) f.new }
{
    writeln!(f, "  {}: {}", look.key, SightText(look.sight))
}

/// Says at which moment the call was made, and how many operations it applied, if any.
fn write_applied<W: fmt::Write>(
    f: &mut fmt::Formatter<W>,
    now: Instant,
    applied: Queued,
) -> fmt::Result
    ensures { WritesOnOk W.write_str_gives f.old result (applied_text now applied) f.new }
{
    let now = now.0;
    if applied.is_any() {
        let Queued { writes, reads } = applied;
        writeln!(
            f,
            "  at {now}: writes applied {writes}, reads applied {reads}"
        )
    } else {
        writeln!(f, "  at {now}: nothing applied")
    }
}

/// What tells why an entry left that had to make room, of a cache with this policy.
fn leaving_of(fates: &Fates, policy: EvictionPolicy) -> Leaving
    ensures { result ≡ leaving_of fates.entry.now policy }
{
    // Of several writes one that came late may move an entry behind those that are let in.
    let has_older = applied_in(fates, 0).writes == 1 && has_any_stayed(&fates.before, &fates.after);
    Leaving {
        capacity: fates.capacity,
        policy,
        has_older,
    }
}

/// Whether a key stays whose last write had been applied before the call.
fn has_any_stayed(before: &[Look], after: &[Look]) -> bool
    ensures { result ≡ list_any is_stayed (zip before.now after.now) }
{
    before.iter().zip(after.iter()).any(|(before, after)| is_applied(before.applied)
        && !is_absent(after))
}

/// Whether a last write is known to be applied.
fn is_applied(applied: Option<bool>) -> bool
    ensures { result ≡ is_applied applied }
{
    matches!(applied, Some(true))
}

/// Says what became of each key, of which a look-up may have hit one.
fn write_fates<W: fmt::Write>(
    f: &mut fmt::Formatter<W>,
    before: &[Look],
    after: &[Look],
    leaving: Leaving,
    hit: Option<u32>,
) -> fmt::Result
    ensures { WritesOnOk W.write_str_gives f.old result
        (fate_lines leaving hit (zip before.now after.now)) f.new }
{
    for (before, after) in before.iter().zip(after.iter()) {
        write_fate(f, before, after, leaving, hit)?;
    }
    Ok(())
}

/// Says what became of a key, of which a look-up may have hit one.
fn write_fate<W: fmt::Write>(
    f: &mut fmt::Formatter<W>,
    before: &Look,
    after: &Look,
    leaving: Leaving,
    hit: Option<u32>,
) -> fmt::Result
    ensures { WritesOnOk W.write_str_gives f.old result
        (fate_line leaving hit (before.now, after.now)) f.new }
{
    let fate = FateText {
        before: *before,
        after: *after,
        is_hit: is_hit(hit, before.key),
        leaving,
    };
    writeln!(f, "  {}: {fate}", before.key)
}

/// Whether the key is the one that a look-up may have hit.
fn is_hit(hit: Option<u32>, key: u32) -> bool
    ensures { result ≡ is_hit hit key }
{
    match hit {
        Some(hit) => hit == key,
        None => false,
    }
}

/// What a look-up meets, in words.
#[derive(Clone, Copy)]
struct SightText(Sight);

impl fmt::Display for SightText {
    ghost use Rattle.std.specs.Prelude.{Some};
    ghost use Rattle.moka_explain.specs.Text.{sight_text};

    ghost output = { λ text. Some (sight_text text.0) };

    fn fmt<W: fmt::Write>(&self, f: &mut fmt::Formatter<W>) -> fmt::Result {
        match self.0 {
            Sight::Absent => f.write_str("no entry"),
            Sight::Expired => f.write_str("expired by its own expiry"),
            Sight::PastTimeToLive => f.write_str("past its time to live"),
            Sight::PastTimeToIdle => f.write_str("past its time to idle"),
            Sight::Invalidated => f.write_str("from before the invalidation of all"),
            Sight::Covered(id) => write!(f, "covered by the predicate {id}"),
            Sight::Visible => f.write_str("visible"),
        }
    }
}

/// What became of a key in a call, in words.
#[derive(Clone, Copy)]
struct FateText {
    before: Look,
    after: Look,
    /// Whether the call looked the key up first, which may have changed its expiry and its moment of reading.
    is_hit: bool,
    leaving: Leaving,
}

/// What tells why an entry left to make room whose last write had not been applied before.
#[derive(Clone, Copy)]
struct Leaving {
    capacity: Option<u64>,
    policy: EvictionPolicy,
    /// Whether an entry stays that a run would have evicted before any that it let in.
    has_older: bool,
}

impl Leaving {
    /// Why one of this weight left, in words.
    fn reason(self, weight: Option<u32>) -> &'static str
        ensures { result.now ≡ reason_text self weight }
    {
        if is_above(weight, self.capacity) {
            return "heavier than the capacity";
        }
        match self.policy {
            EvictionPolicy::Lru => "let in, and evicted to make room",
            EvictionPolicy::TinyLfu if self.has_older => "not admitted by TinyLFU",
            EvictionPolicy::TinyLfu => "not admitted by TinyLFU, or let in and evicted",
        }
    }
}

/// Whether a weight is greater than a bound, if there is one.
fn is_above(weight: Option<u32>, bound: Option<u64>) -> bool
    ensures { result ≡ is_above weight bound }
{
    match (weight, bound) {
        (Some(weight), Some(bound)) => u64::from(weight) > bound,
        _ => false,
    }
}

impl FateText {
    /// Why a key that was visible has no record any more, in words.
    fn departure(self) -> &'static str
        ensures { result.now ≡ departure_text self }
    {
        if self.is_hit {
            return "removed, to make room, or expired or invalidated through the hit";
        }
        // Nothing has to make room, so the run saw what the call's own moment does not show.
        if self.leaving.capacity.is_none() {
            return "removed, expired or invalidated at the moment of the run";
        }
        match self.before.applied {
            Some(true) => "evicted, to make room",
            _ => self.leaving.reason(self.before.weight),
        }
    }

    /// That a key is visible as before, in words.
    fn stay(self) -> &'static str
        ensures { result.now ≡ stay_text self }
    {
        match self.after.applied {
            Some(true) => "kept",
            _ => "kept, its last write is not applied",
        }
    }

    /// That a key is hidden as before, in words.
    fn hidden(self) -> &'static str
        ensures { result.now ≡ hidden_text self }
    {
        match self.after.applied {
            Some(true) => "still in the map",
            _ => "still in the map until its last write is applied",
        }
    }
}

impl fmt::Display for FateText {
    ghost use Rattle.std.specs.Prelude.{Some};
    ghost use Rattle.moka_explain.specs.Text.{fate_text};

    ghost output = { λ text. Some (fate_text text) };

    fn fmt<W: fmt::Write>(&self, f: &mut fmt::Formatter<W>) -> fmt::Result {
        let (before, after) = (self.before.sight, self.after.sight);
        match (before, after) {
            (Sight::Visible, Sight::Absent) => f.write_str(self.departure()),
            (_, Sight::Absent) => write!(f, "removed, {}", SightText(before)),
            (Sight::Visible, Sight::Visible) => f.write_str(self.stay()),
            (_, Sight::Visible) => f.write_str("visible again"),
            (Sight::Visible, _) => write!(f, "hidden now, {}", SightText(after)),
            _ => write!(f, "{}, {}", self.hidden(), SightText(after)),
        }
    }
}
