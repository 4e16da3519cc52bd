//! The calls of a script.
ghost use Rattle.std.specs.Prelude.{◌≡◌, option_map};
ghost use Rattle.moka_script.specs.Lex.{texts};
ghost use Rattle.moka_script.specs.Calls.{call_of, call_text, other_call_of, key_and_moment, insert_of, send_of, get_of, peek_of, scan_of, contains_of, key_of, remove_at, remove_of, invall_of, invif_of, run_at, run_of, resize_of, due_of};

use crate::key_range::KeyRange;
use crate::lex::{alone, key_at, lone_number, number, number_or_none, small_number};
use crate::word::Word;
use moka_parts::calls::{Call, Reply, Ticket};
use moka_parts::policy::Instant;
use std::alloc::{AllocError, Global};
use std::time::Duration;

/// A call of a script.
pub type ScriptCall = Call<u32, Word, KeyRange>;

/// The reply to a call of a script.
pub type ScriptReply = Reply<u32, Word, KeyRange>;

/// A call as a line asks for it. The value of an insert still stands in the line, so reading needs no memory, and the
/// time limit of a run is a number.
#[derive(Drop)]
pub enum LineCall<'a> {
    Insert {
        key: u32,
        value: &'a str,
        now: Instant,
    },
    Run {
        now: Instant,
        /// In nanoseconds.
        limit: Option<u64>,
        batch: u32,
    },
    Other(ScriptCall),
}

impl LineCall<'_> {
    ghost use Rattle.std.specs.Prelude.{◌≡◌, IfOk};
    ghost use Rattle.moka_script.specs.Calls.{call_text, told_call};

    /// The call, with a copy of its value. The hash is the key, and a run may repeat four times.
    pub fn into_call(self, alloc: Global) -> Result<ScriptCall, AllocError>
        ensures { IfOk result (λ call. told_call call ≡ told_call (call_text self.entry)) }
    {
        match self {
            LineCall::Insert { key, value, now } => Ok(Call::Insert {
                key,
                hash: u64::from(key),
                value: Word::new(alloc, value)?,
                now,
            }),
            LineCall::Run { now, limit, batch } => Ok(Call::Run {
                now,
                limit: limit.map(Duration::from_nanos),
                repeats: 4,
                batch,
            }),
            LineCall::Other(call) => Ok(call),
        }
    }
}

/// `insert KEY VALUE NOW`
fn insert<'a>(arguments: &[&'a str]) -> Option<LineCall<'a>>
    ensures { option_map call_text result ≡ insert_of (texts arguments.now) }
{
    let [key, value, now] = arguments else {
        return None;
    };
    let (key, now) = key_at(key, now)?;
    Some(LineCall::Insert { key, value, now })
}

/// `KEY NOW`
fn key_and_moment(arguments: &[&str]) -> Option<(u32, Instant)>
    ensures { result ≡ key_and_moment (texts arguments.now) }
{
    match arguments {
        [key, now] => key_at(key, now),
        _ => None,
    }
}

/// `send TICKET`
fn send(arguments: &[&str]) -> Option<ScriptCall>
    ensures { result ≡ send_of (texts arguments.now) }
{
    let ticket = Ticket(lone_number(arguments)?);
    Some(Call::Send { ticket })
}

/// `get KEY NOW`
fn get(arguments: &[&str]) -> Option<ScriptCall>
    ensures { result ≡ get_of (texts arguments.now) }
{
    let (key, now) = key_and_moment(arguments)?;
    Some(Call::Get {
        key,
        hash: u64::from(key),
        need_key: false,
        now,
    })
}

/// `peek KEY NOW`
fn peek(arguments: &[&str]) -> Option<ScriptCall>
    ensures { result ≡ peek_of (texts arguments.now) }
{
    let (key, now) = key_and_moment(arguments)?;
    Some(Call::GetUnrecorded {
        key,
        hash: u64::from(key),
        now,
    })
}

/// `scan KEY NOW`
fn scan(arguments: &[&str]) -> Option<ScriptCall>
    ensures { result ≡ scan_of (texts arguments.now) }
{
    let (key, now) = key_and_moment(arguments)?;
    Some(Call::Scan { key, now })
}

/// `contains KEY NOW`
fn contains(arguments: &[&str]) -> Option<ScriptCall>
    ensures { result ≡ contains_of (texts arguments.now) }
{
    let (key, now) = key_and_moment(arguments)?;
    Some(Call::Contains {
        key,
        hash: u64::from(key),
        now,
    })
}

/// `key KEY`
fn key(arguments: &[&str]) -> Option<ScriptCall>
    ensures { result ≡ key_of (texts arguments.now) }
{
    let [key] = arguments else {
        return None;
    };
    let key = small_number(key)?;
    Some(Call::Key {
        key,
        hash: u64::from(key),
    })
}

/// `remove KEY`, of which nobody is told, or `remove KEY NOW`, which the listener is told of at that moment
fn remove(arguments: &[&str]) -> Option<ScriptCall>
    ensures { result ≡ remove_of (texts arguments.now) }
{
    match arguments {
        [key] => remove_at(key, None),
        [key, now] => remove_at(key, Some(Instant(number(now)?))),
        _ => None,
    }
}

/// A removal of the key that a word says, at a moment if the listener is told.
fn remove_at(key: &str, now: Option<Instant>) -> Option<ScriptCall>
    ensures { result ≡ remove_at key.now now }
{
    let key = small_number(key)?;
    Some(Call::Remove {
        key,
        hash: u64::from(key),
        now,
    })
}

/// `invall NOW`
fn invall(arguments: &[&str]) -> Option<ScriptCall>
    ensures { result ≡ invall_of (texts arguments.now) }
{
    let now = Instant(lone_number(arguments)?);
    Some(Call::InvalidateAll { now })
}

/// `invif LOW HIGH NOW`
fn invif(arguments: &[&str]) -> Option<ScriptCall>
    ensures { result ≡ invif_of (texts arguments.now) }
{
    let [low, high, now] = arguments else {
        return None;
    };
    let low = small_number(low)?;
    let (high, now) = key_at(high, now)?;
    let predicate = KeyRange { low, high };
    Some(Call::InvalidateIf { predicate, now })
}

/// `run NOW BATCH`, or `run NOW BATCH LIMIT`
fn run<'a>(arguments: &[&'a str]) -> Option<LineCall<'a>>
    ensures { option_map call_text result ≡ run_of (texts arguments.now) }
{
    match arguments {
        [now, batch] => run_at(now, batch, None),
        [now, batch, limit] => run_at(now, batch, Some(number(limit)?)),
        _ => None,
    }
}

/// A run of the moment and the batch that two words say, with that limit.
fn run_at<'a>(now: &str, batch: &str, limit: Option<u64>) -> Option<LineCall<'a>>
    ensures { option_map call_text result ≡ run_at now.now batch.now limit }
{
    let now = Instant(number(now)?);
    let batch = small_number(batch)?;
    Some(LineCall::Run { now, limit, batch })
}

/// `due NOW`
fn due(arguments: &[&str]) -> Option<ScriptCall>
    ensures { result ≡ due_of (texts arguments.now) }
{
    let now = Instant(lone_number(arguments)?);
    Some(Call::RunIfDue { now })
}

/// `resize N`, or `resize none` for no bound
fn resize(arguments: &[&str]) -> Option<ScriptCall>
    ensures { result ≡ resize_of (texts arguments.now) }
{
    let [capacity] = arguments else {
        return None;
    };
    let capacity = number_or_none(capacity)?;
    Some(Call::SetCapacity { capacity })
}

/// The call of that name, if there is one.
pub fn parse_call<'a>(name: &str, arguments: &[&'a str]) -> Option<LineCall<'a>>
    ensures { option_map call_text result ≡ call_of name.now (texts arguments.now) }
{
    match name {
        "insert" => insert(arguments),
        "run" => run(arguments),
        _ => Some(LineCall::Other(parse_other(name, arguments)?)),
    }
}

/// The call of that name, if there is one and its value does not stand in the line.
fn parse_other(name: &str, arguments: &[&str]) -> Option<ScriptCall>
    ensures { result ≡ other_call_of name.now (texts arguments.now) }
{
    match name {
        "send" => send(arguments),
        "get" => get(arguments),
        "peek" => peek(arguments),
        "scan" => scan(arguments),
        "contains" => contains(arguments),
        "key" => key(arguments),
        "remove" => remove(arguments),
        "invall" => invall(arguments),
        "invif" => invif(arguments),
        "resize" => resize(arguments),
        "due" => due(arguments),
        "keys" => alone(Call::Keys { segment: 0 }, arguments),
        "report" => alone(Call::Report, arguments),
        "pending" => alone(Call::Pending, arguments),
        _ => None,
    }
}
