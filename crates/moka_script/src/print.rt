//! What a replay prints.
ghost use Rattle.std.specs.Prelude.{◌≡◌};
ghost use Rattle.moka_script.specs.Text.{insert_error_text, send_error_text, predicate_error_text, plain_text, is_refused_memory, value_text, key_text, keys_text, key_list_text, removal_text, report_text, pending_text, reply_lines, IsInOrder, AreInOrder};
ghost use Rattle.moka_script.specs.Notices.{notice_lines};
ghost use Rattle.std.specs.Fmt.{WritesOnOk};

use crate::notices::{Notice, NoticeText};
use crate::script::ScriptReply;
use crate::word::Word;
use moka_parts::calls::{KvEntry, Reply, Ticket};
use moka_parts::error::{InsertError, OutOfMemory, PredicateError, SendError};
use std::fmt;

/// A reply as it is printed, without its line feed.
#[derive(Clone, Copy)]
pub struct ReplyText<'a>(pub &'a ScriptReply);

impl fmt::Display for ReplyText<'_> {
    ghost use Rattle.std.specs.Prelude.{Some};
    ghost use Rattle.moka_script.specs.Text.{reply_text};

    ghost output = { λ text. Some (reply_text text.0.now) };

    fn fmt<W: fmt::Write>(&self, f: &mut fmt::Formatter<W>) -> fmt::Result {
        match self.0 {
            Reply::Insert(Ok((ticket, _))) => write!(f, "ticket {}", ticket.0),
            Reply::Get(Ok(Some(entry))) => write!(f, "value {}", entry.value),
            Reply::GetUnrecorded(found) => write_value(f, found),
            Reply::Key(found) => write_key(f, found),
            Reply::Scan(found) => write_value(f, found),
            Reply::Remove { removed, told } => write_removal(f, removed, told),
            Reply::InvalidateIf(Ok(id)) => write!(f, "predicate {id}"),
            Reply::Keys(keys) => write_keys(f, keys),
            Reply::Report {
                count,
                weight,
                predicates,
            } => write_report(f, *count, *weight, *predicates),
            Reply::Pending {
                handed,
                oldest,
                writes,
                reads,
            } => write_pending(f, *handed, *oldest, *writes, *reads),
            plain => f.write_str(plain_text(plain)),
        }
    }
}

/// The text of a reply that tells no number, no key and no value, and an empty one of any other.
fn plain_text(reply: &ScriptReply) -> &'static str
    ensures { result.now ≡ plain_text reply.now }
{
    match reply {
        Reply::Insert(Err(refused)) => insert_error_text(refused.error),
        Reply::Disabled { .. } => "disabled",
        Reply::Send(Ok(())) => "sent",
        Reply::Send(Err(error)) => send_error_text(*error),
        Reply::Get(Ok(None)) => "none",
        Reply::Get(Err(_)) => "refused memory",
        Reply::Contains(true) => "yes",
        Reply::Contains(false) => "no",
        Reply::InvalidateIf(Err(refused)) => predicate_error_text(refused.error),
        Reply::Run(true) => "more",
        Reply::Run(false) => "done",
        Reply::InvalidateAll | Reply::RunIfDue | Reply::DisableAutoRun => "ok",
        Reply::SetCapacity(Ok(())) => "ok",
        Reply::SetCapacity(Err(_)) => "refused zero",
        _ => "",
    }
}

fn write_value<W: fmt::Write>(
    f: &mut fmt::Formatter<W>,
    found: &Result<Option<Word>, OutOfMemory>,
) -> fmt::Result
    ensures { WritesOnOk W.write_str_gives f.old result (value_text found.now) f.new }
{
    match found {
        Ok(Some(value)) => write!(f, "value {value}"),
        Ok(None) => f.write_str("none"),
        Err(_) => f.write_str("refused memory"),
    }
}

fn write_key<W: fmt::Write>(
    f: &mut fmt::Formatter<W>,
    found: &Result<Option<u32>, OutOfMemory>,
) -> fmt::Result
    ensures { WritesOnOk W.write_str_gives f.old result (key_text found.now) f.new }
{
    match found {
        Ok(Some(key)) => write!(f, "key {key}"),
        Ok(None) => f.write_str("none"),
        Err(_) => f.write_str("refused memory"),
    }
}

fn write_keys<W: fmt::Write>(
    f: &mut fmt::Formatter<W>,
    keys: &Result<Option<Vec<u32>>, OutOfMemory>,
) -> fmt::Result
    ensures { WritesOnOk W.write_str_gives f.old result (keys_text keys.now) f.new }
{
    match keys {
        Ok(Some(keys)) => {
            f.write_str("keys")?;
            write_key_list(f, keys)
        }
        Ok(None) => f.write_str("none"),
        Err(_) => f.write_str("refused memory"),
    }
}

/// Writes the keys in their order, one space before each.
fn write_key_list<W: fmt::Write>(f: &mut fmt::Formatter<W>, keys: &[u32]) -> fmt::Result
    ensures { WritesOnOk W.write_str_gives f.old result (key_list_text keys.now) f.new }
{
    for key in keys {
        write!(f, " {key}")?;
    }
    Ok(())
}

fn write_removal<W: fmt::Write>(
    f: &mut fmt::Formatter<W>,
    removed: &Option<(KvEntry<u32, Word>, Ticket)>,
    told: &Option<Result<(), OutOfMemory>>,
) -> fmt::Result
    ensures { WritesOnOk W.write_str_gives f.old result (removal_text removed.now told.now) f.new }
{
    match (removed, told) {
        (Some((entry, ticket)), Some(Err(_))) => {
            write!(
                f,
                "removed {} ticket {}\nrefused memory",
                entry.value, ticket.0
            )
        }
        (Some((entry, ticket)), _) => write!(f, "removed {} ticket {}", entry.value, ticket.0),
        (None, _) => f.write_str("none"),
    }
}

fn write_report<W: fmt::Write>(
    f: &mut fmt::Formatter<W>,
    count: u64,
    weight: u64,
    predicates: u64,
) -> fmt::Result
    ensures { WritesOnOk W.write_str_gives f.old result (report_text count weight predicates) f.new }
{
    let total = Total { count, weight };
    write!(f, "{total} predicates {predicates}")
}

fn write_pending<W: fmt::Write>(
    f: &mut fmt::Formatter<W>,
    handed: u64,
    oldest: Option<Ticket>,
    writes: usize,
    reads: usize,
) -> fmt::Result
    ensures { WritesOnOk W.write_str_gives f.old result (pending_text handed oldest writes reads) f.new }
{
    match oldest {
        Some(ticket) => write!(
            f,
            "handed {handed} oldest {} writes {writes} reads {reads}",
            ticket.0
        ),
        None => write!(
            f,
            "handed {handed} oldest none writes {writes} reads {reads}"
        ),
    }
}

/// How many entries there are, and their weight.
#[derive(Clone, Copy)]
pub struct Total {
    pub count: u64,
    pub weight: u64,
}

impl fmt::Display for Total {
    ghost use Rattle.std.specs.Prelude.{Some};
    ghost use Rattle.moka_script.specs.Text.{total_text};

    ghost output = { λ total. Some (total_text total) };

    fn fmt<W: fmt::Write>(&self, f: &mut fmt::Formatter<W>) -> fmt::Result {
        write!(f, "count {} weight {}", self.count, self.weight)
    }
}

/// All that a replay prints, without the last line feed: a line for each reply, one for each notice, and then the
/// total.
#[derive(Clone, Copy)]
pub struct ReplayText<'a> {
    pub replies: &'a [ScriptReply],
    pub notices: &'a [Notice],
    pub total: Total,
}

impl fmt::Display for ReplayText<'_> {
    ghost use Rattle.std.specs.Prelude.{Some};
    ghost use Rattle.moka_script.specs.Text.{replay_text};

    ghost output = { λ text. Some (replay_text text.replies.now text.notices.now text.total) };

    fn fmt<W: fmt::Write>(&self, f: &mut fmt::Formatter<W>) -> fmt::Result {
        write_replies(f, self.replies)?;
        write_notices(f, self.notices)?;
        write!(f, "{}", self.total)
    }
}

/// Writes a line for each reply.
fn write_replies<W: fmt::Write>(f: &mut fmt::Formatter<W>, replies: &[ScriptReply]) -> fmt::Result
    ensures { WritesOnOk W.write_str_gives f.old result (reply_lines replies.now) f.new }
{
    for reply in replies {
        writeln!(f, "{}", ReplyText(reply))?;
    }
    Ok(())
}

/// Writes a line for each notice.
fn write_notices<W: fmt::Write>(f: &mut fmt::Formatter<W>, notices: &[Notice]) -> fmt::Result
    ensures { WritesOnOk W.write_str_gives f.old result (notice_lines notices.now) f.new }
{
    for notice in notices {
        writeln!(f, "{}", NoticeText(notice))?;
    }
    Ok(())
}

/// Tells whether a reply was refused for memory.
pub fn is_refused_memory(reply: &ScriptReply) -> bool
    ensures { result ≡ is_refused_memory reply.now }
{
    match reply {
        Reply::Insert(Err(refused)) => refused.error == InsertError::OutOfMemory,
        Reply::InvalidateIf(Err(refused)) => refused.error == PredicateError::OutOfMemory,
        Reply::Get(Err(_)) => true,
        Reply::GetUnrecorded(Err(_)) => true,
        Reply::Key(Err(_)) => true,
        Reply::Scan(Err(_)) => true,
        Reply::Keys(Err(_)) => true,
        Reply::Remove {
            told: Some(Err(_)),
            ..
        } => true,
        _ => false,
    }
}

/// The replies, with the keys of each, if it has any, in rising order.
pub fn in_order(mut replies: Vec<ScriptReply>) -> Vec<ScriptReply>
    ensures { AreInOrder replies.items result.items }
{
    for reply in replies.iter_mut() {
        sort_keys_of(reply);
    }
    replies
}

/// Puts the keys of a reply, if it has any, in rising order.
pub fn sort_keys_of(reply: &mut ScriptReply)
    ensures { IsInOrder reply.old reply.new }
{
    if let Reply::Keys(Ok(Some(keys))) = reply {
        keys.sort_unstable();
    }
}

fn insert_error_text(error: InsertError) -> &'static str
    ensures { result.now ≡ insert_error_text error }
{
    match error {
        InsertError::OutOfMemory => "refused memory",
        InsertError::NumbersUsedUp => "refused numbers",
    }
}

fn send_error_text(error: SendError) -> &'static str
    ensures { result.now ≡ send_error_text error }
{
    match error {
        SendError::UnknownTicket => "unknown",
        SendError::QueueFull => "full",
    }
}

fn predicate_error_text(error: PredicateError) -> &'static str
    ensures { result.now ≡ predicate_error_text error }
{
    match error {
        PredicateError::InvalidationClosuresDisabled => "closures disabled",
        PredicateError::NoFreeId => "no free id",
        PredicateError::OutOfMemory => "refused memory",
    }
}
