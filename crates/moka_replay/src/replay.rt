//! Reads a script, makes its calls on a cache, and prints what comes of it.
ghost use Rattle.std.specs.Prelude.{◌≡◌, option_copied};
ghost use Rattle.moka_script.specs.Failure.{IsWritten};
ghost use Rattle.moka_script.specs.Notices.{told_of};
ghost use Rattle.moka_replay.specs.Replay.{Reading, Answers, Ends, IsReplayed, IsPlayed, IsScriptRead, played_text, status_of_replies};

use moka_play::play::{Played, play};
use moka_script::failure::{Failure, REFUSED, REPLAYED, tell, write_with_status};
use moka_script::notices::{Notice, Notices};
use moka_script::print::{ReplayText, Total, in_order, is_refused_memory};
use moka_script::script::{Script, ScriptReply, parse};
use moka_script::streams::{Sink, Source};
use std::alloc::Global;
use std::io;

/// Replays the script that a reader gives: prints a line for each reply, and then the count and
/// the weight. If it stops, one line says why, and nothing is printed.
///
/// The answer is the status to end with: 0, 2 if the script is faulty, and 3 if memory, a
/// read or a write was refused, also to a single reply.
pub fn replay<R: Source, W: Sink, E: Sink>(
    alloc: Global,
    input: &mut R,
    out: &mut W,
    err: &mut E,
) -> u8
    ensures { IsReplayed R.gives W.takes E.takes result input.old out.old err.old input.new out.new err.new }
{
    match play_script(alloc, input) {
        Ok(played) => print(out, &played),
        Err(failure) => tell(err, failure),
    }
}

/// Replays the script of an input that was to be opened. If it could not be, one line says so.
pub fn replay_opened<R: Source + Drop, W: Sink, E: Sink>(
    alloc: Global,
    input: io::Result<R>,
    out: &mut W,
    err: &mut E,
) -> u8
    ensures { (read : Reading) × Answers R.gives input read
        × Ends W.takes E.takes read result out.old err.old out.new err.new }
{
    match input {
        Ok(mut input) => replay(alloc, &mut input, out, err),
        Err(error) => tell(err, Failure::from(error)),
    }
}

/// Makes the calls of the script that a reader gives, and puts the keys of each reply in order.
fn play_script<R: Source>(alloc: Global, input: &mut R) -> Result<Played, Failure>
    ensures { (read : Reading) × R.gives input.old read input.new × IsPlayed read result }
{
    let script = read_script(alloc, input)?;
    let Played { replies, cache } = play(alloc, script)?;
    let replies = in_order(replies);
    Ok(Played { replies, cache })
}

/// Prints what came of the calls, and answers the status.
fn print<W: Sink>(out: &mut W, played: &Played) -> u8
    ensures { IsWritten W.takes (played_text played.now)
        (status_of_replies played.now.replies.items) result out.old out.new }
{
    let cache = &played.cache;
    let text = ReplayText {
        replies: &played.replies,
        notices: told(cache.listener()),
        total: Total {
            count: cache.entry_count(),
            weight: cache.weighted_size(),
        },
    };
    write_with_status(out, text, status_of(&played.replies))
}

/// What a listener was told, if one is set.
fn told(listener: Option<&Notices>) -> &[Notice]
    ensures { result.now ≡ told_of (option_copied listener.entry) }
{
    match listener {
        Some(notices) => notices.as_slice(),
        None => &[],
    }
}

/// The status of a replay with these replies.
fn status_of(replies: &[ScriptReply]) -> u8
    ensures { result ≡ status_of_replies replies.now }
{
    if replies.iter().any(is_refused_memory) {
        REFUSED
    } else {
        REPLAYED
    }
}

/// Reads a script to its end.
fn read_script<R: Source>(alloc: Global, input: &mut R) -> Result<Script, Failure>
    ensures { (read : Reading) × R.gives input.old read input.new × IsScriptRead read result }
{
    let text = input.read_all(alloc)?;
    Ok(parse(alloc, &text)?)
}
