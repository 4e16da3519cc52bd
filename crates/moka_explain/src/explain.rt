//! Makes the calls of a script one after the other, and finds out what each met and what came of it.
ghost use Rattle.std.specs.Prelude.{◌≡◌, ℕ, List, [], ◌∷◌, map, IfOk, IsPermutation};
ghost use Rattle.std.specs.Io.KnownBytes.{Appends};
ghost use Rattle.std.specs.FinMap.{values};
ghost use Rattle.std.specs.List.Sorted.{IsNonDecreasing};
ghost use Rattle.moka_types.specs.declared.calls.Reply.{Reply};
ghost use Rattle.moka_parts.specs.Drives.{Drives};
ghost use Rattle.moka_script.specs.declared.key_range.KeyRange.{KeyRange};
ghost use Rattle.moka_script.specs.Text.{IsInOrder};
ghost use Rattle.moka_play.specs.Played.{chosen_policy, script_meaning};
ghost use Rattle.moka_explain.specs.declared.explain.Explained.{Explained};
ghost use Rattle.moka_explain.specs.Explained.{point_of, question_of, queued_in, AreExplained, AreFates, IsAnswer, IsMadeRoomFor, IsScriptExplained};
ghost use Rattle.moka_explain.specs.Text.{explained_texts};

use crate::look::{Look, look_at, look_at_all};
use crate::text::write_explained;
use anyhow::Result;
use moka_drive::drive;
use moka_parts::calls::Call;
use moka_parts::error::OutOfMemory;
use moka_parts::policy::{EvictionPolicy, Instant};
use moka_play::play::{ScriptCache, listener_for, new_cache};
use moka_script::print::sort_keys_of;
use moka_script::script::{Script, ScriptCall, ScriptReply};
use moka_script::sources::{CountedIds, ListedClock};
use std::alloc::Global;
use std::io::Write;

/// What the calls of a script take from outside the cache.
#[derive(Drop)]
pub struct Surroundings {
    /// Where memory comes from.
    pub alloc: Global,
    /// Gives the predicates their identifiers.
    pub ids: CountedIds,
    /// Tells the moments that a run asks for.
    pub clock: ListedClock,
}

/// What is worth asking about a call.
#[derive(Clone, Copy)]
pub enum Question {
    /// What the look-up of a key meets at a moment.
    Key { key: u32, now: Instant },
    /// What becomes of all keys, seen at a moment.
    All { now: Instant },
    /// Both, of a look-up that may make a run.
    Both { key: u32, now: Instant },
    /// Its reply says all.
    Nothing,
}

/// How many writes and reads are queued.
#[derive(Clone, Copy)]
pub struct Queued {
    pub writes: usize,
    pub reads: usize,
}

/// The keys of all records before a call, seen at this moment, and the same keys after it, with the capacity, and the
/// queues before and after.
#[derive(Drop)]
pub struct Fates {
    pub now: Instant,
    pub capacity: Option<u64>,
    pub before: Vec<Look>,
    pub after: Vec<Look>,
    pub queued_before: Queued,
    pub queued_after: Queued,
}

/// What explains a reply.
#[derive(Drop)]
pub enum Answer {
    /// What the look-up met.
    Met(Look),
    /// What became of all keys.
    Became(Fates),
    /// Both.
    MetAndBecame(Look, Fates),
    /// The reply says all.
    Nothing,
}

/// A reply with what explains it. Its keys, if it has any, are in rising order.
pub struct Explained {
    pub reply: ScriptReply,
    pub answer: Answer,
}

// Written out so that an owner's drop is one call.
impl Drop for Explained {
    fn drop(self) {
        let Explained {
            reply: _,
            answer: _,
        } = self;
    }
}

// What a script chooses for all its calls: whether runs start by themselves, and the policy.
#[derive(Drop)]
struct Choices {
    automatic: bool,
    policy: EvictionPolicy,
}

/// Makes the calls of a script on a new cache, and prints each reply with what explains it.
pub fn explain_script<W: Write>(alloc: Global, script: Script, out: &mut W) -> Result<()>
    ensures { IfOk result (λ _. (all : List Explained) × IsScriptExplained script all
        × Appends (W.contents out.old) (W.contents out.new) (explained_texts all (chosen_policy script.settings))) }
{
    let Script {
        settings,
        rules,
        clock,
        calls,
    } = script;
    let automatic = settings.automatic;
    let policy = settings.policy.unwrap_or(EvictionPolicy::tiny_lfu());
    let listener = listener_for(alloc, settings.listener, &calls)?;
    let mut outside = Surroundings {
        alloc,
        ids: CountedIds::new(settings.repeats_ids),
        clock: ListedClock::new(clock),
    };
    let mut cache = new_cache(alloc, settings, rules, listener)?;
    let choices = Choices { automatic, policy };
    explain_calls(&mut outside, &mut cache, calls, choices, out)
}

// Makes the calls one after the other, and prints each reply with what explains it.
fn explain_calls<W: Write>(
    outside: &mut Surroundings,
    cache: &mut ScriptCache,
    calls: Vec<ScriptCall>,
    choices: Choices,
    out: &mut W,
) -> Result<()>
    ensures { IfOk result (λ _. (all : List Explained)
        × AreExplained choices.automatic calls.items all (point_of cache.old outside.old)
        (point_of cache.new outside.new)
        × Appends (W.contents out.old) (W.contents out.new) (explained_texts all choices.policy)) }
{
    for call in calls {
        let explained = explain_call(outside, cache, call, choices.automatic)?;
        write_explained(out, &explained, choices.policy)?;
    }
    Ok(())
}

/// Makes a call, and says what explains its reply. If runs start by themselves, as `automatic` says, a get may make
/// one, so all keys are looked at too.
///
/// # Errors
/// `OutOfMemory` if memory for the reply or for what explains it is refused.
pub fn explain_call(
    outside: &mut Surroundings,
    cache: &mut ScriptCache,
    call: ScriptCall,
    automatic: bool,
) -> Result<Explained, OutOfMemory>
    ensures made { IfOk result (λ explained. (given : Reply ℕ (List ℕ) KeyRange) × IsInOrder given explained.reply
        × Drives script_meaning (call ∷ []) (given ∷ []) cache.old outside.old.clock outside.old.ids
        cache.new outside.new.clock outside.new.ids) }
    ensures answer { IfOk result (λ explained.
        IsAnswer (question_of automatic call) cache.old.state cache.new.state explained.answer) }
    ensures room { IfOk result (λ _. IsMadeRoomFor call cache.old.state cache.new.state) }
{
    cache.invariant_holds();
    match question_of(&call, automatic) {
        Question::Key { key, now } => {
            let look = look_at(cache, key, now);
            let reply = make(outside, cache, call)?;
            let answer = Answer::Met(look);
            Ok(Explained { reply, answer })
        }
        Question::All { now } => {
            let (reply, fates) = make_and_compare(outside, cache, call, now)?;
            let answer = Answer::Became(fates);
            Ok(Explained { reply, answer })
        }
        Question::Both { key, now } => {
            let look = look_at(cache, key, now);
            let (reply, fates) = make_and_compare(outside, cache, call, now)?;
            let answer = Answer::MetAndBecame(look, fates);
            Ok(Explained { reply, answer })
        }
        Question::Nothing => {
            let reply = make(outside, cache, call)?;
            let answer = Answer::Nothing;
            Ok(Explained { reply, answer })
        }
    }
}

/// What is worth asking about a call.
fn question_of(call: &ScriptCall, automatic: bool) -> Question
    ensures { result ≡ question_of automatic call.now }
{
    match call {
        Call::Get { key, now, .. } if automatic => Question::Both {
            key: *key,
            now: *now,
        },
        Call::Get { key, now, .. }
        | Call::GetUnrecorded { key, now, .. }
        | Call::Contains { key, now, .. }
        | Call::Scan { key, now } => Question::Key {
            key: *key,
            now: *now,
        },
        Call::Run { now, .. }
        | Call::RunIfDue { now }
        | Call::InvalidateAll { now }
        | Call::InvalidateIf { now, .. } => Question::All { now: *now },
        _ => Question::Nothing,
    }
}

/// Makes one call, and says what became of all keys, seen at that moment.
fn make_and_compare(
    outside: &mut Surroundings,
    cache: &mut ScriptCache,
    call: ScriptCall,
    now: Instant,
) -> Result<(ScriptReply, Fates), OutOfMemory>
    ensures made { IfOk result (λ made. (given : Reply ℕ (List ℕ) KeyRange) × IsInOrder given made.0
        × Drives script_meaning (call ∷ []) (given ∷ []) cache.old outside.old.clock outside.old.ids
        cache.new outside.new.clock outside.new.ids) }
    ensures fates { IfOk result (λ made. AreFates now cache.old.state cache.new.state made.1) }
{
    let keys = keys_of(cache)?;
    let capacity = cache.policy().max_capacity();
    let before = look_at_all(outside.alloc, cache, &keys, now)?;
    let queued_before = queues_of(cache);
    let reply = make(outside, cache, call)?;
    let after = look_at_all(outside.alloc, cache, &keys, now)?;
    let queued_after = queues_of(cache);
    let fates = Fates {
        now,
        capacity,
        before,
        after,
        queued_before,
        queued_after,
    };
    Ok((reply, fates))
}

/// The keys of all records, in rising order.
fn keys_of(cache: &ScriptCache) -> Result<Vec<u32>, OutOfMemory>
    ensures keys { IfOk result (λ keys. IsPermutation (map (λ r. r.key) (values cache.now.state.records)) keys.items) }
    ensures order { IfOk result (λ keys. IsNonDecreasing keys.items) }
{
    // Segment 0 is always there.
    let Some(mut keys) = cache.keys(0)? else {
        return Err(OutOfMemory);
    };
    keys.sort_unstable();
    Ok(keys)
}

/// How many operations are queued.
fn queues_of(cache: &ScriptCache) -> Queued
    ensures { result ≡ queued_in cache.now.state }
{
    Queued {
        writes: cache.queued_writes(),
        reads: cache.queued_reads(),
    }
}

/// Makes one call. The keys of its reply, if it has any, are in rising order.
fn make(
    outside: &mut Surroundings,
    cache: &mut ScriptCache,
    call: ScriptCall,
) -> Result<ScriptReply, OutOfMemory>
    ensures { IfOk result (λ reply. (given : Reply ℕ (List ℕ) KeyRange) × IsInOrder given reply
        × Drives script_meaning (call ∷ []) (given ∷ []) cache.old outside.old.clock outside.old.ids
        cache.new outside.new.clock outside.new.ids) }
{
    let Ok(mut calls) = Vec::with_capacity(outside.alloc, 1) else {
        return Err(OutOfMemory);
    };
    calls.push_reserved(call);
    let Surroundings { alloc, ids, clock } = outside;
    match drive(*alloc, cache, calls, ids, clock) {
        Ok(mut replies) => {
            let mut reply = replies.swap_remove(0);
            sort_keys_of(&mut reply);
            Ok(reply)
        }
        Err(refused) => Err(refused.error),
    }
}
