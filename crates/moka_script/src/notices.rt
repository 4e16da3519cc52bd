//! The listener of a script.
ghost use Rattle.std.specs.Prelude.{◌≡◌};
ghost use Rattle.moka_script.specs.Notices.{needs_room, room_of, cause_text};

use crate::script::ScriptCall;
use crate::word::Word;
use moka_parts::calls::Call;
use moka_parts::error::OutOfMemory;
use moka_parts::notification::{Listener, RemovalCause};
use std::alloc::Global;
use std::fmt;
use std::marker::Model;

/// The key, the value and the cause of a removal.
pub type Notice = (u32, Word, RemovalCause);

/// A listener that keeps what it is notified of, in room that is made before the first call. Seen as the notices in
/// order, and how many have room.
#[derive(Drop)]
pub struct Notices {
    told: Vec<Notice>,
}

impl Model for Notices {
    ghost use Rattle.std.specs.Prelude.{vec_capacity};
    ghost use Rattle.moka_script.specs.Notices.{Kept};

    ghost Value = { Kept };

    ghost view = { λ n. record { told = n.told.items; room = vec_capacity n.told } };
}

impl Notices {
    ghost use Rattle.std.specs.Prelude.{◌≡◌, [], IfOk};

    /// A listener with room for that many notices.
    pub fn with_room(alloc: Global, room: usize) -> Result<Notices, OutOfMemory>
        ensures { IfOk result (λ notices. notices ≡ record { told = []; room = room }) }
    {
        let told = Vec::with_capacity(alloc, room)?;
        Ok(Notices { told })
    }

    /// What it was notified of, in order.
    pub fn as_slice(&self) -> &[Notice]
        ensures { result.now ≡ self.now.told }
    {
        self.told.as_slice()
    }
}

impl Listener<u32, Word> for Notices {
    ghost use Rattle.moka_script.specs.Notices.{Keeps};

    ghost tells = { Keeps };

    fn notify(&mut self, key: u32, value: Word, cause: RemovalCause) {
        if self.told.len() < self.told.capacity() {
            self.told.push_reserved((key, value, cause));
        }
    }
}

/// Whether a call may cause a notice: each insert brings one value that may leave, and the listener may be notified
/// of a removal.
fn needs_room(call: &&ScriptCall) -> bool
    ensures { result ≡ needs_room call.now.now }
{
    matches!(call, Call::Insert { .. } | Call::Remove { .. })
}

/// How many notices the calls may cause at most.
pub fn room_for(calls: &[ScriptCall]) -> usize
    ensures { result ≡ room_of calls.now }
{
    calls.iter().filter(needs_room).count()
}

/// A notice as it is printed, without its line feed.
#[derive(Clone, Copy)]
pub struct NoticeText<'a>(pub &'a Notice);

impl fmt::Display for NoticeText<'_> {
    ghost use Rattle.std.specs.Prelude.{Some};
    ghost use Rattle.moka_script.specs.Notices.{notice_text};

    ghost output = { λ text. Some (notice_text text.0.now) };

    fn fmt<W: fmt::Write>(&self, f: &mut fmt::Formatter<W>) -> fmt::Result {
        let (key, value, cause) = self.0;
        write!(f, "notice {key} {value} {}", cause_text(*cause))
    }
}

fn cause_text(cause: RemovalCause) -> &'static str
    ensures { result.now ≡ cause_text cause }
{
    match cause {
        RemovalCause::Expired => "Expired",
        RemovalCause::Explicit => "Explicit",
        RemovalCause::Replaced => "Replaced",
        RemovalCause::Size => "Size",
    }
}
