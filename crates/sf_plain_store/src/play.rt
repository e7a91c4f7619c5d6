//! The play of a script.
ghost use Rattle.std.specs.Prelude.{IfOk};
ghost use Rattle.sf_plain_store.specs.Plays.{IsBookOf, IsPlayed};

use crate::live_play::LivePlay;
use crate::store::PlainStore;
use sf_book::Book;
use sf_script::Script;
use sf_types::{Mem, Played};
use std::alloc::Global;

impl PlainStore {
    /// Plays a script: the turns of its schedule, and then rounds, in which each session takes a turn and one reclaim turn follows, until
    /// all sessions have ended. The answer is what a transcript tells of it, with the Book over which it was played.
    pub fn play(alloc: Global, script: &Script) -> Mem<(Played, Book)>
        ensures played { IfOk result (λ made. IsPlayed script.now made.0) }
        ensures book { IfOk result (λ made. IsBookOf script.now made.1) }
    {
        let mut live = LivePlay::new(alloc, script)?;
        live.schedule(script)?;
        live.rounds(script)?;
        live.into_played(alloc)
    }
}
