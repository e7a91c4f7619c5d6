//! Scripts under play.
ghost use Rattle.std.specs.Prelude.{◌≡◌, ℕ, List, ◌+◌, ◌<◌, true, length, map, IfOk, OnOk};
ghost use Rattle.std.specs.List.{range_with_len};
ghost use Rattle.sf_types.specs.declared.call.Call.{Call as TableCall};
ghost use Rattle.sf_types.specs.Orders.RowEnds.{row_ends_of};
ghost use Rattle.sf_types.specs.Play.Turns.{Reclaims, Shrinks, OfSession, after_turn, after_turns, have_all_ended, round, rounds, start_of};
ghost use Rattle.sf_types.specs.Space.Use.{free_of};
ghost use Rattle.sf_types.specs.Table.Versions.{commit_count};
ghost use Rattle.sf_laws.specs.PlayTranscripts.{written_places};
ghost use Rattle.sf_script.specs.Parts.{ScriptParts, names_session};
ghost use Rattle.sf_plain_store.specs.Inside.Players.{IsUnderPlay, new_player, playing_of};
ghost use Rattle.sf_plain_store.specs.Plays.{schedule_of, turn_of};
ghost use Rattle.sf_plain_store.specs.Stores.{stage_of};

use crate::players::Player;
use crate::store::PlainStore;
use sf_book::Book;
use sf_script::{Script, Turn};
use sf_session::SessionCore;
use sf_types::{Entry, List, Mem, Order, Played, RECLAIMED_BLOCKS, ReplyTable};
use std::alloc::Global;

/// A script under play: its store, and its sessions, session 1 first.
#[derive(Drop)]
pub struct LivePlay {
    pub store: PlainStore,
    pub players: Vec<Player>,
}

// A player for each of so many sessions.
fn new_players(alloc: Global, gather: u32, sessions: u16) -> Mem<Vec<Player>>
    ensures { IfOk result (λ players. players.items ≡ map (new_player gather) (range_with_len 1 sessions)) }
{
    let mut players = Vec::with_capacity(alloc, usize::from(sessions))?;
    for at in 0..sessions {
        players.push(Player {
            core: SessionCore::new(alloc, at + 1, gather),
            replies: List::new(alloc),
        })?;
    }
    Ok(players)
}

// The tokens of some entries.
fn order_of(alloc: Global, entries: &[Entry]) -> Mem<Order>
    ensures { IfOk result (λ order. order ≡ map (λ entry. entry.token) entries.now) }
{
    let mut tokens = Vec::with_capacity(alloc, entries.len())?;
    for entry in entries {
        tokens.push(entry.token)?;
    }
    Ok(List::from_vec(tokens))
}

// The replies of each player.
fn replies_of(alloc: Global, players: Vec<Player>) -> Mem<ReplyTable>
    ensures { IfOk result (λ replies. replies ≡ map (λ player. player.replies) players.items) }
{
    let mut replies = List::new(alloc);
    for player in players {
        replies.push(player.replies)?;
    }
    Ok(replies)
}

impl LivePlay {
    /// A script before its first turn.
    pub fn new(alloc: Global, script: &Script) -> Mem<LivePlay>
        ensures under { IfOk result (IsUnderPlay script.now) }
        ensures start { IfOk result (λ live. playing_of script.now.calls live ≡ start_of script.now.options script.now.calls) }
    {
        let options = script.options();
        let sessions = script.sessions();
        Ok(LivePlay {
            store: PlainStore::new(alloc, options, sessions)?,
            players: new_players(alloc, options.gather, sessions)?,
        })
    }

    // A turn of the session behind the first `at` ones.
    fn session_turn(&mut self, script: &Script, at: usize) -> Mem<()>
        requires under { IsUnderPlay script.now self.old }
        requires at { at < script.now.sessions }
        ensures under { OnOk result (IsUnderPlay script.now self.new) }
        ensures turn { OnOk result (playing_of script.now.calls self.new ≡ after_turn (OfSession (at + 1)) (playing_of script.now.calls self.old)) }
    {
        let calls = &script.calls().as_slice()[at];
        self.players[at].turn(&mut self.store, calls.as_slice())
    }

    // A reclaim turn.
    fn reclaim_turn(&mut self) -> Mem<()>
        ensures under { OnOk result ((script : ScriptParts) → IsUnderPlay script self.old → IsUnderPlay script self.new) }
        ensures turn { OnOk result ((calls : List (List TableCall)) → playing_of calls self.new ≡ after_turn Reclaims (playing_of calls self.old)) }
    {
        let _count = self.store.reclaim_turn(RECLAIMED_BLOCKS)?;
        Ok(())
    }

    // A shrink turn.
    fn shrink_turn(&mut self) -> Mem<()>
        ensures under { OnOk result ((script : ScriptParts) → IsUnderPlay script self.old → IsUnderPlay script self.new) }
        ensures turn { OnOk result ((calls : List (List TableCall)) → playing_of calls self.new ≡ after_turn Shrinks (playing_of calls self.old)) }
    {
        let _is_shrunk = self.store.shrink()?;
        Ok(())
    }

    // A turn of a schedule.
    fn turn(&mut self, script: &Script, turn: Turn) -> Mem<()>
        requires under { IsUnderPlay script.now self.old }
        requires session { names_session script.now.sessions turn ≡ true }
        ensures under { OnOk result (IsUnderPlay script.now self.new) }
        ensures turn { OnOk result (playing_of script.now.calls self.new ≡ after_turn (turn_of turn) (playing_of script.now.calls self.old)) }
    {
        match turn {
            Turn::Session(session) => self.session_turn(script, usize::from(session) - 1),
            Turn::Reclaim => self.reclaim_turn(),
            Turn::Shrink => self.shrink_turn(),
        }
    }

    /// Takes the turns of the script's schedule.
    pub fn schedule(&mut self, script: &Script) -> Mem<()>
        requires { IsUnderPlay script.now self.old }
        ensures under { OnOk result (IsUnderPlay script.now self.new) }
        ensures turns { OnOk result (playing_of script.now.calls self.new ≡ after_turns (schedule_of script.now) (playing_of script.now.calls self.old)) }
    {
        for turn in script.turns().as_slice() {
            self.turn(script, *turn)?;
        }
        Ok(())
    }

    // A round: each session in order takes a turn, and one reclaim turn follows.
    fn round(&mut self, script: &Script) -> Mem<()>
        requires { IsUnderPlay script.now self.old }
        ensures under { OnOk result (IsUnderPlay script.now self.new) }
        ensures turns { OnOk result (playing_of script.now.calls self.new ≡ after_turns (round (length script.now.calls)) (playing_of script.now.calls self.old)) }
    {
        for at in 0..self.players.len() {
            self.session_turn(script, at)?;
        }
        self.reclaim_turn()
    }

    /// Plays rounds until all sessions have ended.
    pub fn rounds(&mut self, script: &Script) -> Mem<()>
        requires { IsUnderPlay script.now self.old }
        ensures under { OnOk result (IsUnderPlay script.now self.new) }
        ensures rounds { OnOk result ((n : ℕ) × (playing_of script.now.calls self.new ≡ after_turns (rounds (length script.now.calls) n) (playing_of script.now.calls self.old))) }
        ensures ended { OnOk result (have_all_ended (playing_of script.now.calls self.new) ≡ true) }
    {
        while !self.store.book().all_ended() {
            self.round(script)?;
        }
        Ok(())
    }

    /// What a transcript tells of the play so far, and the Book of its store.
    pub fn into_played(self, alloc: Global) -> Mem<(Played, Book)>
        ensures order { IfOk result (λ made. made.0.order ≡ map (λ entry. entry.token) self.store.history) }
        ensures replies { IfOk result (λ made. made.0.replies ≡ map (λ player. player.replies) self.players.items) }
        ensures places { IfOk result (λ made. made.0.places ≡ written_places (stage_of self.store)) }
        ensures free { IfOk result (λ made. made.0.free ≡ free_of (stage_of self.store).table) }
        ensures rows { IfOk result (λ made. made.0.rows ≡ row_ends_of (stage_of self.store).table) }
        ensures commits { IfOk result (λ made. made.0.now ≡ commit_count (stage_of self.store).table) }
        ensures options { IfOk result (λ made. made.1.options ≡ self.store.options) }
        ensures sessions { IfOk result (λ made. made.1.sessions ≡ self.store.sessions) }
        ensures history { IfOk result (λ made. made.1.history ≡ self.store.history) }
        ensures book_places { IfOk result (λ made. made.1.places ≡ self.store.space.places) }
    {
        let LivePlay { store, players } = self;
        let book = store.into_book();
        let played = Played {
            replies: replies_of(alloc, players)?,
            order: order_of(alloc, book.history())?,
            places: book.places()?,
            free: book.free(),
            rows: book.rows()?,
            now: book.now(),
        };
        Ok((played, book))
    }
}
