//! A session outside the store.
ghost use Rattle.std.specs.Prelude.{◌≡◌, ◌≤◌, ℕ, [], ◌∷◌, None, IfOk, OnOk, OnErr};
ghost use Rattle.std.specs.Option.{option_copied};
ghost use Rattle.sf_types.specs.Inside.NameMaps.{get};
ghost use Rattle.sf_types.specs.Halves.Own.{own_due, is_own_local};
ghost use Rattle.sf_own_part.specs.Ends.{IsPrepared};
ghost use Rattle.sf_own_part.specs.Readiness.{IsReady};
ghost use Rattle.sf_session.specs.declared.need.Need.TheVariants as need;
ghost use Rattle.sf_session.specs.Inside.Standings.{AreBirths};
ghost use Rattle.sf_session.specs.Cores.{new_core, need_of, started, abandoned, collected, noted};

use crate::need::Need;
use crate::phase::Phase;
use sf_locators::Locator;
use sf_own_part::{OwnPart, Prepared, is_event};
use sf_types::{Births, Call, LocName, Mem, RoomList};
use std::alloc::Global;
use std::marker::Model;

// A call that stands, with what its end needs and whether it is due.
#[derive(Drop)]
pub struct Standing {
    pub call: Call,
    pub prepared: Prepared,
    pub is_due: bool,
}

/// A session outside the store, seen as its number, the threshold at which its store gathers, its own part, its pending calls,
/// the call that stands, and how far that has come.
#[derive(Drop)]
pub struct SessionCore {
    pub(crate) session: u16,
    pub(crate) gather: u32,
    pub(crate) own: OwnPart,
    pub(crate) pending: RoomList<Call>,
    pub(crate) births: Option<Births>,
    pub(crate) standing: Option<Standing>,
    pub(crate) phase: Phase,
    pub(crate) alloc: Global,
}

impl Model for SessionCore {
    ghost use Rattle.std.specs.Option.{option_map};
    ghost use Rattle.sf_session.specs.Cores.{CoreView};
    ghost use Rattle.sf_session.specs.Inside.Standings.{AreBirths, IsStanding};

    ghost Value = { CoreView };

    ghost view = { λ c. record {
      session = c.session;
      gather = c.gather;
      own = c.own.held;
      pending = c.pending.held;
      standing = option_map (λ s. s.call) c.standing;
      phase = c.phase;
    } };

    ghost invariant = { λ c. AreBirths c.own.held c.births × IsStanding c.gather c.own c.pending.spare c.phase c.standing };
}

// Makes the births of an own part, where they are asked for and aren't kept.
fn keep_births(own: &OwnPart, births: &mut Option<Births>, are_asked_for: bool) -> Mem<()>
    requires { AreBirths own.now.held births.old }
    ensures { AreBirths own.now.held births.new }
{
    if are_asked_for && births.is_none() {
        *births = Some(own.births()?);
    }
    Ok(())
}

// Takes the room that the end of a call will need, and makes what it needs. Answers that, and whether the call is due. After want
// of memory the same is held.
fn prepare_end(
    own: &mut OwnPart,
    pending: &mut RoomList<Call>,
    births: &mut Option<Births>,
    gather: u32,
    call: &Call,
) -> Mem<(Prepared, bool)>
    requires { AreBirths own.old.held births.old }
    ensures own { own.new.held ≡ own.old.held }
    ensures pending { pending.new.held ≡ pending.old.held }
    ensures births { AreBirths own.old.held births.new }
    ensures ready { OnOk result (IsReady own.new) }
    ensures room { OnOk result (1 ≤ pending.new.spare) }
    ensures prepared { IfOk result (λ made. IsPrepared own.old.held call.now made.0) }
    ensures due { IfOk result (λ made. made.1 ≡ own_due gather own.old.held call.now) }
{
    own.make_ready()?;
    pending.make_room(1)?;
    let prepared = own.prepare(call)?;
    let is_due = own.is_due(gather, call, &prepared);
    match keep_births(own, births, is_due || is_event(call)) {
        Ok(()) => Ok((prepared, is_due)),
        Err(error) => {
            drop(prepared);
            Err(error)
        }
    }
}

impl SessionCore {
    /// The core of a session that has made no call, of this number and in a store that gathers up to this threshold. It takes no
    /// memory.
    pub fn new(alloc: Global, session: u16, gather: u32) -> SessionCore
        ensures { result ≡ new_core session gather }
    {
        SessionCore {
            session,
            gather,
            own: OwnPart::new(alloc),
            pending: RoomList::new(alloc),
            births: None,
            standing: None,
            phase: Phase::Unpromised,
            alloc,
        }
    }

    /// The session's number.
    pub fn session(&self) -> u16
        ensures { result ≡ self.now.session }
    {
        self.session
    }

    /// What the session needs next. It costs a look.
    pub fn next(&self) -> Need
        ensures { result ≡ need_of self.now }
    {
        if self.own.has_ended() {
            return Need::Ended;
        }
        let Some(standing) = &self.standing else {
            return Need::Idle;
        };
        match self.phase {
            Phase::Unpromised => {
                if standing.is_due {
                    Need::Reserve
                } else if is_event(&standing.call) {
                    Need::Event
                } else {
                    Need::Local
                }
            }
            Phase::Promised(0) => Need::Publish,
            Phase::Promised(blocks) => Need::Collect(blocks),
            Phase::Collected(_) => Need::Publish,
        }
    }

    /// A call begins to stand. All room that its end will need is taken here, and what a writing call writes is made here, once.
    /// After want of memory the core is as before.
    pub fn start(&mut self, call: Call) -> Mem<()>
        requires { need_of self.old ≡ need.Idle }
        ensures ok { OnOk result (self.new ≡ started self.old call) }
        ensures err { OnErr result (self.new ≡ self.old) }
    {
        match prepare_end(
            &mut self.own,
            &mut self.pending,
            &mut self.births,
            self.gather,
            &call,
        ) {
            Ok((prepared, is_due)) => {
                self.standing = Some(Standing {
                    call,
                    prepared,
                    is_due,
                });
                self.phase = Phase::Unpromised;
                Ok(())
            }
            Err(error) => {
                drop(call);
                Err(error)
            }
        }
    }

    /// Whether a call would be local: neither an event nor due. It makes what a writing call would write, and drops it.
    pub fn is_local(&self, call: &Call) -> Mem<bool>
        ensures { IfOk result (λ local. local ≡ is_own_local self.now.gather self.now.own call.now) }
    {
        if is_event(call) {
            return Ok(false);
        }
        let prepared = self.own.prepare(call)?;
        let is_due = self.own.is_due(self.gather, call, &prepared);
        drop(prepared);
        Ok(!is_due)
    }

    /// The promised blocks of the standing call were collected.
    pub fn collected(&mut self)
        ensures { (blocks : ℕ) → need_of self.old ≡ need.Collect blocks → self.new ≡ collected self.old blocks }
    {
        if let Phase::Promised(blocks) = self.phase {
            self.phase = Phase::Collected(blocks);
        }
    }

    /// Drops the standing call, and leaves all else.
    pub fn abandon(&mut self)
        ensures { self.new ≡ abandoned self.old }
    {
        self.standing = None;
        self.phase = Phase::Unpromised;
    }

    /// The store has got the pending calls.
    pub fn noted(&mut self)
        requires { self.old.standing ≡ None }
        ensures { self.new ≡ noted self.old }
    {
        self.pending = RoomList::new(self.alloc);
    }

    /// The locator of a name. None exactly where the session has none.
    pub fn locator(&self, at: &LocName) -> Option<&Locator>
        ensures { option_copied result ≡ get self.now.own.part.locators at.now }
    {
        self.own.locators().get(at)
    }
}
