//! Reach: the births that are still held, and the blocks in use.
ghost use Rattle.std.specs.Prelude.{◌≡◌, [], length, slice_index_or, flat_map, filter_map, is_some, IfOk};
ghost use Rattle.std.specs.Option.{option_map_or};
ghost use Rattle.sf_types.specs.Table.Versions.{last_change};
ghost use Rattle.sf_types.specs.Space.Reach.{is_kept, version_holding, version_holdings, promise_holding, session_holdings, reach};
ghost use Rattle.sf_types.specs.Space.Use.{content_of, blocks_of_birth, blocks_of_births, promised_blocks};
ghost use Rattle.std.specs.Option.{option_copied};

use crate::births::{births_in, rising_births, session_births};
use crate::content::Content;
use crate::cuts::blocks_of;
use crate::edits::{behind, front};
use crate::rows::{RowState, Rows};
use crate::session::Session;
use crate::table::Table;
use sf_types::{Mem, Name};
use std::alloc::Global;

// Whether some commits name a row.
fn is_named(commits: &[Rows], row: &Name) -> bool
    ensures { result ≡ is_some (last_change commits.now row.now) }
{
    for rows in commits {
        if rows.get(row).is_some() {
            return true;
        }
    }
    false
}

/// The content of a birth. None where there is none.
pub fn content_of(contents: &[Content], birth: u128) -> Option<&Content>
    ensures { option_copied result ≡ content_of contents.now birth }
{
    let at = birth.saturating_sub(1);
    if at < contents.len() as u128 {
        Some(&contents[at as usize])
    } else {
        None
    }
}

/// The blocks of a birth's content.
pub fn blocks_of_birth(contents: &[Content], birth: u128) -> u64
    ensures { result ≡ blocks_of_birth contents.now birth }
{
    match content_of(contents, birth) {
        Some(content) => blocks_of(content.bytes.len() as u64),
        None => 0,
    }
}

// The births that a session's promise holds.
fn promised_births(alloc: Global, session: &Session) -> Mem<Vec<u128>>
    ensures { IfOk result (λ births. births.items ≡ option_map_or (λ q. q.births) session.now.promise []) }
{
    match &session.promise {
        Some(promise) => Ok(Vec::from_slice(alloc, promise.births.as_slice())?),
        None => Ok(Vec::new(alloc)),
    }
}

impl Table {
    // Whether the value that the n-th commit gave a row is kept.
    fn is_kept(&self, row: &Name, n: u64) -> bool
        ensures { result ≡ is_kept self.now row.now n }
    {
        let later = behind(front(&self.commits, self.floor), n);
        self.floor < n || !is_named(later, row)
    }

    // The births that a row's value of the n-th commit holds.
    fn births_of_version(&self, n: u64, row: &Name, state: &RowState) -> Mem<Vec<u128>>
        ensures { IfOk result (λ births. births.items ≡ option_map_or (λ h. h.births) (version_holding self.now n (row.now, state.now)) []) }
    {
        match state.value() {
            Some(value) => {
                if self.is_kept(row, n) {
                    births_in(self.alloc, value)
                } else {
                    Ok(Vec::new(self.alloc))
                }
            }
            None => Ok(Vec::new(self.alloc)),
        }
    }

    // The births that the kept versions of the n-th commit hold.
    fn births_of_commit(&self, n: u64, rows: &Rows) -> Mem<Vec<u128>>
        ensures { IfOk result (λ births. births.items ≡ flat_map (λ h. h.births) (filter_map (version_holding self.now n) rows.now)) }
    {
        let mut births = Vec::new(self.alloc);
        for (row, state) in rows.as_map() {
            births.append(&mut self.births_of_version(n, row, state)?)?;
        }
        Ok(births)
    }

    // The births that the kept versions of all rows hold.
    fn births_of_versions(&self) -> Mem<Vec<u128>>
        ensures { IfOk result (λ births. births.items ≡ flat_map (λ h. h.births) (version_holdings self.now)) }
    {
        let mut births = Vec::new(self.alloc);
        for at in 0..self.commits.len() {
            let n = at as u64 + 1;
            births.append(&mut self.births_of_commit(n, &self.commits[at])?)?;
        }
        Ok(births)
    }

    // The births that all sessions and their promises hold.
    fn births_of_sessions(&self) -> Mem<Vec<u128>>
        ensures { IfOk result (λ births. births.items ≡ flat_map (λ h. h.births) (session_holdings 1 self.now.sessions)) }
    {
        let mut births = Vec::new(self.alloc);
        for session in &self.sessions {
            births.append(&mut session_births(session)?)?;
            births.append(&mut promised_births(self.alloc, session)?)?;
        }
        Ok(births)
    }

    /// The births that some holder holds, rising.
    pub fn reach(&self) -> Mem<Vec<u128>>
        ensures { IfOk result (λ births. births.items ≡ reach self.now) }
    {
        let mut births = self.births_of_versions()?;
        births.append(&mut self.births_of_sessions()?)?;
        rising_births(self.alloc, births)
    }
}
