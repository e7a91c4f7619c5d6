//! Working values of rows.
ghost use Rattle.std.specs.Prelude.{◌≡◌, IfOk};
ghost use Rattle.sf_session_values.specs.Inside.Sharing.{own_value};

use crate::working_rows::WorkingRows;
use sf_chunk_map::Map;
use sf_types::{LocName, Mem, TryCopy};
use sf_versions::ChangeList;
use std::alloc::Global;
use std::marker::Model;

/// What a row holds in its session's transaction.
#[derive(Drop)]
pub enum Working {
    /// The row is absent.
    Absent,
    /// The row has a value of its own.
    Own(Map),
    /// The row's value is that of the locator through which it was written last.
    Through(LocName),
}

impl Working {
    // The working value that is a row's own value, or its absence.
    pub fn own(value: Option<Map>) -> Working
        ensures { result ≡ own_value value }
    {
        match value {
            Some(map) => Working::Own(map),
            None => Working::Absent,
        }
    }
}

/// Working values that a rollback to a savepoint brings back, seen as the rules' `Rows`.
#[derive(Drop)]
pub struct RestoredRows {
    pub(crate) rows: WorkingRows,
}

impl Model for RestoredRows {
    ghost use Rattle.std.specs.Prelude.{[]};
    ghost use Rattle.sf_types.specs.Table.Parts.{Rows};
    ghost use Rattle.sf_session_values.specs.Inside.Sharing.{rows_by, NoneShared};

    ghost Value = { Rows };

    ghost view = { λ restored. rows_by [] restored.rows.held };

    ghost invariant = { λ restored. NoneShared restored.rows.held };
}

impl RestoredRows {
    /// A copy of changes, as working values.
    pub fn of(alloc: Global, changes: &ChangeList) -> Mem<RestoredRows>
        ensures { IfOk result (λ rows. rows ≡ changes.now) }
    {
        let rows = WorkingRows::of(alloc, changes.copy()?.into_vec())?;
        Ok(RestoredRows { rows })
    }
}
