//! What the versions of rows are of a table's commits.
ghost use Rattle.std.specs.Prelude.{◌≡◌, ◌≤◌, ◌<◌, ◌⊎◌, ℕ, IsSome, List, take};
ghost use Rattle.std.specs.Ordering.{nat_cmp};
ghost use Rattle.sf_types.specs.Table.Parts.{Rows};
ghost use Rattle.sf_types.specs.Table.Versions.{last_change, value_or_absent};
ghost use Rattle.sf_room_map.specs.Entries.{value_for, without_key};
ghost use Rattle.sf_versions.specs.RowChanges.{RowChanges, change_up_to, changes_of, last_value, RiseWithin};
ghost use Rattle.sf_versions.specs.VersionTables.{AreCommits, versions_after};

/// After any commits, the versions of a row are those that the commits made (`versions`). So `Versions::at` answers the rules'
/// `value_at` (`at`), and `Versions::current` their `current_value` (`current`).
pub fn versions_are_those_of_the_table()
    ensures versions { (commits : List Rows) (name : List ℕ) → AreCommits commits → versions_after commits name ≡ changes_of 0 commits name }
    ensures at { (cs : List Rows) (name : List ℕ) (n : ℕ) → AreCommits cs → value_or_absent (change_up_to (versions_after cs name) n) ≡ value_or_absent (last_change (take n cs) name) }
    ensures current { (cs : List Rows) (name : List ℕ) → AreCommits cs → last_value (versions_after cs name) ≡ value_or_absent (last_change cs name) }
{}

/// Of versions with rising numbers, one that a later one has displaced may go: what the row held after so many commits stays,
/// where they are fewer than its number or as many as the later one's.
pub fn kept_versions_stay()
    ensures law { (low now : ℕ) (vs : RowChanges) (number later n : ℕ) → RiseWithin low now vs → IsSome (value_for nat_cmp vs later) → number < later → (n < number) ⊎ (later ≤ n) → change_up_to (without_key nat_cmp vs number) n ≡ change_up_to vs n }
{}
