//! Which entries are legal: by the session, its promise and its end.
ghost use Rattle.std.specs.Prelude.{◌≡◌, codes, true, false};
ghost use Rattle.sf_types.specs.declared.call.Call.{Call};
ghost use Rattle.sf_types.specs.declared.call.Call.TheVariants as call;
ghost use Rattle.sf_types.specs.declared.history.Kind.{Kind};
ghost use Rattle.sf_types.specs.declared.history.Kind.TheVariants as kind;
ghost use Rattle.sf_types.specs.Space.Due.{is_due};
ghost use Rattle.sf_types.specs.Orders.Histories.{IsLegal};
ghost use Rattle.sf_laws.specs.LegalExamples.{unpromised, promised, ended};

/// While no promise of the session stands, a call is legal where it isn't due, and a promise where it is.
pub fn legal_without_a_promise()
    ensures call { IsLegal unpromised 1 kind.Call (call.Length (codes "p")) }
    ensures refused { IsLegal unpromised 1 kind.Call (call.Length (codes "u")) }
    ensures due { IsLegal unpromised 1 kind.Promise call.Commit }
    ensures not_unpromised { IsLegal unpromised 1 kind.Call call.Commit → ⊥ }
    ensures not_due { IsLegal unpromised 1 kind.Promise (call.Length (codes "p")) → ⊥ }
    ensures no_cancel { IsLegal unpromised 1 kind.Cancel call.Commit → ⊥ }
    ensures end { IsLegal unpromised 1 kind.Call call.End }
{}

/// While one stands, only its call and its cancel are legal. Other sessions go on.
pub fn legal_beside_a_promise()
    ensures call { IsLegal promised 1 kind.Call call.Commit }
    ensures cancel { IsLegal promised 1 kind.Cancel call.Commit }
    ensures no_other { IsLegal promised 1 kind.Call call.Rollback → ⊥ }
    ensures no_local { IsLegal promised 1 kind.Call (call.Length (codes "p")) → ⊥ }
    ensures no_second { IsLegal promised 1 kind.Promise call.Commit → ⊥ }
    ensures others { IsLegal promised 2 kind.Call (call.Insert (codes "b")) }
{}

/// No entry is legal after a session's End, and none of a session that the table doesn't have. Other sessions go on.
pub fn legal_after_an_end()
    ensures none { (k : Kind) (c : Call) → IsLegal ended 1 k c → ⊥ }
    ensures others { IsLegal ended 2 kind.Call call.End }
    ensures past { (k : Kind) (c : Call) → IsLegal unpromised 3 k c → ⊥ }
    ensures zero { (k : Kind) (c : Call) → IsLegal unpromised 0 k c → ⊥ }
{}

/// A writing call is due from `gather` fresh bytes of its result on, where nothing refuses it; a Commit is due where something fresh
/// was worked on; no other call is.
pub fn due_calls()
    ensures below { is_due unpromised 1 (call.WriteAppend (codes "p") (codes "x")) ≡ false }
    ensures at { is_due unpromised 1 (call.WriteAppend (codes "p") (codes "xy")) ≡ true }
    ensures above { is_due unpromised 1 (call.WriteAppend (codes "p") (codes "xyz")) ≡ true }
    ensures not_added { is_due unpromised 1 (call.Write (codes "p") 1 (codes "xy")) ≡ false }
    ensures taken { is_due unpromised 1 (call.Trim (codes "p") 1) ≡ false }
    ensures options { is_due unpromised 1 (call.SetOptions (codes "p") true) ≡ false }
    ensures refused { is_due unpromised 1 (call.WriteAppend (codes "u") (codes "xyz")) ≡ false }
    ensures commit { is_due unpromised 1 call.Commit ≡ true }
    ensures empty { is_due unpromised 2 call.Commit ≡ false }
    ensures rollback { is_due unpromised 1 call.Rollback ≡ false }
    ensures row { is_due unpromised 1 (call.Delete (codes "a")) ≡ false }
    ensures end { is_due unpromised 1 call.End ≡ false }
{}
