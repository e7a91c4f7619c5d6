//! Why lines are refused, as worked examples. They stand behind options, schedule lines and many calls too.
ghost use Rattle.std.specs.Prelude.{◌≡◌, List, Some, None, length, codes, true, false};
ghost use Rattle.sf_types.specs.declared.call.Call.{Call};
ghost use Rattle.sf_types.specs.declared.options.Options.{Options};
ghost use Rattle.sf_script.specs.declared.fault.Reason.TheVariants.{Bytes, Place, Session, Form, Limit};
ghost use Rattle.sf_script.specs.Parts.{ScriptParts, call_count, payload_bytes};
ghost use Rattle.sf_script.specs.Reasons.{passes_turn_limit};
ghost use Rattle.sf_script_print.specs.ReasonExamples.{reason_behind, reason_after, unended_reason, header, header_and, two_sessions, scheduled, one_session};

/// An option stands behind all options that come before it in their order, once, and before `sessions`.
pub fn options_have_their_place()
    ensures earlier { reason_behind (header_and (codes "gather 512")) (codes "capacity 5") ≡ Some Place }
    ensures twice { reason_behind (header_and (codes "gather 512")) (codes "gather 512") ≡ Some Place }
    ensures max_behind_number { reason_behind (header_and (codes "retention 5")) (codes "retention max") ≡ Some Place }
    ensures number_behind_max { reason_behind (header_and (codes "retention max")) (codes "retention 5") ≡ Some Place }
    ensures behind_sessions { reason_behind two_sessions (codes "capacity 5") ≡ Some Place }
    ensures out_of_range { reason_behind (header_and (codes "gather 512")) (codes "capacity 0") ≡ Some Place }
    ensures no_form { reason_behind (header_and (codes "gather 512")) (codes "capacity many") ≡ Some Place }
    ensures unended { unended_reason (header_and (codes "gather 512")) (codes "capacity 5") ≡ Some Bytes }
{}

/// Where an option or the sessions line may stand, it is refused for its form, and else where its number is out of its range.
pub fn options_have_their_range()
    ensures in_range { reason_behind (header_and (codes "gather 512")) (codes "dispensers 8") ≡ None }
    ensures no_form { reason_behind header (codes "capacity many") ≡ Some Form }
    ensures no_capacity { reason_behind header (codes "capacity 0") ≡ Some Limit }
    ensures capacity { reason_behind header (codes "capacity 65537") ≡ Some Limit }
    ensures retention { reason_behind header (codes "retention 1001") ≡ Some Limit }
    ensures little_gather { reason_behind header (codes "gather 511") ≡ Some Limit }
    ensures gather { reason_behind header (codes "gather 1048577") ≡ Some Limit }
    ensures no_dispensers { reason_behind header (codes "dispensers 0") ≡ Some Limit }
    ensures dispensers { reason_behind header (codes "dispensers 9") ≡ Some Limit }
    ensures most_sessions { reason_behind header (codes "sessions 16") ≡ None }
    ensures no_sessions { reason_behind header (codes "sessions 0") ≡ Some Limit }
    ensures sessions { reason_behind header (codes "sessions 17") ≡ Some Limit }
{}

/// A call stands behind the sessions line and before the schedule.
pub fn calls_have_their_place()
    ensures before_sessions { reason_behind header (codes "1: insert a") ≡ Some Place }
    ensures behind_option { reason_behind (header_and (codes "gather 512")) (codes "1: insert a") ≡ Some Place }
    ensures behind_schedule { reason_behind scheduled (codes "1: insert a") ≡ Some Place }
    ensures of_no_session { reason_behind scheduled (codes "3: insert a") ≡ Some Place }
    ensures between { reason_behind two_sessions (codes "1: insert a") ≡ None }
{}

/// Behind `schedule` each word is a turn, and there is one.
pub fn schedules_are_refused()
    ensures wrong_word { reason_behind two_sessions (codes "schedule 1 x") ≡ Some Session }
    ensures no_session { reason_behind two_sessions (codes "schedule 1 3") ≡ Some Session }
    ensures trailing_space { reason_behind two_sessions (codes "schedule 1 ") ≡ Some Session }
    ensures empty_word { reason_behind two_sessions (codes "schedule ") ≡ Some Session }
    ensures alone { reason_behind two_sessions (codes "schedule") ≡ Some Form }
    ensures before_sessions { reason_behind header (codes "schedule 1") ≡ Some Place }
    ensures right { reason_behind scheduled (codes "schedule 2 r shrink") ≡ None }
{}

/// The session of a call comes before its form, and a number of copies is from 1 to 18,446,744,073,709,551,615 by its form.
pub fn calls_are_refused_in_order()
    ensures session_first { reason_behind two_sessions (codes "3: writeappend p") ≡ Some Session }
    ensures no_form { reason_behind two_sessions (codes "1: writeappend p") ≡ Some Form }
    ensures no_copies { reason_behind two_sessions (codes "1: writeappend p 0*x41") ≡ Some Form }
    ensures most_copies { reason_behind two_sessions (codes "1: writeappend p 18446744073709551615*x41") ≡ Some Limit }
    ensures past_copies { reason_behind two_sessions (codes "1: writeappend p 18446744073709551616*x41") ≡ Some Form }
    ensures no_payload { reason_behind two_sessions (codes "1: write p 1 x") ≡ Some Form }
{}

/// A script has at most 20,000 calls, 67,108,864 payload bytes and 200,000 turns.
pub fn limits_of_scripts()
    ensures last_call { (options : Options) (calls : List (List Call)) → call_count calls ≡ 19999 → payload_bytes calls ≡ 67108863
        → reason_after (one_session options calls) (codes "1: writeappend p x41") ≡ None }
    ensures calls { (options : Options) (calls : List (List Call)) → call_count calls ≡ 20000
        → reason_after (one_session options calls) (codes "1: writeappend p x41") ≡ Some Limit }
    ensures bytes { (options : Options) (calls : List (List Call)) → payload_bytes calls ≡ 67108864
        → reason_after (one_session options calls) (codes "1: writeappend p x41") ≡ Some Limit }
    ensures last_turn { (script : ScriptParts) → length script.turns ≡ 199999 → passes_turn_limit script 1 ≡ false }
    ensures turns { (script : ScriptParts) → length script.turns ≡ 200000 → passes_turn_limit script 1 ≡ true }
{}
