//! The lines of a transcript as literal text.
ghost use Rattle.std.specs.Prelude.{◌≡◌, [], ◌∷◌, ◌++◌, map, codes, replicate, true, false};
ghost use Rattle.sf_types.specs.declared.reply.Fault.TheVariants as fault;
ghost use Rattle.sf_types.specs.declared.reply.Reply.TheVariants as reply;
ghost use Rattle.sf_types.specs.Orders.Texts.{text_of_reply};
ghost use Rattle.sf_types.specs.Orders.Transcripts.{order_line, reply_line, session_lines, place_line, row_line, whole_transcript};
ghost use Rattle.sf_laws.specs.TextExamples.{two_runs, one_run, invoice, refusal_text};
ghost use Rattle.sf_laws.specs.TurnExamples.{call_of, promise_of};

/// The text of each reply but a refusal. Up to 128 bytes stand as digits, and more by their number and digest.
pub fn texts_of_replies()
    ensures done { text_of_reply reply.Done ≡ codes "ok" }
    ensures number { map (λ n. text_of_reply (reply.Number n)) (0 ∷ 7 ∷ 1023 ∷ []) ≡ codes "0" ∷ codes "7" ∷ codes "1023" ∷ [] }
    ensures none { text_of_reply (reply.Bytes []) ≡ codes "x" }
    ensures bytes { text_of_reply (reply.Bytes (0 ∷ 10 ∷ 171 ∷ codes "abc")) ≡ codes "x000aab616263" }
    ensures most { text_of_reply (reply.Bytes (replicate 128 65)) ≡ codes "x4141414141414141414141414141414141414141414141414141414141414141414141414141414141414141414141414141414141414141414141414141414141414141414141414141414141414141414141414141414141414141414141414141414141414141414141414141414141414141414141414141414141414141" }
    ensures equal { text_of_reply (reply.Equal true) ≡ codes "equal" }
    ensures different { text_of_reply (reply.Equal false) ≡ codes "differ" }
    ensures committed { text_of_reply (reply.Committed 12) ≡ codes "commit 12" }
    ensures ended { text_of_reply reply.Ended ≡ codes "end" }
{}

/// The text of each refusal.
pub fn texts_of_refusals()
    ensures locators { map refusal_text (fault.UnknownLocator ∷ fault.TooManyLocators ∷ fault.Lost ∷ fault.ReadOnly ∷ fault.SpansTransactions ∷ [])
        ≡ codes "refused unknown-locator" ∷ codes "refused too-many-locators" ∷ codes "refused lost" ∷ codes "refused read-only" ∷ codes "refused spans-transactions 22990" ∷ [] }
    ensures rows { map refusal_text (fault.RowNotLocked ∷ fault.NoSuchRow ∷ fault.Duplicate ∷ fault.Busy ∷ [])
        ≡ codes "refused row-not-locked 22920" ∷ codes "refused no-such-row" ∷ codes "refused duplicate 1" ∷ codes "refused busy 54" ∷ [] }
    ensures arguments { map refusal_text (fault.ArgOutOfRange ∷ fault.NoData ∷ fault.TrimPastEnd ∷ fault.SourcePastEnd ∷ fault.TooLong ∷ [])
        ≡ codes "refused out-of-range 21560" ∷ codes "refused no-data 1403" ∷ codes "refused trim-past-end 22926" ∷ codes "refused source-past-end 22994" ∷ codes "refused too-long" ∷ [] }
    ensures commits { map refusal_text (fault.TooOld ∷ fault.FutureCommit ∷ fault.TooManySavepoints ∷ fault.NoSavepoint ∷ [])
        ≡ codes "refused too-old 22924" ∷ codes "refused future-commit" ∷ codes "refused too-many-savepoints" ∷ codes "refused no-savepoint" ∷ [] }
    ensures space { refusal_text (fault.NoSpace 12 3) ≡ codes "refused no-space 1691 wanted 12 free 3" }
{}

/// Each line ends with a line feed. Promises are marked in the order; replies are numbered from 1 in each session; runs are joined
/// by commas.
pub fn lines_of_a_transcript()
    ensures order { order_line (call_of 1 ∷ promise_of 12 ∷ call_of 12 ∷ []) ≡ codes "order 1 12+ 12" ++ 10 ∷ [] }
    ensures reply { reply_line 3 11 reply.Done ≡ codes "3.11 ok" ++ 10 ∷ [] }
    ensures replies { session_lines 1 ((reply.Done ∷ reply.Ended ∷ []) ∷ (reply.Ended ∷ []) ∷ [])
        ≡ codes "1.1 ok" ++ 10 ∷ codes "1.2 end" ++ 10 ∷ codes "2.1 end" ++ 10 ∷ [] }
    ensures place { place_line two_runs ≡ codes "place 7 1025 abababababababababababababababababababababababababababababababab 3+2,0+1" ++ 10 ∷ [] }
    ensures row { row_line invoice ≡ codes "row invoice-7 1025 abababababababababababababababababababababababababababababababab" ++ 10 ∷ [] }
{}

/// A whole transcript: the header, the order, the replies, the places, the free number, the rows and the number of commits.
pub fn a_whole_transcript()
    ensures text { whole_transcript (call_of 1 ∷ promise_of 1 ∷ call_of 1 ∷ call_of 1 ∷ []) ((reply.Done ∷ reply.Committed 1 ∷ reply.Ended ∷ []) ∷ []) (one_run ∷ two_runs ∷ []) 1020 (invoice ∷ []) 1
        ≡ codes "transcript 1" ++ 10 ∷ codes "order 1 1+ 1 1" ++ 10 ∷ codes "1.1 ok" ++ 10 ∷ codes "1.2 commit 1" ++ 10 ∷ codes "1.3 end" ++ 10
        ∷ codes "place 2 512 abababababababababababababababababababababababababababababababab 5+1" ++ 10
        ∷ codes "place 7 1025 abababababababababababababababababababababababababababababababab 3+2,0+1" ++ 10
        ∷ codes "free 1020" ++ 10 ∷ codes "row invoice-7 1025 abababababababababababababababababababababababababababababababab" ++ 10 ∷ codes "now 1" ++ 10 ∷ [] }
{}
