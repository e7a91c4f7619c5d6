//! What each call answers and leaves on one table, whose object has bytes of every mark.
ghost use Rattle.std.specs.Prelude.{◌≡◌, [], ◌∷◌, ◌++◌, codes, true, false};
ghost use Rattle.sf_types.specs.declared.call.Call.TheVariants as call;
ghost use Rattle.sf_types.specs.declared.options.Choice.TheVariants as choice;
ghost use Rattle.sf_types.specs.declared.reply.Reply.TheVariants as reply;
ghost use Rattle.sf_laws.specs.CallExamples.{mixed, answer_to, bytes_after, choice_after, zero, fresh, a, c, d, x, y, m, n};

/// The marks of the object before these calls, as a Length, which changes nothing, leaves them.
pub fn bytes_of_every_mark()
    ensures p { bytes_after mixed (codes "p") (call.Length (codes "p")) ≡ a ∷ zero ∷ c ∷ d ∷ x ∷ y ∷ [] }
    ensures q { bytes_after mixed (codes "q") (call.Length (codes "p")) ≡ m ∷ n ∷ [] }
{}

/// Write puts fresh bytes over those that stand there, and zero bytes before them where the value is shorter.
pub fn write_puts()
    ensures inside { bytes_after mixed (codes "p") (call.Write (codes "p") 2 (codes "KL")) ≡ a ∷ fresh 75 ∷ fresh 76 ∷ d ∷ x ∷ y ∷ [] }
    ensures over_the_end { bytes_after mixed (codes "p") (call.Write (codes "p") 6 (codes "KL")) ≡ a ∷ zero ∷ c ∷ d ∷ x ∷ fresh 75 ∷ fresh 76 ∷ [] }
    ensures behind { bytes_after mixed (codes "p") (call.Write (codes "p") 9 (codes "K")) ≡ a ∷ zero ∷ c ∷ d ∷ x ∷ y ∷ zero ∷ zero ∷ fresh 75 ∷ [] }
    ensures reply { answer_to mixed (call.Write (codes "p") 9 (codes "K")) ≡ reply.Done }
{}

/// WriteAppend puts fresh bytes at the end.
pub fn write_append_puts_at_the_end()
    ensures bytes { bytes_after mixed (codes "p") (call.WriteAppend (codes "p") (codes "KL")) ≡ a ∷ zero ∷ c ∷ d ∷ x ∷ y ∷ fresh 75 ∷ fresh 76 ∷ [] }
    ensures reply { answer_to mixed (call.WriteAppend (codes "p") (codes "KL")) ≡ reply.Done }
{}

/// Append puts the source's bytes with their marks at the end, and leaves the source. A locator may be its own source.
pub fn append_keeps_marks()
    ensures bytes { bytes_after mixed (codes "p") (call.Append (codes "p") (codes "q")) ≡ a ∷ zero ∷ c ∷ d ∷ x ∷ y ∷ m ∷ n ∷ [] }
    ensures source { bytes_after mixed (codes "q") (call.Append (codes "p") (codes "q")) ≡ m ∷ n ∷ [] }
    ensures other { bytes_after mixed (codes "q") (call.Append (codes "q") (codes "p")) ≡ m ∷ n ∷ a ∷ zero ∷ c ∷ d ∷ x ∷ y ∷ [] }
    ensures itself { bytes_after mixed (codes "q") (call.Append (codes "q") (codes "q")) ≡ m ∷ n ∷ m ∷ n ∷ [] }
    ensures reply { answer_to mixed (call.Append (codes "p") (codes "q")) ≡ reply.Done }
{}

/// Copy puts a part of the source with its marks, up to the source's end, as Write puts a buffer.
pub fn copy_keeps_marks()
    ensures inside { bytes_after mixed (codes "q") (call.Copy (codes "q") (codes "p") 3 2 3) ≡ m ∷ c ∷ d ∷ x ∷ [] }
    ensures to_the_end { bytes_after mixed (codes "p") (call.Copy (codes "p") (codes "q") 100 1 2) ≡ n ∷ zero ∷ c ∷ d ∷ x ∷ y ∷ [] }
    ensures behind { bytes_after mixed (codes "q") (call.Copy (codes "q") (codes "p") 2 4 1) ≡ m ∷ n ∷ zero ∷ a ∷ zero ∷ [] }
    ensures itself { bytes_after mixed (codes "p") (call.Copy (codes "p") (codes "p") 2 1 3) ≡ c ∷ d ∷ c ∷ d ∷ x ∷ y ∷ [] }
    ensures source { bytes_after mixed (codes "p") (call.Copy (codes "q") (codes "p") 3 2 3) ≡ a ∷ zero ∷ c ∷ d ∷ x ∷ y ∷ [] }
    ensures reply { answer_to mixed (call.Copy (codes "q") (codes "p") 3 2 3) ≡ reply.Done }
{}

/// Erase turns bytes into zero bytes, up to the end, and answers how many. The length stays.
pub fn erase_makes_zero()
    ensures inside { bytes_after mixed (codes "p") (call.Erase (codes "p") 3 3) ≡ a ∷ zero ∷ zero ∷ zero ∷ zero ∷ y ∷ [] }
    ensures count { answer_to mixed (call.Erase (codes "p") 3 3) ≡ reply.Number 3 }
    ensures to_the_end { bytes_after mixed (codes "p") (call.Erase (codes "p") 9 6) ≡ a ∷ zero ∷ c ∷ d ∷ x ∷ zero ∷ [] }
    ensures rest { answer_to mixed (call.Erase (codes "p") 9 6) ≡ reply.Number 1 }
    ensures behind { bytes_after mixed (codes "p") (call.Erase (codes "p") 1 7) ≡ a ∷ zero ∷ c ∷ d ∷ x ∷ y ∷ [] }
    ensures none { answer_to mixed (call.Erase (codes "p") 1 7) ≡ reply.Number 0 }
{}

/// Trim leaves the first bytes.
pub fn trim_leaves_the_first()
    ensures shorter { bytes_after mixed (codes "p") (call.Trim (codes "p") 3) ≡ a ∷ zero ∷ c ∷ [] }
    ensures same { bytes_after mixed (codes "p") (call.Trim (codes "p") 6) ≡ a ∷ zero ∷ c ∷ d ∷ x ∷ y ∷ [] }
    ensures empty { bytes_after mixed (codes "p") (call.Trim (codes "p") 0) ≡ [] }
    ensures reply { answer_to mixed (call.Trim (codes "p") 0) ≡ reply.Done }
{}

/// FragInsert puts fresh bytes before the byte at an offset, or at the end.
pub fn fragment_insert_makes_room()
    ensures front { bytes_after mixed (codes "p") (call.FragInsert (codes "p") 1 (codes "KL")) ≡ fresh 75 ∷ fresh 76 ∷ a ∷ zero ∷ c ∷ d ∷ x ∷ y ∷ [] }
    ensures inside { bytes_after mixed (codes "p") (call.FragInsert (codes "p") 4 (codes "K")) ≡ a ∷ zero ∷ c ∷ fresh 75 ∷ d ∷ x ∷ y ∷ [] }
    ensures back { bytes_after mixed (codes "p") (call.FragInsert (codes "p") 7 (codes "K")) ≡ a ∷ zero ∷ c ∷ d ∷ x ∷ y ∷ fresh 75 ∷ [] }
    ensures reply { answer_to mixed (call.FragInsert (codes "p") 7 (codes "K")) ≡ reply.Done }
{}

/// FragDelete takes bytes out.
pub fn fragment_delete_takes_out()
    ensures inside { bytes_after mixed (codes "p") (call.FragDelete (codes "p") 2 2) ≡ a ∷ d ∷ x ∷ y ∷ [] }
    ensures back { bytes_after mixed (codes "p") (call.FragDelete (codes "p") 1 6) ≡ a ∷ zero ∷ c ∷ d ∷ x ∷ [] }
    ensures all { bytes_after mixed (codes "p") (call.FragDelete (codes "p") 6 1) ≡ [] }
    ensures reply { answer_to mixed (call.FragDelete (codes "p") 6 1) ≡ reply.Done }
{}

/// FragMove takes a part before the byte that stood at an offset before the call. Into its own range or to its end nothing moves.
pub fn fragment_move_counts_before_the_call()
    ensures back { bytes_after mixed (codes "p") (call.FragMove (codes "p") 2 1 5) ≡ c ∷ d ∷ a ∷ zero ∷ x ∷ y ∷ [] }
    ensures to_the_end { bytes_after mixed (codes "p") (call.FragMove (codes "p") 2 1 7) ≡ c ∷ d ∷ x ∷ y ∷ a ∷ zero ∷ [] }
    ensures front { bytes_after mixed (codes "p") (call.FragMove (codes "p") 2 4 2) ≡ a ∷ d ∷ x ∷ zero ∷ c ∷ y ∷ [] }
    ensures own_start { bytes_after mixed (codes "p") (call.FragMove (codes "p") 2 3 3) ≡ a ∷ zero ∷ c ∷ d ∷ x ∷ y ∷ [] }
    ensures own_range { bytes_after mixed (codes "p") (call.FragMove (codes "p") 2 3 4) ≡ a ∷ zero ∷ c ∷ d ∷ x ∷ y ∷ [] }
    ensures own_end { bytes_after mixed (codes "p") (call.FragMove (codes "p") 2 3 5) ≡ a ∷ zero ∷ c ∷ d ∷ x ∷ y ∷ [] }
    ensures reply { answer_to mixed (call.FragMove (codes "p") 2 3 5) ≡ reply.Done }
{}

/// FragReplace puts fresh bytes where others stood, more or fewer.
pub fn fragment_replace_exchanges()
    ensures longer { bytes_after mixed (codes "p") (call.FragReplace (codes "p") 1 3 (codes "KL")) ≡ a ∷ zero ∷ fresh 75 ∷ fresh 76 ∷ d ∷ x ∷ y ∷ [] }
    ensures shorter { bytes_after mixed (codes "p") (call.FragReplace (codes "p") 5 2 (codes "K")) ≡ a ∷ fresh 75 ∷ [] }
    ensures reply { answer_to mixed (call.FragReplace (codes "p") 5 2 (codes "K")) ≡ reply.Done }
{}

/// SetOptions keeps the bytes with their marks, and makes the choice Share for on and Keep for off. Before it the choice is
/// Standard, and no other writing call changes it.
pub fn set_options_chooses()
    ensures bytes { bytes_after mixed (codes "p") (call.SetOptions (codes "p") true) ≡ a ∷ zero ∷ c ∷ d ∷ x ∷ y ∷ [] }
    ensures on { choice_after mixed (codes "p") (call.SetOptions (codes "p") true) ≡ choice.Share }
    ensures off { choice_after mixed (codes "p") (call.SetOptions (codes "p") false) ≡ choice.Keep }
    ensures before { choice_after mixed (codes "p") (call.WriteAppend (codes "p") (codes "K")) ≡ choice.Standard }
    ensures reply { answer_to mixed (call.SetOptions (codes "p") true) ≡ reply.Done }
{}

/// Length, Read, Instr and Compare answer of the locator's own bytes.
pub fn reads_answer_of_bytes()
    ensures length { answer_to mixed (call.Length (codes "p")) ≡ reply.Number 6 }
    ensures read { answer_to mixed (call.Read (codes "p") 3 2) ≡ reply.Bytes (0 ∷ codes "cd") }
    ensures read_to_the_end { answer_to mixed (call.Read (codes "p") 9 5) ≡ reply.Bytes (codes "xy") }
    ensures found { answer_to mixed (call.Instr (codes "p") (codes "cd") 1) ≡ reply.Number 3 }
    ensures found_at_the_offset { answer_to mixed (call.Instr (codes "p") (codes "cd") 3) ≡ reply.Number 3 }
    ensures found_before { answer_to mixed (call.Instr (codes "p") (codes "cd") 4) ≡ reply.Number 0 }
    ensures not_whole { answer_to mixed (call.Instr (codes "p") (codes "yz") 1) ≡ reply.Number 0 }
    ensures equal { answer_to mixed (call.Compare (codes "p") (codes "p") 2 3 3) ≡ reply.Equal true }
    ensures different { answer_to mixed (call.Compare (codes "p") (codes "p") 2 3 4) ≡ reply.Equal false }
    ensures different_lengths { answer_to mixed (call.Compare (codes "p") (codes "q") 9 1 1) ≡ reply.Equal false }
    ensures both_past_the_end { answer_to mixed (call.Compare (codes "p") (codes "q") 9 7 3) ≡ reply.Equal true }
{}
