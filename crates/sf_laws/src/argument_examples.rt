//! How each call refuses its arguments: at each edge, one below it and one above it.
ghost use Rattle.std.specs.Prelude.{◌≡◌, ℕ, Bool, List, [], ◌∷◌, map, codes, true};
ghost use Rattle.sf_types.specs.declared.call.Call.TheVariants as call;
ghost use Rattle.sf_types.specs.declared.reply.Fault.TheVariants as fault;
ghost use Rattle.sf_types.specs.declared.reply.Reply.TheVariants as reply;
ghost use Rattle.sf_types.specs.Values.Marks.{Value, size_of};
ghost use Rattle.sf_types.specs.Calls.Arguments.{argument_refusals};
ghost use Rattle.sf_types.specs.Calls.Refusals.{first_refusal};
ghost use Rattle.sf_laws.specs.CallExamples.{mixed, answer_to};
ghost use Rattle.sf_laws.specs.ArgumentExamples.{buffer, at_size, done, out_of_range, too_long, working_on, refusal_in};

/// Read: an amount from 1 to 32,767, an offset from 1, and then an offset up to the end, which has 6 bytes.
pub fn read_is_refused()
    ensures amounts { map (λ amount. answer_to mixed (call.Read (codes "p") amount 6)) (0 ∷ 1 ∷ 32767 ∷ 32768 ∷ [])
        ≡ out_of_range ∷ reply.Bytes (codes "y") ∷ reply.Bytes (codes "y") ∷ out_of_range ∷ [] }
    ensures offsets { map (λ offset. answer_to mixed (call.Read (codes "p") 1 offset)) (0 ∷ 1 ∷ 6 ∷ 7 ∷ [])
        ≡ out_of_range ∷ reply.Bytes (codes "a") ∷ reply.Bytes (codes "y") ∷ reply.Refused fault.NoData ∷ [] }
    ensures range_first { answer_to mixed (call.Read (codes "p") 32768 7) ≡ out_of_range }
{}

/// Instr: a pattern of 1 to 32,767 bytes, and an offset from 1. An offset past the end finds nothing.
pub fn instr_is_refused()
    ensures patterns { map (λ count. answer_to mixed (call.Instr (codes "p") (buffer count) 1)) (0 ∷ 1 ∷ 32767 ∷ 32768 ∷ [])
        ≡ out_of_range ∷ reply.Number 0 ∷ reply.Number 0 ∷ out_of_range ∷ [] }
    ensures offsets { map (λ offset. answer_to mixed (call.Instr (codes "p") (codes "y") offset)) (0 ∷ 1 ∷ 6 ∷ 7 ∷ [])
        ≡ out_of_range ∷ reply.Number 6 ∷ reply.Number 6 ∷ reply.Number 0 ∷ [] }
{}

/// Compare: an amount and offsets from 1.
pub fn compare_is_refused()
    ensures amount { answer_to mixed (call.Compare (codes "p") (codes "p") 0 1 1) ≡ out_of_range }
    ensures left { answer_to mixed (call.Compare (codes "p") (codes "p") 1 0 1) ≡ out_of_range }
    ensures right { answer_to mixed (call.Compare (codes "p") (codes "p") 1 1 0) ≡ out_of_range }
    ensures least { answer_to mixed (call.Compare (codes "p") (codes "p") 1 1 1) ≡ reply.Equal true }
    ensures large { answer_to mixed (call.Compare (codes "p") (codes "p") 67108865 1 1) ≡ reply.Equal true }
{}

/// Write: a buffer of 1 to 32,767 bytes, an offset from 1, and an end of at most 67,108,864 bytes.
pub fn write_is_refused()
    ensures buffers { map (λ count. answer_to mixed (call.Write (codes "p") 1 (buffer count))) (0 ∷ 1 ∷ 32767 ∷ 32768 ∷ [])
        ≡ out_of_range ∷ done ∷ done ∷ out_of_range ∷ [] }
    ensures offset { answer_to mixed (call.Write (codes "p") 0 (codes "K")) ≡ out_of_range }
    ensures ends { map (λ offset. at_size 6 0 (call.Write (codes "p") offset (codes "KL"))) (67108862 ∷ 67108863 ∷ 67108864 ∷ [])
        ≡ done ∷ done ∷ too_long ∷ [] }
    ensures too_long { answer_to mixed (call.Write (codes "p") 67108864 (codes "KL")) ≡ too_long }
    ensures range_first { answer_to mixed (call.Write (codes "p") 67108865 []) ≡ out_of_range }
{}

/// WriteAppend: a buffer of 1 to 32,767 bytes, and at most 67,108,864 bytes together.
pub fn write_append_is_refused()
    ensures buffers { map (λ count. answer_to mixed (call.WriteAppend (codes "p") (buffer count))) (0 ∷ 1 ∷ 32767 ∷ 32768 ∷ [])
        ≡ out_of_range ∷ done ∷ done ∷ out_of_range ∷ [] }
    ensures sizes { map (λ size. at_size size 0 (call.WriteAppend (codes "p") (codes "KL"))) (67108861 ∷ 67108862 ∷ 67108863 ∷ [])
        ≡ done ∷ done ∷ too_long ∷ [] }
    ensures range_first { at_size 67108864 0 (call.WriteAppend (codes "p") []) ≡ out_of_range }
{}

/// Append: at most 67,108,864 bytes together.
pub fn append_is_refused()
    ensures sizes { map (λ source. at_size 6 source (call.Append (codes "p") (codes "q"))) (67108857 ∷ 67108858 ∷ 67108859 ∷ [])
        ≡ done ∷ done ∷ too_long ∷ [] }
    ensures empty { at_size 0 0 (call.Append (codes "p") (codes "q")) ≡ done }
{}

/// Copy: an amount and offsets from 1, then a source's offset up to its end, which has 2 bytes, and then an end of what is put of
/// at most 67,108,864 bytes.
pub fn copy_is_refused()
    ensures amount { answer_to mixed (call.Copy (codes "p") (codes "q") 0 1 1) ≡ out_of_range }
    ensures to { answer_to mixed (call.Copy (codes "p") (codes "q") 1 0 1) ≡ out_of_range }
    ensures from { map (λ offset. answer_to mixed (call.Copy (codes "p") (codes "q") 1 1 offset)) (0 ∷ 1 ∷ 2 ∷ 3 ∷ [])
        ≡ out_of_range ∷ done ∷ done ∷ reply.Refused fault.SourcePastEnd ∷ [] }
    ensures ends { map (λ offset. at_size 6 2 (call.Copy (codes "p") (codes "q") 9 offset 1)) (67108862 ∷ 67108863 ∷ 67108864 ∷ [])
        ≡ done ∷ done ∷ too_long ∷ [] }
    ensures range_first { answer_to mixed (call.Copy (codes "p") (codes "q") 0 67108866 3) ≡ out_of_range }
    ensures source_first { answer_to mixed (call.Copy (codes "p") (codes "q") 1 67108866 3) ≡ reply.Refused fault.SourcePastEnd }
    ensures too_long { answer_to mixed (call.Copy (codes "p") (codes "q") 1 67108865 2) ≡ too_long }
{}

/// Erase: an amount and an offset from 1.
pub fn erase_is_refused()
    ensures amounts { map (λ amount. answer_to mixed (call.Erase (codes "p") amount 1)) (0 ∷ 1 ∷ 67108865 ∷ [])
        ≡ out_of_range ∷ reply.Number 1 ∷ reply.Number 6 ∷ [] }
    ensures offsets { map (λ offset. answer_to mixed (call.Erase (codes "p") 1 offset)) (0 ∷ 1 ∷ 6 ∷ 7 ∷ [])
        ≡ out_of_range ∷ reply.Number 1 ∷ reply.Number 1 ∷ reply.Number 0 ∷ [] }
{}

/// Trim: a length of at most that of the value, but of an empty value any length.
pub fn trim_is_refused()
    ensures lengths { map (λ length. answer_to mixed (call.Trim (codes "p") length)) (0 ∷ 6 ∷ 7 ∷ [])
        ≡ done ∷ done ∷ reply.Refused fault.TrimPastEnd ∷ [] }
    ensures empty { map (λ length. at_size 0 0 (call.Trim (codes "p") length)) (0 ∷ 1 ∷ 67108865 ∷ []) ≡ done ∷ done ∷ done ∷ [] }
    ensures one { map (λ length. at_size 1 0 (call.Trim (codes "p") length)) (1 ∷ 2 ∷ []) ≡ done ∷ reply.Refused fault.TrimPastEnd ∷ [] }
{}

/// FragInsert: a buffer of 1 to 32,767 bytes, an offset from 1 to the place behind the last byte, and at most 67,108,864 bytes
/// together.
pub fn fragment_insert_is_refused()
    ensures buffers { map (λ count. answer_to mixed (call.FragInsert (codes "p") 1 (buffer count))) (0 ∷ 1 ∷ 32767 ∷ 32768 ∷ [])
        ≡ out_of_range ∷ done ∷ done ∷ out_of_range ∷ [] }
    ensures offsets { map (λ offset. answer_to mixed (call.FragInsert (codes "p") offset (codes "K"))) (0 ∷ 1 ∷ 7 ∷ 8 ∷ [])
        ≡ out_of_range ∷ done ∷ done ∷ out_of_range ∷ [] }
    ensures sizes { map (λ size. at_size size 0 (call.FragInsert (codes "p") 1 (codes "KL"))) (67108861 ∷ 67108862 ∷ 67108863 ∷ [])
        ≡ done ∷ done ∷ too_long ∷ [] }
    ensures range_first { at_size 67108864 0 (call.FragInsert (codes "p") 0 (codes "K")) ≡ out_of_range }
{}

/// FragDelete: an amount and an offset from 1, and no part past the end.
pub fn fragment_delete_is_refused()
    ensures amounts { map (λ amount. answer_to mixed (call.FragDelete (codes "p") amount 3)) (0 ∷ 1 ∷ 4 ∷ 5 ∷ [])
        ≡ out_of_range ∷ done ∷ done ∷ out_of_range ∷ [] }
    ensures offsets { map (λ offset. answer_to mixed (call.FragDelete (codes "p") 1 offset)) (0 ∷ 1 ∷ 6 ∷ 7 ∷ [])
        ≡ out_of_range ∷ done ∷ done ∷ out_of_range ∷ [] }
{}

/// FragMove: an amount and an offset from 1, no part past the end, and an aim from 1 to the place behind the last byte.
pub fn fragment_move_is_refused()
    ensures amounts { map (λ amount. answer_to mixed (call.FragMove (codes "p") amount 3 1)) (0 ∷ 1 ∷ 4 ∷ 5 ∷ [])
        ≡ out_of_range ∷ done ∷ done ∷ out_of_range ∷ [] }
    ensures offsets { map (λ offset. answer_to mixed (call.FragMove (codes "p") 1 offset 1)) (0 ∷ 1 ∷ 6 ∷ 7 ∷ [])
        ≡ out_of_range ∷ done ∷ done ∷ out_of_range ∷ [] }
    ensures aims { map (λ aim. answer_to mixed (call.FragMove (codes "p") 2 3 aim)) (0 ∷ 1 ∷ 4 ∷ 7 ∷ 8 ∷ [])
        ≡ out_of_range ∷ done ∷ done ∷ done ∷ out_of_range ∷ [] }
{}

/// FragReplace: a buffer of 1 to 32,767 bytes, an amount and an offset from 1, no part past the end, and at most 67,108,864 bytes
/// in the end.
pub fn fragment_replace_is_refused()
    ensures buffers { map (λ count. answer_to mixed (call.FragReplace (codes "p") 1 1 (buffer count))) (0 ∷ 1 ∷ 32767 ∷ 32768 ∷ [])
        ≡ out_of_range ∷ done ∷ done ∷ out_of_range ∷ [] }
    ensures amounts { map (λ amount. answer_to mixed (call.FragReplace (codes "p") amount 3 (codes "K"))) (0 ∷ 1 ∷ 4 ∷ 5 ∷ [])
        ≡ out_of_range ∷ done ∷ done ∷ out_of_range ∷ [] }
    ensures offsets { map (λ offset. answer_to mixed (call.FragReplace (codes "p") 1 offset (codes "K"))) (0 ∷ 1 ∷ 6 ∷ 7 ∷ [])
        ≡ out_of_range ∷ done ∷ done ∷ out_of_range ∷ [] }
    ensures sizes { map (λ size. at_size size 0 (call.FragReplace (codes "p") 2 1 (codes "KLMN"))) (67108861 ∷ 67108862 ∷ 67108863 ∷ [])
        ≡ done ∷ done ∷ too_long ∷ [] }
    ensures range_first { at_size 67108864 0 (call.FragReplace (codes "p") 1 67108865 (codes "KLM")) ≡ out_of_range }
{}

/// Length, SetOptions, Assign and Free have no argument rules.
pub fn others_have_no_arguments()
    ensures length { answer_to mixed (call.Length (codes "p")) ≡ reply.Number 6 }
    ensures options { answer_to mixed (call.SetOptions (codes "p") true) ≡ done }
    ensures large { at_size 67108864 0 (call.SetOptions (codes "p") true) ≡ done }
{}

/// Where nothing else refuses a writing call, it is refused as the sizes of its value and of its source say, whatever these are. So
/// what is worked out for sizes alone holds of the calls.
pub fn arguments_are_refused_by_sizes()
    ensures write { (v w : Value) (offset : ℕ) (bytes : List ℕ) → let made = call.Write (codes "p") offset bytes in
        refusal_in (answer_to (working_on v w) made) ≡ first_refusal (argument_refusals made (size_of v) (size_of w)) }
    ensures write_append { (v w : Value) (bytes : List ℕ) → let made = call.WriteAppend (codes "p") bytes in
        refusal_in (answer_to (working_on v w) made) ≡ first_refusal (argument_refusals made (size_of v) (size_of w)) }
    ensures append { (v w : Value) → let made = call.Append (codes "p") (codes "q") in
        refusal_in (answer_to (working_on v w) made) ≡ first_refusal (argument_refusals made (size_of v) (size_of w)) }
    ensures copy { (v w : Value) (amount to from : ℕ) → let made = call.Copy (codes "p") (codes "q") amount to from in
        refusal_in (answer_to (working_on v w) made) ≡ first_refusal (argument_refusals made (size_of v) (size_of w)) }
    ensures erase { (v w : Value) (amount offset : ℕ) → let made = call.Erase (codes "p") amount offset in
        refusal_in (answer_to (working_on v w) made) ≡ first_refusal (argument_refusals made (size_of v) (size_of w)) }
    ensures trim { (v w : Value) (length : ℕ) → let made = call.Trim (codes "p") length in
        refusal_in (answer_to (working_on v w) made) ≡ first_refusal (argument_refusals made (size_of v) (size_of w)) }
    ensures insert { (v w : Value) (offset : ℕ) (bytes : List ℕ) → let made = call.FragInsert (codes "p") offset bytes in
        refusal_in (answer_to (working_on v w) made) ≡ first_refusal (argument_refusals made (size_of v) (size_of w)) }
    ensures delete { (v w : Value) (amount offset : ℕ) → let made = call.FragDelete (codes "p") amount offset in
        refusal_in (answer_to (working_on v w) made) ≡ first_refusal (argument_refusals made (size_of v) (size_of w)) }
    ensures fragment_move { (v w : Value) (amount from to : ℕ) → let made = call.FragMove (codes "p") amount from to in
        refusal_in (answer_to (working_on v w) made) ≡ first_refusal (argument_refusals made (size_of v) (size_of w)) }
    ensures replace { (v w : Value) (amount offset : ℕ) (bytes : List ℕ) → let made = call.FragReplace (codes "p") amount offset bytes in
        refusal_in (answer_to (working_on v w) made) ≡ first_refusal (argument_refusals made (size_of v) (size_of w)) }
    ensures options { (v w : Value) (share : Bool) → let made = call.SetOptions (codes "p") share in
        refusal_in (answer_to (working_on v w) made) ≡ first_refusal (argument_refusals made (size_of v) (size_of w)) }
{}
