ghost use Rattle.std.specs.Prelude.{◌≡◌, true, [], ◌∷◌, Some};
ghost use Rattle.stores.specs.Operations.{get_answer};
ghost use Rattle.protocol.specs.Answers.{begin_write, begin_read, fetch, stop, ok, wrote, read};
ghost use Rattle.protocol.specs.Examples.{fresh, write_calls, write_answers, overlap_calls, overlap_answers, late_calls, late_answers, recovery_calls, recovery_answers, old_calls, old_answers, Unlawful, key, store_requests};
ghost use Rattle.protocol.specs.Phases.{next_version};
ghost use Rattle.protocol.specs.Requests.{list_keys, remove_key};
ghost use Rattle.protocol.specs.Stages.{put_under};
ghost use Rattle.protocol.specs.Law.{answers, end, Opened};
ghost use Rattle.protocol.specs.State.{provider_at};

// Short runs, computed by the checker: they show that the steps do what they should, and that the law can fail.

// A write runs through both its phases.
pub fn write_runs()
    ensures { answers 2 3 fresh write_calls ≡ write_answers }
{}

// A settled read that overlaps a write shows it, and puts its value at a second provider.
pub fn overlapping_read_runs()
    ensures { answers 2 3 fresh overlap_calls ≡ overlap_answers }
{}

// A put that arrives late and stale takes the standing key back to an older version, so reading it alone would be wrong;
// and a read that follows is right nevertheless.
pub fn late_put_runs()
    ensures answered { answers 2 3 fresh late_calls ≡ late_answers }
    ensures back { get_answer 0 (provider_at (end 2 3 fresh late_calls) 2) ≡ Some (record { version = 65537; value = 7 ∷ [] }) }
    ensures read { answers 2 3 fresh recovery_calls ≡ recovery_answers }
{}

// The law can fail: a settled read that shows an older write, after a newer one has finished, is not lawful.
pub fn old_read_is_unlawful()
    ensures { Unlawful 2 3 old_calls old_answers }
{}

// Nor is an answer lawful that does not fit its seat's operation, whatever the state at the end: a write ends where none
// has begun; a read begins in the middle of a write; a write ends as a read; a fetch is accepted as a begin is; and a call has
// no answer.
pub fn unfit_answers_are_unlawful()
    ensures ends_nothing { Unlawful 2 3 (fetch 1 1 ∷ []) (wrote 65537 ∷ []) }
    ensures begins_within { Unlawful 2 3 (begin_write 1 (7 ∷ []) ∷ (begin_read 1 true ∷ [])) (ok ∷ (ok ∷ [])) }
    ensures write_reads { Unlawful 2 3 (begin_write 1 (7 ∷ []) ∷ (fetch 1 1 ∷ [])) (ok ∷ (read 65537 (7 ∷ []) ∷ [])) }
    ensures fetch_accepted { Unlawful 2 3 (begin_write 1 (7 ∷ []) ∷ (fetch 1 1 ∷ [])) (ok ∷ (ok ∷ [])) }
    ensures unanswered { Unlawful 2 3 (stop 1 ∷ []) [] }
{}

// The version that follows the largest listed key, and the requests that a storing line makes, in their order.
pub fn stores_in_order()
    ensures after { next_version (key 4 7) 2 ≡ key 5 2 }
    ensures first { next_version 0 2 ≡ key 1 2 }
    ensures newer { store_requests (key 4 2) (0 ∷ (key 3 1 ∷ (key 3 2 ∷ (key 4 1 ∷ [])))) ≡ list_keys ∷ (remove_key (key 3 1) ∷ (remove_key (key 3 2) ∷ (put_under 0 (key 4 2) (7 ∷ []) ∷ (put_under (key 4 2) (key 4 2) (7 ∷ []) ∷ (remove_key (key 4 1) ∷ []))))) }
    ensures same { store_requests (key 4 1) (0 ∷ (key 3 1 ∷ (key 3 2 ∷ (key 4 1 ∷ [])))) ≡ list_keys ∷ (remove_key (key 3 1) ∷ (remove_key (key 3 2) ∷ (put_under 0 (key 4 1) (7 ∷ []) ∷ []))) }
    ensures empty { store_requests (key 1 1) [] ≡ list_keys ∷ (put_under 0 (key 1 1) (7 ∷ []) ∷ (put_under (key 1 1) (key 1 1) (7 ∷ []) ∷ [])) }
{}

// The state that these runs start from is one that open hands over, so the law speaks of them.
pub fn fresh_is_opened()
    ensures { Opened 2 3 fresh }
{}
