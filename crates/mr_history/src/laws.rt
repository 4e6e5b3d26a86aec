//! What one more entry does to a history.
ghost use Rattle.std.specs.Prelude.{◌≡◌, ℕ, ◌≤◌, [], ◌∷◌, ◌++◌, List, length};
ghost use Rattle.mr_text.specs.declared.item.Item.{Item};
ghost use Rattle.mr_history.specs.declared.op_id.OpId.{OpId};
ghost use Rattle.mr_history.specs.declared.entry.Entry.{Entry};
ghost use Rattle.mr_history.specs.declared.verdict.Verdict.{Verdict};
ghost use Rattle.mr_history.specs.declared.verdict.Verdict.TheVariants.{Safe};
ghost use Rattle.mr_history.specs.History.{Fits, IsFreshHit, IsHit, IsSafe, IsWellFormed};
ghost use Rattle.mr_history.specs.Judgement.{Judges};

/// A well formed history stays so with one more entry that fits.
pub fn fitting_entry_keeps_form()
    ensures { (history : List Entry) (entry : Entry) → IsWellFormed history
        → Fits history entry → IsWellFormed (history ++ entry ∷ []) }
{}

/// An item that was stored in time for an answer stays so, whatever comes behind.
pub fn fresh_grows()
    ensures { (history later : List Entry) (item : Item) (issue answer : ℕ)
        → IsWellFormed (history ++ later) → IsFreshHit history item issue answer
        → issue ≤ length history → IsFreshHit (history ++ later) item issue answer }
{}

/// A safe history stays safe with one more entry where each item that this entry answers was stored in time.
pub fn safe_grows()
    ensures { (history : List Entry) (entry : Entry) → IsWellFormed (history ++ entry ∷ []) → IsSafe history
        → ((get : OpId) (item : Item) (issue index : ℕ) → IsHit (history ++ entry ∷ []) get item issue (length history) index
        → IsFreshHit (history ++ entry ∷ []) item issue (length history))
        → IsSafe (history ++ entry ∷ []) }
{}

/// A safe history has no other verdict.
pub fn safe_is_told()
    ensures { (history : List Entry) (verdict : Verdict) → Judges history verdict → IsSafe history → verdict ≡ Safe }
{}
