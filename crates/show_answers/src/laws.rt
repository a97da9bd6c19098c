//! One line more, and each form.
ghost use Rattle.std.specs.Prelude.{◌≡◌, ◌++◌, ◌∷◌, ◌+◌, [], ℕ, Bool, true, false, length, map, List as Items};
ghost use Rattle.show_answers.specs.Streamed.{AreAnswered, answer, refusal, streamed, things};
ghost use Rattle.show_answers.specs.Told.{Form};
ghost use Rattle.rt_model.specs.Document.{Edit};
ghost use Rattle.rt_model.specs.Reports.{Report};

/// With one input more what was written grows by its answer, in each form.
pub fn answers_grow()
    ensures grows { (form : Form) (lines : Items Bool) (number : ℕ) (edits own : Items Edit)
        (reports : Items Report) (report : Report) →
        AreAnswered lines edits reports → length own ≡ report.edits →
        streamed form (lines ++ true ∷ []) number (edits ++ own) (reports ++ report ∷ [])
        ≡ streamed form lines number edits reports
        ++ answer form (number + length reports) own report }
    ensures answered { (lines : Items Bool) (edits own : Items Edit)
        (reports : Items Report) (report : Report) →
        AreAnswered lines edits reports → length own ≡ report.edits →
        AreAnswered (lines ++ true ∷ []) (edits ++ own) (reports ++ report ∷ []) }
{}

/// With a line more that is no input it grows by a refusal.
pub fn refusals_grow()
    ensures grows { (form : Form) (lines : Items Bool) (number : ℕ) (edits : Items Edit)
        (reports : Items Report) → AreAnswered lines edits reports →
        streamed form (lines ++ false ∷ []) number edits reports
        ≡ streamed form lines number edits reports ++ refusal form ∷ [] }
    ensures answered { (lines : Items Bool) (edits : Items Edit)
        (reports : Items Report) → AreAnswered lines edits reports →
        AreAnswered (lines ++ false ∷ []) edits reports }
{}

/// Each form tells the same, thing by thing.
pub fn forms_tell_alike()
    ensures alike { (form : Form) (lines : Items Bool) (number : ℕ) (edits : Items Edit)
        (reports : Items Report) →
        streamed form lines number edits reports ≡ map form (things lines number edits reports) }
{}
