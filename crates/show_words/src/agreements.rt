//! What has two definitions, each with its own use, is the same.
ghost use Rattle.std.specs.Prelude.{◌≡◌, ◌++◌, ◌∷◌, [], ℕ, List};
ghost use Rattle.rt_edits.specs.Sinks as sinks;
ghost use Rattle.rt_language.specs.Lines.{line, fault_text, text_of, fault_text_of};
ghost use Rattle.rt_model.specs.Caused.{listens};
ghost use Rattle.rt_model.specs.Document.{Edit};
ghost use Rattle.rt_model.specs.Heard.{is_listener};
ghost use Rattle.rt_model.specs.Lists.{joined};
ghost use Rattle.rt_model.specs.OneLog.{types};
ghost use Rattle.rt_model.specs.Reports.{Report};
ghost use Rattle.rt_model.specs.State.{Fault};
ghost use Rattle.rt_model.specs.Tree.{AttributeValue};
ghost use Rattle.show_words.specs.Texts.{run_lines};
ghost use Rattle.lang_sources.specs.declared.reading.TheConstants.{SOURCE_LIMIT};
ghost use Rattle.show_streams.specs.Failures as streams;
ghost use Rattle.show_streams.specs.declared.reading.TheConstants.{MOST_BYTES};

/// As many bytes are read of an input as a source may have.
pub fn most_bytes_agree()
    ensures agree { MOST_BYTES ≡ SOURCE_LIMIT }
{}

/// The lines that are put of a run, one behind the other, are its text.
pub fn run_texts_agree()
    ensures done { (edits : List Edit) (reports : List Report) →
        joined (run_lines edits reports) ≡ text_of edits reports }
    ensures ended { (edits : List Edit) (reports : List Report) (fault : Fault) →
        joined (run_lines edits reports ++ line (fault_text fault) ∷ []) ≡ fault_text_of edits reports fault }
{}

/// What is written as a listener is what hears events.
pub fn listeners_agree<C, P, V, H, T, E, L>()
    ensures agree { (value : AttributeValue (types C P V H T E L)) → listens value ≡ is_listener value }
{}

/// A sink and a stream that fail at some calls count them alike.
pub fn failures_agree()
    ensures agree { (calls : List ℕ) (made : ℕ) → sinks.failures calls made ≡ streams.failures calls made }
{}
