//! What is written as an object is read back. The function has an empty body: what it claims of the
//! definitions is its contract.
ghost use Rattle.std.specs.Prelude.{◌≡◌, Some};
ghost use Rattle.rt_language.specs.Lines.{line};
ghost use Rattle.show_answers.specs.Told.{Told};
ghost use Rattle.show_objects.specs.Tellable.{IsTellable};
ghost use Rattle.show_objects.specs.Objects.{json_text, object_form, told_json};
ghost use Rattle.show_objects.specs.Reading.{json_in, told_by, told_in};

/// The object of JSON that is written of an edit, a report, a fault or a refusal tells just that,
/// whatever nests in it.
pub fn objects_are_read()
    // The line is the text of one value of JSON, and its end.
    ensures lines { (told : Told) → object_form told ≡ line (json_text (told_json told)) }
    // That text is read as that value by JSON's own grammar.
    ensures values { (told : Told) → IsTellable told →
        json_in (json_text (told_json told)) ≡ Some (told_json told) }
    // And that value tells what was told.
    ensures told { (told : Told) → IsTellable told → told_in (told_json told) ≡ Some told }
    ensures read { (told : Told) → IsTellable told →
        told_by (json_text (told_json told)) ≡ Some told }
{}
