//! What is written between two outputs, and between two states.

ghost use Rattle.rt_model.specs.OneLog.{types};
ghost use Rattle.rt_model.specs.World.{Application};
ghost use Rattle.law_headline.specs.Outputs.{OutputsBring, OutputsClaim};
ghost use Rattle.law_headline.specs.Passes.{PassesBring};
ghost use Rattle.law_headline.specs.Scopes.{ScopesBring, WrittenBrings};
ghost use Rattle.law_headline.specs.Trees.{TreesUnfold};

/// The two passes over a template's attribute slots, from what is known of each element.
pub fn passes_bring<C, P, V, H, T, E, L>()
    ensures { PassesBring (types C P V H T E L) }
{}

/// Where two outputs meet, what is written makes what the new one shows of what the old one showed.
pub fn outputs_bring<C, P, V, H, T, E, L>()
    ensures { (app : Application (types C P V H T E L)) → OutputsBring app }
{}

/// It claims no number that neither of them shows.
pub fn outputs_claim<C, P, V, H, T, E, L>()
    ensures { (app : Application (types C P V H T E L)) → OutputsClaim app }
{}

/// In a tree of scopes each shows what its side shows with the nodes of its children.
pub fn trees_unfold<C, P, V, H, T, E, L>()
    ensures { TreesUnfold (types C P V H T E L) }
{}

/// So it is with a scope and all scopes that are fed below it.
pub fn scopes_bring<C, P, V, H, T, E, L>()
    ensures { (app : Application (types C P V H T E L)) → ScopesBring app }
{}

/// The theorem of two states, where one scope and what is below it changed.
pub fn written_brings<C, P, V, H, T, E, L>()
    ensures { (app : Application (types C P V H T E L)) → WrittenBrings app }
{}
