//! What is spelt comes back. The functions have empty bodies: what each claims of the definitions is
//! its contract.
ghost use Rattle.std.specs.Prelude.{◌≡◌, Some, true};
ghost use Rattle.rt_model.specs.Document.{Forest};
ghost use Rattle.rt_html.specs.Reading.{are_fit};
ghost use Rattle.rt_html.specs.Spelling.{html};
ghost use Rattle.rt_html.specs.Tokens.{nodes_of_tokens, plain, tokens, tokens_html};

/// The tokens of nodes give back these nodes, without numbers and listeners.
pub fn nodes_come_back()
    ensures { (nodes : Forest) → nodes_of_tokens (tokens nodes) ≡ Some (plain nodes) }
{}

/// Nodes and what comes back of them have one spelling.
pub fn plain_is_spelt_alike()
    ensures { (nodes : Forest) → html (plain nodes) ≡ html nodes }
{}

/// Nodes are spelt as their tokens are, one after another.
pub fn nodes_are_spelt_in_tokens()
    ensures { (nodes : Forest) → html nodes ≡ tokens_html (tokens nodes) }
{}

/// Nodes that may be read and have one spelling are the same but for their numbers and listeners.
pub fn spellings_are_apart()
    ensures { (nodes : Forest) (others : Forest) → are_fit 1024 nodes ≡ true
        → are_fit 1024 others ≡ true → html nodes ≡ html others → plain nodes ≡ plain others }
{}
