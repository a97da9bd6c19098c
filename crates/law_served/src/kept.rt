//! What a patch knows from the start.

ghost use Rattle.rt_model.specs.OneLog.{types};
ghost use Rattle.rt_model.specs.World.{Application};
ghost use Rattle.law_served.specs.Starting.{KeptStarts};

/// A patch whose new block has what is kept of a full old one knows what stays, and has no child
/// scope where one comes new.
pub fn kept_starts<P, C, Q, V, H, T, E, L>()
    ensures { (app : Application (types C Q V H T E L)) → KeptStarts P app }
{}
