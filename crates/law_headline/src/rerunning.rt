//! A rerun from its entry to its end.

ghost use Rattle.rt_model.specs.OneLog.{types};
ghost use Rattle.rt_model.specs.World.{Application};
ghost use Rattle.law_headline.specs.Rerun.{RerunsBring, RerunsClaimOnce, RerunsHidden, RerunsMeet};
ghost use Rattle.law_headline.specs.Rerun.{RerunsKeepNumbers, RerunsKeepSetting, RerunsLeaveOthers};

/// The edits of a rerun never fault, and make what shows after it of what showed before it.
pub fn reruns_bring<C, P, V, H, T, E, L>()
    ensures { (app : Application (types C P V H T E L)) → RerunsBring app }
{}

/// They claim no number twice.
pub fn reruns_claim_once<C, P, V, H, T, E, L>()
    ensures { (app : Application (types C P V H T E L)) → RerunsClaimOnce app }
{}

/// What was drawn before a rerun stands where it stood.
pub fn reruns_keep_numbers<C, P, V, H, T, E, L>()
    ensures { (app : Application (types C P V H T E L)) → RerunsKeepNumbers app }
{}

/// Scopes that are not below the scope that ran stay, and show what they showed.
pub fn reruns_leave_others<C, P, V, H, T, E, L>()
    ensures { (app : Application (types C P V H T E L)) → RerunsLeaveOthers app }
{}

/// A shown scope is shown still, and what stands about its nodes stays.
pub fn reruns_keep_setting<C, P, V, H, T, E, L>()
    ensures { (app : Application (types C P V H T E L)) → RerunsKeepSetting app }
{}

/// After a rerun of a hidden scope the document is what it was.
pub fn reruns_hidden<C, P, V, H, T, E, L>()
    ensures { (app : Application (types C P V H T E L)) → RerunsHidden app }
{}

/// From a shown scope down through all that is fed, the new outputs meet the old ones.
pub fn reruns_meet<C, P, V, H, T, E, L>()
    ensures { (app : Application (types C P V H T E L)) → RerunsMeet app }
{}
