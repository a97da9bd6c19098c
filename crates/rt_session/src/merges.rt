//! A merge of code's messages is one of the definitions'.
ghost use Rattle.rt_session.specs.Merges.{MergesAgree};

/// Messages that are a merge of posts, as the inbox says it, are one as the definitions say it.
pub fn merges_agree()
    ensures { MergesAgree }
{}
