// What holds of sessions and of objects in every run.
ghost use Rattle.pss_copies.specs.Ruled.{SessionsAreOwned, HomesAlwaysAgree};

/// In every run the owner of each session is there, no two basic sessions are one owner, a basic session is in no
/// transaction, and no owner has the next number or a higher one.
pub fn sessions_are_owned()
    ensures { SessionsAreOwned }
{}

/// In every run the objects that anyone sees under one serial are of one home: in the catalog, in each owner's view, and in
/// the copies of sessions.
pub fn homes_agree()
    ensures { HomesAlwaysAgree }
{}
