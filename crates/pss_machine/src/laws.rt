// Laws over the definitions, for those that prove something above them.
ghost use Rattle.pss_machine.specs.Allowed.{EffectsAreAllowed, StepsAreOfOwners};
ghost use Rattle.pss_machine.specs.AtLimits.{BelowAllLimits, ManyAt256, NoFurtherAt256, AgainAt256, SerialsAtLast, EntriesAt65535, CommitsAt67108864, FullAt67108865, FlushesAt67108864, FlushFullAt67108865};
ghost use Rattle.pss_machine.specs.Attaching.{OnlyOpenHaveAttached, OthersStayAttached, OnlyUsedAreAttached, UsedAreAttached, GivenAreOfObject, RefreshDetachesCopies, DupDetachesNone, ReleaseDetachesLast};
ghost use Rattle.pss_machine.specs.Entries.{BodiesAreAlwaysRight, EntriesAreOrderly};
ghost use Rattle.pss_machine.specs.Laws.{RunsGoOn, RefusalsChangeNothing, FruitlessChangesNoObject};
ghost use Rattle.pss_machine.specs.Granted.{FruitlessKeepsLocks, MarkedIsRolledBack};
ghost use Rattle.pss_machine.specs.Numbers.{SessionsComeOnce, EntriesComeOnce, SessionsStay, EntriesStay};
ghost use Rattle.pss_machine.specs.Owning.{OwnersAreAlwaysTold, LocksAreAlwaysApart};
ghost use Rattle.pss_machine.specs.Worked.{AreAtSmallLimits};

/// A run goes on from where it has come.
pub fn runs_go_on()
    ensures { RunsGoOn }
{}

/// A command that is refused before the catalog is asked changes nothing, nor does a commit without room. One that
/// the catalog does not grant changes no object, no session and no entry, nor what any owner has changed: its owner
/// keeps the locks that it needed, none of which clashed with another owner's, and has done one more command, a create
/// has used its serial, and all else is as before. A commit that is refused because its transaction was marked is a rollback.
pub fn refusals_change_nothing()
    ensures refused { RefusalsChangeNothing }
    ensures fruitless { FruitlessChangesNoObject }
    ensures locked { FruitlessKeepsLocks }
    ensures marked { MarkedIsRolledBack }
{}

/// A step is taken by an owner that is there, within the limits, where no other holds it up, and a create carries
/// the next serial; a commit has room. Each step is that of the operation on the owner's view, or answers a basic
/// owner from a copy.
pub fn effects_are_allowed()
    ensures allowed { EffectsAreAllowed }
    ensures steps { StepsAreOfOwners }
{}

/// In every run an owner has locked what its steps needed and changed what they changed, and no lock of an owner
/// clashes with one of another.
pub fn owners_are_told()
    ensures told { OwnersAreAlwaysTold }
    ensures apart { LocksAreAlwaysApart }
{}

/// Each name of a body that an entry stands on is that of one body, no two bodies have one name, and none is without
/// entries.
pub fn bodies_are_right()
    ensures { BodiesAreAlwaysRight }
{}

/// In every run the numbers of a session's entries rise up to the last one that was given, each object has one entry
/// in it at most, and each entry counts one or more.
pub fn entries_are_orderly()
    ensures { EntriesAreOrderly }
{}

/// In every run the numbers of sessions rise as they come, and so do those of a session's entries: none comes again,
/// also not after what had it went. As long as it is there, a number stands for one session, and in a session for one
/// object; so a session that is opened under the name of one that was closed is another.
pub fn numbers_come_once()
    ensures sessions { SessionsComeOnce }
    ensures entries { EntriesComeOnce }
    ensures same_session { SessionsStay }
    ensures same_object { EntriesStay }
{}

/// In every run only entries of sessions that are basic, active or suspended are attached. After a data command that did
/// what it was asked for, the entry that it gives with its reply (`create`, `make`, `find`, `pid`, `short`, `follow`) is
/// of the object that the reply tells of. It is attached then, and so is the entry that the command names (`get`, `set`,
/// `follow`); where one was not attached before, it stands in the view in which the session then sees the object. No
/// other entry comes to be attached, and an attached one stays so until its body is left: by `end`, `commit` and
/// `rollback` each body of the session or of the transaction's sessions; by `commit` and `flush` the owner's own ones
/// and the committed ones of what changed; by `set` the older ones of the object in the owner's sessions, and by
/// `destroy` all of the object in these; by `refresh` the copies of the session. `dup` detaches none, `release` none but
/// the entry that it takes away, and what `close`, `freeall` and `refresh` do is in their session alone.
pub fn entries_are_attached()
    ensures in_open { OnlyOpenHaveAttached }
    ensures others { OthersStayAttached }
    ensures used { OnlyUsedAreAttached }
    ensures attached { UsedAreAttached }
    ensures given { GivenAreOfObject }
    ensures refreshed { RefreshDetachesCopies }
    ensures dup { DupDetachesNone }
    ensures released { ReleaseDetachesLast }
{}

/// What commands come to at each limit of the program and one below, whatever else is kept: 256 objects that one owner
/// has changed, the last serial of 64 bits, 65,535 entries of one session, and objects of 67,108,864 octets.
///
/// | At the limit | Then | One below |
/// |---|---|---|
/// | 256 objects are changed, and a command would change a further one, be it there or gone | `MANY` | the catalog is asked |
/// | the next serial is 18,446,744,073,709,551,615, and an object is to be made | `SERIALS` | the catalog is asked |
/// | a session has 65,535 entries, and an object is to be obtained | `ENTRIES` | the catalog is asked |
/// | after a commit or flush the objects would take 67,108,865 octets | `FULL` | it is done |
pub fn limits_are_exact()
    ensures below { BelowAllLimits }
    ensures many { ManyAt256 }
    ensures no_further { NoFurtherAt256 }
    ensures again { AgainAt256 }
    ensures serials { SerialsAtLast }
    ensures entries { EntriesAt65535 }
    ensures commits { CommitsAt67108864 }
    ensures full { FullAt67108865 }
    ensures flushes { FlushesAt67108864 }
    ensures flush_full { FlushFullAt67108865 }
    ensures worked { AreAtSmallLimits }
{}
