// Laws of single operations and of turns.
ghost use Rattle.pss_laws.specs.Good.{EmptyIsGood, GoodStaysGood};
ghost use Rattle.pss_laws.specs.Operations.{AnswersAreAlike, ChangesAreNeeded, ChangesLeaveAlike, AlikeAfterBoth, UniqueStaysUnique, OnlyCreatesGive};
ghost use Rattle.pss_laws.specs.Asked.{CommandsAskOfHomes};
ghost use Rattle.pss_laws.specs.Runs.{RunsAreSerial, HistoryLeadsToCatalog, KeysAreAlwaysUnique, ReadsAreOwnOrLast, RunsAreLive, CommitsAreCounted, MembersChanged, NextRunsAreSerial};
ghost use Rattle.pss_laws.specs.Storable.{OwnersAreStorable};
ghost use Rattle.pss_laws.specs.Worked.{HistoryIsWorked, TraceIsWorked, FirstIsAlone, LastIsAlone, CatalogIsWorked};
ghost use Rattle.pss_laws.specs.Sound.{CommandsKeepSound, RunsStaySound, GoodHasGiven, ChangedObjectsAreLocked, ChangedKeysAreLocked, ChangedExtentsAreLocked, LockedStaysAlike};

/// What single operations owe, whoever asks for them. On two catalogs that are alike in all that an operation needs
/// to read or to write, it answers, changes and needs the same. It changes nothing but what it needs to write. It
/// gives no key a second holder, and only a create gives a new object.
pub fn operations_owe()
    ensures alike { AnswersAreAlike }
    ensures needed { ChangesAreNeeded }
    ensures unique { UniqueStaysUnique }
    ensures left { ChangesLeaveAlike }
    ensures both { AlikeAfterBoth }
    ensures created { OnlyCreatesGive }
{}

/// Every command keeps what is kept sound, whatever it comes to, and so does every run: keys are unique in the catalog
/// and in each owner's view of it, no two owners' locks clash, each view is as the catalog at whatever its owner has
/// not locked to be changed, and no object has a serial that was not given.
pub fn commands_keep_sound()
    ensures commands { CommandsKeepSound }
    ensures runs { RunsStaySound }
    ensures good { GoodHasGiven }
{}

/// What follows for one sound owner, and for two. It has locked to be written each object that it has changed, and
/// each key with the bytes that came to an object or went from one, and it may add to and take from each home of
/// which an object came or went. What one owner has locked to be read or written is in each other's view as in the
/// catalog.
pub fn changes_are_locked()
    ensures objects { ChangedObjectsAreLocked }
    ensures keys { ChangedKeysAreLocked }
    ensures extents { ChangedExtentsAreLocked }
    ensures others { LockedStaysAlike }
{}

/// Every run is serial, under each sound schema, from each catalog with unique keys that has only serials which were
/// given. Each serializable member of its history answers and changes the catalog as if it ran alone, from the catalog
/// that the members before it leave. No key has two holders after any of them, and after all of them the catalog is
/// that of the machine. Read-committed owners are answered from their own changes, and else from what was committed
/// last. A reference that is followed, or nil, was there at first, or a create or a set gave it before, and no serial is
/// given twice. As many commits are counted as the history has members, each of which changed an object or is
/// serializable. Runs that follow one another are serial together, where each begins from what the first members of
/// the history before it leave, as after a crash.
pub fn runs_are_serial()
    ensures serial { RunsAreSerial }
    ensures last { HistoryLeadsToCatalog }
    ensures unique { KeysAreAlwaysUnique }
    ensures reads { ReadsAreOwnOrLast }
    ensures live { RunsAreLive }
    ensures counted { CommitsAreCounted }
    ensures changed { MembersChanged }
    ensures again { NextRunsAreSerial }
{}

/// Under a sound schema, commands count and list objects only of homes that are there.
pub fn commands_ask_of_homes()
    ensures { CommandsAskOfHomes }
{}

/// After every line of a run from a good catalog, under a sound schema and limits that are not above the store's, the
/// catalog is good under the next serial. At any time the net changes of each owner are none or may be stored: one at
/// least and few at most, by rising serials, each of an object that is fine, in the home that it had, or of one that is
/// there, and keys are unique after them. A catalog without objects is good.
pub fn good_stays_good()
    ensures good { GoodStaysGood }
    ensures storable { OwnersAreStorable }
    ensures empty { EmptyIsGood }
{}

/// A run of fourteen lines that is worked out line by line, and what the laws say of it. Two serializable transactions
/// commit, and a basic session flushes between them. The history and the trace are those that are written out. The
/// first transaction by itself, where no object is there, and the last, where those of the two commits before it are,
/// answer what they answered and leave the catalog that they left; at the end that of the last is there.
pub fn worked_run_is_serial()
    ensures history { HistoryIsWorked }
    ensures trace { TraceIsWorked }
    ensures first { FirstIsAlone }
    ensures last { LastIsAlone }
    ensures catalog { CatalogIsWorked }
{}
