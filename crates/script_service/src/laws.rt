// Laws of runs over the lines of a script.
ghost use Rattle.script_service.specs.Bounds.{StoredIsBetween};
ghost use Rattle.script_service.specs.Rightful.{RunsAreRight};
ghost use Rattle.script_service.specs.Turns.{LinesAreRun};

use pss_laws::{commands_keep_sound, good_stays_good, runs_are_serial};

/// Lines that are served one after another are a run of the machine from what is there at first: what is kept is what it
/// keeps, and what is spoken are its replies, each with a line feed.
pub fn lines_are_run()
    ensures { LinesAreRun }
{}

/// Every run over lines, under each sound schema and from each good catalog on, is serial: each serializable transaction that was
/// committed answered and changed the catalog as if it ran alone, in the order of commits. Read-committed owners were answered from
/// their own changes, and else from what was committed last. No key ever has two holders, a reference that was followed was there at
/// first or given before, and no serial is given twice.
pub fn runs_are_right()
    ensures { RunsAreRight }
{
    commands_keep_sound();
    runs_are_serial();
}

/// After any lines the next serial that is stored is not above the machine's, and above each serial of an object that was made by a
/// commit that changed something; the objects are a good catalog under it. The function does nothing: its contract is the law.
pub fn stored_is_between()
    ensures { StoredIsBetween }
{
    good_stays_good();
}
