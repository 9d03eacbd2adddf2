// The demonstration.
ghost use Rattle.std.specs.Prelude.{◌≡◌, ◌<◌, ◌≤◌, ◌⊎◌, List, ℕ, Err, IfErr, IfOk, IfSome, OnOk, false, length};
ghost use Rattle.std.specs.declared.option.Option.{Option};
ghost use Rattle.pss_base.specs.Causes.{HasCauseIf};
ghost use Rattle.pss_disk.specs.Moments.{IsSettled, Through};
ghost use Rattle.pss_disk.specs.Reading.{OnlyReads};
ghost use Rattle.pss_recovery.specs.Silence.{IsSilent};
ghost use Rattle.line_service.specs.Turns.{IsWhole};
ghost use Rattle.store_refusals.specs.Lines.{WasEmpty};
ghost use Rattle.people_demo.specs.People as plain;
ghost use Rattle.people_demo.specs.Shows.{HoldsShown, IsShownLine, Shows, is_disk_fault, is_speak_fault};
ghost use Rattle.people_demo.specs.Tally.{demo_line};
ghost use Rattle.people_demo.specs.declared.demo.DemoStop.TheVariants as stop;
ghost use Rattle.people_demo.specs.inner.Begun.{Begins, IsMade, IsNew, ShowsNothing};
ghost use Rattle.people_demo.specs.inner.Begun as begun;
ghost use Rattle.people_demo.specs.inner.Telling.{IsToldAt, Tells};

use crate::schema::people;
use crate::showing::Show;
use crate::tally::{Tally, print_tally};
use connector::Connector;
use line_service::speak;
use pss_base::{NoMemory, StoreStop};
use pss_disk::Station;
use pss_machine::Limits;
use pss_recovery::{
    InitFault, MountFault, Mounted, Store, a_mounted_store_stands, an_image_is_one_thing,
};
use std::alloc::Global;
use store_refusals::{StoreRefusal, refusal};
use type_layout::{Schema, shape_of};

/// Why a demonstration ends before its line is spoken.
#[derive(Clone, Copy, Drop)]
pub enum DemoStop {
    /// The file has octets. Nothing was written.
    NotEmpty,
    /// The store that was made is refused. It does not come where the station tells its content.
    Refused(StoreRefusal),
    /// The disk failed.
    DiskFault,
    /// Speech failed: some first bytes of the line were spoken.
    SpeakFault,
    /// There was no memory.
    NoMemory,
}

fn of_store(stop: StoreStop) -> DemoStop
    ensures { result ≡ begun.of_store stop }
{
    match stop {
        StoreStop::DiskFault => DemoStop::DiskFault,
        StoreStop::NoMemory => DemoStop::NoMemory,
    }
}

fn of_init(fault: InitFault) -> DemoStop
    ensures { result ≡ begun.of_init fault }
{
    match fault {
        InitFault::NotEmpty => DemoStop::NotEmpty,
        InitFault::DiskFault => DemoStop::DiskFault,
        InitFault::NoMemory => DemoStop::NoMemory,
    }
}

fn of_mount(fault: MountFault) -> DemoStop
    ensures { result ≡ begun.of_mount fault }
{
    match refusal(fault) {
        Ok(why) => DemoStop::Refused(why),
        Err(stop) => of_store(stop),
    }
}

// Makes a store of people in an empty file.
fn init<W: Station>(alloc: Global, station: &mut W, schema: &Schema) -> Result<(), DemoStop>
    requires schema { schema.now ≡ plain.people }
    ensures made { OnOk result (IsNew (W.content station.old) (W.content station.new)) }
    ensures ended { IfErr result (λ why. ShowsNothing why (W.content station.old) (W.content station.new)) }
    ensures silent { IsSilent W.now W.history W.speak_faults station.old station.new }
    ensures disk { HasCauseIf (W.disk_faults station.old) (W.disk_faults station.new) (is_disk_fault result) }
    ensures filled { IfSome (W.content station.old) (λ octets. 0 < length octets → OnlyReads W.now W.content W.history W.speak_faults station.old station.new) }
{
    let Ok(shape) = shape_of(alloc, schema) else {
        return Err(DemoStop::NoMemory);
    };
    match Store::init(alloc, station, &shape) {
        Ok(()) => Ok(()),
        Err(fault) => Err(of_init(fault)),
    }
}

// Mounts a store of people that was made.
fn mount<W: Station>(alloc: Global, station: &mut W, schema: &Schema) -> Result<Mounted, DemoStop>
    requires schema { schema.now ≡ plain.people }
    ensures made { IfOk result (λ mounted. (held : Option (List ℕ)) → IsNew held (W.content station.old) → IsMade held (W.content station.new) mounted) }
    ensures ended { IfErr result (λ why. (held : Option (List ℕ)) → IsNew held (W.content station.old) → ShowsNothing why held (W.content station.new)) }
    ensures settled { OnOk result (IsSettled (W.content station.new) (W.now station.new)) }
    ensures silent { IsSilent W.now W.history W.speak_faults station.old station.new }
    ensures disk { HasCauseIf (W.disk_faults station.old) (W.disk_faults station.new) (is_disk_fault result) }
{
    an_image_is_one_thing();
    match Store::mount(alloc, station, schema) {
        Ok(mounted) => Ok(mounted),
        Err(fault) => Err(of_mount(fault)),
    }
}

// Makes a store of people in an empty file, and mounts it.
fn make_store<W: Station>(
    alloc: Global,
    station: &mut W,
    schema: &Schema,
) -> Result<Mounted, DemoStop>
    requires schema { schema.now ≡ plain.people }
    ensures made { IfOk result (IsMade (W.content station.old) (W.content station.new)) }
    ensures ended { IfErr result (λ why. ShowsNothing why (W.content station.old) (W.content station.new)) }
    ensures settled { OnOk result (IsSettled (W.content station.new) (W.now station.new)) }
    ensures silent { IsSilent W.now W.history W.speak_faults station.old station.new }
    ensures disk { HasCauseIf (W.disk_faults station.old) (W.disk_faults station.new) (is_disk_fault result) }
    ensures filled { IfSome (W.content station.old) (λ octets. 0 < length octets → OnlyReads W.now W.content W.history W.speak_faults station.old station.new) }
{
    match init(alloc, station, schema) {
        Ok(()) => mount(alloc, station, schema),
        Err(stop) => Err(stop),
    }
}

// A show over what was mounted, in which nothing was done yet.
fn open(alloc: Global, schema: Schema, mounted: Mounted) -> Result<Show, NoMemory>
    requires schema { schema ≡ plain.people }
    requires made { (held : Option (List ℕ)) × (holds : Option (List ℕ)) × IsMade held holds mounted }
    ensures { IfOk result (λ show. (held holds : Option (List ℕ)) → IsMade held holds mounted → Begins held holds show) }
{
    let connector = Connector::new(alloc, schema, mounted, Limits::standard())?;
    Ok(Show {
        alloc,
        connector,
        tally: Tally::new(),
    })
}

// A show over a store that is made in an empty file.
fn begin<W: Station>(alloc: Global, station: &mut W) -> Result<Show, DemoStop>
    ensures begun { IfOk result (Begins (W.content station.old) (W.content station.new)) }
    ensures ended { IfErr result (λ why. ShowsNothing why (W.content station.old) (W.content station.new)) }
    ensures settled { OnOk result (IsSettled (W.content station.new) (W.now station.new)) }
    ensures silent { IsSilent W.now W.history W.speak_faults station.old station.new }
    ensures disk { HasCauseIf (W.disk_faults station.old) (W.disk_faults station.new) (is_disk_fault result) }
    ensures filled { IfSome (W.content station.old) (λ octets. 0 < length octets → OnlyReads W.now W.content W.history W.speak_faults station.old station.new) }
{
    let Ok(schema) = people(alloc) else {
        return Err(DemoStop::NoMemory);
    };
    match make_store(alloc, station, &schema) {
        Ok(mounted) => match open(alloc, schema, mounted) {
            Ok(show) => Ok(show),
            Err(_) => Err(DemoStop::NoMemory),
        },
        Err(stop) => Err(stop),
    }
}

// Serves the lines of so many rounds over a store of people that is made in an empty file.
fn run_rounds<W: Station>(alloc: Global, station: &mut W, rounds: u32) -> Result<Tally, DemoStop>
    requires few { rounds ≤ 1000 }
    ensures shown { IfOk result (λ tally. IsShownLine rounds (W.content station.old) (demo_line rounds tally)) }
    ensures stands { OnOk result (HoldsShown rounds (W.content station.old) (W.content station.new)) }
    ensures empty { OnOk result (WasEmpty (W.content station.old)) }
    ensures ended { IfErr result (λ why. ShowsNothing why (W.content station.old) (W.content station.new)) }
    ensures settled { OnOk result (IsSettled (W.content station.new) (W.now station.new)) }
    ensures silent { IsSilent W.now W.history W.speak_faults station.old station.new }
    ensures disk { HasCauseIf (W.disk_faults station.old) (W.disk_faults station.new) (is_disk_fault result) }
    ensures filled { IfSome (W.content station.old) (λ octets. 0 < length octets → OnlyReads W.now W.content W.history W.speak_faults station.old station.new) }
{
    a_mounted_store_stands();
    match begin(alloc, station) {
        Ok(mut show) => match show.serve_all(station, rounds) {
            Ok(()) => Ok(show.tally),
            Err(stop) => Err(of_store(stop)),
        },
        Err(stop) => Err(stop),
    }
}

// Speaks what so many rounds came to, in one call.
fn tell<W: Station>(
    alloc: Global,
    station: &mut W,
    rounds: u32,
    tally: Tally,
) -> Result<(), DemoStop>
    ensures told { Tells result (demo_line rounds tally) (W.now station.old).spoken (W.now station.new).spoken }
    ensures content { W.content station.new ≡ W.content station.old }
    ensures disk_stays { (W.now station.new).disk ≡ (W.now station.old).disk }
    ensures moments { Through (W.history station.old) (W.history station.new)
        (λ m. IsToldAt result (demo_line rounds tally) (W.now station.old).spoken (W.now station.new).spoken m.spoken) }
    ensures disk { W.disk_faults station.new ≡ W.disk_faults station.old }
    ensures fault { is_disk_fault result ≡ false }
    ensures speech { HasCauseIf (W.speak_faults station.old) (W.speak_faults station.new) (is_speak_fault result) }
{
    let Ok(line) = print_tally(alloc, rounds, tally) else {
        return Err(DemoStop::NoMemory);
    };
    match speak(station, line.as_slice()) {
        Ok(()) => Ok(()),
        Err(_) => Err(DemoStop::SpeakFault),
    }
}

/// Makes a store of people in an empty file, and serves the lines of so many rounds over it without speaking their replies; then
/// speaks how many rounds and replies there were, how many of these begin with `OK`, and how many people are counted.
pub fn run_demo<W: Station>(alloc: Global, rounds: u32, station: &mut W) -> Result<(), DemoStop>
    requires some { 1 ≤ rounds }
    requires few { rounds ≤ 1000 }
    ensures shows { Shows rounds result (W.now station.old).spoken (W.now station.new).spoken (W.content station.old) (W.content station.new) }
    // After `Ok` nothing is pending.
    ensures settled { OnOk result (IsSettled (W.content station.new) (W.now station.new)) }
    // At each moment nothing was spoken or the whole line, but where speech failed.
    ensures moments { (line : List ℕ) × IsShownLine rounds (W.content station.old) line × Through (W.history station.old) (W.history station.new)
        (λ m. IsWhole line (W.now station.old).spoken m.spoken ⊎ ((result ≡ Err stop.SpeakFault) × (m.spoken ≡ (W.now station.new).spoken))) }
    ensures disk { HasCauseIf (W.disk_faults station.old) (W.disk_faults station.new) (is_disk_fault result) }
    ensures speech { HasCauseIf (W.speak_faults station.old) (W.speak_faults station.new) (is_speak_fault result) }
    // A file that has octets was only read, whatever the answer.
    ensures filled { IfSome (W.content station.old) (λ octets. 0 < length octets → OnlyReads W.now W.content W.history W.speak_faults station.old station.new) }
{
    match run_rounds(alloc, station, rounds) {
        Ok(tally) => tell(alloc, station, rounds, tally),
        Err(stop) => Err(stop),
    }
}
