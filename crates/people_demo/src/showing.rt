// Lines are served without speaking their replies.
ghost use Rattle.std.specs.Prelude.{◌≡◌, ◌≤◌, ◌<◌, ◌+◌, ◌∷◌, [], length};
ghost use Rattle.pss_disk.specs.Moments.{IsSettled};
ghost use Rattle.line_service.specs.Turns.{IsLine};
ghost use Rattle.people_demo.specs.Lines as plain;
ghost use Rattle.people_demo.specs.inner.Serving.{Serves};
ghost use Rattle.people_demo.specs.inner.Short.{AreLines};
ghost use Rattle.people_demo.specs.inner.Showing.{MayServe};

use crate::lines::{counting, opening, round_lines};
use crate::numbers::{chosen, following};
use crate::tally::Tally;
use connector::Connector;
use pss_base::{LineStep, StoreStop};
use pss_disk::Station;
use script_service::reply_to;
use std::alloc::Global;

/// The connector of a demonstration, and what it replied so far.
#[derive(Drop)]
pub struct Show {
    pub alloc: Global,
    pub connector: Connector,
    pub tally: Tally,
}

// The boss of a round: none in the first.
fn boss_of(round: u32, number: u32) -> Option<u32>
    requires some { 1 ≤ round }
    requires number { number ≡ plain.drawn round }
    ensures { result ≡ plain.boss_of round }
{
    if round == 1 {
        None
    } else {
        Some(chosen(number, round))
    }
}

impl Show {
    // One line.
    fn serve_line<W: Station>(&mut self, station: &mut W, line: &LineStep) -> Result<(), StoreStop>
        requires line { IsLine line.now }
        requires may { MayServe self.old (W.content station.old) 1 }
        requires settled { IsSettled (W.content station.old) (W.now station.old) }
        ensures { Serves W.now W.history W.content W.disk_faults W.speak_faults (line.now ∷ []) result station.old station.new self.old self.new }
    {
        match reply_to(&mut self.connector, line, station) {
            Ok(reply) => {
                self.tally.add_answer(&reply);
                Ok(())
            }
            Err(stop) => Err(stop),
        }
    }

    // Lines, one after the other.
    fn serve<W: Station>(&mut self, station: &mut W, lines: &[LineStep]) -> Result<(), StoreStop>
        requires lines { AreLines lines.now }
        requires may { MayServe self.old (W.content station.old) (length lines.now) }
        requires settled { IsSettled (W.content station.old) (W.now station.old) }
        ensures { Serves W.now W.history W.content W.disk_faults W.speak_faults lines.now result station.old station.new self.old self.new }
    {
        for line in lines {
            self.serve_line(station, line)?;
        }
        Ok(())
    }

    // The lines that come before all rounds.
    fn serve_opening<W: Station>(&mut self, station: &mut W) -> Result<(), StoreStop>
        requires may { MayServe self.old (W.content station.old) 2 }
        requires settled { IsSettled (W.content station.old) (W.now station.old) }
        ensures { Serves W.now W.history W.content W.disk_faults W.speak_faults plain.opening result station.old station.new self.old self.new }
    {
        let lines = opening(self.alloc)?;
        self.serve(station, &lines)
    }

    // The lines of a round, for which this number was drawn.
    fn serve_round<W: Station>(
        &mut self,
        station: &mut W,
        round: u32,
        number: u32,
    ) -> Result<(), StoreStop>
        requires some { 1 ≤ round }
        requires few { round ≤ 1000 }
        requires number { number ≡ plain.drawn round }
        requires may { MayServe self.old (W.content station.old) 10 }
        requires settled { IsSettled (W.content station.old) (W.now station.old) }
        ensures { Serves W.now W.history W.content W.disk_faults W.speak_faults (plain.round_lines round (plain.boss_of round)) result station.old station.new self.old self.new }
    {
        let lines = round_lines(self.alloc, round, boss_of(round, number))?;
        self.serve(station, &lines)
    }

    // The lines of so many rounds.
    fn serve_rounds<W: Station>(&mut self, station: &mut W, rounds: u32) -> Result<(), StoreStop>
        requires few { rounds ≤ 1000 }
        requires may { MayServe self.old (W.content station.old) 10000 }
        requires settled { IsSettled (W.content station.old) (W.now station.old) }
        ensures { Serves W.now W.history W.content W.disk_faults W.speak_faults (plain.as_lines (plain.rounds_texts rounds)) result station.old station.new self.old self.new }
    {
        let mut number = 1;
        for round in 0..rounds {
            number = following(number);
            self.serve_round(station, round + 1, number)?;
        }
        Ok(())
    }

    // The line that comes behind all rounds.
    fn serve_counting<W: Station>(&mut self, station: &mut W) -> Result<(), StoreStop>
        requires may { MayServe self.old (W.content station.old) 1 }
        requires settled { IsSettled (W.content station.old) (W.now station.old) }
        ensures { Serves W.now W.history W.content W.disk_faults W.speak_faults plain.counting result station.old station.new self.old self.new }
    {
        let lines = counting(self.alloc)?;
        self.serve(station, &lines)
    }

    /// All lines of so many rounds. Nothing is spoken.
    pub fn serve_all<W: Station>(&mut self, station: &mut W, rounds: u32) -> Result<(), StoreStop>
        requires few { rounds ≤ 1000 }
        requires may { MayServe self.old (W.content station.old) 10003 }
        requires settled { IsSettled (W.content station.old) (W.now station.old) }
        ensures { Serves W.now W.history W.content W.disk_faults W.speak_faults (plain.demo_lines rounds) result station.old station.new self.old self.new }
    {
        self.serve_opening(station)?;
        self.serve_rounds(station, rounds)?;
        self.serve_counting(station)?;
        Ok(())
    }
}
