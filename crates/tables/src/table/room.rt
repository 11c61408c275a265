//! The room: its clock, its temperature and its phase.
ghost use Rattle.machine.specs.Checks.{first_applying, time_checks, room_checks};
ghost use Rattle.machine.specs.Scenes.{time_scene, room_scene};
ghost use Rattle.tables.specs.Tables.{scene_of, Changes};

use crate::table::{Tables, check_range, check_sheet};
use ranges::{clock_fits, temperature_fits};
use records::{Phase, Refusal, Room};

impl Tables {
    /// Time goes on by some minutes.
    pub fn time(&mut self, sheet: usize, minutes: u32) -> Result<(), Refusal>
        ensures { Changes (first_applying (time_checks (scene_of self.old) sheet minutes)) (time_scene minutes (scene_of self.old)) self.old result self.new }
    {
        check_sheet(sheet)?;
        check_range(clock_fits(minutes))?;
        let clock = self.room.clock + minutes;
        if !clock_fits(clock) {
            return Err(Refusal::ClockSpent);
        }
        self.room.clock = clock;
        Ok(())
    }

    /// The room is as a terminal says: a temperature in tenths of a degree, and a phase.
    pub fn set_room(&mut self, sheet: usize, temperature: i64, phase: u32) -> Result<(), Refusal>
        ensures { Changes (first_applying (room_checks sheet temperature phase)) (room_scene temperature phase (scene_of self.old)) self.old result self.new }
    {
        check_sheet(sheet)?;
        check_range(temperature_fits(temperature))?;
        let phase = Phase::try_from(phase)?;
        self.room = Room {
            temperature,
            phase,
            ..self.room
        };
        Ok(())
    }
}
