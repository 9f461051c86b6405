// Frames that a unit takes from its receive queue.
ghost use Rattle.std.specs.Prelude.{◌≡◌, ◌<◌, ◌≤◌, ◌^◌, IfOk, IsSome, OnOk};
ghost use Rattle.boot_text.specs.declared.verb.Verb.TheVariants as verbs;
ghost use Rattle.lan_buffers.specs.Answers.{IfFrame};
ghost use Rattle.lan_script.specs.LineSays.{TellsNoFrame};
ghost use Rattle.lan_script.specs.PortCounts.{CountsOn, CountsStep, TakesSome, counts};
ghost use Rattle.lan_script.specs.Taking.{TakesUpTo, harvested_on, taken_on};
ghost use Rattle.lan_script.specs.Replayed.{SameReplays};
ghost use Rattle.lan_script.specs.Resting.{IsNoHarvest, OnMoved, OnNothing, OnQuiet, ReadsAs, reads_found, reads_told};
ghost use Rattle.lan_script.specs.Seats.{TellsOfPort, seat_at};

use crate::lan::Lan;
use crate::lines::PortStep;
use lan_buffers::Harvest;
use vio_num::{Moved, NoMemory, UnitId};
use vio_trace::Outcome;

// What a look at a receive queue found.
#[derive(Clone, Copy, Debug, PartialEq, Eq)]
pub(crate) enum Taken {
    // A frame, which was taken.
    Frame,
    // A buffer without a frame, which was taken.
    Blank,
    // No entry, or no queue.
    Nothing,
}

impl Lan {
    /// One step of taking `count` frames, of which `done` were taken before: until there is no receive entry, or as
    /// many were taken as the queue has slots. Blank entries do not count as frames.
    pub(crate) fn take_line(
        &mut self,
        unit: UnitId,
        count: u64,
        done: u64,
    ) -> Result<PortStep, NoMemory>
        requires there { IsSome (seat_at self.old.seats unit) }
        ensures seats { self.new.seats ≡ self.old.seats }
        ensures none { IfOk result TellsNoFrame }
        ensures frames { self.new.frames ≡ self.old.frames }
        ensures counts { IfOk result (λ step.
            CountsStep unit (verbs.Take count) done step self.old self.new) }
        ensures within { IfOk result (TakesUpTo count done) }
        ensures replays { OnOk result (SameReplays self.old self.new) }
        ensures places { self.new.places ≡ self.old.places }
        ensures told { IfOk result TellsOfPort }
    {
        let mut done = done;
        let mut moved = Moved::Quiet;
        if done >= count {
            return Ok(PortStep::Ends(Outcome::Took(done)));
        }
        for _entry in 0..self.seat(unit).slots {
            match self.take_one(unit)? {
                Taken::Frame => {
                    moved = Moved::Moved;
                    done = done.saturating_add(1);
                    if done >= count {
                        return Ok(PortStep::Ends(Outcome::Took(done)));
                    }
                }
                Taken::Blank => moved = Moved::Moved,
                Taken::Nothing => return Ok(PortStep::Waits { moved, done }),
            }
        }
        Ok(PortStep::Waits { moved, done })
    }

    /// Takes all that stands in the receive queue of the unit at this place, at most as many entries as it has slots.
    pub fn take_rest(&mut self, unit: UnitId) -> Result<Moved, NoMemory>
        requires there { IsSome (seat_at self.old.seats unit) }
        ensures seats { self.new.seats ≡ self.old.seats }
        ensures frames { self.new.frames ≡ self.old.frames }
        ensures counts { OnOk result (TakesSome unit self.old self.new) }
        ensures replays { OnOk result (SameReplays self.old self.new) }
        ensures nothing { IfOk result (λ moved. OnQuiet unit moved self.old self.new) }
        ensures moved { IfOk result (λ moved. OnMoved unit moved self.old self.new) }
        ensures places { self.new.places ≡ self.old.places }
    {
        let mut moved = Moved::Quiet;
        for _entry in 0..self.slots(unit) {
            match self.take_one(unit)? {
                Taken::Frame | Taken::Blank => moved = Moved::Moved,
                Taken::Nothing => return Ok(moved),
            }
        }
        Ok(moved)
    }

    // Takes the next receive entry of the unit at this place, if it is registered.
    fn take_one(&mut self, unit: UnitId) -> Result<Taken, NoMemory>
        requires there { IsSome (seat_at self.old.seats unit) }
        ensures seats { self.new.seats ≡ self.old.seats }
        ensures frames { self.new.frames ≡ self.old.frames }
        ensures replays { OnOk result (SameReplays self.old self.new) }
        ensures nothing { IfOk result (λ taken. OnNothing unit taken self.old self.new) }
        ensures reads { IfOk result (λ taken. ReadsAs unit taken self.old self.new) }
        ensures places { self.new.places ≡ self.old.places }
        ensures counts { IfOk result (λ taken.
            CountsOn unit (counts 0 0) (taken_on taken) self.old self.new) }
    {
        if !self.is_open(unit) {
            return Ok(Taken::Nothing);
        }
        self.make_room(unit)?;
        Ok(kind_of(self.switch.harvest(unit)))
    }
}

// Says what a harvest found.
fn kind_of(harvest: Harvest) -> Taken
    ensures found { taken_on result ≡ harvested_on harvest }
    ensures nothing { result ≡ Taken.Nothing → IsNoHarvest harvest }
    ensures reads { reads_found result ≡ reads_told harvest }
    ensures short { IfFrame harvest (λ number len correlator. len < 2 ^ 32) }
{
    match harvest {
        Harvest::Frame {
            number: _,
            len: _,
            correlator: _,
        } => Taken::Frame,
        Harvest::Blank {
            number: _,
            correlator: _,
        } => Taken::Blank,
        Harvest::Nothing { number: _, high: _ } => Taken::Nothing,
    }
}
