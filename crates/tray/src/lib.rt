// A tray: a spool with sixteen places of its own.

#![tactic(auto)]

mod slot;
mod slots;

ghost use Rattle.std.specs.Prelude.{◌≡◌};
ghost use Rattle.tray.specs.Trays.{empty_tray, tray_held};
ghost use Rattle.tray.specs.Slots.{few_slots, short_slots};

use crate::slot::Slot;
use crate::slots::{copy_from, count_of, empty_at, fill_at, length_at};
use spool::Spool;
use spool::fault::SpoolFault;
use spool::guards::{check_bytes, check_place, check_room};

#[derive(Drop)]
pub struct Tray {
    slots: [Slot; 16],
}

impl Tray {
    // A tray with every place empty.
    pub fn new() -> Tray
        ensures { tray_held result ≡ empty_tray }
    {
        Tray {
            slots: [Slot::empty(); 16],
        }
    }
}

impl Spool for Tray {
    ghost held = { tray_held };

    ghost few = { λ t. few_slots t.slots };

    ghost short = { λ t. short_slots t.slots };

    fn count(&self) -> usize {
        count_of(&self.slots)
    }

    fn length(&self, place: usize) -> Result<usize, SpoolFault> {
        check_place(place, count_of(&self.slots))?;
        Ok(length_at(&self.slots, place))
    }

    fn store(&mut self, place: usize, bytes: &[u8]) -> Result<(), SpoolFault> {
        check_place(place, count_of(&self.slots))?;
        check_bytes(bytes)?;
        fill_at(&mut self.slots, place, bytes);
        Ok(())
    }

    fn clear(&mut self, place: usize) -> Result<(), SpoolFault> {
        check_place(place, count_of(&self.slots))?;
        empty_at(&mut self.slots, place);
        Ok(())
    }

    fn copy_out(&self, place: usize, buf: &mut [u8]) -> Result<usize, SpoolFault> {
        check_place(place, count_of(&self.slots))?;
        let length = length_at(&self.slots, place);
        check_room(length, buf)?;
        copy_from(&self.slots, place, buf);
        Ok(length)
    }
}
