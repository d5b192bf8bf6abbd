// The sixteen slots of a tray, by their number.
ghost use Rattle.std.specs.Prelude.{◌≡◌, ◌<◌, ◌≤◌, [], length, slice_set};
ghost use Rattle.spool.specs.Meaning.{at, over_front};
ghost use Rattle.tray.specs.Slots.{slots_held};

use crate::slot::Slot;

pub(crate) fn count_of(slots: &[Slot; 16]) -> usize
    ensures places { result ≡ length (slots_held slots.now) }
    ensures slots { result ≡ 16 }
{
    slots.len()
}

pub(crate) fn length_at(slots: &[Slot; 16], i: usize) -> usize
    requires { i < 16 }
    ensures { result ≡ length (at i (slots_held slots.now)) }
{
    slots[i].length()
}

pub(crate) fn copy_from(slots: &[Slot; 16], i: usize, buf: &mut [u8])
    requires { (i < 16) × (length (at i (slots_held slots.now)) ≤ length buf.old) }
    ensures { buf.new ≡ over_front (at i (slots_held slots.now)) buf.old }
{
    slots[i].copy_to(buf);
}

pub(crate) fn fill_at(slots: &mut [Slot; 16], i: usize, bytes: &[u8])
    requires { (i < 16) × (length bytes.now ≤ 2048) }
    ensures { slots_held slots.new ≡ slice_set (slots_held slots.old) i bytes.now }
{
    slots[i].put(bytes);
}

pub(crate) fn empty_at(slots: &mut [Slot; 16], i: usize)
    requires { i < 16 }
    ensures { slots_held slots.new ≡ slice_set (slots_held slots.old) i [] }
{
    slots[i].wipe();
}
