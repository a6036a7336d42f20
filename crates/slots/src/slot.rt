// The number of a slot: of a window, of which there are at most MAX_WINDOWS.

ghost use Rattle.std.specs.Prelude.{◌≡◌, ◌+◌, ◌*◌, ◌<◌, ◌≤◌, MatchOption};
ghost use Rattle.model.specs.Records.{max_windows};
ghost use Rattle.slots.specs.Layout.{slots_place, slot_len};

use crate::{SLOT_LEN, SLOTS};
use model::MAX_WINDOWS;

#[derive(Clone, Copy)]
pub struct Slot {
    pub number: usize,
    ghost within: { number < max_windows },
}

impl Slot {
    // None where there is no such slot.
    pub fn new(k: u32) -> Option<Slot>
        ensures { MatchOption result (max_windows ≤ k) (λ slot. slot.number ≡ k) }
    {
        if k < MAX_WINDOWS {
            Some(Slot { number: k as usize })
        } else {
            None
        }
    }

    // Where the slot starts in the part.
    pub fn place(self) -> usize
        ensures { result ≡ slots_place + slot_len * self.number }
    {
        SLOTS + SLOT_LEN * self.number
    }
}
