//! How many places each group of 128 blocks has, so that a place that is far away is reached by going over groups.
ghost use Rattle.std.specs.Prelude.{◌≡◌, ◌+◌, ◌/◌, ◌≤◌, ℕ, false, true, slice_get, IfOk, IfSome, Some};
ghost use Rattle.kept_layout.specs.Blocks.{footprints_of};
ghost use Rattle.kept_layout.specs.Kept.{IsRoom, AreRooms, IsLaid};

use crate::block::Block;
use crate::kept::KeptLayout;
use listing_parser::Memory;
use std::alloc::Global;

/// How many blocks a group has.
const GROUP: usize = 128;

/// How many places each full group of blocks has.
pub(crate) fn find_rooms(alloc: Global, blocks: &[Block]) -> Result<Vec<usize>, Memory>
    ensures { IfOk result (λ v. AreRooms v.items (footprints_of blocks.now)) }
{
    let mut rooms = Vec::new(alloc);
    let mut start = 0;
    let mut room: usize = 0;
    for number in 0..blocks.len() {
        room = room.checked_add(blocks[number].places).ok_or(Memory)?;
        if number - start < GROUP - 1 {
            continue;
        }
        rooms.push(room)?;
        start = number + 1;
        room = 0;
    }
    Ok(rooms)
}

/// Subtracts `gone` from the places of the group in which a block is.
pub(crate) fn take_places(rooms: &mut Vec<usize>, number: usize, gone: usize)
    requires { (r : ℕ) → slice_get rooms.old.items (number / 128) ≡ Some r → gone ≤ r }
    ensures own { (r : ℕ) → slice_get rooms.new.items (number / 128) ≡ Some r → slice_get rooms.old.items (number / 128) ≡ Some (r + gone) }
    ensures others { (g : ℕ) → (g ≡ number / 128 → ⊥) → slice_get rooms.new.items g ≡ slice_get rooms.old.items g }
{
    let group = number / GROUP;
    if group < rooms.len() {
        rooms[group] -= gone;
    }
}

impl KeptLayout {
    /// How many places the full group has that begins at a block, if one does.
    fn room(&self, number: usize) -> Option<usize>
        requires { IsLaid self.now }
        ensures { IfSome result (λ r. IsRoom (footprints_of self.now.blocks.items) number r) }
    {
        let group = number / GROUP;
        if number % GROUP == 0 && group < self.rooms.len() {
            Some(self.rooms[group])
        } else {
            None
        }
    }

    /// Moves the current block on by a group, if a full one begins there that doesn't reach the place, and a block follows it. Answers whether it moved.
    pub(crate) fn leap_on(&mut self, place: usize) -> bool
        requires laid { IsLaid self.old }
        requires from { self.old.first ≤ place }
        ensures laid { IsLaid self.new }
        ensures blocks { self.new.blocks.items ≡ self.old.blocks.items }
        ensures base { self.new.base ≡ self.old.base }
        ensures from { self.new.first ≤ place }
        ensures on { result ≡ true → self.new.here ≡ self.old.here + 128 }
        ensures stays { result ≡ false → self.new ≡ self.old }
    {
        let here = self.here;
        let Some(room) = self.room(here) else {
            return false;
        };
        if self.blocks.len() - here <= GROUP || place - self.first < room {
            return false;
        }
        self.first += room;
        self.here = here + GROUP;
        true
    }

    /// Moves the current block back by a group, if a full one ends right before it and begins after the place. Answers whether it moved.
    pub(crate) fn leap_back(&mut self, place: usize) -> bool
        requires { IsLaid self.old }
        ensures laid { IsLaid self.new }
        ensures blocks { self.new.blocks.items ≡ self.old.blocks.items }
        ensures base { self.new.base ≡ self.old.base }
        ensures back { result ≡ true → self.new.here + 128 ≡ self.old.here }
        ensures stays { result ≡ false → self.new ≡ self.old }
    {
        if self.here < GROUP {
            return false;
        }
        let here = self.here - GROUP;
        let Some(room) = self.room(here) else {
            return false;
        };
        if self.first - room <= place {
            return false;
        }
        self.first -= room;
        self.here = here;
        true
    }
}
