//! Slots of nano's blocks: which have their pair in the hand, and which lights are held.

ghost use Rattle.std.specs.Prelude.{◌≡◌, ◌<◌, ◌≤◌, ℕ, Bool, false, not, ◌&&◌, ◌||◌, List, IsTrue};
ghost use Rattle.mz_base.specs.Space.{Block, block_at, page_of};
ghost use Rattle.mz_base.specs.Lists.{has_block};
ghost use Rattle.mz_events.specs.declared.event.Event.TheVariants.{New, End};
ghost use Rattle.mz_events.specs.declared.place.Place.TheVariants.{Nano};
ghost use Rattle.mz_book.specs.declared.light.Light.{Light as light};
ghost use Rattle.mz_book.specs.Lights.{slot_size, slots_of, slot_address, slot_number, page_of_block, light_at, same_light, has_light, add_light, drop_light};
ghost use Rattle.mz_book.specs.Account.{Account, IsOrderly, hand, owns_slot};
ghost use Rattle.mz_book.specs.Calls.{CanMakeSlot, CanEndSlot, CanHoldLight, Notes};

use crate::laws::of_histories;

/// A block in the hand that begins in a page of nano is the pair of its slot there, and where a slot's pair isn't in the hand, no block at
/// its address is. After a new block of nano its slot's pair is in the hand, after the end of one it isn't, and each other slot is as
/// before.
pub fn slots_in_the_hand()
    ensures owned { (s : Account) (b : ℕ) (x : Block) → page_of x.first ≡ page_of_block s.profile b → IsTrue (has_block (hand s) x) →
        IsTrue (owns_slot s b (slot_number x)) }
    ensures fresh { (s : Account) (b j class n a : ℕ) → 1 ≤ class → j < slots_of class → n ≡ slot_size class → a ≡ slot_address s.profile b j n →
        owns_slot s b j ≡ false → has_block (hand s) (block_at a n) ≡ false }
    ensures made { (s t : Account) (a n al k : ℕ) (may : CanMakeSlot s a n al) → Notes s (New Nano a n al) k t → (b j : ℕ) →
        owns_slot t b j ≡ (same_light (light_at b j) (light_at may.block may.slot) || owns_slot s b j) }
    ensures ended { (s t : Account) (a n k : ℕ) (may : CanEndSlot s a n) → IsOrderly s → IsTrue (has_block (hand s) (block_at a n)) → Notes s (End Nano a n) k t → (b j : ℕ) →
        owns_slot t b j ≡ (not (same_light (light_at b j) (light_at may.block (slot_number (block_at a n)))) && owns_slot s b j) }
{
    of_histories();
}

/// A light that is taken is held then, and one that is given back isn't; all others are as before. Where a light that wasn't held is taken
/// and given back, the lights are those of before.
pub fn lights_that_are_held()
    ensures taken { (lights : List light) (l m : light) → has_light (add_light l lights) m ≡ (same_light m l || has_light lights m) }
    ensures given_back { (lights : List light) (l m : light) → has_light (drop_light l lights) m ≡ (not (same_light m l) && has_light lights m) }
    ensures both { (lights : List light) (l : light) → has_light lights l ≡ false → drop_light l (add_light l lights) ≡ lights }
{}

/// A light that a book may take is of one of a block's slots, of which there are at most 1,024.
pub fn lights_are_of_slots()
    ensures { (s : Account) (b j expect : ℕ) → IsOrderly s → CanHoldLight s b j expect → j < 1024 }
{
    of_histories();
}
