//! What holds of these definitions: each function's contract is a law.

ghost use Rattle.std.specs.Prelude.{◌≡◌, ◌+◌, ◌≤◌, ℕ, true, List, [], ◌++◌, map, length, take, not, Option, Some, IsTrue, Contains};
ghost use Rattle.std.specs.List.{list_all};
ghost use Rattle.mz_base.specs.declared.profile.Profile.{Profile};
ghost use Rattle.mz_base.specs.Space.{Block};
ghost use Rattle.mz_events.specs.declared.entry.Entry.{Entry as entry};
ghost use Rattle.mz_events.specs.State.{opening};
ghost use Rattle.mz_events.specs.History.{AreLawful, after_all};
ghost use Rattle.mz_record.specs.Moments.{state_before, state_at};
ghost use Rattle.mz_record.specs.Bytes.{Bytes, fresh, cleared, filled, linked, kept_in_place, kept_in_move, is_shown_as};
ghost use Rattle.mz_events.specs.Hands.{hand_through};
ghost use Rattle.mz_base.specs.Lists.{drop_block};
ghost use Rattle.std.specs.Option.{option_to_list};
ghost use Rattle.mz_record.specs.Served.{Request, IsServed, Serves, IsUndisturbed, is_dry, first_made, blocks_made};
ghost use Rattle.mz_record.specs.Dropped.{IsDropped};

use mz_events::laws::entries::{lawful_entries_split, tickets_are_indices};
use mz_events::laws::holding::{what_an_event_leaves, what_an_event_reads};

/// As many bytes are known or unknown as the block has.
pub fn byte_counts()
    ensures fresh { (s : ℕ) → length (fresh s) ≡ s }
    ensures cleared { (n : ℕ) (bs : Bytes) → n ≤ length bs → length (cleared n bs) ≡ length bs }
    ensures filled { (s byte : ℕ) → length (filled s byte) ≡ s }
    ensures linked { (off a : ℕ) (bs : Bytes) → off + 8 ≤ length bs → length (linked off a bs) ≡ length bs }
    ensures in_place { (s : ℕ) (bs : Bytes) → length (kept_in_place s bs) ≡ s }
    ensures in_move { (n s : ℕ) (bs : Bytes) → n ≤ s → length (kept_in_move n s bs) ≡ s }
{}

/// A block that keeps its size keeps its bytes, and one that moves to nothing keeps none. Bytes of which
/// nothing is known may be shown as any, and known ones only as they are.
pub fn bytes_are_kept()
    ensures same_size { (bs : Bytes) → kept_in_place (length bs) bs ≡ bs }
    ensures none { (s : ℕ) (bs : Bytes) → kept_in_move 0 s bs ≡ fresh s }
    ensures unknown { (shown : List ℕ) → is_shown_as (fresh (length shown)) shown ≡ true }
    ensures known { (bs shown : List ℕ) → is_shown_as (map (λ b. Some b) bs) shown ≡ true → shown ≡ bs }
{}

/// Nobody disturbs a request that finds no pages dry, and nobody does where there is no other caller.
pub fn undisturbed()
    ensures calm { (p : Profile) (h : List entry) (c : ℕ) (es : List entry) →
        IsTrue (list_all (λ e. not (is_dry e.event)) es) → IsUndisturbed p h c es }
    ensures alone { (p : Profile) (h : List entry) (c : ℕ) (es : List entry) →
        ((x : entry) → Contains h x → x.caller ≡ c) → IsUndisturbed p h c es }
{}

/// What a request gets is the block that its entries make.
pub fn served_is_made()
    ensures { (p : Profile) (h : List entry) (q : Request) (es : List entry) (got : Option Block) → IsServed p h q es got → got ≡ first_made es }
{
    what_an_event_leaves();
    what_an_event_reads();
}

/// The entries of a request make the block that is served and no other, and those that drop a block make none: no flush and no duty does.
pub fn blocks_of_requests()
    ensures served { (p : Profile) (h : List entry) (q : Request) (es : List entry) (got : Option Block) →
        IsServed p h q es got → blocks_made es ≡ option_to_list got }
    ensures dropped { (p : Profile) (h : List entry) (b : Block) (es : List entry) → IsDropped p h b es → blocks_made es ≡ [] }
{
    what_an_event_leaves();
    what_an_event_reads();
}

/// In a history that is lawful as it stands, the state before a ticket is the one after as many entries, and so is the state after the
/// first entries.
pub fn moments()
    ensures before { (p : Profile) (h : List entry) (n : ℕ) → AreLawful p opening h → state_before p h n ≡ after_all p opening (take n h) }
    ensures at { (p : Profile) (h : List entry) (n : ℕ) → AreLawful p opening h → state_at p h n ≡ after_all p opening (take n h) }
{
    tickets_are_indices();
}

/// The entries of a request change their caller's hand in one thing: the block that is served stands behind the others, and one that is
/// dropped is there no more. No flush and no duty changes a hand.
pub fn hands_after_requests()
    ensures served { (p : Profile) (h : List entry) (q : Request) (es : List entry) (got : Option Block) (hand : List Block) →
        IsServed p h q es got → hand_through hand es ≡ hand ++ option_to_list got }
    ensures dropped { (p : Profile) (h : List entry) (b : Block) (es : List entry) (hand : List Block) →
        IsDropped p h b es → hand_through hand es ≡ drop_block b hand }
{
    what_an_event_leaves();
    what_an_event_reads();
}

/// What serves a request or drops a block in a history does so where the history goes on, and the states in it are the same.
pub fn later_entries()
    ensures state { (p : Profile) (h later : List entry) (n : ℕ) →
        AreLawful p opening (h ++ later) → n ≤ length h → state_at p (h ++ later) n ≡ state_at p h n }
    ensures served { (p : Profile) (h later : List entry) (q : Request) (es : List entry) (got : Option Block) →
        AreLawful p opening (h ++ later) → ((e : entry) → Contains es e → Contains h e) →
        Serves p h q es got → Serves p (h ++ later) q es got }
    ensures dropped { (p : Profile) (h later : List entry) (b : Block) (es : List entry) →
        AreLawful p opening (h ++ later) → ((e : entry) → Contains es e → Contains h e) →
        IsDropped p h b es → IsDropped p (h ++ later) b es }
{
    moments();
    tickets_are_indices();
    lawful_entries_split();
}
