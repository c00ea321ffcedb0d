//! The live blocks by address.

ghost use Rattle.std.specs.Prelude.{◌≡◌, [], ◌∷◌, List, map, IfOk};
ghost use Rattle.std.specs.List.Sorted.{IsPermutation, IsNonDecreasingBy};
ghost use Rattle.mz_base.specs.Limits.{IsWithinLimits};
ghost use Rattle.mz_events.specs.declared.entry.Entry.{Entry as entry};
ghost use Rattle.mz_events.specs.State.{opening};
ghost use Rattle.mz_events.specs.History.{AreLawful, after_all};
ghost use Rattle.mz_lawful.specs.Standing.{Standing, default_zone};
ghost use Rattle.mz_lawful.specs.Tail.{listing_of};
ghost use Rattle.mz_session.specs.Listing.{listed_in};
ghost use Rattle.mz_session.specs.ListingLaws.{ListingLaws};
ghost use Rattle.mz_session.specs.Sessions.{IsForOne};
ghost use Rattle.mz_session.specs.Listing.{AreLive};

use crate::block::Block;
use mz_base::{PAGE, Profile, Range, ZoneName, route};
use mz_book::laws::live::{live_blocks_stand_once, runs_are_in_zones};
use mz_events::laws::{separation, states};
use mz_trace::Listed;
use std::alloc::{AllocError, Global};

/// The live blocks of a history as they are listed, all in the zone default of a space for one caller.
pub(crate) fn listing(
    alloc: Global,
    p: &Profile,
    blocks: &[Block],
) -> Result<Vec<Listed>, AllocError>
    requires limits { IsWithinLimits p.now }
    requires for_one { IsForOne p.now }
    ensures { IfOk result (λ list. (es : List entry) (v : Standing) → AreLawful p.now opening es → AreLive blocks.now (after_all p.now opening es) → v.zones ≡ (0, default_zone) ∷ [] → list.items ≡ listing_of v (after_all p.now opening es)) }
{
    of_listings();
    let zone = ZoneName::new(b"default").unwrap();
    let mut list = list_in_turn(alloc, p, blocks, zone)?;
    sort(&mut list);
    Ok(list)
}

// The laws of histories on which this rests hold, all together.
fn of_listings()
    ensures { ListingLaws }
{
    live_blocks_stand_once();
    runs_are_in_zones();
    separation::separation();
    separation::live_blocks_are_ascending();
    separation::runs_fit_the_space();
    separation::live_blocks_have_their_forms();
    states::spots_stand_once();
    states::lists_are_by_spot();
}

// The blocks as they are listed, in their order.
fn list_in_turn(
    alloc: Global,
    p: &Profile,
    blocks: &[Block],
    zone: ZoneName,
) -> Result<Vec<Listed>, AllocError>
    requires limits { IsWithinLimits p.now }
    ensures { IfOk result (λ v. v.items ≡ map (listed_in p.now zone) blocks.now) }
{
    blocks.iter().map(|b| listed(p, *b, zone)).collect(alloc)
}

// Sorts what is listed by address.
fn sort(list: &mut Vec<Listed>)
    ensures each { IsPermutation list.old.items list.new.items }
    ensures ascending { IsNonDecreasingBy (λ l. l.a) list.new.items }
{
    list.sort_unstable_by_key(|block| block.a);
}

// A block of the zone of this name as it is listed.
fn listed(p: &Profile, block: Block, zone: ZoneName) -> Listed
    requires limits { IsWithinLimits p.now }
    ensures { result ≡ listed_in p.now zone block }
{
    let range = if block.first() >= (p.pages - p.nano) * PAGE {
        Range::Nano
    } else {
        route(block.size())
    };
    Listed {
        a: block.first(),
        s: block.size(),
        range,
        zone,
    }
}
