//! Lists of entries in any order, with the first bad ticket and its first why.
use crate::history::script::entries;
use crate::history::{BLOCK, CACHE, EXCESS, REGION, audited, space};
use mz_events::Entry;
use mz_history::Verdict;
use std::alloc::{AllocError, Global};
use std::test::Fail;

// Entries in two parts, and their first bad ticket with its first why, which is 0 where they are lawful.
const TABLE: [(&str, &str, u64, u8); 15] = [
    (CACHE, "", 68, 2),
    (REGION, "1 0 new 0t1 0 112 16", 3, 3),
    (
        "1 0 full 0t0 112 16;full 0td 112 16",
        "1 0 take 0t0 0 32;new 0t0 0 112 16",
        2,
        4,
    ),
    ("1 0 full 0t0 112 16", "1 0 take 0t0 0 64", 1, 5),
    ("", "1 0 back 0l 0 3", 0, 6),
    (BLOCK, "1 0 end 0t0 0 112;back 0t0 0 64", 5, 7),
    (BLOCK, "1 0 move 0 0t0 0td", 4, 8),
    ("", "1 0 move 0 0td 0t0", 0, 9),
    (REGION, "1 0 new 0t0 8 112 16", 3, 10),
    (REGION, "1 0 new 0t0 16 112 16", 3, 11),
    (BLOCK, "1 0 end 0t0 0 96", 4, 12),
    (BLOCK, "1 0 full 0t0 16 16", 4, 13),
    ("", "1 0 open 0", 0, 14),
    (EXCESS, "", 7_175, 2),
    (BLOCK, "", 0, 0),
];

// The first bad ticket and its why; why 0 where the list is lawful.
fn breach(alloc: Global, list: &[Entry]) -> Result<(u64, u8), AllocError> {
    match audited(alloc, list, &space(128))? {
        Verdict::Unlawful { ticket, why } => Ok((ticket, why)),
        Verdict::Lawful(_) => Ok((0, 0)),
    }
}

#[test]
fn each_why_has_a_list(rt: HostRuntime) -> Result<(), Fail> {
    for (text, more, ticket, why) in TABLE {
        let mut list = entries(rt.alloc(), text, more)?;
        let found = breach(rt.alloc(), &list)?;
        list.reverse();
        let again = breach(rt.alloc(), &list)?;
        assert!(rt; found == (ticket, why) && again == (ticket, why));
    }
    Ok(())
}

#[test]
fn tickets_follow_each_other(rt: HostRuntime) -> Result<(), Fail> {
    for (text, ticket) in [(REGION, 4), (BLOCK, 3)] {
        let mut list = entries(rt.alloc(), text, "1 0 new 0t0 0 112 16")?;
        if let Some(last) = list.last_mut() {
            last.ticket = ticket;
        }
        let found = breach(rt.alloc(), &list)?;
        list.reverse();
        let again = breach(rt.alloc(), &list)?;
        assert!(rt; found == (3, 1) && again == (3, 1));
    }
    Ok(())
}
