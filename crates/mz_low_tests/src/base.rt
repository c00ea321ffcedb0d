//! Ranges, sizes, profiles, names and items.
use mz_base::{Items, Profile, Range, ZoneName, good_size, route, unit, units};
use std::test::Fail;

const WIDEST: Profile = Profile {
    pages: 16_384,
    callers: 16,
    magazines: 16,
    nano: 1_024,
    most_gen: 68_719_476_735,
    zones: 4,
};

#[test]
fn ranges_units_and_sizes_change_where_the_table_has_it(rt: HostRuntime) {
    // The request, its range, the unit of that range, how many units, and the good size.
    let rows: [(u64, Range, u64, u64, u64); 8] = [
        (0, Range::Tiny, 16, 1, 16),
        (256, Range::Tiny, 16, 16, 256),
        (257, Range::Tiny, 16, 17, 272),
        (1_008, Range::Tiny, 16, 63, 1_008),
        (1_009, Range::Small, 512, 2, 1_024),
        (32_768, Range::Small, 512, 64, 32_768),
        (32_769, Range::Large, 16_384, 3, 49_152),
        (49_153, Range::Large, 16_384, 4, 65_536),
    ];
    for (n, range, bytes, count, size) in rows {
        let got = (route(n), unit(range), units(n), good_size(&WIDEST, n));
        assert_eq!(rt; got, (range, bytes, count, Some(size)));
    }
}

#[test]
fn a_good_size_is_none_above_the_space(rt: HostRuntime) {
    let small = Profile {
        pages: 64,
        nano: 0,
        ..WIDEST
    };
    assert!(rt; small.ok());
    let rows = [
        (1_048_576, Some(1_048_576)),
        (1_048_577, None),
        (u64::MAX, None),
    ];
    for (n, size) in rows {
        assert_eq!(rt; good_size(&small, n), size);
    }
}

#[test]
fn a_profile_is_ok_within_its_limits_alone(rt: HostRuntime) {
    // Pages, callers, magazines, nano pages, the generation, zones, and whether that is ok.
    let rows: [(u64, u32, u32, u64, u64, u32, bool); 14] = [
        (1, 1, 1, 0, 1, 1, true),
        (0, 1, 1, 0, 1, 1, false),
        (1, 0, 1, 0, 1, 1, false),
        (1, 1, 0, 0, 1, 1, false),
        (1, 1, 1, 2, 1, 1, false),
        (1, 1, 1, 0, 0, 1, false),
        (1, 1, 1, 0, 1, 0, false),
        (16_384, 16, 16, 1_024, 68_719_476_735, 4, true),
        (16_385, 16, 16, 1_024, 68_719_476_735, 4, false),
        (16_384, 17, 16, 1_024, 68_719_476_735, 4, false),
        (16_384, 16, 17, 1_024, 68_719_476_735, 4, false),
        (16_384, 16, 16, 1_025, 68_719_476_735, 4, false),
        (16_384, 16, 16, 1_024, 68_719_476_736, 4, false),
        (16_384, 16, 16, 1_024, 68_719_476_735, 5, false),
    ];
    for (pages, callers, magazines, nano, most_gen, zones, ok) in rows {
        let profile = Profile {
            pages,
            callers,
            magazines,
            nano,
            most_gen,
            zones,
        };
        assert_eq!(rt; profile.ok(), ok);
    }
}

// None where that is no name, and whether the name has these bytes where it is one.
fn is_kept(text: &[u8]) -> Option<bool> {
    let name = ZoneName::new(text)?;
    Some(name.bytes() == text)
}

#[test]
fn a_zone_name_is_a_letter_and_at_most_fifteen_letters_or_digits(rt: HostRuntime) {
    let rows = [
        ("z", Some(true)),
        ("default", Some(true)),
        ("abcdefghijklmno9", Some(true)),
        ("", None),
        ("1st", None),
        ("null", None),
        ("abcdefghijklmnopq", None),
        ("Default", None),
        ("two words", None),
    ];
    for (text, kept) in rows {
        assert_eq!(rt; is_kept(text.as_bytes()), kept);
    }
}

#[test]
fn items_are_a_list(rt: HostRuntime) -> Result<(), Fail> {
    let mut items = Items::new(rt.alloc());
    items.push(3u64)?;
    items.push(1)?;
    assert_eq!(rt; items.as_slice(), [3, 1].as_slice());
    let again = Items::of(items.into_vec());
    assert_eq!(rt; again.as_slice(), [3, 1].as_slice());
    Ok(())
}
