//! Words of nano blocks and their fields.
use mz_nanoword::NanoWord;

#[test]
fn words_and_their_fields(rt: HostRuntime) {
    // The word, and its fields: next, free, state, generation.
    let rows: [(u64, u64, u64, u64, u64); 9] = [
        (0, 0, 0, 0, 0),
        (1, 1, 0, 0, 0),
        (2048, 0, 1, 0, 0),
        (4194304, 0, 0, 1, 0),
        (134217728, 0, 0, 0, 1),
        (6291457, 1, 1024, 1, 0),
        (140507138, 2, 1023, 1, 1),
        (543162369, 1, 1024, 1, 4),
        (9223372036854775807, 2047, 2047, 31, 68719476735),
    ];
    for (word, next, free, state, generation) in rows {
        let fields = NanoWord {
            next,
            free,
            state,
            generation,
        };
        assert!(rt; next < 2048 && free < 2048 && state < 32 && generation < 68719476736);
        let got = (fields.pack(), NanoWord::unpack(word));
        assert_eq!(rt; got, (word, Some(fields)));
    }
    for word in [9223372036854775808, 18446744073709551615] {
        assert_eq!(rt; NanoWord::unpack(word), None);
    }
}
