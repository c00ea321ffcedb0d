//! Sentences of each family, read and written again.
use mz_words::table::{ANSWERS, COMMANDS, EVENTS, LISTING, ROUND_LINES};
use mz_words::{Form, read_sentence, words, write_sentence};
use std::alloc::{AllocError, Global};
use std::test::Fail;

const LINES: [(&[Form], &str); 12] = [
    (&ROUND_LINES, "round"),
    (&ROUND_LINES, "size default 0"),
    (&COMMANDS, "realloc a.3 a.3 9"),
    (&COMMANDS, "give @x 3 @b"),
    (&COMMANDS, "show b 0 64"),
    (&EVENTS, "move 9 0td 0t0"),
    (&EVENTS, "no 1l 0 4096 8192"),
    (&EVENTS, "size 0s1 0 512 1024"),
    (&ANSWERS, "ok"),
    (&ANSWERS, "bytes 00ff7a"),
    (&ANSWERS, "zone default"),
    (&LISTING, "block 0 112 tiny default"),
];

// A sentence of these forms, read and written.
fn read_again(alloc: Global, forms: &[Form], line: &str) -> Result<String, AllocError> {
    let texts = words(alloc, line.as_bytes())?;
    let mut out = String::new(alloc);
    if let Some(sentence) = read_sentence(alloc, 4, forms, &texts)? {
        write_sentence(&mut out, sentence.form, sentence.words.as_slice())?;
    }
    Ok(out)
}

#[test]
fn sentences_are_read_and_written(rt: HostRuntime) -> Result<(), Fail> {
    for (forms, line) in LINES {
        let again = read_again(rt.alloc(), forms, line)?;
        assert!(rt; again.as_str() == line);
    }
    Ok(())
}
