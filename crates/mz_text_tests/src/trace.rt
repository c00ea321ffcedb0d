//! Traces, and the first bad line of texts that are none.
use mz_trace::{TraceFault, parse, print_trace};
use std::alloc::{AllocError, Global};
use std::test::Fail;

const HEADER: &str = "mzone-trace 1\nspace 64 callers 1 magazines 1 nano 0 gen 1024 zones 1\n";

// Texts in two parts, each with its first bad line and the why there; line 0 where it is a trace.
const BAD_LINES: [(&str, &str, u64, u8); 15] = [
    (HEADER, "", 0, 0),
    (HEADER, "round\n0 malloc a 100\n", 0, 0),
    (HEADER, "0 malloc a 8\n", 3, 11),
    (HEADER, "round\n0 malloc a 08\n", 4, 7),
    (HEADER, "round\n1 malloc a 8\n", 4, 8),
    (HEADER, "round\n0 malloc null 8\n", 4, 9),
    (HEADER, "round\n0  malloc a 8\n", 4, 4),
    (HEADER, "round\n0 give a 0 @a\n0 give a 0 @a\n", 5, 12),
    (HEADER, "round\n0 malloc a 100", 4, 1),
    (HEADER, "round\n9 malloc null x\n", 4, 7),
    (HEADER, "round\n0 what\n", 4, 5),
    (HEADER, "round\n0 fill a 256\n", 4, 10),
    // 256 bytes are one too many.
    (
        HEADER,
        "aaaaaaaaaaaaaaaaaaaaaaaaaaaaaaaaaaaaaaaaaaaaaaaaaaaaaaaaaaaaaaaa\
         aaaaaaaaaaaaaaaaaaaaaaaaaaaaaaaaaaaaaaaaaaaaaaaaaaaaaaaaaaaaaaaa\
         aaaaaaaaaaaaaaaaaaaaaaaaaaaaaaaaaaaaaaaaaaaaaaaaaaaaaaaaaaaaaaaa\
         aaaaaaaaaaaaaaaaaaaaaaaaaaaaaaaaaaaaaaaaaaaaaaaaaaaaaaaaaaaaaaaa\n",
        3,
        1,
    ),
    ("", "", 1, 2),
    ("", "mzone-trace 1\n", 2, 3),
];

// The first bad line of a text, and the why there; line 0 where it is a trace.
fn bad_line(alloc: Global, head: &str, rest: &str) -> Result<(u64, u8), AllocError> {
    let mut text = String::from_str(alloc, head)?;
    text.push_str(rest)?;
    match parse(alloc, text.as_bytes()) {
        Ok(_) => Ok((0, 0)),
        Err(TraceFault::Bad { line, why }) => Ok((line, why)),
        Err(TraceFault::NoMemory) => Err(AllocError),
    }
}

#[test]
fn first_bad_lines(rt: HostRuntime) -> Result<(), Fail> {
    for (head, rest, line, why) in BAD_LINES {
        let found = bad_line(rt.alloc(), head, rest)?;
        assert!(rt; found == (line, why));
    }
    Ok(())
}

const EVERY_LINE: &str = "mzone-trace 1
space 4096 callers 2 magazines 2 nano 64 gen 1024 zones 2
round
zone z
size default 0
where 18446744073709551615
destroy z
1 malloc a 100
0 calloc b 3 4
1 valloc c 5
0 memalign d 64 6
1 realloc null e 7
0 realloc b b2 8
1 realloc a a 9
0 batch many 4096 10
0 realloc many.0 many.0 11
0 realloc many.4095 one 12
1 free c
0 freeat d 0
1 zfree default e
0 sfree one 12
1 size a
0 fill many.1 255
0 show many.1 1 64
0 link many.1 8 many.2
0 give many.1 1 @gift
round
1 realloc @gift @gift 13
1 use z
0 unbatch many
round
";

// The same trace in its normal form.
const NORMAL_FORM: &str = "mzone-trace 1
space 4096 callers 2 magazines 2 nano 64 gen 1024 zones 2
round
zone z
size default 0
where 18446744073709551615
destroy z
0 calloc b 3 4
0 memalign d 64 6
0 realloc b b2 8
0 batch many 4096 10
0 realloc many.0 many.0 11
0 realloc many.4095 one 12
0 freeat d 0
0 sfree one 12
0 fill many.1 255
0 show many.1 1 64
0 link many.1 8 many.2
0 give many.1 1 @gift
1 malloc a 100
1 valloc c 5
1 realloc null e 7
1 realloc a a 9
1 free c
1 zfree default e
1 size a
round
0 unbatch many
1 realloc @gift @gift 13
1 use z
round
";

// A trace that is read and printed.
fn print_again(alloc: Global, text: &[u8]) -> Result<Vec<u8>, TraceFault> {
    let trace = parse(alloc, text)?;
    let printed = print_trace(alloc, &trace)?;
    Ok(printed)
}

#[test]
fn every_line(rt: HostRuntime) -> Result<(), Fail> {
    for text in [EVERY_LINE, NORMAL_FORM] {
        let printed = print_again(rt.alloc(), text.as_bytes())?;
        assert!(rt; printed.as_slice() == NORMAL_FORM.as_bytes());
    }
    Ok(())
}
