//! Runs, and the first bad line of texts that are none.
use mz_trace::print_run;
use mz_transcript::{RunFault, parse_run};
use std::alloc::{AllocError, Global};
use std::test::Fail;

const THIN_PATH: &str = "mzone-run 1
space 64 callers 1 magazines 1 nano 0 gen 1024 zones 1
round
caller 0
> malloc a 100
0 full 0t0 112 16
1 full 0td 112 16
2 take 0t0 0 64
3 new 0t0 0 112 16
= block 0 112
end
block 0 112 tiny default
blocks_in_use 1
size_in_use 112
max_size_in_use 112
size_allocated 1048576
";

// Every round line, command, event, place and answer.
const WHOLE: &str = "mzone-run 1
space 64 callers 2 magazines 2 nano 5 gen 7 zones 4
round
> zone z9
0 open 1
= ok
> zone z9
= name-taken
> zone z8
= too-many
> destroy z9
7 shut 4294967295
8 back 1t0 0 64
= has-live 3
> destroy default
= is-default
> size z9 16
= size 0
> where 18446744073709551615
= zone z9
> where 0
= none
caller 0
> malloc a 100
1 full 0t1 112 16
2 full 0td 112 16
3 move 5 0td 0t1
4 new 0t1 320 112 16
= block 320 112
> calloc b 3 18446744073709551615
= overflow
> valloc c 1
= held
> memalign d 24 8
= bad-align
> realloc null e 8
= null
> realloc a a 9
9 size 2l 16384 32768 49152
= block 16384 49152
> realloc x.4095 a1 9
= not-held
> realloc x.0 x.0 0
= no-zone
> realloc @g @g 5
= null
> free a
18446744073709551615 end p 320 112
= ok
> freeat x.7 16
= not-held
> zfree z9 @g
10 no n 1 256 48
= not-live
> sfree a 17
= wrong-size 16
> size a
= size 112
> fill a 255
= ok
> show a 30 2
= bytes 00ff
> show a 0 64
= bytes 0123456789abcdef0123456789abcdef0123456789abcdef0123456789abcdef0123456789abcdef0123456789abcdef0123456789abcdef0123456789abcdef
> link a 8 x.1
= out-of-range
caller 1
> give a 0 @g
= ok
> batch b0 4096 7
11 full 3s1 1024 32
12 full 3sd 1024 32
13 dry 0 512 256
14 take 0s0 128 511
= got 4096
> unbatch b0
= freed 4096
> use z9
= ok
round
caller 0
caller 1
end
block 0 16 nano z9
block 320 112 tiny default
block 1024 512 small default
block 131072 16384 large default
blocks_in_use 4
size_in_use 17024
max_size_in_use 49904
size_allocated 1048576
";

const HEAD: &str =
    "mzone-run 1\nspace 64 callers 1 magazines 1 nano 0 gen 1024 zones 1\nround\ncaller 0\n> malloc a 8\n";

// Texts in two parts, and the first bad line of each.
const BAD_LINES: [(&str, &str, u64); 14] = [
    (HEAD, "0 full 4294967296t0 16 16\n", 6),
    (HEAD, "0 dry 4294967296 16 16\n", 6),
    (HEAD, "00 full 0t0 16 16\n", 6),
    (HEAD, "0 full 00t0 16 16\n", 6),
    (HEAD, "0 full 0t0 16 16 \n", 6),
    (HEAD, "0 full 0t0 16 16 5 6 7 8 9 10 11 12\n", 6),
    (HEAD, "= bytes 0F\n", 6),
    (HEAD, "= bytes 0\n", 6),
    (HEAD, "= bytes \n", 6),
    (HEAD, "= none", 6),
    (
        HEAD,
        "= null\nend\nblocks_in_use 1\nsize_in_use 1\nmax_size_in_use 1\nsize_allocated 1\nblocks_in_use 1\n",
        12,
    ),
    (HEAD, "= null\nend\nblock 0 16 medium default\n", 8),
    (HEAD, "= ok\n> give a 0 @a\n= ok\n> give b 0 @a\n", 9),
    ("", "", 1),
];

// The first bad line of row `thin-path` where one line is left out, from its first line to its last and then none; 0 where it is a
// run.
const LEFT_OUT: [u64; 17] = [1, 2, 3, 4, 5, 0, 0, 0, 0, 10, 11, 0, 13, 14, 15, 16, 0];

// The text that is printed of a run that is read, and what stands behind its rounds.
fn print_again(alloc: Global, text: &[u8]) -> Result<Vec<u8>, RunFault> {
    let (run, tail) = parse_run(alloc, text)?;
    let mut printed = print_run(alloc, &run)?;
    printed.extend_from_slice(tail.bytes())?;
    Ok(printed)
}

// The first bad line of a text; 0 where it is a run.
fn bad_line(alloc: Global, text: &[u8]) -> Result<u64, AllocError> {
    match parse_run(alloc, text) {
        Ok(_) => Ok(0),
        Err(RunFault::Bad { line }) => Ok(line),
        Err(RunFault::NoMemory) => Err(AllocError),
    }
}

// The lines of row `thin-path`, without one of them.
fn thin_path_without(alloc: Global, left_out: usize) -> Result<String, AllocError> {
    let mut text = String::new(alloc);
    for (i, line) in THIN_PATH.lines().enumerate() {
        if i != left_out {
            text.push_str(line)?;
            text.push_str("\n")?;
        }
    }
    Ok(text)
}

#[test]
fn thin_path(rt: HostRuntime) -> Result<(), Fail> {
    for (i, line) in LEFT_OUT.iter().enumerate() {
        let text = thin_path_without(rt.alloc(), i)?;
        let found = bad_line(rt.alloc(), text.as_bytes())?;
        assert!(rt; found == *line);
    }
    Ok(())
}

#[test]
fn every_line(rt: HostRuntime) -> Result<(), Fail> {
    for text in [THIN_PATH, WHOLE] {
        let printed = print_again(rt.alloc(), text.as_bytes())?;
        assert!(rt; printed.as_slice() == text.as_bytes());
    }
    Ok(())
}

#[test]
fn first_bad_lines(rt: HostRuntime) -> Result<(), Fail> {
    for (head, rest, line) in BAD_LINES {
        let mut text = String::from_str(rt.alloc(), head)?;
        text.push_str(rest)?;
        let found = bad_line(rt.alloc(), text.as_bytes())?;
        assert!(rt; found == line);
    }
    Ok(())
}
