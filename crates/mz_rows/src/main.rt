//! Rows as data: inputs of the program, and what it prints for each.
//!
//! Standard input has rows. A row is a head and the lines behind it:
//!
//! ```text
//! == NAME             the lines are the input of `run`
//! == WORD.. NAME      the lines are the input of these words, as `== check NAME`
//! ```
//!
//! A line that ends with a backslash goes on in the next one, without the backslash: so a row can end without a line
//! feed. What stands before the first head is for the reader.
//!
//! Standard output has the heads in the same order, each with what is printed for its row, and a line `status N` where
//! the row doesn't end with status 0.
#![tactic(auto)]

use mz_io::{Failed, OpenGate, Sink, StdSink, SureSource, write_all};
use mz_run::{Status, mzone_main};
use std::alloc::{AllocError, Global};
use std::io;
use std::sync::Wait;
use std::thread::Threads;

/// The words of a row that names none.
const RUN: &str = "run";

/// A head, and the input behind it.
#[derive(Drop)]
struct Row {
    head: String,
    input: String,
}

impl Row {
    /// The row that begins with a head.
    fn new(alloc: Global, head: &str) -> Result<Row, AllocError> {
        Ok(Row {
            head: String::from_str(alloc, head)?,
            input: String::new(alloc),
        })
    }

    /// Adds a line.
    fn add(&mut self, line: &str) -> Result<(), AllocError> {
        match line.strip_suffix('\\') {
            Some(front) => self.input.push_str(front),
            None => {
                self.input.push_str(line)?;
                self.input.push('\n')
            }
        }
    }
}

/// The words of the program that a head names: those before the row's name.
fn words_of(alloc: Global, head: &str) -> Result<Vec<String>, AllocError> {
    let text = match head.rsplit_once(' ') {
        Some((words, _name)) => words,
        None => RUN,
    };
    let mut words = Vec::new(alloc);
    for word in text.split_whitespace() {
        words.push(String::from_str(alloc, word)?)?;
    }
    Ok(words)
}

/// Writes a whole text.
fn write_text<K: Sink>(sink: &mut K, text: &str) -> io::Result<()> {
    match write_all(sink, text.as_bytes()) {
        Ok(()) => Ok(()),
        Err(Failed) => Err(io::Error::from(io::ErrorKind::Other)),
    }
}

/// Writes a row's head, what the program prints for it, and its status.
fn run_row<R: Threads + Wait + Sync, K: Sink>(
    rt: &R,
    alloc: Global,
    row: &Row,
    sink: &mut K,
) -> io::Result<()> {
    let words = words_of(alloc, row.head.as_str())?;
    let mut source = SureSource::new(row.input.as_bytes().to_vec(alloc)?);
    let head = format!(in alloc; "== {}\n", row.head)?;
    write_text(sink, head.as_str())?;
    let status = mzone_main(rt, alloc, &words, &mut source, sink, &OpenGate);
    if status == Status::Done {
        return Ok(());
    }
    let end = format!(in alloc; "status {}\n", status.number())?;
    write_text(sink, end.as_str())
}

fn main(rt: HostRuntime) -> io::Result<()> {
    let mut sink = StdSink::new(rt.stdout());
    let mut row: Option<Row> = None;
    for line in rt.lines(rt.alloc()) {
        let line = line?;
        if let Some(head) = line.as_str().strip_prefix("== ") {
            if let Some(row) = &row {
                run_row(&rt, rt.alloc(), row, &mut sink)?;
            }
            row = Some(Row::new(rt.alloc(), head)?);
        } else if let Some(row) = &mut row {
            row.add(line.as_str())?;
        }
    }
    if let Some(row) = &row {
        run_row(&rt, rt.alloc(), row, &mut sink)?;
    }
    Ok(())
}
