//! What is kept of the lines that were read, and what the next one adds.

ghost use Rattle.std.specs.Prelude.{◌≡◌, ◌<◌, map, None, OnOk, IfOk, length};
ghost use Rattle.mz_lines.specs.declared.line.Line.TheVariants.{Round as round, Start as start, Call as call};
ghost use Rattle.mz_trace.specs.Readers.{noted};
ghost use Rattle.mz_words.specs.Lines.{cut_of, words_of};

use crate::given::{GivenNames, given_by};
use crate::open_round::OpenRound;
use crate::round::{MOST_ROUNDS, Round};
use mz_base::Items;
use mz_lines::checks::word_why;
use mz_lines::laws::line_laws;
use mz_lines::line::read_line;
use mz_lines::{Command, Line, RoundLine, Why};
use mz_words::line::is_plain;
use mz_words::{RawLine, words};
use std::alloc::{AllocError, Global};
use std::mem;

/// The rounds so far, and what the whys of the next line ask of the lines before it.
#[derive(Drop)]
pub struct Reader {
    /// How many rounds were begun.
    pub begun: u64,
    /// Whether a caller's line stands in the open round.
    pub calling: bool,
    /// The names under which blocks were given.
    pub given: GivenNames,
    /// The rounds before the open one.
    pub rounds: Items<Round>,
    /// The open round, if one was begun.
    pub open: OpenRound,
}

/// Notes the name under which a command gives a block.
fn note_given(given: &mut GivenNames, command: &Command) -> Result<(), AllocError>
    ensures { OnOk result (given.new ≡ noted command.now given.old) }
{
    match given_by(command) {
        Some(base) => given.insert(base),
        None => Ok(()),
    }
}

impl Reader {
    ghost use Rattle.mz_trace.specs.Readers.{CanAdd, Keeps, added, cut_why, fresh, is_given, is_misplaced, place_why, rounds_in, with_words, words_why};

    /// Nothing was read.
    pub fn new(alloc: Global, callers: u32) -> Result<Reader, AllocError>
        ensures { IfOk result (λ r. r ≡ fresh callers) }
    {
        Ok(Reader {
            begun: 0,
            calling: false,
            given: GivenNames::new(alloc),
            rounds: Items::new(alloc),
            open: OpenRound::new(alloc, callers)?,
        })
    }

    /// Whether the line is one before the first round, a round's behind a caller's, or a round too
    /// many.
    fn is_misplaced(&self, line: &Line) -> bool
        ensures { result ≡ is_misplaced self.now line.now }
    {
        match line {
            Line::Round => self.begun >= MOST_ROUNDS,
            Line::Start(_) => self.begun == 0 || self.calling,
            Line::Call { .. } => self.begun == 0,
        }
    }

    /// Whether the line gives a block under a name under which an earlier one does.
    fn is_given(&self, line: &Line) -> bool
        ensures { result ≡ is_given self.now line.now }
    {
        match line {
            Line::Call { command, .. } => match given_by(command) {
                Some(base) => self.given.contains(&base),
                None => false,
            },
            _ => false,
        }
    }

    /// The first why about the line's place.
    fn place_why(&self, line: &Line) -> Option<Why>
        ensures { result ≡ place_why self.now line.now }
    {
        if self.is_misplaced(line) {
            Some(Why::OutOfPlace)
        } else if self.is_given(line) {
            Some(Why::GivenBefore)
        } else {
            None
        }
    }

    /// Reads the line behind the ones before it, unless a why holds of it.
    pub fn read_line(
        &mut self,
        alloc: Global,
        callers: u32,
        line: &RawLine<'_>,
    ) -> Result<Option<Why>, AllocError>
        requires { length self.old.open.commands ≡ callers }
        ensures { IfOk result (Keeps (cut_why callers self.old (cut_of line.now)) (with_words callers self.old (words_of line.now.text.now)) self.new) }
    {
        if !is_plain(line) {
            return Ok(Some(Why::NotPlain));
        }
        let words = words(alloc, line.text)?;
        self.read(alloc, callers, &words)
    }

    /// Reads one more line, unless a why holds of it. A good line is tested once, by reading it.
    fn read(
        &mut self,
        alloc: Global,
        callers: u32,
        words: &[&[u8]],
    ) -> Result<Option<Why>, AllocError>
        requires { length self.old.open.commands ≡ callers }
        ensures { IfOk result (Keeps (words_why callers self.old (map (λ w. w.now) words.now)) (with_words callers self.old (map (λ w. w.now) words.now)) self.new) }
    {
        line_laws();
        match read_line(alloc, callers, words)? {
            None => Ok(word_why(callers, words)),
            Some(line) => self.take(alloc, callers, line.get()),
        }
    }

    /// Adds a line, unless a why about its place holds of it.
    fn take(&mut self, alloc: Global, callers: u32, line: &Line) -> Result<Option<Why>, AllocError>
        requires { None ≡ place_why self.old line.now → CanAdd self.old line.now }
        ensures { IfOk result (Keeps (place_why self.old line.now) (added callers line.now self.old) self.new) }
    {
        if let Some(why) = self.place_why(line) {
            return Ok(Some(why));
        }
        self.add(alloc, callers, line)?;
        Ok(None)
    }

    /// Adds a line.
    fn add(&mut self, alloc: Global, callers: u32, line: &Line) -> Result<(), AllocError>
        requires { CanAdd self.old line.now }
        ensures { OnOk result (self.new ≡ added callers line.now self.old) }
    {
        match line {
            Line::Round => self.begin(alloc, callers),
            Line::Start(line) => self.add_start(*line),
            Line::Call { caller, command } => self.add_call(*caller, *command),
        }
    }

    /// A line at the start of a round.
    fn add_start(&mut self, line: RoundLine) -> Result<(), AllocError>
        ensures { OnOk result (self.new ≡ added 0 (start line) self.old) }
    {
        self.open.lines.push(line)?;
        Ok(())
    }

    /// A command of a caller.
    fn add_call(&mut self, caller: u32, command: Command) -> Result<(), AllocError>
        requires { CanAdd self.old (call caller command) }
        ensures { OnOk result (self.new ≡ added 0 (call caller command) self.old) }
    {
        note_given(&mut self.given, &command)?;
        self.calling = true;
        self.open.commands.push(caller, command)?;
        Ok(())
    }

    /// A round begins.
    fn begin(&mut self, alloc: Global, callers: u32) -> Result<(), AllocError>
        requires { self.old.begun < MOST_ROUNDS }
        ensures { OnOk result (self.new ≡ added callers round self.old) }
    {
        let fresh = OpenRound::new(alloc, callers)?;
        let before = mem::replace(&mut self.open, fresh);
        if self.begun > 0 {
            self.rounds.push(before.close())?;
        }
        self.begun += 1;
        self.calling = false;
        Ok(())
    }

    /// The rounds that were read.
    pub fn finish(self) -> Result<Items<Round>, AllocError>
        ensures { IfOk result (λ rs. rs ≡ rounds_in self) }
    {
        let Reader {
            begun,
            calling: _,
            given: _,
            mut rounds,
            open,
        } = self;
        if begun > 0 {
            rounds.push(open.close())?;
        }
        Ok(rounds)
    }
}
