ghost use Rattle.std.specs.Prelude.{◌≡◌, IfOk};
ghost use Rattle.mz_trace.specs.TailTexts.{tail_text};

use crate::run_printer::print_tail;
use mz_base::{Items, Range, ZoneName};
use std::alloc::{AllocError, Global};
use std::marker::Model;

/// A live block as it is listed.
#[derive(Clone, Copy, Debug, PartialEq, Eq)]
pub struct Listed {
    /// Its first address.
    pub a: u64,
    /// Its size in bytes.
    pub s: u64,
    /// The range of the place where it lies.
    pub range: Range,
    /// The name of its zone.
    pub zone: ZoneName,
}

/// The numbers at the end of a run. The names are libmalloc's.
#[derive(Clone, Copy, Debug, PartialEq, Eq)]
pub struct Statistics {
    /// How many blocks are live.
    pub blocks_in_use: u64,
    /// How many bytes they have.
    pub size_in_use: u64,
    /// The most bytes that live blocks had at any time.
    pub max_size_in_use: u64,
    /// The bytes of all pages that aren't free.
    pub size_allocated: u64,
}

/// What stands behind a run, as values: the live blocks at its end, and the statistics.
#[derive(Drop, Debug)]
pub struct Figures {
    pub listing: Items<Listed>,
    pub statistics: Statistics,
}

/// What stands behind a run, with its text. Contracts see the values.
#[derive(Drop, Debug)]
pub struct Tail {
    figures: Figures,
    text: String,
}

impl Model for Tail {
    ghost use Rattle.std.specs.Prelude.{◌≡◌, string_bytes};
    ghost use Rattle.mz_trace.specs.declared.tail.Figures.{Figures};
    ghost use Rattle.mz_trace.specs.TailTexts.{tail_text};

    ghost Value = { Figures };

    ghost view = { λ t. t.figures };

    ghost invariant = { λ t. string_bytes t.text ≡ tail_text t.figures };
}

impl Tail {
    /// These values, with their text.
    pub fn new(alloc: Global, figures: Figures) -> Result<Tail, AllocError>
        ensures { IfOk result (λ t. t ≡ figures) }
    {
        let mut text = String::new(alloc);
        print_tail(&mut text, &figures)?;
        Ok(Tail { figures, text })
    }

    /// The values.
    pub fn figures(&self) -> &Figures
        ensures { result.now ≡ self.now }
    {
        &self.figures
    }

    /// The text: a line for each block, and the four statistics.
    pub fn bytes(&self) -> &[u8]
        ensures { result.now ≡ tail_text self.now }
    {
        self.text.as_bytes()
    }
}
