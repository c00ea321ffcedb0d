//! The table of forms: a line for each. Lines of a trace come first, then those of a printed run.

ghost use Rattle.std.specs.Prelude.{◌≡◌, ◌≢◌, Some};
ghost use Rattle.mz_words.specs.Table.{form_word, kinds_of, form_among};
ghost use Rattle.mz_words.specs.declared.table.TheConstants.{ROUND_LINES, COMMANDS, ANSWERS};

use crate::kind::Kind;
use Form::{
    Back, BadAlign, Batch, Block, Bytes, Calloc, Destroy, Done, Dry, End, Fill, Free, FreeAt,
    Freed, Full, Give, Got, HasLive, Held, InZone, IsDefault, Link, Listed, Malloc, Memalign, Move,
    NameTaken, New, No, NoZone, NotHeld, NotLive, Nowhere, Null, Open, OutOfRange, Overflow,
    Realloc, Resize, Round, Show, Shut, Size, SizeAt, SizeIs, SizedFree, Take, TooMany, Unbatch,
    Use, Valloc, Where, WrongSize, Zone, ZoneFree,
};

/// The form of a line. The word of a form is unique only within its family.
#[derive(Clone, Copy, Debug, PartialEq, Eq)]
pub enum Form {
    Round,
    Zone,
    Destroy,
    SizeAt,
    Where,
    Malloc,
    Calloc,
    Valloc,
    Memalign,
    Realloc,
    Free,
    FreeAt,
    ZoneFree,
    SizedFree,
    Size,
    Fill,
    Show,
    Link,
    Give,
    Batch,
    Unbatch,
    Use,
    Take,
    Back,
    Move,
    New,
    End,
    Resize,
    Full,
    Dry,
    No,
    Open,
    Shut,
    Held,
    NoZone,
    Overflow,
    BadAlign,
    NotHeld,
    WrongSize,
    OutOfRange,
    NameTaken,
    TooMany,
    IsDefault,
    HasLive,
    Null,
    Nowhere,
    Done,
    NotLive,
    Block,
    SizeIs,
    Bytes,
    Got,
    Freed,
    InZone,
    Listed,
}

/// The forms of the lines of a round's start.
pub const ROUND_LINES: [Form; 5] = [Round, Zone, Destroy, SizeAt, Where];

/// The forms of commands.
pub const COMMANDS: [Form; 17] = [
    Malloc, Calloc, Valloc, Memalign, Realloc, Free, FreeAt, ZoneFree, SizedFree, Size, Fill, Show,
    Link, Give, Batch, Unbatch, Use,
];

/// The forms of events.
pub const EVENTS: [Form; 11] = [
    Take, Back, Move, New, End, Resize, Full, Dry, No, Open, Shut,
];

/// The forms of answers.
pub const ANSWERS: [Form; 21] = [
    Held, NoZone, Overflow, BadAlign, NotHeld, WrongSize, OutOfRange, NameTaken, TooMany,
    IsDefault, HasLive, Null, Nowhere, Done, NotLive, Block, SizeIs, Bytes, Got, Freed, InZone,
];

/// The form of a line of the listing.
pub const LISTING: [Form; 1] = [Listed];

/// The word of a form, and the kinds of the words behind it.
#[derive(Clone, Copy, Debug)]
pub struct Row {
    pub word: &'static str,
    pub kinds: &'static [Kind],
}

fn of(word: &'static str, kinds: &'static [Kind]) -> Row
    ensures word { result.word.now ≡ word.now }
    ensures kinds { result.kinds.now ≡ kinds.now }
{
    Row { word, kinds }
}

impl Form {
    /// The form's row of the table.
    pub fn row(self) -> Row
        ensures word { result.word.now ≡ form_word self }
        ensures kinds { result.kinds.now ≡ kinds_of self }
    {
        use Kind::{
            Base, BatchCount, Byte, Caller, Given, Name, New, Number, Old, ShowCount, Zone,
        };
        match self {
            Form::Round => of("round", &[]),
            Form::Zone => of("zone", &[Zone]),
            Form::Destroy => of("destroy", &[Zone]),
            Form::SizeAt => of("size", &[Zone, Number]),
            Form::Where => of("where", &[Number]),
            Form::Malloc => of("malloc", &[Base, Number]),
            Form::Calloc => of("calloc", &[Base, Number, Number]),
            Form::Valloc => of("valloc", &[Base, Number]),
            Form::Memalign => of("memalign", &[Base, Number, Number]),
            Form::Realloc => of("realloc", &[Old, New, Number]),
            Form::Free => of("free", &[Name]),
            Form::FreeAt => of("freeat", &[Name, Number]),
            Form::ZoneFree => of("zfree", &[Zone, Name]),
            Form::SizedFree => of("sfree", &[Name, Number]),
            Form::Size => of("size", &[Name]),
            Form::Fill => of("fill", &[Name, Byte]),
            Form::Show => of("show", &[Name, Number, ShowCount]),
            Form::Link => of("link", &[Name, Number, Name]),
            Form::Give => of("give", &[Name, Caller, Given]),
            Form::Batch => of("batch", &[Base, BatchCount, Number]),
            Form::Unbatch => of("unbatch", &[Base]),
            Form::Use => of("use", &[Zone]),
            _ => self.printed_row(),
        }
    }

    /// The row of a form of a printed run.
    fn printed_row(self) -> Row
        requires round { form_among ROUND_LINES (form_word self) ≢ Some self }
        requires command { form_among COMMANDS (form_word self) ≢ Some self }
        ensures word { result.word.now ≡ form_word self }
        ensures kinds { result.kinds.now ≡ kinds_of self }
    {
        use Kind::{Number, Place, Range, Small, Zone};
        match self {
            Form::Take => of("take", &[Place, Number, Number]),
            Form::Back => of("back", &[Place, Number, Number]),
            Form::Move => of("move", &[Number, Place, Place]),
            Form::New => of("new", &[Place, Number, Number, Number]),
            Form::End => of("end", &[Place, Number, Number]),
            Form::Resize => of("size", &[Place, Number, Number, Number]),
            Form::Full => of("full", &[Place, Number, Number]),
            Form::Dry => of("dry", &[Small, Number, Number]),
            Form::No => of("no", &[Place, Small, Number, Number]),
            Form::Open => of("open", &[Small]),
            Form::Shut => of("shut", &[Small]),
            Form::Listed => of("block", &[Number, Number, Range, Zone]),
            _ => self.answer_row(),
        }
    }

    /// The row of a form of an answer.
    fn answer_row(self) -> Row
        requires { form_among ANSWERS (form_word self) ≡ Some self }
        ensures word { result.word.now ≡ form_word self }
        ensures kinds { result.kinds.now ≡ kinds_of self }
    {
        use Kind::{Bytes, Number, Zone};
        match self {
            Form::Held => of("held", &[]),
            Form::NoZone => of("no-zone", &[]),
            Form::Overflow => of("overflow", &[]),
            Form::BadAlign => of("bad-align", &[]),
            Form::NotHeld => of("not-held", &[]),
            Form::WrongSize => of("wrong-size", &[Number]),
            Form::OutOfRange => of("out-of-range", &[]),
            Form::NameTaken => of("name-taken", &[]),
            Form::TooMany => of("too-many", &[]),
            Form::IsDefault => of("is-default", &[]),
            Form::HasLive => of("has-live", &[Number]),
            Form::Null => of("null", &[]),
            Form::Nowhere => of("none", &[]),
            Form::Done => of("ok", &[]),
            Form::NotLive => of("not-live", &[]),
            Form::Block => of("block", &[Number, Number]),
            Form::SizeIs => of("size", &[Number]),
            Form::Bytes => of("bytes", &[Bytes]),
            Form::Got => of("got", &[Number]),
            Form::Freed => of("freed", &[Number]),
            Form::InZone => of("zone", &[Zone]),
            _ => unreachable!(),
        }
    }
}

/// The form with this word.
pub fn form_among(forms: &[Form], word: &[u8]) -> Option<Form>
    ensures { result ≡ form_among forms.now word.now }
{
    forms
        .iter()
        .copied()
        .find(|form| word == form.row().word.as_bytes())
}
