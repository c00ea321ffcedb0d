//! What can be wrong with a word in its place.

ghost use Rattle.std.specs.Prelude.{◌≡◌, map};
ghost use Rattle.mz_words.specs.Names.{is_name, is_given_name};
ghost use Rattle.mz_words.specs.Flaws.{is_numeric, is_beyond, is_no_name, is_no_caller, is_wrong, some_wrong};

use crate::kind::Kind;
use crate::numbers::{caller, is_number};
use crate::reading::{self, is_base_name};

/// What can be wrong with a word in its place.
#[derive(Clone, Copy, Debug, PartialEq, Eq)]
pub enum Flaw {
    /// It is no number, and a number stands there.
    NotNumber,
    /// It is no number of a caller, and one stands there.
    NoSuchCaller,
    /// It hasn't the form of the name, place, range or bytes that stand there.
    NotName,
    /// It isn't a number within the limits of one that stands there.
    BeyondLimits,
}

/// Whether some word has the flaw in its place, behind the text in front. Words without a place and
/// places without a word aren't looked at.
pub fn some_wrong(callers: u32, flaw: Flaw, before: &[u8], kinds: &[Kind], texts: &[&[u8]]) -> bool
    ensures { result ≡ some_wrong callers flaw before.now kinds.now (map (λ t. t.now) texts.now) }
{
    match kinds {
        [] => false,
        [kind, kinds @ ..] => match texts {
            [] => false,
            [text, texts @ ..] => {
                is_wrong(callers, before, flaw, *kind, text)
                    || some_wrong(callers, flaw, text, kinds, texts)
            }
        },
    }
}

/// Whether a word has the flaw in a place of this kind, behind the text in front.
#[tactic(auto, unfolding(crate::specs::Flaws::is_wrong))]
pub fn is_wrong(callers: u32, before: &[u8], flaw: Flaw, kind: Kind, text: &[u8]) -> bool
    ensures { result ≡ is_wrong callers before.now flaw kind text.now }
{
    match flaw {
        Flaw::NotNumber => is_numeric(kind) && !is_number(text),
        Flaw::NoSuchCaller => is_no_caller(callers, kind, text),
        Flaw::NotName => is_no_name(before, kind, text),
        Flaw::BeyondLimits => is_beyond(kind, text),
    }
}

/// Whether words of the kind are numbers.
fn is_numeric(kind: Kind) -> bool
    ensures { result ≡ is_numeric kind }
{
    match kind {
        Kind::Base
        | Kind::Name
        | Kind::Old
        | Kind::New
        | Kind::Given
        | Kind::Zone
        | Kind::Place
        | Kind::Range
        | Kind::Bytes => false,
        Kind::Number
        | Kind::Small
        | Kind::Caller
        | Kind::Byte
        | Kind::ShowCount
        | Kind::BatchCount => true,
    }
}

/// Whether a word in the place of a caller's number is none.
fn is_no_caller(callers: u32, kind: Kind, text: &[u8]) -> bool
    ensures { result ≡ is_no_caller callers kind text.now }
{
    match kind {
        Kind::Caller => caller(callers, text).is_none(),
        _ => false,
    }
}

/// Whether a word in the place of a limited number isn't within its limits.
fn is_beyond(kind: Kind, text: &[u8]) -> bool
    ensures { result ≡ is_beyond kind text.now }
{
    match kind {
        Kind::Small => reading::small_number(text).is_none(),
        Kind::Byte => reading::byte(text).is_none(),
        Kind::ShowCount => reading::show_count(text).is_none(),
        Kind::BatchCount => reading::batch_count(text).is_none(),
        _ => false,
    }
}

/// Whether a word in the place of a name, a place, a range or bytes hasn't its form.
fn is_no_name(before: &[u8], kind: Kind, text: &[u8]) -> bool
    ensures { result ≡ is_no_name before.now kind text.now }
{
    match kind {
        Kind::Base | Kind::Zone => !is_base_name(text),
        Kind::Name => !is_name(text),
        Kind::Old => !(text == b"null".as_slice() || is_name(text)),
        Kind::New => !(is_name(text) && reading::is_new(before, text)),
        Kind::Given => !is_given_name(text),
        Kind::Place => reading::place(text).is_none(),
        Kind::Range => reading::range(text).is_none(),
        Kind::Bytes => reading::shown(text).is_none(),
        _ => false,
    }
}

#[tactic(auto, using(crate::proofs::FlawIsUnread::given_told))]
fn is_given_name(word: &[u8]) -> bool
    ensures { result ≡ is_given_name word.now }
{
    reading::given(word).is_some()
}

#[tactic(auto, using(crate::proofs::FlawIsUnread::name_told))]
fn is_name(word: &[u8]) -> bool
    ensures { result ≡ is_name word.now }
{
    reading::any_name(word).is_some()
}
