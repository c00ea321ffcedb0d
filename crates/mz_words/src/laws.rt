//! What the definitions mean. The function here is a law: it does nothing, and its contract holds of
//! every text.

ghost use Rattle.mz_words.specs.Laws.{WordLaws};

/// What is written is read again, what is read is written, and a word is read exactly where it has no
/// flaw.
pub fn word_laws()
    ensures { WordLaws }
{}
