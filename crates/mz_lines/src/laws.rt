//! What the definitions mean. The function here is a law: it does nothing, and its contract holds of
//! every line.

ghost use Rattle.mz_lines.specs.Laws.{LineLaws};

use mz_words::laws::word_laws;

/// What is written of a command, of a line at the start of a round, of an event, of an answer, of a
/// profile and of a line of a trace is read again, and what is read is written; and words are a line of
/// a trace exactly where no why holds of them.
pub fn line_laws()
    ensures { LineLaws }
{
    word_laws();
}
