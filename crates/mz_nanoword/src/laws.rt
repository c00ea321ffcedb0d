//! What the definitions mean. Each function here is a law: it does nothing, and its contract says
//! what holds of every word.
ghost use Rattle.std.specs.Prelude.{◌≡◌, ◌^◌, ◌<◌, ℕ};
ghost use Rattle.mz_nanoword.specs.declared.word.NanoWord.{NanoWord};
ghost use Rattle.mz_nanoword.specs.Words.{Fits, pack_of, word_of};

/// Fields that fit are those of their word, whose bit 63 is 0.
pub fn fields_come_back()
    ensures same { (x : NanoWord) → Fits x → word_of (pack_of x) ≡ x }
    ensures small { (x : NanoWord) → Fits x → pack_of x < 2 ^ 63 }
{}

/// A word is that of its fields, which fit where its bit 63 is 0.
pub fn words_come_back()
    ensures same { (w : ℕ) → pack_of (word_of w) ≡ w }
    ensures fit { (w : ℕ) → w < 2 ^ 63 → Fits (word_of w) }
{}
