//! What a caller knows of a block's bytes when the block goes to another caller or gets another size.
//! The runs stand in `specs/RunsBytes.antt`.

ghost use Rattle.mz_examples.specs.Spoiled.{IsLawful, WrongBytes};
ghost use Rattle.mz_examples.specs.RunsBytes.{given_shown, grown_shown, moved_shown, emptied_shown};

use mz_events::laws::lawful_without_breach;

/// A block that is given has the bytes that its giver wrote.
pub fn given()
    ensures lawful { IsLawful (given_shown 7 7) }
    ensures other_byte { WrongBytes (given_shown 7 8) 3 }
{
    lawful_without_breach();
}

/// A block that grows in place keeps its bytes, and nothing is known of those behind them.
pub fn grown()
    ensures lawful { IsLawful (grown_shown 5 99) }
    ensures other_byte { WrongBytes (grown_shown 6 99) 3 }
{
    lawful_without_breach();
}

/// A block that moves takes its bytes along.
pub fn moved()
    ensures lawful { IsLawful (moved_shown 3 3) }
    ensures other_byte { WrongBytes (moved_shown 3 4) 5 }
{
    lawful_without_breach();
}

/// A block that is to have no bytes keeps none of them, and has again what is written there later.
pub fn emptied()
    ensures lawful { IsLawful (emptied_shown 6 6) }
    ensures earlier_byte { WrongBytes (emptied_shown 5 5) 5 }
{
    lawful_without_breach();
}
