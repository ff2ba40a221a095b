// What holds for every text.

ghost use Rattle.std.specs.Prelude.{ℕ, List};
ghost use Rattle.tl_syntax.specs.Readings.{HasOneListOfTokens, SpellsOneFile, HasOneReading};
ghost use Rattle.tl_syntax.specs.declared.token.Token.{Token as Token'};

/// A text has one reading: its names and what it declares are determined, but for where the parts are in memory.
pub fn one_reading()
    ensures tokens { (text : List ℕ) → HasOneListOfTokens text }
    ensures files { (tokens : List Token') → SpellsOneFile tokens }
    ensures readings { (text : List ℕ) → HasOneReading text }
{}
