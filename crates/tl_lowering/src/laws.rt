// What holds for every text.

ghost use Rattle.std.specs.Prelude.{ℕ, List};
ghost use Rattle.tl_lowering.specs.Programs.{HasOneProgram};

/// A text has one program: the core forms of its procedures are determined, but for where the parts are in memory.
pub fn one_program()
    ensures programs { (text : List ℕ) → HasOneProgram text }
{}
