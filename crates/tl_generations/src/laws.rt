// What holds of all generations together.

ghost use Rattle.std.specs.Prelude.{◌≡◌, ◌++◌, [], ◌∷◌, List, map};
ghost use Rattle.tl_table.specs.Tables.{IsChain};
ghost use Rattle.tl_table.specs.Chains.{epoch_order};
ghost use Rattle.tl_generations.specs.Generations.{LegacyValue, GenerationValue, TakesUpFirst, grown, legacy_after, left_by, start_of, AreGenerations, legacy_of, epochs_of, added_by, AreSerialFrom, IsSerialFrom};

/// All calls of all generations, run alone one after another along the orders of all their epochs, from the tree before any call, with
/// the nodes appended between generations as they were, leave the records that there are in the end, and each gives the reply that it
/// gave. Each call runs the code that its procedure had then.
pub fn generations_are_serial()
    ensures serial { (l : LegacyValue) (gs : List GenerationValue) → AreGenerations l gs → AreSerialFrom l gs }
    ensures left { (l : LegacyValue) (gs : List GenerationValue) → AreGenerations l gs
        → legacy_of l gs ≡ legacy_after (grown l (added_by gs)) (epochs_of gs) }
{}

/// Where no nodes were appended, these are one run: all calls along all orders joined.
pub fn generations_without_growth()
    ensures serial { (l : LegacyValue) (gs : List GenerationValue) → AreGenerations l gs → added_by gs ≡ []
        → IsSerialFrom l.records (epochs_of gs) (map epoch_order (epochs_of gs)) }
    ensures left { (l : LegacyValue) (gs : List GenerationValue) → AreGenerations l gs → added_by gs ≡ [] → legacy_of l gs ≡ legacy_after l (epochs_of gs) }
{}

/// A closed table that takes up what the generations before it left, with the nodes that were appended and the procedures that were
/// replaced then, is the next one.
pub fn generations_go_on()
    ensures next { (l : LegacyValue) (gs : List GenerationValue) (g : GenerationValue) → AreGenerations l gs → IsChain g.epochs
        → TakesUpFirst (start_of (legacy_of l gs) g) g.epochs → AreGenerations l (gs ++ g ∷ []) }
    ensures left { (l : LegacyValue) (gs : List GenerationValue) (g : GenerationValue)
        → legacy_of l (gs ++ g ∷ []) ≡ left_by (legacy_of l gs) g }
{}
