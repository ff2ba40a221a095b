// What follows of the turns that calls took.

ghost use Rattle.std.specs.Prelude.{◌≡◌, ◌<◌, ℕ, List, length, map};
ghost use Rattle.tl_tree.specs.Records.{Records};
ghost use Rattle.tl_tree.specs.Shape.{IsTree};
ghost use Rattle.tl_tree_locking.specs.History.{caller, admits};
ghost use Rattle.tl_tree_locking.specs.World.{World, Reached};

/// Two worlds of one tree in which the same calls took turns in the same order have the same history.
pub fn turns_tell_all()
    ensures { (parents : List ℕ) (opening : Records) (v w : World) → IsTree parents → length opening ≡ length parents
        → Reached parents opening v → Reached parents opening w
        → ((c : ℕ) → c < admits v.past → c < admits w.past → v.meanings c ≡ w.meanings c)
        → map caller v.past ≡ map caller w.past → v.past ≡ w.past }
{}
