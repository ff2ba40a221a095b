// What holds for every call alone.

ghost use Rattle.std.specs.Prelude.{◌≡◌, ℕ, ◌≤◌, ℤ, List, [], length, drop, map};
ghost use Rattle.tl_width.specs.Fields.{narrow_field_count};
ghost use Rattle.tl_tree.specs.Records.{Records, record_at};
ghost use Rattle.tl_tree.specs.Shape.{IsTree};
ghost use Rattle.tl_instr.specs.Codes.{CodeValue, IsCode, migrated};
ghost use Rattle.tl_instr.specs.declared.version.Version.TheVariants.{One};
ghost use Rattle.tl_tree_locking.specs.declared.action.Action.{Action};
ghost use Rattle.tl_tree_locking.specs.Actions.{shared_actions, with_found, left_in, emitted as replies, lock_count, PermittedAfter};
ghost use Rattle.tl_tree_locking.specs.Obeys.{Obeys};
ghost use Rattle.tl_tree_locking.specs.Alone.{EndsOnce, Finds, IsAlone, all_taken};
ghost use Rattle.tl_budget.specs.Loops.{budget, lock_bound, emit_bound};
ghost use Rattle.tl_verify.specs.Acceptable.{Acceptable};
ghost use Rattle.tl_machine.specs.Runs.{actions};
ghost use Rattle.tl_machine.specs.Outcomes.{meaning};
ghost use Rattle.tl_machine.specs.Widths.{with_zeros, HasWidth, KeepsWidth, outcome_with_zeros};
ghost use Rattle.tl_machine.specs.Turns.{TurnValue, IsTurn, left_of};
ghost use Rattle.tl_machine.specs.Along.{HasFound, IsAlong};

/// A call alone, of an accepted code on any tree of the shape and with any arguments, obeys the tree protocol. Its first
/// lock may be of any node, each later one is of a node whose parent it holds, and it locks no node twice. It holds what it
/// reads, writes or frees. It ends once, and then holds nothing.
pub fn alone_obeys()
    ensures obeys { (c : CodeValue) (parents : List ℕ) (args : List ℤ) (t : Records) → IsCode c → Acceptable c.instrs → IsTree parents → length t ≡ length parents
        → PermittedAfter parents [] (meaning c.instrs parents args t).actions }
    ensures by_places { (c : CodeValue) (parents : List ℕ) (args : List ℤ) (t : Records) → IsCode c → Acceptable c.instrs → IsTree parents → length t ≡ length parents
        → Obeys parents (meaning c.instrs parents args t).actions }
    ensures ends { (c : CodeValue) (parents : List ℕ) (args : List ℤ) (t : Records) → IsCode c → Acceptable c.instrs → IsTree parents → length t ≡ length parents
        → EndsOnce (meaning c.instrs parents args t).actions }
{}

/// Each lock of a call alone is of a node of the tree and finds its record. The call leaves the records that it freed, and
/// all others as they were. Its reply is what it emitted, in order.
pub fn alone_finds_and_leaves()
    ensures finds { (c : CodeValue) (parents : List ℕ) (args : List ℤ) (t : Records) → IsCode c → Acceptable c.instrs → IsTree parents → length t ≡ length parents
        → Finds t (meaning c.instrs parents args t).actions }
    ensures size { (c : CodeValue) (parents : List ℕ) (args : List ℤ) (t : Records) → IsCode c → Acceptable c.instrs → IsTree parents → length t ≡ length parents
        → length (meaning c.instrs parents args t).tree ≡ length t }
    ensures leaves { (c : CodeValue) (parents : List ℕ) (args : List ℤ) (t : Records) → IsCode c → Acceptable c.instrs → IsTree parents → length t ≡ length parents
        → (x : ℕ) → record_at (meaning c.instrs parents args t).tree x ≡ left_in (all_taken (meaning c.instrs parents args t).actions) x (record_at t x) }
    ensures reply { (c : CodeValue) (parents : List ℕ) (args : List ℤ) (t : Records) → IsCode c → Acceptable c.instrs → IsTree parents → length t ≡ length parents
        → (meaning c.instrs parents args t).reply ≡ replies (all_taken (meaning c.instrs parents args t).actions) }
{}

/// An accepted code, run alone with any arguments on trees of any shape, does all that the protocol asks of a call. On two
/// trees of the shape it does the same, action by action, up to the first lock, if any, that finds different records in
/// them: a record of the tree has no effect before a lock finds it. Its locks find the tree's records, it obeys the tree
/// protocol, it ends once, it leaves the records that it freed and all others as they were, and its reply is what it
/// emitted.
pub fn alone_is_alone()
    ensures { (c : CodeValue) (parents : List ℕ) (args : List ℤ) → IsCode c → Acceptable c.instrs → IsTree parents
        → IsAlone parents (meaning c.instrs parents args) }
{}

/// On records of eight fields, four of them zeros, a code of the first version does what it does on records of four: the
/// same actions with the zeros added to each record in them, the same reply, and the same tree with the zeros added. On
/// records of four fields, every record that it finds, leaves or hands back has four fields. The same code in the second
/// version is also accepted, and does the same on every tree.
pub fn padding()
    ensures same { (c : CodeValue) (parents : List ℕ) (args : List ℤ) (t : Records) → IsCode c → Acceptable c.instrs → c.version ≡ One → IsTree parents → length t ≡ length parents
        → HasWidth narrow_field_count t
        → meaning c.instrs parents args (map (with_zeros 4) t) ≡ outcome_with_zeros 4 (meaning c.instrs parents args t) }
    ensures width { (c : CodeValue) (parents : List ℕ) (args : List ℤ) (t : Records) → IsCode c → Acceptable c.instrs → c.version ≡ One → IsTree parents → length t ≡ length parents
        → HasWidth narrow_field_count t → KeepsWidth narrow_field_count (meaning c.instrs parents args t) }
    ensures accepted { (c : CodeValue) → IsCode c → Acceptable c.instrs → c.version ≡ One → IsCode (migrated c) × Acceptable (migrated c).instrs }
    ensures migrated { (c : CodeValue) (parents : List ℕ) (args : List ℤ) (t : Records) → meaning (migrated c).instrs parents args t ≡ meaning c.instrs parents args t }
{}

/// A call alone stays within the bounds of its code: it does no more actions, locks no more nodes and emits no more values
/// than the sums of the weights allow.
pub fn alone_within_bounds()
    ensures steps { (c : CodeValue) (parents : List ℕ) (args : List ℤ) (t : Records) → IsCode c → Acceptable c.instrs → IsTree parents → length t ≡ length parents
        → length (meaning c.instrs parents args t).actions ≤ budget c.instrs }
    ensures locks { (c : CodeValue) (parents : List ℕ) (args : List ℤ) (t : Records) → IsCode c → Acceptable c.instrs → IsTree parents → length t ≡ length parents
        → lock_count (all_taken (meaning c.instrs parents args t).actions) ≤ lock_bound c.instrs }
    ensures emits { (c : CodeValue) (parents : List ℕ) (args : List ℤ) (t : Records) → IsCode c → Acceptable c.instrs → IsTree parents → length t ≡ length parents
        → length (meaning c.instrs parents args t).reply ≤ emit_bound c.instrs }
{}

/// What is left of a call is the rest of what it does alone, after the actions that it has done. This holds on each tree
/// that has what the call found, and so on an opening tree with each record that it found put in its place.
pub fn left_is_the_rest()
    ensures found { (turn : TurnValue) (args : List ℤ) (done : List Action) (t : Records) → IsCode turn.code → Acceptable turn.code.instrs → IsTree turn.parents
        → IsTurn turn.code.instrs turn.parents turn.call → IsAlong turn.code.instrs turn.parents args done turn.call
        → length t ≡ length turn.parents → HasFound done t
        → actions (left_of turn t) ≡ drop turn.call.steps (meaning turn.code.instrs turn.parents args t).actions }
    ensures opening { (turn : TurnValue) (args : List ℤ) (done part : List Action) (t : Records) → IsCode turn.code → Acceptable turn.code.instrs → IsTree turn.parents
        → IsTurn turn.code.instrs turn.parents turn.call → IsAlong turn.code.instrs turn.parents args done turn.call
        → length t ≡ length turn.parents → part ≡ shared_actions done
        → actions (left_of turn (with_found part t)) ≡ drop turn.call.steps (meaning turn.code.instrs turn.parents args (with_found part t)).actions }
{}
