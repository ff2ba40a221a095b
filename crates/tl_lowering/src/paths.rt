// What is known of the paths that lead to a place.

ghost use Rattle.std.specs.Prelude.{◌≡◌, ◌^◌, true, ◌||◌, slice_set};
ghost use Rattle.tl_lowering.specs.Entering.{before_of, entered_at, entered_of};
ghost use Rattle.tl_lowering.specs.Passing.{or_of, or_else_of, either_entered, failing_entered, on_entered};
ghost use Rattle.tl_lowering.specs.Sets.{holds, with_node, without_node, both, minus, both_of};
ghost use Rattle.tl_lowering.specs.Outcomes.{handled_by};
ghost use Rattle.tl_lowering.specs.Paths.{bits, nodes_of, passed_of, known, paths_of};
ghost use Rattle.tl_lowering.specs.Paths.{on as path_on, failing as failing_at, failing_if as failing_there, keeping as keeping_only, either, with_handler};

use tl_instr::NodeRegister;

/// What holds at a place on every path that leads there.
#[derive(Clone, Copy, Debug, PartialEq, Eq)]
pub struct Held {
    /// The node registers that own a node, a bit each.
    pub nodes: u8,
    /// The node registers of whose node a child was locked, or whose children were gone through, a bit each.
    pub visited: u8,
    /// Whether the tree was entered on at least one path.
    pub is_entered: bool,
}

fn bit(register: NodeRegister) -> u8
    ensures { result ≡ 2 ^ register }
{
    1 << register.number()
}

impl Held {
    /// At the start of a procedure.
    pub const NOTHING: Held = Held {
        nodes: 0,
        visited: 0,
        is_entered: false,
    };

    pub fn holds(self, register: NodeRegister) -> bool
        ensures { result ≡ holds (nodes_of self) register }
    {
        self.nodes & bit(register) != 0
    }

    pub fn has_visited(self, register: NodeRegister) -> bool
        ensures { result ≡ holds (passed_of self) register }
    {
        self.visited & bit(register) != 0
    }

    /// After the register got a node of which no child was locked.
    pub fn with(self, register: NodeRegister) -> Held
        ensures nodes { nodes_of result ≡ with_node (nodes_of self) register }
        ensures passed { passed_of result ≡ without_node (passed_of self) register }
        ensures entered { result.is_entered ≡ self.is_entered }
    {
        Held {
            nodes: self.nodes | bit(register),
            visited: self.visited & !bit(register),
            ..self
        }
    }

    pub fn without(self, register: NodeRegister) -> Held
        ensures nodes { nodes_of result ≡ without_node (nodes_of self) register }
        ensures passed { passed_of result ≡ passed_of self }
        ensures entered { result.is_entered ≡ self.is_entered }
    {
        Held {
            nodes: self.nodes & !bit(register),
            ..self
        }
    }

    /// After a child of the register's node was locked.
    pub fn visiting(self, register: NodeRegister) -> Held
        ensures nodes { nodes_of result ≡ nodes_of self }
        ensures passed { passed_of result ≡ with_node (passed_of self) register }
        ensures entered { result.is_entered ≡ self.is_entered }
    {
        Held {
            visited: self.visited | bit(register),
            ..self
        }
    }

    /// When it is no longer known whether children of these nodes were locked.
    pub fn forgetting(self, nodes: u8) -> Held
        ensures nodes { nodes_of result ≡ nodes_of self }
        ensures passed { passed_of result ≡ minus (passed_of self) (bits nodes) }
        ensures entered { result.is_entered ≡ self.is_entered }
    {
        Held {
            visited: self.visited & !nodes,
            ..self
        }
    }

    pub fn entered(self) -> Held
        ensures nodes { nodes_of result ≡ nodes_of self }
        ensures passed { passed_of result ≡ passed_of self }
        ensures entered { result.is_entered ≡ true }
    {
        Held {
            is_entered: true,
            ..self
        }
    }

    /// After the first register took over the second one's node.
    pub fn taking(self, register: NodeRegister, from: NodeRegister) -> Held
        ensures nodes { nodes_of result ≡ without_node (with_node (nodes_of self) register) from }
        ensures passed { passed_of result ≡ slice_set (passed_of self) register (holds (passed_of self) from) }
        ensures entered { result.is_entered ≡ self.is_entered }
    {
        let taken = self.with(register).without(from);
        if self.has_visited(from) {
            taken.visiting(register)
        } else {
            taken
        }
    }

    /// Only these registers keep their nodes.
    pub fn keeping(self, nodes: u8) -> Held
        ensures nodes { nodes_of result ≡ both (nodes_of self) (bits nodes) }
        ensures passed { passed_of result ≡ passed_of self }
        ensures entered { result.is_entered ≡ self.is_entered }
    {
        Held {
            nodes: self.nodes & nodes,
            ..self
        }
    }

    // What holds on paths of either kind.
    fn and(self, other: Held) -> Held
        ensures nodes { nodes_of result ≡ both (nodes_of self) (nodes_of other) }
        ensures passed { passed_of result ≡ both (passed_of self) (passed_of other) }
        ensures entered { result.is_entered ≡ (self.is_entered || other.is_entered) }
    {
        Held {
            nodes: self.nodes & other.nodes,
            visited: self.visited & other.visited,
            is_entered: self.is_entered || other.is_entered,
        }
    }
}

/// What holds where paths join. None stands for no path.
pub fn join(first: Option<Held>, second: Option<Held>) -> Option<Held>
    ensures nodes { known result ≡ both_of (known first) (known second) }
    ensures entered { entered_at result ≡ or_of (entered_at first) (entered_at second) }
{
    match (first, second) {
        (None, other) | (other, None) => other,
        (Some(first), Some(second)) => Some(first.and(second)),
    }
}

/// Where the paths through a statement lead, and what holds there: on, to the handler of a failure, and out of the loop.
#[derive(Clone, Copy, Debug)]
pub struct Flow {
    pub after: Option<Held>,
    pub fails: Option<Held>,
    pub breaks: Option<Held>,
}

impl Flow {
    /// On, and nowhere else.
    pub fn on(held: Held) -> Flow
        ensures paths { paths_of result ≡ path_on (nodes_of held) }
        ensures entered { entered_of result ≡ on_entered (before_of held) }
    {
        Flow {
            after: Some(held),
            fails: None,
            breaks: None,
        }
    }

    /// Nowhere.
    pub const NOWHERE: Flow = Flow {
        after: None,
        fails: None,
        breaks: None,
    };

    /// The statement may also fail, and `held` holds then.
    pub fn failing(self, held: Held) -> Flow
        ensures paths { paths_of result ≡ failing_at (paths_of self) (nodes_of held) }
        ensures entered { entered_of result ≡ failing_entered true (before_of held) (entered_of self) }
    {
        Flow {
            fails: join(self.fails, Some(held)),
            ..self
        }
    }

    pub fn failing_if(self, may_fail: bool, held: Held) -> Flow
        ensures paths { paths_of result ≡ failing_there may_fail (paths_of self) (nodes_of held) }
        ensures entered { entered_of result ≡ failing_entered may_fail (before_of held) (entered_of self) }
    {
        if may_fail { self.failing(held) } else { self }
    }

    /// The statement goes on, and `held` holds then.
    pub fn going_on(self, held: Held) -> Flow
        ensures paths { paths_of result ≡ record (paths_of self) { after = Some (nodes_of held) } }
        ensures entered { entered_of result ≡ record (entered_of self) { after = Some (before_of held) } }
    {
        Flow {
            after: Some(held),
            ..self
        }
    }

    /// This statement, and where control goes on the next one.
    pub fn then(self, next: Flow) -> Flow
        ensures paths { paths_of result ≡ record {
          after = known next.after;
          fails = both_of (known self.fails) (known next.fails);
          breaks = both_of (known self.breaks) (known next.breaks);
        } }
        ensures entered { entered_of result ≡ record {
          after = entered_at next.after;
          fails = or_of (entered_at self.fails) (entered_at next.fails);
          breaks = or_of (entered_at self.breaks) (entered_at next.breaks);
        } }
    {
        Flow {
            after: next.after,
            fails: join(self.fails, next.fails),
            breaks: join(self.breaks, next.breaks),
        }
    }

    /// Behind the statement only these registers keep their nodes.
    pub fn keeping(self, nodes: u8) -> Flow
        ensures paths { paths_of result ≡ record (paths_of self) { after = keeping_only (bits nodes) (paths_of self).after } }
        ensures entered { entered_of result ≡ entered_of self }
    {
        Flow {
            after: self.after.map(|after| after.keeping(nodes)),
            ..self
        }
    }

    /// One statement or the other.
    pub fn or(self, other: Flow) -> Flow
        ensures paths { paths_of result ≡ either (paths_of self) (paths_of other) }
        ensures entered { entered_of result ≡ either_entered (entered_of self) (entered_of other) }
    {
        Flow {
            after: join(self.after, other.after),
            fails: join(self.fails, other.fails),
            breaks: join(self.breaks, other.breaks),
        }
    }

    /// What holds as the handler of a statement begins. `start` held when the statement began. If the statement can't fail, its
    /// handler is read as if it failed at once.
    pub fn handled(self, start: Held) -> Held
        ensures nodes { nodes_of result ≡ handled_by (nodes_of start) (known self.fails) }
        ensures entered { before_of result ≡ or_else_of (entered_of self).fails (before_of start) }
    {
        match self.fails {
            Some(fails) => fails.keeping(start.nodes),
            None => start,
        }
    }

    /// The statement, and the handler of its failure.
    pub fn handled_by(self, handler: Flow) -> Flow
        ensures paths { paths_of result ≡ with_handler (paths_of self) (paths_of handler) }
        ensures entered { entered_of result ≡ record {
          after = or_of (entered_at self.after) (entered_at handler.after);
          fails = entered_at handler.fails;
          breaks = or_of (entered_at self.breaks) (entered_at handler.breaks);
        } }
    {
        Flow {
            after: join(self.after, handler.after),
            fails: handler.fails,
            breaks: join(self.breaks, handler.breaks),
        }
    }
}
