// The code of statements.

ghost use Rattle.std.specs.Prelude.{◌≡◌, ◌+◌, ◌<◌, ◌≤◌, ◌∷◌, ◌||◌, false, not, List, length, reverse, is_some, option_map, OnOk, IfOk};
ghost use Rattle.tl_compiler.specs.Contexts.{Describes, LeadsTo, Writes, AreWays, ArePads, code_of, way_of, guarded_code};
ghost use Rattle.tl_compiler.specs.NodeSets.{nodes_of, nodes_at, all_sets, AreThose};
ghost use Rattle.tl_compiler.specs.Numbers.{register_of, behind, operand_code};
ghost use Rattle.tl_compiler.specs.Rooms.{Fits};
ghost use Rattle.tl_instr.specs.declared.operand.TheConstants.{VALUE_REGISTERS, NODE_REGISTERS};
ghost use Rattle.tl_lowering.specs.Registers.{HasRegisters};
ghost use Rattle.tl_compiler.specs.Statements.{counted_code, way_out, direct, is_skip, releases, held_behind, second_way, joining_code, loop_code, leave_code, statement_code, release_code, pad_at, pads_of};
ghost use Rattle.tl_lowering.specs.Outcomes.{after};

use crate::context::{Context, Exit, Pads};
use crate::draft::{Draft, Label, node_register, value_register};
use crate::node_set::{NodeSet, NodeSets, SETS};
use crate::outcomes::outcomes_of;
use crate::values::{Site, behind, register_of};
use std::alloc::AllocError;
use tl_instr::{Instr, NodeRegister};
use tl_lowering::{Expression, Statement};

// Two ways that join at the end of a statement.
#[derive(Clone, Copy)]
struct Ways {
    // Where the second way begins.
    second: Label,
    // Where both join.
    done: Label,
    // Whether the first way has to jump there.
    jumps: bool,
    // What is held there.
    kept: NodeSet,
}

// Where a break leads that frees nothing.
fn way_out(context: Context<'_>) -> Option<Label>
    ensures { (x : _) → Describes x context.entry → option_map (λ label. label.0) result ≡ way_out (nodes_of context.entry.held) x.exit }
{
    let Some(exit) = context.exit else {
        return None;
    };
    if exit.held.is_same(context.held) {
        Some(exit.label)
    } else {
        None
    }
}

// Where control goes from a statement that needs no code of its own.
fn direct(statement: &Statement, context: Context<'_>) -> Option<Label>
    ensures { (x : _) → Describes x context.entry → option_map (λ label. label.0) result ≡ direct statement.now (nodes_of context.entry.held) x }
{
    match statement {
        Statement::At(_, inner) => direct(inner, context),
        Statement::Fail => Some(context.failure()),
        Statement::Break => way_out(context),
        _ => None,
    }
}

fn is_skip(statement: &Statement) -> bool
    ensures { result ≡ is_skip statement.now }
{
    match statement {
        Statement::At(_, inner) => is_skip(inner),
        Statement::Skip => true,
        _ => false,
    }
}

// What is held after a statement; nothing if it never goes on.
fn held_behind(statement: &Statement, held: NodeSet) -> NodeSet
    ensures { nodes_of result ≡ held_behind (after statement.now (nodes_of held)) }
{
    outcomes_of(statement, held).after.unwrap_or(NodeSet::EMPTY)
}

// Whether the first of two ways has to jump over the code of the second one.
#[tactic(auto, unfolding(crate::specs::NodeSets::nodes_of))]
fn is_jumped_over(second: &Statement, after: Option<NodeSet>, kept: NodeSet) -> bool
    ensures { result ≡ (not (is_skip second.now) || releases (nodes_at after) (nodes_of kept)) }
{
    match after {
        Some(after) => !is_skip(second) || !after.minus(kept).is_same(NodeSet::EMPTY),
        None => !is_skip(second),
    }
}

impl Ways {
    // Both ways, where pads may stand between them.
    fn padded(self, is_padded: bool) -> Ways
        ensures { result ≡ record self { jumps = self.jumps || is_padded } }
    {
        Ways {
            jumps: self.jumps || is_padded,
            ..self
        }
    }
}

impl Draft {
    ghost use Rattle.std.specs.Prelude.{ℕ};
    ghost use Rattle.tl_instr.specs.declared.instr.Instr.TheVariants.{Child, Release, Move, Jump};
    ghost use Rattle.tl_compiler.specs.Labels.{target_of};
    ghost use Rattle.tl_lowering.specs.Sets.{Nodes, minus};

    // The second way is that of a failure.
    fn no_second_way(&self, kept: NodeSet, context: Context<'_>) -> Ways
        ensures second { (x : _) → Describes x context.entry → result.second.0 ≡ x.pad (nodes_of context.entry.held) }
        ensures done { result.done.0 ≡ length (code_of self.now) }
        ensures jumps { result.jumps ≡ false }
        ensures kept { result.kept ≡ kept }
    {
        Ways {
            second: context.failure(),
            done: self.here(),
            jumps: false,
            kept,
        }
    }

    // What stands behind a way that goes on: what isn't kept is freed, and then control may have to jump to where both join.
    fn join(
        &mut self,
        after: Option<NodeSet>,
        kept: NodeSet,
        jumps: bool,
        done: Label,
        origin: usize,
    ) -> Result<(), AllocError>
        ensures { OnOk result (code_of self.new ≡ joining_code (nodes_at after) (nodes_of kept) jumps done.0 (code_of self.old)) }
    {
        let Some(after) = after else {
            return Ok(());
        };
        if jumps {
            self.jump(origin, done)?;
        }
        self.release(origin, after.minus(kept))
    }

    // The second of two ways, and where it begins.
    #[cycle(statements)]
    fn second_way(
        &mut self,
        statement: &Statement,
        kept: NodeSet,
        context: Context<'_>,
    ) -> Result<Ways, AllocError>
        requires { Fits statement.now context.values context.nodes }
        ensures { IfOk result (λ ways. (x : _) → Describes x context.entry → AreWays ways (second_way (way_of statement.now (nodes_of context.entry.held) x) (nodes_of kept) (code_of self.old)) (nodes_of kept) self.old self.new) }
    {
        let done = self.here();
        if let Some(label) = direct(statement, context) {
            return Ok(Ways {
                second: label,
                done,
                jumps: false,
                kept,
            });
        }
        let after = outcomes_of(statement, context.held).after;
        self.join(after, kept, false, done, context.origin)?;
        self.statement(statement, context)?;
        Ok(Ways {
            second: self.here(),
            done,
            jumps: is_jumped_over(statement, after, kept),
            kept,
        })
    }

    // The first of two ways.
    #[cycle(statements)]
    fn first_way(
        &mut self,
        statement: &Statement,
        ways: Ways,
        context: Context<'_>,
    ) -> Result<(), AllocError>
        requires { Fits statement.now context.values context.nodes }
        ensures { OnOk result (Writes (λ x k. statement_code statement.now (nodes_of context.entry.held) x (joining_code (after statement.now (nodes_of context.entry.held)) (nodes_of ways.kept) ways.jumps ways.done.0 k)) context.entry self.old self.new) }
    {
        let after = outcomes_of(statement, context.held).after;
        self.join(after, ways.kept, ways.jumps, ways.done, context.origin)?;
        self.statement(statement, context)
    }

    // The pad of the failures that leave these registers held.
    fn pad(
        &mut self,
        held: NodeSet,
        handled: NodeSet,
        handler: Label,
        pads: &mut Pads,
        origin: usize,
    ) -> Result<(), AllocError>
        ensures code { OnOk result (code_of self.new ≡ release_code (minus (nodes_of held) (nodes_of handled)) (Jump (target_of handler.0) ∷ code_of self.old)) }
        ensures leads { OnOk result ((pad : Nodes → ℕ) → LeadsTo pad pads.old → LeadsTo (pad_at (nodes_of held) (length (code_of self.new)) pad) pads.new) }
    {
        self.jump(origin, handler)?;
        self.release(origin, held.minus(handled))?;
        pads.set(held, self.here());
        Ok(())
    }

    // The pads of the failures that leave more held than the handler begins with. Returns whether there is one.
    fn pads(
        &mut self,
        fails: &NodeSets,
        handled: NodeSet,
        handler: Label,
        pads: &mut Pads,
        origin: usize,
    ) -> Result<bool, AllocError>
        ensures { IfOk result (λ is_one. (list : List Nodes) → AreThose fails.now list → (pad : Nodes → ℕ) → LeadsTo pad pads.old → ArePads (pads_of all_sets list (nodes_of handled) handler.0 (record { code = code_of self.old; pad = pad; are_some = false })) self.new pads.new is_one) }
    {
        let mut is_one = false;
        for index in 0..SETS {
            let held = NodeSet::of_bits((SETS - 1 - index) as u8);
            if fails.contains(held) && !held.is_same(handled) {
                self.pad(held, handled, handler, pads, origin)?;
                is_one = true;
            }
        }
        Ok(is_one)
    }

    // The first way of a statement whose failure is handled by the second one.
    #[cycle(statements)]
    fn guarded(
        &mut self,
        body: &Statement,
        handled: NodeSet,
        ways: Ways,
        context: Context<'_>,
    ) -> Result<(), AllocError>
        requires { Fits body.now context.values context.nodes }
        ensures { OnOk result (Writes (guarded_code body.now (nodes_of context.entry.held) (nodes_of handled) ways) context.entry self.old self.new) }
    {
        let fails = outcomes_of(body, context.held).fails;
        let mut pads = *context.pads;
        pads.set(handled, ways.second);
        let is_padded = self.pads(&fails, handled, ways.second, &mut pads, context.origin)?;
        let inside = Context {
            held: context.held,
            values: context.values,
            nodes: context.nodes,
            pads: &pads,
            exit: context.exit,
            origin: context.origin,
        };
        self.first_way(body, ways.padded(is_padded), inside)
    }

    // The code of a loop after the instruction that opens it. `may_end` says whether the loop may end before its body does.
    #[cycle(statements)]
    fn turns(
        &mut self,
        body: &Statement,
        kept: NodeSet,
        may_end: bool,
        context: Context<'_>,
    ) -> Result<(), AllocError>
        requires { Fits body.now context.values context.nodes }
        ensures { OnOk result (Writes (loop_code (statement_code body.now (nodes_of context.entry.held)) (may_end || is_some (after body.now (nodes_of context.entry.held))) (nodes_of context.entry.held) (nodes_of kept)) context.entry self.old self.new) }
    {
        let exit = Exit {
            label: self.here(),
            held: kept,
        };
        if may_end || outcomes_of(body, context.held).after.is_some() {
            self.release(context.origin, context.held.minus(kept))?;
        }
        self.put(context.origin, Instr::End)?;
        self.statement(body, context.with_exit(exit))
    }

    // Opens a loop of as many turns as the number says. If these are more than `most`, control goes to the site's failure.
    fn counted(&mut self, number: &Expression, most: u16, site: Site) -> Result<(), AllocError>
        requires { HasRegisters number.now site.free × (behind number.now site.free + 1 ≤ VALUE_REGISTERS) }
        ensures { OnOk result (reverse self.new.instrs.items ≡ counted_code number.now most site.free site.failure.0 (reverse self.old.instrs.items)) }
    {
        let turns = register_of(number, site.free);
        let bound = value_register(behind(number, site.free));
        let origin = site.origin;
        self.put(origin, Instr::RepeatBy { turns, count: most })?;
        self.put(
            origin,
            Instr::JumpIfLess {
                left: bound,
                right: turns,
                target: site.failure.target(),
            },
        )?;
        self.put(
            origin,
            Instr::Set {
                to: bound,
                number: i32::from(most),
            },
        )?;
        self.operand(number, site)
    }

    // The instruction that does something with a number, after the number.
    fn write(&mut self, number: &Expression, instr: Instr, site: Site) -> Result<(), AllocError>
        requires { HasRegisters number.now site.free }
        ensures { OnOk result (code_of self.new ≡ operand_code number.now site.free site.failure.0 (instr ∷ code_of self.old)) }
    {
        self.put(site.origin, instr)?;
        self.operand(number, site)
    }

    // The child is locked under the next free register for a moment.
    fn descend(
        &mut self,
        node: NodeRegister,
        number: &Expression,
        free: usize,
        site: Site,
    ) -> Result<(), AllocError>
        requires { HasRegisters number.now site.free × (free < NODE_REGISTERS) }
        ensures { OnOk result (code_of self.new ≡ operand_code number.now site.free site.failure.0 (Child free node (register_of number.now site.free) (target_of site.failure.0) ∷ Release node ∷ Move node free ∷ code_of self.old)) }
    {
        let below = node_register(free);
        let origin = site.origin;
        self.put(
            origin,
            Instr::Move {
                to: node,
                from: below,
            },
        )?;
        self.put(origin, Instr::Release { node })?;
        let instr = Instr::Child {
            to: below,
            parent: node,
            number: register_of(number, site.free),
            otherwise: site.failure.target(),
        };
        self.write(number, instr, site)
    }

    // The first register's node is freed, and the first register takes over the second one's node.
    fn take(
        &mut self,
        node: NodeRegister,
        from: NodeRegister,
        origin: usize,
    ) -> Result<(), AllocError>
        ensures { OnOk result (code_of self.new ≡ Release node ∷ Move node from ∷ code_of self.old) }
    {
        self.put(origin, Instr::Move { to: node, from })?;
        self.put(origin, Instr::Release { node })
    }

    fn leave_loop(&mut self, context: Context<'_>) -> Result<(), AllocError>
        ensures { OnOk result (Writes (λ x k. leave_code (nodes_of context.entry.held) x.exit k) context.entry self.old self.new) }
    {
        let Some(exit) = context.exit else {
            return Ok(());
        };
        self.jump(context.origin, exit.label)?;
        self.release(context.origin, context.held.minus(exit.held))
    }

    /// The code of a statement, put before all that was written.
    #[cycle(statements)]
    pub fn statement(
        &mut self,
        statement: &Statement,
        context: Context<'_>,
    ) -> Result<(), AllocError>
        requires { Fits statement.now context.values context.nodes }
        ensures { OnOk result (Writes (statement_code statement.now (nodes_of context.entry.held)) context.entry self.old self.new) }
    {
        let origin = context.origin;
        let site = context.site(context.failure());
        match statement {
            Statement::Skip => Ok(()),
            Statement::Sequence(first, second) => {
                let between = held_behind(first, context.held);
                self.statement(second, context.with_held(between))?;
                self.statement(first, context)
            }
            Statement::Assign(to, number) => self.into(number, *to, site),
            Statement::Write(node, field, number) => {
                let instr = Instr::Put {
                    node: *node,
                    field: *field,
                    from: register_of(number, site.free),
                };
                self.write(number, instr, site)
            }
            Statement::Emit(number) => {
                let from = register_of(number, site.free);
                self.write(number, Instr::Emit { from }, site)
            }
            Statement::Free(node) => self.put(origin, Instr::Release { node: *node }),
            Statement::Descend(node, number) => self.descend(*node, number, context.nodes, site),
            Statement::Take(node, from) => self.take(*node, *from, origin),
            Statement::Break => self.leave_loop(context),
            Statement::Return => {
                self.put(origin, Instr::Return)?;
                self.release(origin, context.held)
            }
            Statement::Fail => self.jump(origin, site.failure),
            Statement::If(condition, first, second) => {
                let kept = held_behind(statement, context.held);
                if let (Some(label), None) = (direct(first, context), direct(second, context)) {
                    self.statement(second, context)?;
                    return self.branch(condition, true, label, site);
                }
                let ways = self.second_way(second, kept, context)?;
                self.first_way(first, ways, context)?;
                self.branch(condition, false, ways.second, site)
            }
            Statement::Let(to, number, body) => {
                let ways = self.no_second_way(held_behind(body, context.held), context);
                self.first_way(body, ways, context.with_value(*to))?;
                self.into(number, *to, context.binding(*to, ways.second))
            }
            Statement::LetElse(to, number, body, otherwise) => {
                let kept = held_behind(statement, context.held);
                let ways = self.second_way(otherwise, kept, context)?;
                self.first_way(body, ways, context.with_value(*to))?;
                self.into(number, *to, context.binding(*to, ways.second))
            }
            Statement::Lock(place, body, otherwise) => {
                let kept = held_behind(statement, context.held);
                let ways = self.second_way(otherwise, kept, context)?;
                self.first_way(body, ways, context.with_place(place))?;
                self.place(place, context.site(ways.second))
            }
            Statement::Try(body, handler) => {
                let kept = held_behind(statement, context.held);
                let handled = outcomes_of(body, context.held).handled(context.held);
                let ways = self.second_way(handler, kept, context.with_held(handled))?;
                self.guarded(body, handled, ways, context)
            }
            Statement::Repeat(count, body) => {
                let kept = held_behind(statement, context.held);
                self.turns(body, kept, false, context)?;
                self.put(origin, Instr::Repeat { count: *count })
            }
            Statement::RepeatUpTo(number, most, body) => {
                let kept = held_behind(statement, context.held);
                self.turns(body, kept, true, context)?;
                self.counted(number, *most, site)
            }
            Statement::At(origin, inner) => self.statement(inner, context.with_origin(*origin)),
        }
    }
}
