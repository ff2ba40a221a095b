// The code that locks places.

ghost use Rattle.std.specs.Prelude.{◌≡◌, length, reverse, OnOk};
ghost use Rattle.tl_lowering.specs.Fit.{HasPlaceRoom};
ghost use Rattle.tl_compiler.specs.Statements.{in_order_code, pair_code, place_code};

use crate::draft::{Draft, Label};
use crate::values::{Site, behind, register_of};
use std::alloc::AllocError;
use tl_instr::{Instr, NodeRegister, ValueRegister};
use tl_lowering::Place;

// A child that is to be locked: the register that it gets, and the one that its number is in.
#[derive(Drop)]
struct Claim {
    node: NodeRegister,
    number: ValueRegister,
}

impl Draft {
    /// The code that locks a place. If it can't be locked, control goes to the site's failure.
    pub fn place(&mut self, place: &Place, site: Site) -> Result<(), AllocError>
        requires { HasPlaceRoom place.now site.free }
        ensures { OnOk result (reverse self.new.instrs.items ≡ place_code place.now site.free site.failure.0 (reverse self.old.instrs.items)) }
    {
        let otherwise = site.failure.target();
        match place {
            Place::Node(to, number) => {
                let instr = Instr::First {
                    to: *to,
                    number: register_of(number, site.free),
                    otherwise,
                };
                self.put(site.origin, instr)?;
                self.operand(number, site)
            }
            Place::Child(to, parent, number) => {
                let instr = Instr::Child {
                    to: *to,
                    parent: *parent,
                    number: register_of(number, site.free),
                    otherwise,
                };
                self.put(site.origin, instr)?;
                self.operand(number, site)
            }
            Place::Pair {
                first,
                second,
                parent,
                first_number,
                second_number,
            } => {
                let first = Claim {
                    node: *first,
                    number: register_of(first_number, site.free),
                };
                let second = Claim {
                    node: *second,
                    number: register_of(second_number, behind(first_number, site.free)),
                };
                self.pair(&first, &second, *parent, site)?;
                self.operands(first_number, second_number, site)
            }
        }
    }

    // Both children in rising order; if the second one can't be locked, the first one is freed.
    fn pair_in_order(
        &mut self,
        lower: &Claim,
        upper: &Claim,
        parent: NodeRegister,
        done: Label,
        site: Site,
    ) -> Result<(), AllocError>
        ensures { OnOk result (reverse self.new.instrs.items ≡ in_order_code lower.now.node lower.now.number upper.now.node upper.now.number parent done.0 site.failure.0 (reverse self.old.instrs.items)) }
    {
        let origin = site.origin;
        self.jump(origin, site.failure)?;
        self.put(origin, Instr::Release { node: lower.node })?;
        let undone = self.here();
        self.jump(origin, done)?;
        self.put(
            origin,
            Instr::Child {
                to: upper.node,
                parent,
                number: upper.number,
                otherwise: undone.target(),
            },
        )?;
        self.put(
            origin,
            Instr::Child {
                to: lower.node,
                parent,
                number: lower.number,
                otherwise: site.failure.target(),
            },
        )
    }

    // Two children at once.
    fn pair(
        &mut self,
        first: &Claim,
        second: &Claim,
        parent: NodeRegister,
        site: Site,
    ) -> Result<(), AllocError>
        ensures { OnOk result (reverse self.new.instrs.items ≡ pair_code first.now.node first.now.number second.now.node second.now.number parent site.failure.0 (reverse self.old.instrs.items)) }
    {
        let origin = site.origin;
        let done = self.here();
        self.pair_in_order(first, second, parent, done, site)?;
        let upward = self.here();
        self.pair_in_order(second, first, parent, done, site)?;
        self.put(
            origin,
            Instr::JumpIfEqual {
                left: first.number,
                right: second.number,
                target: site.failure.target(),
            },
        )?;
        self.put(
            origin,
            Instr::JumpIfLess {
                left: first.number,
                right: second.number,
                target: upward.target(),
            },
        )
    }
}
