// The normal form of what was read, one sign at a time.
ghost use Rattle.std.specs.Prelude.{◌≡◌, not};
ghost use mathlib.Core.Bool.{true};
ghost use Rattle.pltl.specs.Shapes.{formula_of};
ghost use Rattle.texts.specs.Normals.{normal_at, formula_at, parts_below};

use super::nodes::{Node, Syntax};
use pltl::{Dual, Shape};

// A node of what was read, or its negation. A sign stands beside the node, and not two variants, since both are read alike.
#[derive(Clone, Copy)]
pub struct Part {
    pub node: usize,
    pub negated: bool,
}

impl Dual for Part {
    ghost dualized = { λ p. record { node = p.node; negated = not p.negated } };

    fn dual(self) -> Part {
        Part {
            node: self.node,
            negated: !self.negated,
        }
    }
}

impl Part {
    // A node as it stands.
    pub fn plain(node: usize) -> Part
        ensures { result ≡ record { node = node; negated = mathlib.Core.Bool.false } }
    {
        Part {
            node,
            negated: false,
        }
    }
}

impl Syntax {
    // The normal form of a part, by its outermost sign.
    pub fn shape(&self, part: Part) -> Shape<Part>
        ensures value { formula_of (formula_at self.now.nodes.items) result ≡ formula_at self.now.nodes.items part }
        ensures parts { parts_below part.node result ≡ true }
    {
        let plain = self.shape_of(part.node);
        if part.negated {
            plain.opposite()
        } else {
            plain
        }
    }

    // The normal form of a node, by its outermost sign; where there is no such node, true.
    fn shape_of(&self, node: usize) -> Shape<Part>
        ensures value { formula_of (formula_at self.now.nodes.items) result ≡ normal_at self.now.nodes.items node }
        ensures parts { parts_below node result ≡ true }
    {
        let Some(found) = self.node(node) else {
            return Shape::True;
        };
        match found {
            Node::One => Shape::True,
            Node::Zero => Shape::False,
            Node::Letter(k) => Shape::Letter(k),
            Node::Not(a) => self.shape_of(a).opposite(),
            Node::Next(a) => Shape::Next(Part::plain(a)),
            Node::Always(a) => Shape::Always(Part::plain(a)),
            Node::Eventually(a) => Shape::Eventually(Part::plain(a)),
            Node::Until(a, b) => Shape::Until(Part::plain(a), Part::plain(b)),
            Node::Release(a, b) => Shape::Release(Part::plain(a), Part::plain(b)),
            Node::And(a, b) => Shape::And(Part::plain(a), Part::plain(b)),
            Node::Or(a, b) => Shape::Or(Part::plain(a), Part::plain(b)),
            Node::Implies(a, b) => Shape::Or(Part::plain(a).dual(), Part::plain(b)),
        }
    }
}
