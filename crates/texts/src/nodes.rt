// The syntax tree of a text, as a list of nodes.
ghost use Rattle.std.specs.Prelude.{◌≡◌, ◌+◌, ◌<◌, ◌≤◌, true, [], ◌∷◌, ◌++◌, IfOk, vec_len, vec_capacity, MatchOption};
ghost use Rattle.pltl.specs.Formulas.{one};
ghost use Rattle.texts.specs.Syntax.{Ordered, below, tree_at, tree_over, trees};

use std::alloc::{AllocError, Global};

// The longest text, in bytes. A text has at most as many nodes.
pub const LONGEST: usize = 512;

// A node of a syntax tree; a part is named by its index, which is smaller than the node's own.
#[derive(Clone, Copy)]
pub enum Node {
    One,
    Zero,
    Letter(u8),
    Not(usize),
    Next(usize),
    Always(usize),
    Eventually(usize),
    Until(usize, usize),
    Release(usize, usize),
    And(usize, usize),
    Or(usize, usize),
    Implies(usize, usize),
}

// The nodes of the text that was read last. Its memory is asked for when it is made, and never again: so a part is named
// by its index, and not held in a box.
#[derive(Drop)]
pub struct Syntax {
    nodes: Vec<Node>,
    ghost room: { 512 ≤ vec_capacity nodes },
    ghost ordered: { Ordered nodes.items },
}

impl Syntax {
    pub fn new(heap: Global) -> Result<Syntax, AllocError>
        ensures { IfOk result (λ s. s.nodes.items ≡ []) }
    {
        let nodes = Vec::with_capacity(heap, LONGEST)?;
        Ok(Syntax { nodes })
    }

    pub(crate) fn clear(&mut self)
        ensures { self.new.nodes.items ≡ [] }
    {
        self.nodes.clear();
    }

    // Adds a node, and answers its index.
    #[tactic(auto, using(crate::proofs::Trees::ordered_push))]
    pub(crate) fn push(&mut self, node: Node) -> usize
        requires room { vec_len self.old.nodes < 512 }
        requires parts { below (vec_len self.old.nodes) node ≡ true }
        ensures value { result ≡ vec_len self.old.nodes }
        ensures items { self.new.nodes.items ≡ self.old.nodes.items ++ node ∷ [] }
    {
        let at = self.nodes.len();
        self.nodes.push_reserved(node);
        at
    }

    // The node at an index, if there is one; its parts stand before it.
    pub(crate) fn node(&self, at: usize) -> Option<Node>
        ensures { MatchOption result (tree_at self.now.nodes.items at ≡ one) (λ n. (tree_at self.now.nodes.items at ≡ tree_over (trees self.now.nodes.items) n) × (below at n ≡ true)) }
    {
        self.nodes.get(at).copied()
    }
}
