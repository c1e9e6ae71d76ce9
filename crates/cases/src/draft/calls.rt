// The calls on drafts and cases.
ghost use Rattle.std.specs.Prelude.{◌≡◌, false, [], ◌∷◌, length, IfOk, Some, None, MatchResult};
ghost use Rattle.pltl.specs.Formulas.{Tree, True, False, normal};
ghost use Rattle.texts.specs.Grammar.{Spells, implication};
ghost use Rattle.tables.specs.Steps.{Names};
ghost use Rattle.tables.specs.Answers.{answer, by_number};
ghost use Rattle.tables.specs.declared.table.entering.Form.TheVariants.{Itself};
ghost use Rattle.cases.specs.Drafts.{RootOf, RootOfKind, objection, clause, clause_of, after_clause, after_clause_of, sealed, after_form};
ghost use Rattle.cases.specs.Results.{call_number};
ghost use Rattle.cases.specs.Views.{draft_model, case_model, stepped_model};

use super::super::faults::{CallFault, CaseFault};
use super::super::kind::ClauseKind;
use super::super::recorder::Recorder;
use super::super::roots::Roots;
use super::{Case, Draft, MOST_CLAUSES, MOST_STEPS};
use kits::Kit;
use std::alloc::{AllocError, Global};
use tables::{Form, Number, Table};
use texts::{Syntax, TextFault};

impl<K: Kit + Drop> Draft<K> {
    // A draft over a kit, with no clauses. It asks for all memory that it and its case will use.
    pub fn new(kit: K, heap: Global) -> Result<Draft<K>, AllocError>
        ensures { IfOk result (λ d. (d.kit ≡ kit) × (draft_model d ≡ record { formulas = True ∷ False ∷ []; roots = []; clauses = 0; property = false })) }
    {
        let table = Table::new(heap)?;
        let syntax = Syntax::new(heap)?;
        let roots = Roots::new(heap)?;
        let steps = Vec::with_capacity(heap, MOST_STEPS)?;
        Ok(Draft {
            kit,
            table,
            syntax,
            roots,
            steps,
            clauses: 0,
            property: false,
        })
    }

    // The number that the kit has for the name of a rule.
    pub fn find(&self, name: &[u8]) -> Option<u16>
        ensures { result ≡ K.Kit.named self.now.kit name.now }
    {
        self.kit.find(name)
    }

    // Takes a clause of a kind, 1 to 4: the number of its root formula, or why it is refused. A caller may have a number
    // that is no kind's; `add` takes a kind.
    pub fn clause(&mut self, kind: usize, text: &[u8]) -> Result<Number, CallFault>
        ensures value { call_number result ≡ clause (draft_model self.old) kind text.now }
        ensures after { draft_model self.new ≡ after_clause (draft_model self.old) kind text.now }
        ensures root { IfOk result (λ n. RootOf (draft_model self.new).formulas n kind text.now) }
        ensures kit { self.new.kit ≡ self.old.kit }
    {
        let kind = ClauseKind::try_from(kind)?;
        self.add(kind, text)
    }

    // Takes a clause: the number of its root formula, or why it is refused.
    pub fn add(&mut self, kind: ClauseKind, text: &[u8]) -> Result<Number, CallFault>
        ensures value { call_number result ≡ clause_of (draft_model self.old) (Some kind) text.now }
        ensures after { draft_model self.new ≡ after_clause_of (draft_model self.old) (Some kind) text.now }
        ensures root { IfOk result (λ n. RootOfKind (draft_model self.new).formulas n kind text.now) }
        ensures kit { self.new.kit ≡ self.old.kit }
    {
        self.admit(kind)?;
        let entered = self.table.enter(&mut self.syntax, text, kind.form())?;
        let root = kind.root(entered);
        self.roots.note(root);
        self.clauses += 1;
        self.property |= kind.is_property();
        Ok(root)
    }

    // What the draft objects to a clause before its text is read.
    fn admit(&self, kind: ClauseKind) -> Result<(), CaseFault>
        ensures { MatchResult result (λ _. objection (draft_model self.now) (Some kind) ≡ None) (λ f. objection (draft_model self.now) (Some kind) ≡ Some f) }
    {
        if kind.is_property() && self.property {
            return Err(CaseFault::SecondProperty);
        }
        if self.clauses >= MOST_CLAUSES {
            return Err(CaseFault::TooManyClauses);
        }
        Ok(())
    }

    // Seals the draft: its case, and the count of distinct root formulas.
    pub fn seal(self) -> (Case<K>, usize)
        ensures value { result.1 ≡ length (sealed (draft_model self)).roots }
        ensures after { case_model result.0 ≡ sealed (draft_model self) }
        ensures steps { (stepped_model result.0).steps ≡ [] }
        ensures kit { result.0.kit ≡ self.kit }
    {
        let Draft {
            kit,
            table,
            syntax,
            mut roots,
            steps,
            clauses: _,
            property,
        } = self;
        if !property {
            roots.note(Number(0));
        }
        let count = roots.len();
        (
            Case {
                kit,
                table,
                syntax,
                roots,
                steps,
                run: Recorder::new(),
            },
            count,
        )
    }
}

impl<K: Kit + Drop> Case<K> {
    // The number of a text's formula.
    pub fn form(&mut self, text: &[u8]) -> Result<Number, TextFault>
        ensures value { by_number result ≡ answer (case_model self.old).formulas Itself text.now }
        ensures names { IfOk result (λ n. (t : Tree) × Spells implication t text.now × Names (case_model self.new).formulas n (normal t)) }
        ensures after { case_model self.new ≡ after_form (case_model self.old) text.now }
        ensures steps { (stepped_model self.new).steps ≡ (stepped_model self.old).steps }
        ensures kit { self.new.kit ≡ self.old.kit }
    {
        self.table.enter(&mut self.syntax, text, Form::Itself)
    }
}
