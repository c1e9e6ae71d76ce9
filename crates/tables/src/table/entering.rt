// Numbering what was read.
ghost use Rattle.std.specs.Prelude.{◌≡◌, IfOk};
ghost use Rattle.pltl.specs.Formulas.{Tree};
ghost use Rattle.texts.specs.Grammar.{Spells, implication};
ghost use Rattle.texts.specs.Normals.{formula_at};
ghost use Rattle.texts.specs.Syntax.{tree_at};
ghost use Rattle.tables.specs.Answers.{entry, by_number, answer, after};
ghost use Rattle.tables.specs.Entering.{enter, enter_parts};
ghost use Rattle.tables.specs.Listing.{formulas, Lawful, PartsSmaller};
ghost use Rattle.tables.specs.Steps.{Names, Grown, Reaches, Shapes};

use super::super::number::Number;
use super::Table;
use pltl::Shape;
use texts::{Part, Syntax, TextFault};

// Which formula of a text is numbered: the one that it spells, or always of that.
#[derive(Clone, Copy)]
pub enum Form {
    Itself,
    Always,
}

impl Table {
    // Reads a text, and numbers its formula: the number, or why the text is refused. A refusal leaves the table as it was.
    pub fn enter(
        &mut self,
        syntax: &mut Syntax,
        text: &[u8],
        form: Form,
    ) -> Result<Number, TextFault>
        ensures value { by_number result ≡ answer (formulas self.old.shapes.items) form text.now }
        ensures after { formulas self.new.shapes.items ≡ after (formulas self.old.shapes.items) form text.now }
        ensures names { IfOk result (λ n. (t : Tree) × Spells implication t text.now × Names (formulas self.new.shapes.items) n (entry form t)) }
        ensures grown { Grown (formulas self.old.shapes.items) (formulas self.new.shapes.items) }
        ensures lawful { Lawful (formulas self.new.shapes.items) }
        ensures parts { PartsSmaller (formulas self.new.shapes.items) }
    {
        let root = syntax.read(text)?;
        let before = self.shapes.len();
        let Some(number) = self.number_form(syntax, root, form) else {
            self.shapes.truncate(before);
            return Err(TextFault::Full);
        };
        Ok(number)
    }

    // Numbers the formula of a node that was read; nothing where there is no room.
    fn number_form(&mut self, syntax: &Syntax, root: usize, form: Form) -> Option<Number>
        ensures value { Reaches (enter (formulas self.old.shapes.items) (entry form (tree_at syntax.now.nodes.items root))) (formulas self.new.shapes.items) (λ n. Names (formulas self.new.shapes.items) n (entry form (tree_at syntax.now.nodes.items root))) result }
        ensures grown { Grown self.old.shapes.items self.new.shapes.items }
    {
        let number = self.number(syntax, Part::plain(root))?;
        match form {
            Form::Itself => Some(number),
            Form::Always => self.add(Shape::Always(number)),
        }
    }

    // Numbers a part of what was read, after its own parts; nothing where there is no room.
    #[cycle(number_number_both_number_parts)]
    fn number(&mut self, syntax: &Syntax, part: Part) -> Option<Number>
        ensures value { Reaches (enter (formulas self.old.shapes.items) (formula_at syntax.now.nodes.items part)) (formulas self.new.shapes.items) (λ n. Names (formulas self.new.shapes.items) n (formula_at syntax.now.nodes.items part)) result }
        ensures grown { Grown self.old.shapes.items self.new.shapes.items }
    {
        let shape = self.number_parts(syntax, part)?;
        self.add(shape)
    }

    // Numbers the parts of a part, and answers its shape over their numbers. An arm for each shape: a closure that numbers a
    // part has no proof in a cycle of calls.
    #[cycle(number_number_both_number_parts)]
    fn number_parts(&mut self, syntax: &Syntax, part: Part) -> Option<Shape<Number>>
        ensures value { Reaches (enter_parts (formulas self.old.shapes.items) (formula_at syntax.now.nodes.items part)) (formulas self.new.shapes.items) (Shapes (formulas self.new.shapes.items) (formula_at syntax.now.nodes.items part)) result }
        ensures grown { Grown self.old.shapes.items self.new.shapes.items }
    {
        match syntax.shape(part) {
            Shape::True => Some(Shape::True),
            Shape::False => Some(Shape::False),
            Shape::Letter(p) => Some(Shape::Letter(p)),
            Shape::NotLetter(p) => Some(Shape::NotLetter(p)),
            Shape::Next(a) => Some(Shape::Next(self.number(syntax, a)?)),
            Shape::Always(a) => Some(Shape::Always(self.number(syntax, a)?)),
            Shape::Eventually(a) => Some(Shape::Eventually(self.number(syntax, a)?)),
            Shape::Until(a, b) => {
                let (a, b) = self.number_both(syntax, a, b)?;
                Some(Shape::Until(a, b))
            }
            Shape::Release(a, b) => {
                let (a, b) = self.number_both(syntax, a, b)?;
                Some(Shape::Release(a, b))
            }
            Shape::And(a, b) => {
                let (a, b) = self.number_both(syntax, a, b)?;
                Some(Shape::And(a, b))
            }
            Shape::Or(a, b) => {
                let (a, b) = self.number_both(syntax, a, b)?;
                Some(Shape::Or(a, b))
            }
        }
    }

    // Numbers two parts, left first.
    #[cycle(number_number_both_number_parts)]
    fn number_both(&mut self, syntax: &Syntax, left: Part, right: Part) -> Option<(Number, Number)>
        ensures value { Reaches (enter (enter (formulas self.old.shapes.items) (formula_at syntax.now.nodes.items left)) (formula_at syntax.now.nodes.items right)) (formulas self.new.shapes.items) (λ p. Names (formulas self.new.shapes.items) p.0 (formula_at syntax.now.nodes.items left) × Names (formulas self.new.shapes.items) p.1 (formula_at syntax.now.nodes.items right)) result }
        ensures grown { Grown self.old.shapes.items self.new.shapes.items }
    {
        let (left, right) = (self.number(syntax, left)?, self.number(syntax, right)?);
        Some((left, right))
    }
}
