// The lexer, and the five levels of the grammar.
ghost use Rattle.std.specs.Prelude.{◌≡◌, ◌<◌, ◌≤◌, length, if◌then◌else◌, vec_len, nat_lt};
ghost use Rattle.texts.specs.declared.faults.TextFault.TheVariants.{Unexpected, Incomplete};
ghost use Rattle.texts.specs.Reading.{Reads};
ghost use Rattle.texts.specs.Scan.{reading};
ghost use Rattle.texts.specs.Signs.{classified, sign_from};
ghost use Rattle.texts.specs.Syntax.{answered};

use super::Sign;
use super::faults::TextFault;
use super::nodes::{LONGEST, Node, Syntax};

impl Sign {
    // Which sign a byte is.
    fn of(byte: u8) -> Sign
        ensures { result ≡ classified byte }
    {
        match byte as char {
            '!' => Sign::Not,
            'X' => Sign::Next,
            'G' => Sign::Always,
            'F' => Sign::Eventually,
            'U' => Sign::Until,
            'R' => Sign::Release,
            '&' => Sign::And,
            '|' => Sign::Or,
            '-' => Sign::Minus,
            '>' => Sign::Greater,
            '(' => Sign::Open,
            ')' => Sign::Close,
            '1' => Sign::One,
            '0' => Sign::Zero,
            'a'..='z' => Sign::Letter(byte - b'a'),
            _ => Sign::Other,
        }
    }
}

// A text, how far it is read, and the syntax that the nodes of what was read go into.
#[derive(Drop)]
struct Reader<'text, 'syntax> {
    text: &'text [u8],
    at: usize,
    syntax: &'syntax mut Syntax,
    ghost short: { length text.now ≤ 512 },
    ghost within: { at ≤ length text.now },
    // No more nodes than bytes were read.
    ghost few: { vec_len syntax.now.nodes ≤ at },
}

impl<'text, 'syntax> Reader<'text, 'syntax> {
    ghost use Rattle.texts.specs.Grammar.{implication, disjunction, conjunction, temporal, unary};
    ghost use Rattle.texts.specs.Parsing.{Parses, Steps, rest};

    // The sign that comes next; the end of the text is none.
    #[tactic(auto, using(std::proofs::lemmas::List::at_drop_more), unfolding(crate::specs::Signs::sign_of))]
    fn sign(&self) -> Sign
        ensures { result ≡ sign_from (rest self.now) }
    {
        match self.text.get(self.at) {
            Some(byte) => Sign::of(*byte),
            None => Sign::Other,
        }
    }

    // Steps over the sign that comes next.
    fn step(&mut self)
        requires { self.old.at < length self.old.text.now }
        ensures same_syntax { self.new.syntax.ghost_name ≡ self.old.syntax.ghost_name }
        ensures steps { Steps self.old self.new }
    {
        self.at += 1;
    }

    // The fault where another sign was wanted next: the text ends there, or goes on otherwise.
    fn unwanted(&self) -> TextFault
        ensures { result ≡ (if nat_lt self.now.at (length self.now.text.now) then Unexpected self.now.at else Incomplete (length self.now.text.now)) }
    {
        if self.at < self.text.len() {
            TextFault::Unexpected(self.at)
        } else {
            TextFault::Incomplete(self.text.len())
        }
    }

    // A function for each level: a closure that makes the node has no proof in a cycle of calls.

    // implication: disjunction, or disjunction `->` implication
    #[cycle(levels)]
    fn implication(&mut self) -> Result<usize, TextFault>
        ensures same_syntax { self.new.syntax.ghost_name ≡ self.old.syntax.ghost_name }
        ensures reads { Parses implication self.old self.new result }
    {
        let left = self.disjunction()?;
        let Sign::Minus = self.sign() else {
            return Ok(left);
        };
        self.step();
        let Sign::Greater = self.sign() else {
            return Err(self.unwanted());
        };
        self.step();
        let right = self.implication()?;
        Ok(self.syntax.push(Node::Implies(left, right)))
    }

    // disjunction: conjunction, or conjunction `|` disjunction
    #[cycle(levels)]
    fn disjunction(&mut self) -> Result<usize, TextFault>
        ensures same_syntax { self.new.syntax.ghost_name ≡ self.old.syntax.ghost_name }
        ensures reads { Parses disjunction self.old self.new result }
    {
        let left = self.conjunction()?;
        let Sign::Or = self.sign() else {
            return Ok(left);
        };
        self.step();
        let right = self.disjunction()?;
        Ok(self.syntax.push(Node::Or(left, right)))
    }

    // conjunction: temporal, or temporal `&` conjunction
    #[cycle(levels)]
    fn conjunction(&mut self) -> Result<usize, TextFault>
        ensures same_syntax { self.new.syntax.ghost_name ≡ self.old.syntax.ghost_name }
        ensures reads { Parses conjunction self.old self.new result }
    {
        let left = self.temporal()?;
        let Sign::And = self.sign() else {
            return Ok(left);
        };
        self.step();
        let right = self.conjunction()?;
        Ok(self.syntax.push(Node::And(left, right)))
    }

    // temporal: unary, or unary `U` temporal, or unary `R` temporal
    #[cycle(levels)]
    fn temporal(&mut self) -> Result<usize, TextFault>
        ensures same_syntax { self.new.syntax.ghost_name ≡ self.old.syntax.ghost_name }
        ensures reads { Parses temporal self.old self.new result }
    {
        let left = self.unary()?;
        match self.sign() {
            Sign::Until => {
                self.step();
                let right = self.temporal()?;
                Ok(self.syntax.push(Node::Until(left, right)))
            }
            Sign::Release => {
                self.step();
                let right = self.temporal()?;
                Ok(self.syntax.push(Node::Release(left, right)))
            }
            _ => Ok(left),
        }
    }

    // unary: a one-sided sign and a unary, a letter, a constant, or (implication)
    #[cycle(levels)]
    fn unary(&mut self) -> Result<usize, TextFault>
        ensures same_syntax { self.new.syntax.ghost_name ≡ self.old.syntax.ghost_name }
        ensures reads { Parses unary self.old self.new result }
    {
        match self.sign() {
            Sign::Not => {
                self.step();
                let part = self.unary()?;
                Ok(self.syntax.push(Node::Not(part)))
            }
            Sign::Next => {
                self.step();
                let part = self.unary()?;
                Ok(self.syntax.push(Node::Next(part)))
            }
            Sign::Always => {
                self.step();
                let part = self.unary()?;
                Ok(self.syntax.push(Node::Always(part)))
            }
            Sign::Eventually => {
                self.step();
                let part = self.unary()?;
                Ok(self.syntax.push(Node::Eventually(part)))
            }
            Sign::One => {
                self.step();
                Ok(self.syntax.push(Node::One))
            }
            Sign::Zero => {
                self.step();
                Ok(self.syntax.push(Node::Zero))
            }
            Sign::Letter(letter) => {
                self.step();
                Ok(self.syntax.push(Node::Letter(letter)))
            }
            Sign::Open => {
                self.step();
                let inner = self.implication()?;
                let Sign::Close = self.sign() else {
                    return Err(self.unwanted());
                };
                self.step();
                Ok(inner)
            }
            _ => Err(self.unwanted()),
        }
    }
}

impl Syntax {
    // Reads a text: the index of the root of its tree, or why it is refused.
    pub fn read(&mut self, text: &[u8]) -> Result<usize, TextFault>
        ensures value { answered self.new.nodes.items result ≡ reading text.now }
        ensures reads { Reads text.now (answered self.new.nodes.items result) }
    {
        self.clear();
        if text.is_empty() {
            return Err(TextFault::Empty);
        }
        if text.len() > LONGEST {
            return Err(TextFault::TooLong);
        }
        let mut reader = Reader {
            text,
            at: 0,
            syntax: self,
        };
        let root = reader.implication()?;
        if reader.at < text.len() {
            return Err(TextFault::Unexpected(reader.at));
        }
        Ok(root)
    }
}
