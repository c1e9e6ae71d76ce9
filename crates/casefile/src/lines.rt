// The lines of a case file.
ghost use Rattle.std.specs.Prelude.{◌≡◌, ℕ, ◌+◌, ◌-◌, ◌<◌, ◌≤◌, true, length, drop, is_some, if◌then◌else◌, ◌==◌, nat_lt, position};
ghost use Rattle.casefile.specs.Newlines.{newlines};

use super::faults::LineFault;

// A line by its key; the value is the part of the file after the `=`.
#[derive(Clone, Copy)]
pub enum Line<'a> {
    Kit(&'a [u8]),
    Init(&'a [u8]),
    Inv(&'a [u8]),
    Trans(&'a [u8]),
    Prop(&'a [u8]),
    Seal(&'a [u8]),
    Form(&'a [u8]),
    Step(&'a [u8]),
    State(&'a [u8]),
    Loop(&'a [u8]),
    Drop(&'a [u8]),
    Verdict(&'a [u8]),
}

impl<'a> Line<'a> {
    // A line without its last byte. Where it has no `=`, or another key, no line is due.
    pub fn parse(line: &'a [u8]) -> Result<Line<'a>, LineFault> {
        let Some(end) = find(line, b'=') else {
            return Err(LineFault::NotDue);
        };
        let value = &line[end + 1..];
        match &line[..end] {
            b"kit" => Ok(Line::Kit(value)),
            b"init" => Ok(Line::Init(value)),
            b"inv" => Ok(Line::Inv(value)),
            b"trans" => Ok(Line::Trans(value)),
            b"prop" => Ok(Line::Prop(value)),
            b"seal" => Ok(Line::Seal(value)),
            b"form" => Ok(Line::Form(value)),
            b"step" => Ok(Line::Step(value)),
            b"state" => Ok(Line::State(value)),
            b"loop" => Ok(Line::Loop(value)),
            b"drop" => Ok(Line::Drop(value)),
            b"verdict" => Ok(Line::Verdict(value)),
            _ => Err(LineFault::NotDue),
        }
    }
}

// The offset of the first such byte.
pub(crate) fn find(bytes: &[u8], byte: u8) -> Option<usize>
    ensures { result ≡ position (λ b. b == byte) bytes.now }
{
    bytes.iter().position(|b| *b == byte)
}

// Walks over the bytes of a file, line by line, and copies none.
#[derive(Drop)]
pub struct Lines<'a> {
    file: &'a [u8],
    // where the next line begins
    at: usize,
    // how many lines were passed
    line: usize,
    ghost inside: { at ≤ length file.now },
    ghost counted: { line ≤ at },
}

impl<'a> Lines<'a> {
    pub fn new(file: &'a [u8]) -> Lines<'a>
        ensures file { result.file.now ≡ file.now }
        ensures at { result.at ≡ 0 }
        ensures line { result.line ≡ 0 }
    {
        Lines {
            file,
            at: 0,
            line: 0,
        }
    }

    // The number of the line that was passed last, from 1.
    pub fn line(&self) -> usize
        ensures { result ≡ self.now.line }
    {
        self.line
    }

    // The bytes of the lines that are left.
    pub(crate) fn rest(&self) -> &'a [u8]
        ensures { result.now ≡ drop self.now.at self.now.file.now }
    {
        &self.file[self.at..]
    }

    // Passes the next line, and answers it; nothing at the end of the file.
    pub fn next_line(&mut self) -> Option<Result<Line<'a>, LineFault>>
        ensures file { self.new.file.now ≡ self.old.file.now }
        ensures some { is_some result ≡ nat_lt self.old.at (length self.old.file.now) }
        ensures passed { newlines (drop self.new.at self.old.file.now) ≡ newlines (drop self.old.at self.old.file.now) - 1 }
        ensures counted { self.new.line ≡ (if is_some result then self.old.line + 1 else self.old.line) }
        ensures moved { is_some result ≡ true → self.old.at < self.new.at }
    {
        let rest = self.rest();
        if rest.is_empty() {
            return None;
        }
        let (line, passed) = match find(rest, b'\n') {
            Some(len) => (&rest[..len], len + 1),
            None => (rest, rest.len()),
        };
        self.at += passed;
        self.line += 1;
        Some(Line::parse(line))
    }
}
