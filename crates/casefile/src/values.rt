// Values of lines that are no formula texts.
ghost use Rattle.std.specs.Prelude.{◌≡◌, ◌<◌, ◌≤◌, length, IfOk, slice_get};

use super::evidence::Numbers;
use super::faults::LineFault;
use super::lines::find;
use kits::{Kit, Pair};
use sequents::Sequents;
use units::Units;

// The kits that a file can choose.
#[derive(Clone, Copy)]
pub enum Choice {
    Sequents,
    Units,
    Both,
}

// A kit's letter, alone.
impl TryFrom<&[u8]> for Choice {
    type Error = LineFault;

    fn try_from(value: &[u8]) -> Result<Choice, LineFault> {
        let choice = match value.first().copied() {
            Some(letter) if letter == <Sequents as Kit>::LETTER => Choice::Sequents,
            Some(letter) if letter == <Units as Kit>::LETTER => Choice::Units,
            Some(letter) if letter == <Pair<Sequents, Units> as Kit>::LETTER => Choice::Both,
            _ => return Err(LineFault::Value(0)),
        };
        if value.len() > 1 {
            return Err(LineFault::Value(1));
        }
        Ok(choice)
    }
}

// No value.
pub(crate) fn nothing(value: &[u8]) -> Result<(), LineFault> {
    Reader::new(value).end()
}

// Letters, in any order: a word with their bits set.
pub(crate) fn letters(value: &[u8]) -> Result<u32, LineFault> {
    let mut set = 0u32;
    for (at, byte) in value.iter().enumerate() {
        if *byte < b'a' || *byte > b'z' {
            return Err(LineFault::Value(at));
        }
        set |= 1 << (*byte - b'a');
    }
    Ok(set)
}

// A number of one to four digits without leading zeros, alone.
pub(crate) fn number(value: &[u8]) -> Result<usize, LineFault> {
    let mut reader = Reader::new(value);
    let number = reader.number()?;
    reader.end()?;
    Ok(number as usize)
}

// A value that is read from its front, up to an offset.
#[derive(Drop)]
pub(crate) struct Reader<'a> {
    value: &'a [u8],
    at: usize,
    ghost inside: { at ≤ length value.now },
}

impl<'a> Reader<'a> {
    pub(crate) fn new(value: &'a [u8]) -> Reader<'a> {
        Reader { value, at: 0 }
    }

    // The byte that comes next, if there is one.
    fn peek(&self) -> Option<u8>
        ensures { result ≡ slice_get self.now.value.now self.now.at }
    {
        self.value.get(self.at).copied()
    }

    // The fault where another byte was wanted next, or none.
    fn fault(&self) -> LineFault {
        LineFault::Value(self.at)
    }

    // Passes a byte that is wanted next.
    pub(crate) fn pass(&mut self, byte: u8) -> Result<(), LineFault>
        ensures value { self.new.value.now ≡ self.old.value.now }
        ensures moved { IfOk result (λ _. self.old.at < self.new.at) }
    {
        if self.peek() != Some(byte) {
            return Err(self.fault());
        }
        self.at += 1;
        Ok(())
    }

    // The end of the value, which is wanted next.
    pub(crate) fn end(&self) -> Result<(), LineFault> {
        match self.peek() {
            None => Ok(()),
            Some(_) => Err(self.fault()),
        }
    }

    // A name: the bytes before the next semicolon, one or more.
    pub(crate) fn name(&mut self) -> Result<&'a [u8], LineFault> {
        let rest = &self.value[self.at..];
        let len = find(rest, b';').unwrap_or(rest.len());
        if len == 0 {
            return Err(self.fault());
        }
        self.at += len;
        Ok(&rest[..len])
    }

    // A number of one to four digits without leading zeros.
    pub(crate) fn number(&mut self) -> Result<u16, LineFault>
        ensures value { self.new.value.now ≡ self.old.value.now }
        ensures moved { IfOk result (λ _. self.old.at < self.new.at) }
    {
        let rest = &self.value[self.at..];
        let mut number: u16 = 0;
        let mut digits: usize = 0;
        for byte in &rest[..rest.len().min(4)] {
            if !byte.is_ascii_digit() || digits > 0 && number == 0 {
                break;
            }
            number = number * 10 + (*byte - b'0') as u16;
            digits += 1;
        }
        if digits == 0 {
            return Err(self.fault());
        }
        self.at += digits;
        Ok(number)
    }

    // Numbers with commas between them, or none, up to a byte that ends them or to the end of the value.
    pub(crate) fn numbers(
        &mut self,
        end: Option<u8>,
        numbers: &mut Numbers,
    ) -> Result<(), LineFault> {
        if self.peek() == end {
            return Ok(());
        }
        loop {
            numbers.push(self.number()?);
            if self.peek() == end {
                return Ok(());
            }
            self.pass(b',')?;
        }
    }
}
