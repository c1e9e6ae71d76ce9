// The lines after sealing, read before any of them is served.
ghost use Rattle.std.specs.Prelude.{◌≡◌, ◌+◌, ◌<◌, ◌≤◌, true, length, drop, IfOk, vec_len, vec_capacity};
ghost use Rattle.casefile.specs.Newlines.{newlines};
ghost use Rattle.casefile.specs.Sheets.{LinesEnd};

use super::faults::LineFault;
use super::lines::{Line, Lines};
use super::values::{Reader, letters, nothing, number};
use cases::{Call, Draft, Entry, StepCall};
use kits::Kit;
use std::alloc::{AllocError, Global};

// The most numbers that the step lines of a file have: fewer than it has bytes.
const MOST_NUMBERS: usize = 32_000;

// The numbers of all step lines, one behind the other: their memory is asked for once, and not at each line.
#[derive(Drop)]
pub struct Numbers {
    numbers: Vec<u16>,
    ghost room: { 32000 ≤ vec_capacity numbers },
}

impl Numbers {
    pub(crate) fn new(heap: Global) -> Result<Numbers, AllocError> {
        let numbers = Vec::with_capacity(heap, MOST_NUMBERS)?;
        Ok(Numbers { numbers })
    }

    pub(crate) fn as_slice(&self) -> &[u16] {
        self.numbers.as_slice()
    }

    fn len(&self) -> usize {
        self.numbers.len()
    }

    pub(crate) fn push(&mut self, number: u16) {
        if self.numbers.len() < MOST_NUMBERS {
            self.numbers.push_reserved(number);
        }
    }
}

// A step line's rule and principal number, and where its conclusion and then its premises stand among the numbers.
#[derive(Clone, Copy)]
pub struct StepLine {
    rule: u16,
    principal: u16,
    conclusion: usize,
    premises: usize,
    end: usize,
}

// A call that a line stands for, with its step as the line has it.
pub(crate) type Evidence<'a> = Call<'a, StepLine>;

// Reads the value of a step line: name;principal;conclusion;premises. A name that the kit does not have is rule 0.
fn step_line<K: Kit + Drop>(
    draft: &Draft<K>,
    value: &[u8],
    numbers: &mut Numbers,
) -> Result<StepLine, LineFault> {
    let mut reader = Reader::new(value);
    let rule = draft.find(reader.name()?).unwrap_or(0);
    reader.pass(b';')?;
    let principal = reader.number()?;
    reader.pass(b';')?;
    let conclusion = numbers.len();
    reader.numbers(Some(b';'), numbers)?;
    reader.pass(b';')?;
    let premises = numbers.len();
    reader.numbers(None, numbers)?;
    Ok(StepLine {
        rule,
        principal,
        conclusion,
        premises,
        end: numbers.len(),
    })
}

// Reads a line after sealing.
fn read_line<'a, K: Kit + Drop>(
    draft: &Draft<K>,
    line: Result<Line<'a>, LineFault>,
    numbers: &mut Numbers,
) -> Result<Evidence<'a>, LineFault> {
    match line? {
        Line::Form(text) => Ok(Call::Form(text)),
        Line::Step(value) => Ok(Call::Step(step_line(draft, value, numbers)?)),
        Line::State(value) => Ok(Call::State(letters(value)?)),
        Line::Loop(value) => Ok(Call::Loop(number(value)?)),
        Line::Drop(value) => {
            nothing(value)?;
            Ok(Call::Drop)
        }
        Line::Verdict(value) => {
            nothing(value)?;
            Ok(Call::Verdict)
        }
        _ => Err(LineFault::NotDue),
    }
}

// Reads the lines that are left.
pub(crate) fn read_lines<'a, K: Kit + Drop>(
    draft: &Draft<K>,
    lines: &mut Lines<'a>,
    numbers: &mut Numbers,
    read: &mut Vec<Result<Evidence<'a>, LineFault>>,
)
    requires ended { LinesEnd lines.old.file.now }
    requires room { vec_len read.old + newlines (drop lines.old.at lines.old.file.now) ≤ vec_capacity read.old }
    ensures few { vec_len read.new ≤ vec_len read.old + newlines (drop lines.old.at lines.old.file.now) }
{
    while let Some(line) = lines.next_line() {
        read.push_reserved(read_line(draft, line, numbers));
    }
}

// The part of the numbers between two places; nothing where there is no such part.
fn part(numbers: &[u16], start: usize, end: usize) -> &[u16] {
    numbers.get(start..end).unwrap_or(&[])
}

// The call that a line stands for.
fn call_of<'t, 'n>(evidence: Evidence<'t>, numbers: &'n [u16]) -> Call<'t, StepCall<'n>> {
    match evidence {
        Call::Form(text) => Call::Form(text),
        Call::Step(step) => Call::Step(StepCall {
            rule: step.rule,
            principal: step.principal,
            conclusion: part(numbers, step.conclusion, step.premises),
            premises: part(numbers, step.premises, step.end),
        }),
        Call::State(letters) => Call::State(letters),
        Call::Loop(back) => Call::Loop(back),
        Call::Drop => Call::Drop,
        Call::Verdict => Call::Verdict,
    }
}

// The entries of the record that the lines stand for, with no answers yet.
pub(crate) fn enter_calls<'t, 'n>(
    read: &[Result<Evidence<'t>, LineFault>],
    numbers: &'n [u16],
    entries: &mut Vec<Entry<'t, 'n>>,
)
    requires { vec_len entries.old + length read.now ≤ vec_capacity entries.old }
{
    for line in read {
        if let Ok(evidence) = *line {
            entries.push_reserved(Entry {
                call: call_of(evidence, numbers),
                answer: Ok(0),
            });
        }
    }
}
