// The sheet of a case file.
ghost use Rattle.std.specs.Prelude.{◌≡◌, ◌+◌, ◌*◌, ◌<◌, ◌≤◌, length, drop, IfOk, MatchResult};
ghost use Rattle.std.specs.ControlFlow.{MatchControlFlow};
ghost use Rattle.casefile.specs.Newlines.{newlines};
ghost use Rattle.casefile.specs.Sheets.{file_accepted, Kept, LinesEnd, Answered, Written};

use super::buffer::{put, put_field, put_refusal};
use super::evidence::{Evidence, Numbers, enter_calls, read_lines};
use super::faults::{LineFault, SheetFault};
use super::lines::{Line, Lines};
use super::values::{Choice, nothing};
use cases::{Call, ClauseKind, Draft, Entry, record};
use kits::{Kit, Pair};
use sequents::Sequents;
use std::alloc::{AllocError, Global};
use std::ops::ControlFlow;
use std::slice::Iter;
use tables::Number;
use texts::Refusal;
use units::Units;

// The longest file, in bytes and in lines.
pub const LONGEST_FILE: usize = 32_000;

pub const MOST_LINES: usize = 500;

// How much room a line's part of the sheet may take.
pub const LINE_ROOM: usize = 64;

// How many lines end in the bytes.
fn count_lines(file: &[u8]) -> usize
    ensures { result ≡ newlines file.now }
{
    file.iter().filter(|byte| **byte == b'\n').count()
}

// Whether a file is not empty, not too long, and ends with a line.
fn accepted(file: &[u8]) -> bool
    ensures { result ≡ file_accepted file.now }
{
    file.len() <= LONGEST_FILE && count_lines(file) <= MOST_LINES && file.last() == Some(&b'\n')
}

// What a line is answered: its key, and a number.
#[derive(Clone, Copy)]
enum Answer {
    Init(Number),
    Inv(Number),
    Trans(Number),
    Prop(Number),
    Seal(usize),
    Form(usize),
    Step(usize),
    State(usize),
    Loop(usize),
    Drop(usize),
    Verdict(usize),
}

impl Answer {
    fn key(&self) -> &'static [u8]
        ensures { length result.now ≤ 8 }
    {
        match self {
            Answer::Init(_) => b"init",
            Answer::Inv(_) => b"inv",
            Answer::Trans(_) => b"trans",
            Answer::Prop(_) => b"prop",
            Answer::Seal(_) => b"seal",
            Answer::Form(_) => b"form",
            Answer::Step(_) => b"step",
            Answer::State(_) => b"state",
            Answer::Loop(_) => b"loop",
            Answer::Drop(_) => b"drop",
            Answer::Verdict(_) => b"verdict",
        }
    }
}

// The number that a line is answered.
impl From<Answer> for usize {
    fn from(answer: Answer) -> usize {
        match answer {
            Answer::Init(n) | Answer::Inv(n) | Answer::Trans(n) | Answer::Prop(n) => n.0 as usize,
            Answer::Seal(n)
            | Answer::Form(n)
            | Answer::Step(n)
            | Answer::State(n)
            | Answer::Loop(n)
            | Answer::Drop(n)
            | Answer::Verdict(n) => n,
        }
    }
}

// Writes the answer of a line.
fn put_answer(out: &mut [u8], at: usize, answer: Answer) -> usize
    requires { at + 64 ≤ length out.old }
    ensures room { result ≤ at + 64 }
    ensures ahead { at ≤ result }
    ensures kept { Kept out.old out.new result }
{
    let key = answer.key();
    put_field(out, at, key, usize::from(answer))
}

// Writes a kit's letter as the answer of the line that chose it.
fn put_letter(out: &mut [u8], letter: u8) -> usize
    requires { 64 ≤ length out.old }
    ensures room { result ≤ 64 }
    ensures kept { Kept out.old out.new result }
{
    put(out, 0, &[b'k', b'i', b't', b'=', letter, b'\n'])
}

// Writes why a line is refused.
fn put_fault(out: &mut [u8], at: usize, line: usize, fault: LineFault) -> usize
    requires room { at + 64 ≤ length out.old }
    requires line { line < 100000 }
    ensures room { result ≤ at + 64 }
    ensures ahead { at ≤ result }
    ensures kept { Kept out.old out.new result }
{
    put_refusal(out, at, line, Refusal::from(fault))
}

// Takes a line before sealing: the answer of a clause, or nothing where the draft is to be sealed. After a property, `seal`
// alone is due.
fn take_line<K: Kit + Drop>(
    draft: &mut Draft<K>,
    line: Result<Line, LineFault>,
    property: bool,
) -> Result<Option<Answer>, LineFault> {
    let line = line?;
    if let Line::Seal(value) = line {
        nothing(value)?;
        return Ok(None);
    }
    if property {
        return Err(LineFault::NotDue);
    }
    let answer = match line {
        Line::Init(text) => Answer::Init(draft.add(ClauseKind::Init, text)?),
        Line::Inv(text) => Answer::Inv(draft.add(ClauseKind::Invariant, text)?),
        Line::Trans(text) => Answer::Trans(draft.add(ClauseKind::Transition, text)?),
        Line::Prop(text) => Answer::Prop(draft.add(ClauseKind::Property, text)?),
        _ => return Err(LineFault::NotDue),
    };
    Ok(Some(answer))
}

// Takes the lines before sealing. What goes on is the offset in the sheet at which the sealing is answered; where the
// draft is not sealed, the sheet ends at the offset that breaks.
fn draft_lines<K: Kit + Drop>(
    draft: &mut Draft<K>,
    lines: &mut Lines,
    out: &mut [u8],
    start: usize,
) -> ControlFlow<usize, usize>
    requires ended { LinesEnd lines.old.file.now }
    requires room { start + 64 * newlines (drop lines.old.at lines.old.file.now) ≤ length out.old }
    ensures file { lines.new.file.now ≡ lines.old.file.now }
    ensures room { MatchControlFlow result (λ at. at + 64 * (1 + newlines (drop lines.new.at lines.old.file.now)) ≤ start + 64 * newlines (drop lines.old.at lines.old.file.now)) (λ at. at + 64 * newlines (drop lines.new.at lines.old.file.now) ≤ start + 64 * newlines (drop lines.old.at lines.old.file.now)) }
    ensures ahead { MatchControlFlow result (λ at. start ≤ at) (λ at. start ≤ at) }
    ensures kept { MatchControlFlow result (λ at. Kept out.old out.new at) (λ at. Kept out.old out.new at) }
{
    let mut at = start;
    let mut property = false;
    while let Some(line) = lines.next_line() {
        match take_line(draft, line, property) {
            Ok(Some(answer)) => {
                property = matches!(answer, Answer::Prop(_));
                at = put_answer(out, at, answer);
            }
            Ok(None) => return ControlFlow::Continue(at),
            Err(fault) => return ControlFlow::Break(put_fault(out, at, lines.line(), fault)),
        }
    }
    ControlFlow::Break(at)
}

// What a line is answered, by the answers to the calls of the lines that are left.
fn answer_line(
    line: Result<Evidence, LineFault>,
    answers: &mut Iter<'_, Entry<'_, '_>>,
) -> Result<Answer, LineFault> {
    let evidence = line?;
    let answer = answers.next().map_or(Ok(0), |entry| entry.answer)?;
    Ok(match evidence {
        Call::Form(_) => Answer::Form(answer),
        Call::Step(_) => Answer::Step(answer),
        Call::State(_) => Answer::State(answer),
        Call::Loop(_) => Answer::Loop(answer),
        Call::Drop => Answer::Drop(answer),
        Call::Verdict => Answer::Verdict(answer),
    })
}

// Writes the answers of the lines after sealing, whose entries come in the same order: the length of the sheet.
fn put_evidence(
    out: &mut [u8],
    start: usize,
    passed: usize,
    read: &[Result<Evidence, LineFault>],
    entries: &[Entry],
) -> usize
    requires room { start + 64 * length read.now ≤ length out.old }
    requires line { passed + length read.now < 100000 }
    ensures room { result ≤ start + 64 * length read.now }
    ensures ahead { start ≤ result }
    ensures kept { Kept out.old out.new result }
{
    let mut at = start;
    let mut answers = entries.iter();
    for (i, line) in read.iter().enumerate() {
        at = match answer_line(*line, &mut answers) {
            Ok(answer) => put_answer(out, at, answer),
            Err(fault) => put_fault(out, at, passed + i + 1, fault),
        };
    }
    at
}

// Writes the sheet of a file over a kit, whose line is passed: the sheet's length.
fn kit_sheet<K: Kit + Drop>(
    kit: K,
    lines: &mut Lines,
    out: &mut [u8],
    heap: Global,
) -> Result<usize, AllocError>
    requires ended { LinesEnd lines.old.file.now }
    requires room { 64 + 64 * newlines (drop lines.old.at lines.old.file.now) ≤ length out.old }
    ensures { MatchResult result (λ n. (n ≤ 64 + 64 * newlines (drop lines.old.at lines.old.file.now)) × Kept out.old out.new n) (λ _. out.new ≡ out.old) }
{
    let mut draft = Draft::new(kit, heap)?;
    let mut numbers = Numbers::new(heap)?;
    let most = count_lines(lines.rest());
    let mut read = Vec::with_capacity(heap, most)?;
    let mut entries = Vec::with_capacity(heap, most)?;
    let at = put_letter(out, K::LETTER);
    let at = match draft_lines(&mut draft, lines, out, at) {
        ControlFlow::Continue(at) => at,
        ControlFlow::Break(len) => return Ok(len),
    };
    let passed = lines.line();
    read_lines(&draft, lines, &mut numbers, &mut read);
    enter_calls(read.as_slice(), numbers.as_slice(), &mut entries);
    let (_, count) = record(draft, entries.as_mut_slice());
    let at = put_answer(out, at, Answer::Seal(count));
    Ok(put_evidence(out, at, passed, read.as_slice(), entries.as_slice()))
}

// The kit that the first line of a file chooses.
fn first_line(line: Result<Line, LineFault>) -> Result<Choice, LineFault> {
    match line? {
        Line::Kit(value) => Choice::try_from(value),
        _ => Err(LineFault::NotDue),
    }
}

// Writes the sheet of a file: its length.
fn file_sheet(file: &[u8], out: &mut [u8], heap: Global) -> Result<usize, AllocError>
    requires ended { LinesEnd file.now }
    requires room { 64 * newlines file.now ≤ length out.old }
    ensures { MatchResult result (λ n. (n ≤ 64 * newlines file.now) × Kept out.old out.new n) (λ _. out.new ≡ out.old) }
{
    let mut lines = Lines::new(file);
    let Some(line) = lines.next_line() else {
        return Ok(0);
    };
    // An arm for each kit: a kit's letter is a constant of its type, so no `dyn Kit` stands for all.
    match first_line(line) {
        Ok(Choice::Sequents) => kit_sheet(Sequents, &mut lines, out, heap),
        Ok(Choice::Units) => kit_sheet(Units, &mut lines, out, heap),
        Ok(Choice::Both) => kit_sheet(
            Pair {
                first: Sequents,
                second: Units,
            },
            &mut lines,
            out,
            heap,
        ),
        Err(fault) => Ok(put_fault(out, 0, 1, fault)),
    }
}

// Writes the sheet of a case file into a buffer: its length, or why there is none. The buffer past the sheet stays as
// it was, and all of it where there is none.
pub fn write_sheet(file: &[u8], out: &mut [u8], heap: Global) -> Result<usize, SheetFault>
    ensures written { Written file.now out.old out.new result }
    ensures within { IfOk result (λ n. n ≤ length out.new) }
{
    if !accepted(file) {
        return Err(SheetFault::FileRefused);
    }
    if out.len() < LINE_ROOM * count_lines(file) {
        return Err(SheetFault::BufferTooShort);
    }
    Ok(file_sheet(file, out, heap)?)
}

// The same for a caller in C: the sheet's length, or a negative number.
#[unsafe(no_mangle)]
pub extern "C" fn sorvigzna_sheet(file: &[u8], out: &mut [u8], heap: Global) -> i64
    ensures { Answered file.now out.old out.new result }
{
    match write_sheet(file, out, heap) {
        Ok(len) => len as i64,
        Err(fault) => fault.into(),
    }
}
