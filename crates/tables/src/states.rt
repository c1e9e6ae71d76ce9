// Recorded states, by letter.
ghost use Rattle.std.specs.Prelude.{◌≡◌, ℕ, ◌^◌, ◌<◌, ◌≤◌, [], length, MatchOption, slice_index};
ghost use Rattle.tables.specs.Rows.{recorded, state_of, pushed};
ghost use Rattle.tables.specs.Words.{marked};

use super::words::{holds_at, only};

// How many positions are held at most: one for each bit of a word.
pub const MOST_POSITIONS: usize = 64;

// The states of a run that is recorded. Bit i of a letter's word says whether the letter holds at position i: rows are
// computed from such words, and not state by state.
#[derive(Clone, Copy)]
pub struct States {
    letters: [u64; 26],
    len: usize,
    ghost few: { len ≤ 64 },
    ghost clean: { ((p : ℕ) → slice_index letters p < 2 ^ len) },
}

// The words with position `at` added to the word of each letter that holds there.
fn mark(words: [u64; 26], letters: u32, at: usize) -> [u64; 26]
    requires { at < 64 }
    ensures { (p : ℕ) → slice_index result p ≡ marked words letters at p }
{
    let mut words = words;
    for (p, word) in words.iter_mut().enumerate() {
        if holds_at(letters as u64, p) {
            *word |= only(at);
        }
    }
    words
}

impl States {
    pub fn new() -> States
        ensures { recorded result.letters result.len ≡ [] }
    {
        States {
            letters: [0; 26],
            len: 0,
        }
    }

    // How many there are.
    pub fn len(&self) -> usize
        ensures value { result ≡ length (recorded self.now.letters self.now.len) }
        ensures few { result ≤ 64 }
    {
        self.len
    }

    // One state more, with the letters whose bits 0 to 25 are set: its position, or nothing where 64 are held.
    pub fn push(&mut self, letters: u32) -> Option<usize>
        ensures value { MatchOption result (length (recorded self.old.letters self.old.len) ≡ 64) (λ i. (i ≡ length (recorded self.old.letters self.old.len)) × (i < 64)) }
        ensures after { recorded self.new.letters self.new.len ≡ pushed (recorded self.old.letters self.old.len) (state_of letters) result }
    {
        let at = self.len;
        if at >= MOST_POSITIONS {
            return None;
        }
        let words = mark(self.letters, letters, at);
        *self = States {
            letters: words,
            len: at + 1,
        };
        Some(at)
    }

    // The positions where a letter holds.
    pub(crate) fn letter(&self, p: u8) -> u64
        ensures { result ≡ slice_index self.now.letters p }
    {
        self.letters.get(p as usize).copied().unwrap_or(0)
    }
}
