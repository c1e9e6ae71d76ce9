// Sets of positions as words: bit i says whether position i is in the set.
ghost use Rattle.std.specs.Prelude.{◌≡◌, ℕ, ◌+◌, ◌^◌, ◌<◌, ◌≤◌, true, false, not, ◌&&◌, ◌||◌, Decides, MatchOption, ◌==◌, nat_lt};
ghost use Rattle.pltl.specs.Truth.{UntilFrom};
ghost use Rattle.tables.specs.Rows.{bit};
ghost use Rattle.tables.specs.Words.{In, GoalOrTurn};

// Whether a position is in a set.
pub(crate) fn holds_at(row: u64, at: usize) -> bool
    requires { at < 64 }
    ensures { result ≡ bit row at }
{
    row >> at & 1 == 1
}

// The set of one position.
pub(crate) fn only(at: usize) -> u64
    requires { at < 64 }
    ensures { result ≡ 2 ^ at }
{
    1 << at
}

// The positions before `len`.
pub(crate) fn positions(len: usize) -> u64
    requires { len ≤ 64 }
    ensures { (i : ℕ) → bit result i ≡ nat_lt i len }
{
    if len < 64 { (1 << len) - 1 } else { u64::MAX }
}

// The positions before `len` that are not in a set.
pub(crate) fn complement(row: u64, len: usize) -> u64
    requires { len ≤ 64 }
    ensures { (i : ℕ) → bit result i ≡ (nat_lt i len && not (bit row i)) }
{
    let all = positions(len);
    all ^ (row & all)
}

pub(crate) fn both(left: u64, right: u64) -> u64
    ensures { (i : ℕ) → bit result i ≡ (bit left i && bit right i) }
{
    left & right
}

pub(crate) fn either(left: u64, right: u64) -> u64
    ensures { (i : ℕ) → bit result i ≡ (bit left i || bit right i) }
{
    left | right
}

// The smallest position in a set.
pub(crate) fn first_in(row: u64) -> Option<usize>
    ensures { MatchOption result ((i : ℕ) → bit row i ≡ false) (λ n. (n < 64) × (bit row n ≡ true) × ((i : ℕ) → i < n → bit row i ≡ false)) }
{
    if row == 0 {
        return None;
    }
    Some(row.trailing_zeros() as usize)
}

// The largest position in a set: all that it has in common with the smallest is the test of 0.
pub(crate) fn last_in(row: u64) -> Option<usize>
    ensures { MatchOption result ((i : ℕ) → bit row i ≡ false) (λ n. (n < 64) × (bit row n ≡ true) × ((i : ℕ) → n < i → bit row i ≡ false)) }
{
    if row == 0 {
        return None;
    }
    Some(63 - row.leading_zeros() as usize)
}

// The positions whose next position is in a set; after the last one comes `back`.
pub(crate) fn next(row: u64, len: usize, back: usize) -> u64
    requires { (0 < len) × ((len ≤ 64) × (back < 64)) }
    ensures { (i : ℕ) → bit result i ≡ (bit row (i + 1) || (i + 1 == len && bit row back)) }
{
    let turn = if holds_at(row, back) {
        only(len - 1)
    } else {
        0
    };
    row >> 1 | turn
}

// The positions from which a goal comes before `through` ends, with no turn. The span that is looked at doubles.
pub(crate) fn sweep(through: u64, goal: u64) -> u64
    ensures { (i : ℕ) → Decides (bit result i) (UntilFrom i (In through) (In goal)) }
{
    let mut reached = goal;
    let mut through = through;
    for span in [1usize, 2, 4, 8, 16, 32] {
        reached |= through & (reached >> span);
        through &= through >> span;
    }
    reached
}

// The same where `back` follows the last position: the last position is a goal too if a sweep from `back` finds one.
pub(crate) fn until(through: u64, goal: u64, len: usize, back: usize) -> u64
    requires { (0 < len) × ((len ≤ 64) × (back < 64)) }
    ensures { (i : ℕ) → Decides (bit result i) (UntilFrom i (In through) (GoalOrTurn through goal len back)) }
{
    let turns = holds_at(sweep(through, goal), back);
    let goals = if turns {
        either(goal, both(through, only(len - 1)))
    } else {
        goal
    };
    sweep(through, goals)
}
