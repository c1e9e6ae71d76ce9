// Verdicts.
ghost use Rattle.std.specs.Prelude.{◌≡◌};
ghost use Rattle.cases.specs.Verdicts.{verdict_number};

// What a case says of its property.
#[derive(Clone, Copy)]
pub enum Verdict {
    // Neither yet.
    Undecided,
    // No looping run satisfies every root formula.
    Holds,
    // The recorded run satisfies every root formula.
    Counterexample,
}

// The number that a verdict is answered by.
impl From<Verdict> for usize {
    ghost from_gives = { λ v n. n ≡ verdict_number v };

    fn from(verdict: Verdict) -> usize {
        match verdict {
            Verdict::Undecided => 0,
            Verdict::Holds => 1,
            Verdict::Counterexample => 2,
        }
    }
}
