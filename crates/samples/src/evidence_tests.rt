// Files with evidence, and calls on cases, as tables.
ghost use Rattle.std.specs.Prelude.{false, [], ◌∷◌, codes, ◌==◌};
ghost use Rattle.kits.specs.Names.{lookup};
ghost use Rattle.std.proofs.Common.{rules};

use super::tests::gives;
use cases::{Call, CallFault, Draft, Entry, StepCall, record, verdicts};
use kits::{Kit, KitFault, Pair, Step};
use sequents::Sequents;
use std::test::Fail;
use tables::{Sequent, Table};
use texts::Refusal;
use units::Units;

const EVIDENCE: [(&[u8], &[u8]); 16] = [
    // a whole derivation
    (
        b"kit=s\ninit=!b\ntrans=!b->X!b\nprop=G!b\nseal=\nform=X(bUb)\nstep=contra;2;2,3;\nstep=until;12;2,12;1,1\nstep=next;0;4,14;2\nstep=or;6;2,6,14;1,3\nstep=always;8;2,8,14;4\nstep=some+;11;2,8,11;1,5\nverdict=\n",
        b"kit=s\ninit=2\ntrans=8\nprop=11\nseal=3\nform=14\nstep=1\nstep=2\nstep=3\nstep=4\nstep=5\nstep=6\nverdict=1\n",
    ),
    // a derivation in few steps, and a refused step between taken ones
    (
        b"kit=s\ninit=a&!a\nseal=\nverdict=\nstep=contra;2;2,3;\nstep=and;4;4;2\nstep=and;4;4;1\nverdict=\nstate=a\nloop=0\nverdict=\nstep=contra;3;2,3;\n",
        b"kit=s\ninit=4\nseal=2\nverdict=0\nstep=1\nrefused=11\nlayer=3\nline=6\nplace=0\nstep=2\nverdict=1\nstate=0\nrefused=18\nlayer=3\nline=10\nplace=4\nverdict=1\nstep=3\n",
    ),
    // premises that are no steps, too many, and of a rule that has none
    (
        b"kit=s\ninit=a&!a\nseal=\nstep=and;4;4;1\nstep=contra;2;2,3;\nstep=and;4;4;0\nstep=and;4;4;2\nstep=and;4;4;1,2\nstep=and;4;4;1,1,1\nstep=and;4;4;9,9,9\nstep=and;4;4;1,1\nstep=and;4;4;\nstep=contra;2;2,3;1\nstep=and;4;4;1\nverdict=\n",
        b"kit=s\ninit=4\nseal=2\nrefused=11\nlayer=3\nline=4\nplace=0\nstep=1\nrefused=11\nlayer=3\nline=6\nplace=0\nrefused=11\nlayer=3\nline=7\nplace=0\nrefused=11\nlayer=3\nline=8\nplace=1\nrefused=11\nlayer=3\nline=9\nplace=2\nrefused=11\nlayer=3\nline=10\nplace=2\nrefused=12\nlayer=4\nline=11\nplace=0\nrefused=12\nlayer=4\nline=12\nplace=0\nrefused=12\nlayer=4\nline=13\nplace=0\nstep=2\nverdict=1\n",
    ),
    // numbers that do not rise or are not in the table
    (
        b"kit=s\ninit=a&!a\nseal=\nstep=contra;2;2,2;\nstep=contra;2;3,2;\nstep=contra;2;2,6;\nstep=contra;2;511;\nstep=contra;2;9999;\nstep=contra;2;;\nstep=contra;2;2,3,5;\n",
        b"kit=s\ninit=4\nseal=2\nrefused=10\nlayer=3\nline=4\nplace=1\nrefused=10\nlayer=3\nline=5\nplace=1\nrefused=10\nlayer=3\nline=6\nplace=1\nrefused=10\nlayer=3\nline=7\nplace=0\nrefused=10\nlayer=3\nline=8\nplace=0\nrefused=12\nlayer=4\nline=9\nplace=0\nstep=1\n",
    ),
    // a full table: numbers 511 and 512
    (
        b"kit=s\nseal=\nform=XXXXXXXXXXXXXXXXXXXXXXXXXXXXXXXXXXXXXXXXXXXXXXXXXXXXXXXXXXXXXXXXXXXXXXXXXXXXXXXXXXXXXXXXXXXXXXXXXXXXXXXXXXXXXXXXXXXXXXXXXXXXXXXXXXXXXXXXXXXXXXXXXXXXXXXXXXXXXXXXXXXXXXXXXXXXXXXXXXXXXXXXXXXXXXXXXXXXXXXXXXXXXXXXXXXXXXXXXXXXXXXXXXXXXXXXXXXXXXXXXXXXXXXXXXXXXXa\nstep=contra;511;510,511;\nstep=contra;510;510,511,512;\nstep=contra;512;510,511;\nform=b\nverdict=\n",
        b"kit=s\nseal=1\nform=510\nstep=1\nrefused=10\nlayer=3\nline=5\nplace=2\nrefused=12\nlayer=4\nline=6\nplace=0\nrefused=5\nlayer=1\nline=7\nplace=0\nverdict=0\n",
    ),
    // principal numbers
    (
        b"kit=s\ninit=a&!a\nseal=\nstep=contra;9999;2,3;\nstep=contra;0;2,3;\nstep=next;0;2;\nstep=contra;3;2,3;\n",
        b"kit=s\ninit=4\nseal=2\nrefused=12\nlayer=4\nline=4\nplace=0\nrefused=12\nlayer=4\nline=5\nplace=0\nrefused=12\nlayer=4\nline=6\nplace=0\nstep=1\n",
    ),
    // refusals that come together
    (
        b"kit=s\ninit=a&!a\nseal=\nstep=nosuch;0;9;7\nstep=nosuch;0;2;7\nstep=nosuch;0;2;\nstep=contra;0;2;\nstep=nosuch;0;9;7;\nstep=contra;9999;3,2;1,2,3\n",
        b"kit=s\ninit=4\nseal=2\nrefused=10\nlayer=3\nline=4\nplace=0\nrefused=11\nlayer=3\nline=5\nplace=0\nrefused=9\nlayer=4\nline=6\nplace=0\nrefused=12\nlayer=4\nline=7\nplace=0\nrefused=20\nlayer=2\nline=8\nplace=12\nrefused=10\nlayer=3\nline=9\nplace=1\n",
    ),
    // values that are no steps
    (
        b"kit=s\ninit=a&!a\nseal=\nstep=\nstep=;\nstep=contra\nstep=contra;\nstep=contra;x;\nstep=contra;02;\nstep=contra;12345;\nstep=contra;2\nstep=contra;2;2,;\nstep=contra;2;2,3\nstep=contra;2;2,3;1,\nstep=contra;2;2,3;;\nstep=contra;2;2 3;\nstep=contra;2;,2;\nstep=contra;2;2,3;a\nstep=contra;2;2,03;\nverdict=1\nverdict=\n",
        b"kit=s\ninit=4\nseal=2\nrefused=20\nlayer=2\nline=4\nplace=0\nrefused=20\nlayer=2\nline=5\nplace=0\nrefused=20\nlayer=2\nline=6\nplace=6\nrefused=20\nlayer=2\nline=7\nplace=7\nrefused=20\nlayer=2\nline=8\nplace=7\nrefused=20\nlayer=2\nline=9\nplace=8\nrefused=20\nlayer=2\nline=10\nplace=11\nrefused=20\nlayer=2\nline=11\nplace=8\nrefused=20\nlayer=2\nline=12\nplace=11\nrefused=20\nlayer=2\nline=13\nplace=12\nrefused=20\nlayer=2\nline=14\nplace=15\nrefused=20\nlayer=2\nline=15\nplace=13\nrefused=20\nlayer=2\nline=16\nplace=10\nrefused=20\nlayer=2\nline=17\nplace=9\nrefused=20\nlayer=2\nline=18\nplace=13\nrefused=20\nlayer=2\nline=19\nplace=12\nrefused=20\nlayer=2\nline=20\nplace=0\nverdict=0\n",
    ),
    // verdicts by a run, and after a drop
    (
        b"kit=s\ninit=a\nprop=Gb\nseal=\nverdict=\nstate=a\nverdict=\nloop=0\nverdict=\nstate=\nloop=0\nverdict=\ndrop=\nverdict=\nstate=\nloop=0\nverdict=\n",
        b"kit=s\ninit=2\nprop=7\nseal=2\nverdict=0\nstate=0\nverdict=0\nloop=1\nverdict=2\nrefused=16\nlayer=3\nline=10\nplace=0\nrefused=16\nlayer=3\nline=11\nplace=0\nverdict=2\ndrop=0\nverdict=0\nstate=0\nrefused=18\nlayer=3\nline=16\nplace=2\nverdict=0\n",
    ),
    // a run that breaks a root formula does not undo a derivation
    (
        b"kit=s\ninit=a&!a\nseal=\nstep=contra;2;2,3;\nstep=and;4;4;1\nverdict=\nstate=\nloop=0\nverdict=\ndrop=\nverdict=\n",
        b"kit=s\ninit=4\nseal=2\nstep=1\nstep=2\nverdict=1\nstate=0\nrefused=18\nlayer=3\nline=8\nplace=4\nverdict=1\ndrop=0\nverdict=1\n",
    ),
    // a conclusion with one formula that is no root
    (
        b"kit=s\ninit=a\ninv=b\nprop=a\nseal=\nstep=contra;2;2,3,4;\nverdict=\nstep=contra;2;2,3;\nverdict=\n",
        b"kit=s\ninit=2\ninv=6\nprop=3\nseal=3\nstep=1\nverdict=0\nstep=2\nverdict=1\n",
    ),
    // the pair's names, and unit closure
    (
        b"kit=b\ninit=a|b\ninit=!a\nprop=b\nseal=\nstep=unit;0;3,5,6;\nstep=contra;2;2,3;\nverdict=\nstep=unit;0;3,6;\nstep=unit;1;3,5,6;\nstep=unit;0;3,5,6;1\n",
        b"kit=b\ninit=6\ninit=3\nprop=5\nseal=3\nstep=1\nstep=2\nverdict=1\nrefused=12\nlayer=4\nline=9\nplace=0\nrefused=12\nlayer=4\nline=10\nplace=0\nrefused=12\nlayer=4\nline=11\nplace=0\n",
    ),
    // unit closure alone knows no other name
    (
        b"kit=u\ninit=a|b\ninit=!a\nprop=b\nseal=\nstep=contra;2;2,3;\nstep=unit;0;3,5,6;\nverdict=\nverdict=0\n",
        b"kit=u\ninit=6\ninit=3\nprop=5\nseal=3\nrefused=9\nlayer=4\nline=6\nplace=0\nstep=1\nverdict=1\nrefused=20\nlayer=2\nline=9\nplace=0\n",
    ),
    // more values that are no steps
    (
        b"kit=s\nseal=\nstep=contra;;2,3;\nstep=contra;2;12345;\nstep=contra;2;2;12345\nstep=a=b;2;0;\n",
        b"kit=s\nseal=1\nrefused=20\nlayer=2\nline=3\nplace=7\nrefused=20\nlayer=2\nline=4\nplace=13\nrefused=20\nlayer=2\nline=5\nplace=15\nrefused=9\nlayer=4\nline=6\nplace=0\n",
    ),
    // keys that are not due
    (
        b"kit=s\nstep=contra;2;2,3;\n",
        b"kit=s\nrefused=19\nlayer=2\nline=2\nplace=0\n",
    ),
    // verdict before sealing
    (
        b"kit=s\nverdict=\n",
        b"kit=s\nrefused=19\nlayer=2\nline=2\nplace=0\n",
    ),
];

#[test]
fn evidence(rt: HostRuntime) -> Result<(), Fail> {
    for (file, sheet) in EVIDENCE.iter() {
        gives(&rt, rt.alloc(), file, sheet)?;
    }
    Ok(())
}

// The number, layer and place of a refusal.
type Told = (usize, usize, usize);

// What a call is answered: a number, or a refusal.
fn told(answer: Result<usize, CallFault>) -> Result<usize, Told> {
    match answer {
        Ok(n) => Ok(n),
        Err(fault) => {
            let refusal = Refusal::from(fault);
            Err((refusal.number, usize::from(refusal.layer), refusal.place))
        }
    }
}

// A step by the rule contra on the letter a.
const CONTRA: StepCall = StepCall {
    rule: 1,
    principal: 2,
    conclusion: &[2, 3],
    premises: &[],
};

#[test]
fn four_hundred_steps(rt: HostRuntime) -> Result<(), Fail> {
    let mut draft = Draft::new(Sequents, rt.alloc())?;
    assert!(rt; draft.clause(1, b"a").is_ok());
    let (mut case, _count) = draft.seal();
    for number in 1..=400 {
        assert!(rt; told(case.step(CONTRA)) == Ok(number));
    }
    assert!(rt; told(case.step(CONTRA)) == Err((13, 3, 0)));
    let wrong = StepCall {
        conclusion: &[9],
        ..CONTRA
    };
    assert!(rt; told(case.step(wrong)) == Err((13, 3, 0)));
    assert_eq!(rt; usize::from(case.verdict()), 0);
    Ok(())
}

// A kit of one rule, number 7, that allows no step.
#[derive(Clone, Copy)]
struct Never;

impl Kit for Never {
    const LETTER: u8 = b'n';

    ghost knows = { λ _ n. (n == 7) };

    ghost allows = { λ _ _ _. false };

    ghost named = { λ _ w. lookup (record { word = codes "never"; number = 7 } ∷ []) w };

    ghost numbered = { Prim.search rules };

    ghost named_known = { Prim.search rules };

    ghost named_once = { Prim.search rules };

    ghost allowed_known = { Prim.search rules };

    ghost allowed_few = { Prim.search rules };

    ghost sound = { Prim.search rules };

    fn judge(&self, _table: &Table, step: &Step, _premises: &[Sequent]) -> Result<(), KitFault> {
        if step.rule == 7 {
            Err(KitFault::NotAllowed)
        } else {
            Err(KitFault::Unknown)
        }
    }

    fn find(&self, name: &[u8]) -> Option<u16> {
        match name {
            b"never" => Some(7),
            _ => None,
        }
    }
}

#[test]
fn a_kit_of_another_make(rt: HostRuntime) -> Result<(), Fail> {
    let mut draft = Draft::new(
        Pair {
            first: Never,
            second: Pair {
                first: Sequents,
                second: Units,
            },
        },
        rt.alloc(),
    )?;
    assert!(rt; draft.clause(1, b"a&!a").is_ok());
    assert!(rt; draft.find(b"never") == Some(7));
    assert!(rt; draft.find(b"contra") == Some(101));
    assert!(rt; draft.find(b"unit") == Some(201));
    let (mut case, _count) = draft.seal();
    assert!(rt; told(case.step(StepCall { rule: 7, ..CONTRA })) == Err((12, 4, 0)));
    assert!(rt; told(case.step(CONTRA)) == Err((9, 4, 0)));
    assert!(rt;
        told(case.step(StepCall {
            rule: 101,
            ..CONTRA
        })) == Ok(1)
    );
    let unit = StepCall {
        rule: 201,
        principal: 0,
        conclusion: &[4],
        premises: &[],
    };
    assert!(rt;
        told(case.step(StepCall {
            principal: 10_000,
            ..unit
        })) == Err((12, 4, 0))
    );
    assert_eq!(rt; usize::from(case.verdict()), 0);
    assert!(rt; told(case.step(unit)) == Ok(2));
    assert_eq!(rt; usize::from(case.verdict()), 1);
    Ok(())
}

// A record: each entry gets its answer, and refused calls change nothing.
#[test]
fn a_record(rt: HostRuntime) -> Result<(), Fail> {
    let mut draft = Draft::new(Sequents, rt.alloc())?;
    assert!(rt; draft.clause(1, b"a").is_ok());
    assert!(rt; draft.clause(4, b"Ga").is_ok());
    let calls = [
        Call::Verdict,
        Call::Form(b"Xa"),
        Call::Form(b"X"),
        Call::State(1),
        Call::State(1 << 26),
        Call::State(0),
        Call::Loop(2),
        Call::Step(CONTRA),
        Call::Loop(1),
        Call::Verdict,
        Call::State(0),
        Call::Drop,
        Call::Verdict,
    ];
    let answers = [
        Ok(0),
        Ok(6),
        Err((4, 1, 1)),
        Ok(0),
        Err((14, 3, 26)),
        Ok(1),
        Err((17, 3, 0)),
        Ok(1),
        Ok(2),
        Ok(2),
        Err((16, 3, 0)),
        Ok(0),
        Ok(0),
    ];
    let mut entries = Vec::new(rt.alloc());
    for call in calls {
        entries.push(Entry {
            call,
            answer: Ok(9),
        })?;
    }
    let (case, count) = record(draft, entries.as_mut_slice());
    assert_eq!(rt; count, 2);
    assert_eq!(rt; entries.len(), answers.len());
    for (entry, answer) in entries.iter().zip(answers.iter()) {
        assert!(rt; told(entry.answer) == *answer);
    }
    let (one, other) = verdicts(&case, &case);
    assert_eq!(rt; usize::from(one), 0);
    assert_eq!(rt; usize::from(other), 0);
    Ok(())
}

// A refused call changes nothing: a case that refuses calls between others answers like one without them.
#[test]
fn refused_calls_change_nothing(rt: HostRuntime) -> Result<(), Fail> {
    let (mut plain, _count) = Draft::new(Sequents, rt.alloc())?.seal();
    let (mut tried, _count) = Draft::new(Sequents, rt.alloc())?.seal();
    assert!(rt; tried.form(b"(a").is_err());
    assert!(rt; plain.form(b"Xa").is_ok());
    assert!(rt; tried.form(b"Xa").is_ok());
    assert!(rt;
        tried
            .step(StepCall {
                principal: 0,
                ..CONTRA
            })
            .is_err()
    );
    assert!(rt; told(plain.step(CONTRA)) == told(tried.step(CONTRA)));
    assert!(rt; plain.state(1).is_ok());
    assert!(rt; tried.state(1).is_ok());
    assert!(rt; tried.close_loop(1).is_err());
    assert!(rt; tried.state(1 << 30).is_err());
    assert!(rt; plain.state(0).is_ok());
    assert!(rt; tried.state(0).is_ok());
    for number in 0..6 {
        match (plain.row(number, 1), tried.row(number, 1)) {
            (Ok(one), Ok(other)) => assert_eq!(rt; one, other),
            _ => return Err(Fail::new("no row")),
        }
    }
    assert_eq!(rt; usize::from(plain.verdict()), usize::from(tried.verdict()));
    assert!(rt; told(plain.step(CONTRA)) == told(tried.step(CONTRA)));
    Ok(())
}

// Two cases with the same root formulas under other numbers and kits: one holds, the other has no counterexample.
#[test]
fn verdicts_of_two_cases(rt: HostRuntime) -> Result<(), Fail> {
    let mut by_sequents = Draft::new(Sequents, rt.alloc())?;
    assert!(rt; by_sequents.clause(1, b"a&!a").is_ok());
    let (mut one, _count) = by_sequents.seal();
    assert!(rt; told(one.step(CONTRA)) == Ok(1));
    let and = StepCall {
        rule: 3,
        principal: 4,
        conclusion: &[4],
        premises: &[1],
    };
    assert!(rt; told(one.step(and)) == Ok(2));
    let mut by_units = Draft::new(Units, rt.alloc())?;
    assert!(rt; by_units.clause(1, b"a&!a").is_ok());
    let (mut other, _count) = by_units.seal();
    assert!(rt; other.state(1).is_ok());
    assert!(rt; other.close_loop(0).is_err());
    let (first, second) = verdicts(&one, &other);
    assert_eq!(rt; usize::from(first), 1);
    assert_eq!(rt; usize::from(second), 0);
    Ok(())
}
