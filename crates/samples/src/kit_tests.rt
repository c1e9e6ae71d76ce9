// Steps that kits judge, as tables.
use kits::{Kit, KitFault, Pair, Step};
use sequents::Sequents;
use std::alloc::Global;
use std::process::Abort;
use std::test::Fail;
use tables::{Form, Number, Sequent, Table};
use texts::Syntax;
use units::Units;

// What a kit answers.
const ALLOWED: Result<(), KitFault> = Ok(());

const NOT_ALLOWED: Result<(), KitFault> = Err(KitFault::NotAllowed);

const UNKNOWN: Result<(), KitFault> = Err(KitFault::Unknown);

// A rule, a principal number, the conclusion's numbers, those of each premise, and the answer.
type Judged<'a> = (u16, u16, &'a [u16], &'a [&'a [u16]], Result<(), KitFault>);

// Texts whose formulas are in the table, in order, and steps over it.
type Judgements<'a> = (&'a [&'a [u8]], &'a [Judged<'a>]);

fn sequent(numbers: &[u16]) -> Sequent {
    let mut set = Sequent::empty();
    for number in numbers {
        set = set.with(Number(*number));
    }
    set
}

// A table with the formulas of some texts.
fn table_of(rt: &impl Abort, heap: Global, texts: &[&[u8]]) -> Result<Table, Fail> {
    let mut table = Table::new(heap)?;
    let mut syntax = Syntax::new(heap)?;
    for text in texts {
        assert!(rt; table.enter(&mut syntax, text, Form::Itself).is_ok());
    }
    Ok(table)
}

// A kit answers a step over a table as expected.
fn judges<K: Kit>(
    rt: &impl Abort,
    heap: Global,
    kit: &K,
    table: &Table,
    judged: &Judged,
) -> Result<(), Fail> {
    let (rule, principal, conclusion, premises, answer) = *judged;
    let step = Step {
        rule,
        principal,
        conclusion: sequent(conclusion),
    };
    let mut sets = Vec::new(heap);
    for premise in premises {
        sets.push(sequent(premise))?;
    }
    assert!(rt; kit.judge(table, &step, sets.as_slice()) == answer);
    Ok(())
}

// Kit s: for each rule an allowed step, and steps that fail one condition.
const BY_SEQUENTS: [Judgements; 11] = [
    // contra and false
    (
        &[b"a", b"b", b"Xa"],
        &[
            (1, 2, &[2, 3], &[], ALLOWED),
            (1, 3, &[2, 3], &[], ALLOWED),
            (1, 4, &[2, 3], &[], NOT_ALLOWED),
            (1, 2, &[3], &[], NOT_ALLOWED),
            (1, 2, &[2, 4], &[], NOT_ALLOWED),
            (1, 2, &[2, 3], &[&[2]], NOT_ALLOWED),
            (1, 9999, &[2, 3], &[], NOT_ALLOWED),
            (1, 2, &[2, 3, 4], &[], ALLOWED),
            (1, 0, &[0, 1], &[], ALLOWED),
            (2, 1, &[1], &[], ALLOWED),
            (2, 1, &[2], &[], NOT_ALLOWED),
            (2, 0, &[0, 1], &[], NOT_ALLOWED),
            (2, 1, &[1], &[&[1]], NOT_ALLOWED),
            (2, 2, &[1, 2], &[], NOT_ALLOWED),
        ],
    ),
    // and
    (
        &[b"a&b", b"c"],
        &[
            (3, 6, &[6, 8], &[&[2, 4, 8]], ALLOWED),
            (3, 6, &[6, 8], &[&[2]], ALLOWED),
            (3, 6, &[6], &[&[8]], NOT_ALLOWED),
            (3, 6, &[6, 8], &[&[6]], NOT_ALLOWED),
            (3, 6, &[8], &[&[8]], NOT_ALLOWED),
            (3, 6, &[6], &[], NOT_ALLOWED),
            (3, 6, &[6], &[&[2], &[4]], NOT_ALLOWED),
            (3, 8, &[8], &[&[8]], NOT_ALLOWED),
            (3, 7, &[7], &[&[2]], NOT_ALLOWED),
        ],
    ),
    // or
    (
        &[b"a|b", b"c"],
        &[
            (4, 6, &[6, 8], &[&[2, 8], &[4, 8]], ALLOWED),
            (4, 6, &[6], &[&[4], &[2]], NOT_ALLOWED),
            (4, 6, &[6], &[&[2], &[2]], NOT_ALLOWED),
            (4, 6, &[6], &[&[2]], NOT_ALLOWED),
            (4, 6, &[6], &[&[2], &[4], &[4]], NOT_ALLOWED),
            (4, 6, &[6, 8], &[&[6], &[4]], NOT_ALLOWED),
            (4, 6, &[6, 8], &[&[2], &[6]], NOT_ALLOWED),
            (4, 6, &[8], &[&[8], &[8]], NOT_ALLOWED),
            (4, 8, &[8], &[&[8], &[8]], NOT_ALLOWED),
        ],
    ),
    // always
    (
        &[b"Ga", b"XGa", b"b", b"Xa"],
        &[
            (5, 4, &[4, 8], &[&[2, 6, 8]], ALLOWED),
            (5, 4, &[4], &[&[6]], ALLOWED),
            (5, 4, &[4, 8], &[&[4]], NOT_ALLOWED),
            (5, 4, &[4], &[&[10]], NOT_ALLOWED),
            (5, 4, &[4], &[&[8]], NOT_ALLOWED),
            (5, 4, &[8], &[&[8]], NOT_ALLOWED),
            (5, 4, &[4], &[], NOT_ALLOWED),
            (5, 4, &[4], &[&[2], &[2]], NOT_ALLOWED),
            (5, 8, &[8], &[&[8]], NOT_ALLOWED),
        ],
    ),
    // some
    (
        &[b"Fa", b"XFa", b"b", b"Xa"],
        &[
            (6, 4, &[4, 8], &[&[2, 8], &[6, 8]], ALLOWED),
            (6, 4, &[4], &[&[6], &[2]], NOT_ALLOWED),
            (6, 4, &[4], &[&[2], &[10]], NOT_ALLOWED),
            (6, 4, &[4], &[&[2], &[4]], NOT_ALLOWED),
            (6, 4, &[4], &[&[2], &[2]], NOT_ALLOWED),
            (6, 4, &[4], &[&[2]], NOT_ALLOWED),
            (6, 4, &[4], &[&[8], &[6]], NOT_ALLOWED),
            (6, 4, &[8], &[&[8], &[8]], NOT_ALLOWED),
            (6, 8, &[8], &[&[8], &[8]], NOT_ALLOWED),
        ],
    ),
    // until
    (
        &[b"aUb", b"X(aUb)", b"bUa", b"X(bUa)", b"c"],
        &[
            (7, 6, &[6, 14], &[&[4, 14], &[2, 8, 14]], ALLOWED),
            (7, 6, &[6], &[&[2], &[4, 8]], NOT_ALLOWED),
            (7, 6, &[6], &[&[4], &[4, 8]], NOT_ALLOWED),
            (7, 6, &[6], &[&[2], &[2]], NOT_ALLOWED),
            (7, 6, &[6], &[&[4], &[2, 12]], NOT_ALLOWED),
            (7, 6, &[6], &[&[4], &[6]], NOT_ALLOWED),
            (7, 6, &[6], &[&[4]], NOT_ALLOWED),
            (7, 6, &[14], &[&[14], &[14]], NOT_ALLOWED),
            (7, 14, &[14], &[&[14], &[14]], NOT_ALLOWED),
            (7, 6, &[6], &[&[2, 8], &[4]], NOT_ALLOWED),
        ],
    ),
    // release
    (
        &[b"aRb", b"X(aRb)", b"X(bRa)", b"c"],
        &[
            (8, 6, &[6, 14], &[&[2, 4, 14], &[4, 8, 14]], ALLOWED),
            (8, 6, &[6], &[&[2, 4], &[2, 8]], NOT_ALLOWED),
            (8, 6, &[6], &[&[8], &[4]], NOT_ALLOWED),
            (8, 6, &[6], &[&[2, 4], &[4, 12]], NOT_ALLOWED),
            (8, 6, &[6], &[&[2, 4], &[6]], NOT_ALLOWED),
            (8, 6, &[6], &[&[14], &[4]], NOT_ALLOWED),
            (8, 6, &[6], &[&[2, 4]], NOT_ALLOWED),
            (8, 6, &[14], &[&[14], &[14]], NOT_ALLOWED),
            (8, 14, &[14], &[&[14], &[14]], NOT_ALLOWED),
        ],
    ),
    // some+
    (
        &[
            b"Fa",
            b"X(!bUa)",
            b"X((!b|!c)Ua)",
            b"X((!b&!c)Ua)",
            b"X((d|!b|!c)Ua)",
            b"X((d|!c&!b)Ua)",
            b"Gd",
            b"XFa",
            b"X(!bUb)",
            b"(!b|!c)Ua",
            b"b",
            b"c",
        ],
        &[
            (9, 4, &[4, 7], &[&[2, 7], &[7, 10]], ALLOWED),
            (9, 4, &[4, 7, 13], &[&[2], &[18]], ALLOWED),
            (9, 4, &[4, 7, 13], &[&[2], &[32]], ALLOWED),
            (9, 4, &[4, 7, 13], &[&[2], &[24]], NOT_ALLOWED),
            (9, 4, &[4, 7, 13], &[&[2], &[40]], NOT_ALLOWED),
            (9, 4, &[4, 7, 13], &[&[2], &[10]], NOT_ALLOWED),
            (9, 4, &[4, 7, 42], &[&[2], &[10, 42]], ALLOWED),
            (9, 4, &[4, 7], &[&[2], &[48]], NOT_ALLOWED),
            (9, 4, &[4, 7], &[&[2], &[44]], NOT_ALLOWED),
            (9, 4, &[4, 7], &[&[2], &[4]], NOT_ALLOWED),
            (9, 4, &[4, 7, 13], &[&[2], &[16]], NOT_ALLOWED),
            (9, 4, &[4, 7], &[&[10], &[2]], NOT_ALLOWED),
            (9, 4, &[4, 7], &[&[2]], NOT_ALLOWED),
            (9, 4, &[7], &[&[7], &[7]], NOT_ALLOWED),
            (9, 7, &[7], &[&[7], &[7]], NOT_ALLOWED),
            (9, 4, &[4], &[&[2], &[10]], ALLOWED),
            (9, 4, &[4, 7], &[&[2], &[18]], ALLOWED),
            (9, 4, &[4, 7, 13], &[&[2], &[10, 18]], NOT_ALLOWED),
        ],
    ),
    // until+
    (
        &[
            b"aUb",
            b"X((a&!c)Ub)",
            b"X((!c&a)Ub)",
            b"X((a&(!c|!d))Ub)",
            b"X((a&!c&!d)Ub)",
            b"X((a&!c)Ua)",
            b"X(!cUb)",
            b"Ge",
            b"X(aUb)",
            b"(a&!c)Ub",
            b"c",
            b"d",
        ],
        &[
            (10, 6, &[6, 9], &[&[4, 9], &[2, 9, 14]], ALLOWED),
            (10, 6, &[6, 9, 23], &[&[4], &[2, 30]], ALLOWED),
            (10, 6, &[6, 9, 23], &[&[4], &[38]], NOT_ALLOWED),
            (10, 6, &[6, 9], &[&[4], &[20]], NOT_ALLOWED),
            (10, 6, &[6, 9], &[&[4], &[42]], NOT_ALLOWED),
            (10, 6, &[6, 9], &[&[4], &[46]], NOT_ALLOWED),
            (10, 6, &[6, 9], &[&[4], &[52]], NOT_ALLOWED),
            (10, 6, &[6, 9, 23], &[&[4], &[14]], NOT_ALLOWED),
            (10, 6, &[6, 9, 50], &[&[4], &[2, 14, 50]], ALLOWED),
            (10, 6, &[6, 9], &[&[2], &[2]], NOT_ALLOWED),
            (10, 6, &[6, 9], &[&[4], &[4]], NOT_ALLOWED),
            (10, 6, &[6, 9], &[&[4], &[12]], NOT_ALLOWED),
            (10, 6, &[6, 9], &[&[4], &[6]], NOT_ALLOWED),
            (10, 6, &[6, 9], &[&[4]], NOT_ALLOWED),
            (10, 6, &[9], &[&[9], &[9]], NOT_ALLOWED),
            (10, 9, &[9], &[&[9], &[9]], NOT_ALLOWED),
        ],
    ),
    // next
    (
        &[b"Xa", b"XXb", b"c"],
        &[
            (11, 0, &[4, 10, 12], &[&[2, 8]], ALLOWED),
            (11, 0, &[4, 12], &[&[]], ALLOWED),
            (11, 0, &[4, 12], &[&[12]], NOT_ALLOWED),
            (11, 0, &[4], &[&[4]], NOT_ALLOWED),
            (11, 0, &[10], &[&[6]], NOT_ALLOWED),
            (11, 1, &[4], &[&[2]], NOT_ALLOWED),
            (11, 4, &[4], &[&[2]], NOT_ALLOWED),
            (11, 0, &[4], &[], NOT_ALLOWED),
            (11, 0, &[4], &[&[2], &[2]], NOT_ALLOWED),
        ],
    ),
    // unknown rules
    (
        &[b"a"],
        &[
            (0, 0, &[2], &[], UNKNOWN),
            (12, 0, &[2], &[], UNKNOWN),
            (100, 0, &[2], &[], UNKNOWN),
            (999, 0, &[2], &[], UNKNOWN),
            (101, 0, &[2, 3], &[], UNKNOWN),
            (1, 2, &[2, 3], &[], ALLOWED),
        ],
    ),
];

// Kit u.
const BY_UNITS: [Judgements; 1] = [(
    &[
        b"a|b",
        b"Ga",
        b"Fa",
        b"a&b",
        b"!a|b",
        b"!b|c",
        b"G(a&(!b|c))",
        b"c",
    ],
    &[
        (1, 0, &[3, 5, 6], &[], ALLOWED),
        (1, 0, &[3, 6], &[], NOT_ALLOWED),
        (1, 2, &[3, 5, 6], &[], NOT_ALLOWED),
        (1, 0, &[3, 5, 6], &[&[2]], NOT_ALLOWED),
        (1, 0, &[1], &[], ALLOWED),
        (1, 0, &[2, 3], &[], ALLOWED),
        (1, 0, &[3, 8], &[], ALLOWED),
        (1, 0, &[3, 10], &[], NOT_ALLOWED),
        (1, 0, &[5, 12], &[], ALLOWED),
        (1, 0, &[3, 12], &[], ALLOWED),
        (1, 0, &[3, 5, 6], &[], ALLOWED),
        (1, 0, &[2, 14, 17, 18], &[], ALLOWED),
        (1, 0, &[2, 14, 18], &[], NOT_ALLOWED),
        (1, 0, &[4, 17, 22], &[], ALLOWED),
        (0, 0, &[1], &[], UNKNOWN),
        (2, 0, &[1], &[], UNKNOWN),
        (999, 0, &[1], &[], UNKNOWN),
        (1, 0, &[], &[], NOT_ALLOWED),
    ],
)];

#[test]
fn sequent_steps(rt: HostRuntime) -> Result<(), Fail> {
    for (texts, steps) in BY_SEQUENTS.iter() {
        let table = table_of(&rt, rt.alloc(), texts)?;
        for judged in steps.iter() {
            judges(&rt, rt.alloc(), &Sequents, &table, judged)?;
        }
    }
    Ok(())
}

#[test]
fn unit_steps(rt: HostRuntime) -> Result<(), Fail> {
    for (texts, steps) in BY_UNITS.iter() {
        let table = table_of(&rt, rt.alloc(), texts)?;
        for judged in steps.iter() {
            judges(&rt, rt.alloc(), &Units, &table, judged)?;
        }
    }
    Ok(())
}

// 254 signs X before a letter fill a table.
const FULL: &[u8] =
    b"XXXXXXXXXXXXXXXXXXXXXXXXXXXXXXXXXXXXXXXXXXXXXXXXXXXXXXXXXXXXXXXXXXXXXXXXXXXXXXXXXXXXXXXXXXXXXXXXXXXXXXXXXXXXXXXXXXXXXXXXXXXXXXXXXXXXXXXXXXXXXXXXXXXXXXXXXXXXXXXXXXXXXXXXXXXXXXXXXXXXXXXXXXXXXXXXXXXXXXXXXXXXXXXXXXXXXXXXXXXXXXXXXXXXXXXXXXXXXXXXXXXXXXXXXXXXXXa";

// Conclusions at the ends of words, in a full table.
const AT_ENDS: [Judged; 9] = [
    (1, 0, &[0, 1], &[], ALLOWED),
    (1, 63, &[62, 63], &[], ALLOWED),
    (1, 64, &[64, 65], &[], ALLOWED),
    (1, 511, &[510, 511], &[], ALLOWED),
    (1, 63, &[63, 64], &[], NOT_ALLOWED),
    (1, 511, &[0, 511], &[], NOT_ALLOWED),
    (11, 0, &[64, 511], &[&[62, 509]], ALLOWED),
    (11, 0, &[63, 64], &[&[61, 62]], ALLOWED),
    (11, 0, &[64], &[&[63]], NOT_ALLOWED),
];

#[test]
fn steps_at_ends(rt: HostRuntime) -> Result<(), Fail> {
    let table = table_of(&rt, rt.alloc(), &[FULL])?;
    assert_eq!(rt; table.len(), 512);
    for judged in AT_ENDS.iter() {
        judges(&rt, rt.alloc(), &Sequents, &table, judged)?;
    }
    Ok(())
}

// Three pairs, one in the other: s has rules 1 to 11 and 201 to 211, u has 101 and 301.
const NESTED: Pair<Sequents, Pair<Units, Pair<Sequents, Units>>> = Pair {
    first: Sequents,
    second: Pair {
        first: Units,
        second: Pair {
            first: Sequents,
            second: Units,
        },
    },
};

const BY_NESTED: [Judged; 12] = [
    (1, 2, &[2, 3], &[], ALLOWED),
    (101, 0, &[2, 3], &[], ALLOWED),
    (201, 2, &[2, 3], &[], ALLOWED),
    (301, 0, &[2, 3], &[], ALLOWED),
    (101, 2, &[2, 3], &[], NOT_ALLOWED),
    (201, 0, &[2, 3], &[], NOT_ALLOWED),
    (100, 0, &[2, 3], &[], UNKNOWN),
    (200, 0, &[2, 3], &[], UNKNOWN),
    (300, 0, &[2, 3], &[], UNKNOWN),
    (302, 0, &[2, 3], &[], UNKNOWN),
    (999, 0, &[2, 3], &[], UNKNOWN),
    (1000, 0, &[2, 3], &[], UNKNOWN),
];

#[test]
fn nested_pairs(rt: HostRuntime) -> Result<(), Fail> {
    let table = table_of(&rt, rt.alloc(), &[b"a"])?;
    for judged in BY_NESTED.iter() {
        judges(&rt, rt.alloc(), &NESTED, &table, judged)?;
    }
    Ok(())
}

// A pair as the first kit of another: its second kit's numbers are over 99, and so are not the outer pair's.
const FIRST_NESTED: Pair<Pair<Sequents, Units>, Units> = Pair {
    first: Pair {
        first: Sequents,
        second: Units,
    },
    second: Units,
};

const BY_FIRST_NESTED: [Judged; 4] = [
    (1, 2, &[2, 3], &[], ALLOWED),
    (101, 0, &[2, 3], &[], ALLOWED),
    (0, 0, &[2, 3], &[], UNKNOWN),
    (12, 0, &[2, 3], &[], UNKNOWN),
];

#[test]
fn a_pair_as_first_kit(rt: HostRuntime) -> Result<(), Fail> {
    let table = table_of(&rt, rt.alloc(), &[b"a"])?;
    for judged in BY_FIRST_NESTED.iter() {
        judges(&rt, rt.alloc(), &FIRST_NESTED, &table, judged)?;
    }
    assert!(rt; FIRST_NESTED.find(b"contra") == Some(1));
    assert!(rt; FIRST_NESTED.find(b"unit") == Some(101));
    Ok(())
}

// Names, and the numbers that kit s, kit u and the pair of both have for them.
type Numbers<'a> = (&'a [u8], Option<u16>, Option<u16>, Option<u16>);

const NAMES: [Numbers; 18] = [
    (b"contra", Some(1), None, Some(1)),
    (b"false", Some(2), None, Some(2)),
    (b"and", Some(3), None, Some(3)),
    (b"or", Some(4), None, Some(4)),
    (b"always", Some(5), None, Some(5)),
    (b"some", Some(6), None, Some(6)),
    (b"until", Some(7), None, Some(7)),
    (b"release", Some(8), None, Some(8)),
    (b"some+", Some(9), None, Some(9)),
    (b"until+", Some(10), None, Some(10)),
    (b"next", Some(11), None, Some(11)),
    (b"unit", None, Some(1), Some(101)),
    (b"", None, None, None),
    (b"contr", None, None, None),
    (b"contra ", None, None, None),
    (b"o", None, None, None),
    (b"uni", None, None, None),
    (b"Contra", None, None, None),
];

#[test]
fn names(rt: HostRuntime) {
    let pair = Pair {
        first: Sequents,
        second: Units,
    };
    for (name, by_sequents, by_units, by_pair) in NAMES.iter() {
        assert!(rt; Sequents.find(name) == *by_sequents);
        assert!(rt; Units.find(name) == *by_units);
        assert!(rt; pair.find(name) == *by_pair);
    }
    assert!(rt; NESTED.find(b"contra") == Some(1));
    assert!(rt; NESTED.find(b"unit") == Some(101));
}
