// Cases that are run, as tables.
use casefile::{SheetFault, sorvigzna_sheet, write_sheet};
use cases::Draft;
use sequents::Sequents;
use std::alloc::Global;
use std::process::Abort;
use std::test::Fail;
use texts::Refusal;

// Pieces of a file or a sheet, each with how often it comes.
type Pieces<'a> = &'a [(&'a [u8], usize)];

fn joined(heap: Global, pieces: Pieces) -> Result<Vec<u8>, Fail> {
    let mut all = Vec::new(heap);
    for (bytes, times) in pieces {
        for _ in 0..*times {
            all.extend_from_slice(bytes)?;
        }
    }
    Ok(all)
}

// The sheet of a file is as expected, and past it the buffer is as it was.
pub(crate) fn gives(rt: &impl Abort, heap: Global, file: &[u8], sheet: &[u8]) -> Result<(), Fail> {
    let mut out = vec![in heap; 7u8; 32_100]?;
    let answer = sorvigzna_sheet(file, out.as_mut_slice(), heap);
    assert_eq!(rt; answer, i64::try_from(sheet.len())?);
    for (at, byte) in out.iter().enumerate() {
        assert_eq!(rt; *byte, sheet.get(at).copied().unwrap_or(7));
    }
    Ok(())
}

// The answer for a file and a buffer of some size is a negative number, and the buffer is as it was.
fn answers(
    rt: &impl Abort,
    heap: Global,
    file: &[u8],
    room: usize,
    answer: i64,
) -> Result<(), Fail> {
    let mut out = vec![in heap; 7u8; room]?;
    assert_eq!(rt; sorvigzna_sheet(file, out.as_mut_slice(), heap), answer);
    for byte in out.iter() {
        assert_eq!(rt; *byte, 7);
    }
    Ok(())
}

const SHEETS: [(&[u8], &[u8]); 32] = [
    (
        b"kit=s\ninit=!b\ntrans=!b->X!b\nprop=G!b\nseal=\nform=X(bUb)\n",
        b"kit=s\ninit=2\ntrans=8\nprop=11\nseal=3\nform=14\n",
    ),
    // each kit, and a seal without clauses
    (b"kit=u\nseal=\n", b"kit=u\nseal=1\n"),
    (b"kit=b\nseal=\n", b"kit=b\nseal=1\n"),
    // a file that ends early
    (b"kit=s\n", b"kit=s\n"),
    // the kit's value
    (b"kit=\n", b"refused=20\nlayer=2\nline=1\nplace=0\n"),
    (b"kit=x\nseal=\n", b"refused=20\nlayer=2\nline=1\nplace=0\n"),
    (b"kit=su\n", b"refused=20\nlayer=2\nline=1\nplace=1\n"),
    // keys that are not due
    (b"seal=\n", b"refused=19\nlayer=2\nline=1\nplace=0\n"),
    (b"\n", b"refused=19\nlayer=2\nline=1\nplace=0\n"),
    (
        b"kit=s\nkit=s\n",
        b"kit=s\nrefused=19\nlayer=2\nline=2\nplace=0\n",
    ),
    (
        b"kit=s\nform=a\n",
        b"kit=s\nrefused=19\nlayer=2\nline=2\nplace=0\n",
    ),
    (
        b"kit=s\ninit\n",
        b"kit=s\nrefused=19\nlayer=2\nline=2\nplace=0\n",
    ),
    (
        b"kit=s\nInit=a\n",
        b"kit=s\nrefused=19\nlayer=2\nline=2\nplace=0\n",
    ),
    (
        b"kit=s\nprop=a\ninit=a\n",
        b"kit=s\nprop=3\nrefused=19\nlayer=2\nline=3\nplace=0\n",
    ),
    (
        b"kit=s\nprop=a\nprop=a\n",
        b"kit=s\nprop=3\nrefused=19\nlayer=2\nline=3\nplace=0\n",
    ),
    // a value where none belongs
    (
        b"kit=s\nseal=a\n",
        b"kit=s\nrefused=20\nlayer=2\nline=2\nplace=0\n",
    ),
    // the four refusals of a text before it is numbered
    (
        b"kit=s\ninit=\n",
        b"kit=s\nrefused=1\nlayer=1\nline=2\nplace=0\n",
    ),
    (
        b"kit=s\ninit=aa\n",
        b"kit=s\nrefused=3\nlayer=1\nline=2\nplace=1\n",
    ),
    (
        b"kit=s\ninit=a b\n",
        b"kit=s\nrefused=3\nlayer=1\nline=2\nplace=1\n",
    ),
    (
        b"kit=s\ninit=)\n",
        b"kit=s\nrefused=3\nlayer=1\nline=2\nplace=0\n",
    ),
    (
        b"kit=s\ninit=a-b\n",
        b"kit=s\nrefused=3\nlayer=1\nline=2\nplace=2\n",
    ),
    (
        b"kit=s\ninit=(a\n",
        b"kit=s\nrefused=4\nlayer=1\nline=2\nplace=2\n",
    ),
    (
        b"kit=s\ninit=a-\n",
        b"kit=s\nrefused=4\nlayer=1\nline=2\nplace=2\n",
    ),
    // a value may have an equals sign, which is no sign of a formula
    (
        b"kit=s\ninit=a=b\n",
        b"kit=s\nrefused=3\nlayer=1\nline=2\nplace=1\n",
    ),
    // after sealing a refusal ends nothing
    (
        b"kit=s\nseal=\nform=G\ninit=a\nform=1\n",
        b"kit=s\nseal=1\nrefused=4\nlayer=1\nline=3\nplace=1\nrefused=19\nlayer=2\nline=4\nplace=0\nform=0\n",
    ),
    // equal root formulas count once: the opposite of the property is the init clause
    (
        b"kit=s\ninit=a\ninv=a\ntrans=a\nprop=!a\nseal=\n",
        b"kit=s\ninit=2\ninv=4\ntrans=4\nprop=2\nseal=2\n",
    ),
    // states, loops and drops: letters in any order, each phase
    (
        b"kit=s\ninit=a\nseal=\nstate=bab\nloop=0\n",
        b"kit=s\ninit=2\nseal=2\nstate=0\nloop=1\n",
    ),
    (
        b"kit=s\nseal=\ndrop=\nloop=0\nstate=\ndrop=\nstate=a\nloop=0\n",
        b"kit=s\nseal=1\ndrop=0\nrefused=17\nlayer=3\nline=4\nplace=0\nstate=0\ndrop=0\nstate=0\nloop=1\n",
    ),
    (
        b"kit=s\nseal=\nstate=\nloop=0\nloop=0\nstate=a\ndrop=\nstate=\nstate=\nloop=2\nloop=1\n",
        b"kit=s\nseal=1\nstate=0\nloop=1\nrefused=16\nlayer=3\nline=5\nplace=0\nrefused=16\nlayer=3\nline=6\nplace=0\ndrop=0\nstate=0\nstate=1\nrefused=17\nlayer=3\nline=10\nplace=0\nloop=2\n",
    ),
    // a loop that a root formula refuses, and that is taken after another state
    (
        b"kit=s\nprop=Ga\nseal=\nstate=a\nloop=0\nstate=\nloop=0\n",
        b"kit=s\nprop=5\nseal=1\nstate=0\nrefused=18\nlayer=3\nline=5\nplace=5\nstate=1\nloop=2\n",
    ),
    // an until that is fulfilled only past the loop's end
    (
        b"kit=s\ninit=X(aUb)\nseal=\nstate=b\nstate=a\nloop=0\n",
        b"kit=s\ninit=8\nseal=2\nstate=0\nstate=1\nloop=2\n",
    ),
    // values that are not of their form
    (
        b"kit=s\nseal=\nstate=aB\nloop=\nloop=00\nloop=12345\nloop=x\ndrop=x\n",
        b"kit=s\nseal=1\nrefused=20\nlayer=2\nline=3\nplace=1\nrefused=20\nlayer=2\nline=4\nplace=0\nrefused=20\nlayer=2\nline=5\nplace=1\nrefused=20\nlayer=2\nline=6\nplace=4\nrefused=20\nlayer=2\nline=7\nplace=0\nrefused=20\nlayer=2\nline=8\nplace=0\n",
    ),
];

#[test]
fn sheets(rt: HostRuntime) -> Result<(), Fail> {
    for (file, sheet) in SHEETS.iter() {
        gives(&rt, rt.alloc(), file, sheet)?;
    }
    Ok(())
}

// Long files and texts, and their sheets.
const LONG: [(Pieces, Pieces); 12] = [
    // 512 and 513 bytes
    (
        &[(b"kit=s\ninit=", 1), (b"!", 511), (b"a\n", 1)],
        &[(b"kit=s\ninit=2\n", 1)],
    ),
    (
        &[(b"kit=s\ninit=", 1), (b"!", 512), (b"a\n", 1)],
        &[(b"kit=s\nrefused=2\nlayer=1\nline=2\nplace=512\n", 1)],
    ),
    // brackets 255 deep
    (
        &[
            (b"kit=s\ninit=", 1),
            (b"(", 255),
            (b"a", 1),
            (b")", 255),
            (b"\n", 1),
        ],
        &[(b"kit=s\ninit=2\n", 1)],
    ),
    (
        &[
            (b"kit=s\ninit=", 1),
            (b"(", 255),
            (b"a", 1),
            (b")", 256),
            (b"\n", 1),
        ],
        &[(b"kit=s\nrefused=3\nlayer=1\nline=2\nplace=511\n", 1)],
    ),
    // a text that needs exactly the 255 free pairs, and one that needs one more
    (
        &[(b"kit=s\ninit=", 1), (b"X", 254), (b"a\n", 1)],
        &[(b"kit=s\ninit=510\n", 1)],
    ),
    (
        &[(b"kit=s\ninit=", 1), (b"X", 255), (b"a\n", 1)],
        &[(b"kit=s\nrefused=5\nlayer=1\nline=2\nplace=0\n", 1)],
    ),
    // a full table still answers what it has, after a refusal too
    (
        &[
            (b"kit=s\nseal=\nform=", 1),
            (b"X", 254),
            (b"a\nform=b\nform=!Xa\n", 1),
        ],
        &[(
            b"kit=s\nseal=1\nform=510\nrefused=5\nlayer=1\nline=4\nplace=0\nform=5\n",
            1,
        )],
    ),
    // 40 and 41 clauses
    (
        &[(b"kit=s\n", 1), (b"init=a\n", 39), (b"prop=a\nseal=\n", 1)],
        &[(b"kit=s\n", 1), (b"init=2\n", 39), (b"prop=3\nseal=2\n", 1)],
    ),
    (
        &[(b"kit=s\n", 1), (b"init=a\n", 41)],
        &[
            (b"kit=s\n", 1),
            (b"init=2\n", 40),
            (b"refused=8\nlayer=3\nline=42\nplace=0\n", 1),
        ],
    ),
    // 500 lines
    (
        &[(b"kit=s\nseal=\n", 1), (b"form=aUa\n", 498)],
        &[(b"kit=s\nseal=1\n", 1), (b"form=4\n", 498)],
    ),
    // 32,000 bytes
    (
        &[(b"kit=s\nseal=\n", 1), (b"a", 31_987), (b"\n", 1)],
        &[(b"kit=s\nseal=1\nrefused=19\nlayer=2\nline=3\nplace=0\n", 1)],
    ),
    // 64 and 65 positions
    (
        &[(b"kit=s\nseal=\n", 1), (b"state=\n", 65), (b"loop=63\n", 1)],
        &[
            (b"kit=s\nseal=1\n", 1),
            (
                b"state=0\nstate=1\nstate=2\nstate=3\nstate=4\nstate=5\nstate=6\nstate=7\nstate=8\nstate=9\n",
                1,
            ),
            (
                b"state=10\nstate=11\nstate=12\nstate=13\nstate=14\nstate=15\nstate=16\nstate=17\nstate=18\nstate=19\n",
                1,
            ),
            (
                b"state=20\nstate=21\nstate=22\nstate=23\nstate=24\nstate=25\nstate=26\nstate=27\nstate=28\nstate=29\n",
                1,
            ),
            (
                b"state=30\nstate=31\nstate=32\nstate=33\nstate=34\nstate=35\nstate=36\nstate=37\nstate=38\nstate=39\n",
                1,
            ),
            (
                b"state=40\nstate=41\nstate=42\nstate=43\nstate=44\nstate=45\nstate=46\nstate=47\nstate=48\nstate=49\n",
                1,
            ),
            (
                b"state=50\nstate=51\nstate=52\nstate=53\nstate=54\nstate=55\nstate=56\nstate=57\nstate=58\nstate=59\n",
                1,
            ),
            (b"state=60\nstate=61\nstate=62\nstate=63\n", 1),
            (b"refused=15\nlayer=3\nline=67\nplace=0\nloop=64\n", 1),
        ],
    ),
];

#[test]
fn long_files(rt: HostRuntime) -> Result<(), Fail> {
    let heap = rt.alloc();
    for (file, sheet) in LONG.iter() {
        let file = joined(heap, file)?;
        let sheet = joined(heap, sheet)?;
        gives(&rt, heap, file.as_slice(), sheet.as_slice())?;
    }
    Ok(())
}

// Files that are refused whole, and buffers that are too short.
const REFUSED: [(Pieces, usize, i64); 9] = [
    (&[], 100, -22),
    (&[(b"kit=s", 1)], 100, -22),
    (&[(b"kit=s\n", 1), (b"a\n", 499)], 31_999, -21),
    (&[(b"kit=s\n", 1), (b"a\n", 500)], 32_100, -22),
    (&[(b"kit=s\n", 1), (b"a", 31_993), (b"\n", 1)], 127, -21),
    (&[(b"kit=s\n", 1), (b"a", 31_994), (b"\n", 1)], 32_100, -22),
    // both: the file comes first
    (&[(b"kit=s", 1)], 0, -22),
    (&[(b"kit=s\n", 1)], 63, -21),
    (&[(b"\n", 501)], 0, -22),
];

// A buffer of exactly 64 bytes a line is taken.
#[test]
fn just_room(rt: HostRuntime) -> Result<(), Fail> {
    let heap = rt.alloc();
    let mut out = vec![in heap; 7u8; 128]?;
    assert_eq!(rt;
        sorvigzna_sheet(b"kit=s\nseal=\n", out.as_mut_slice(), heap),
        13
    );
    Ok(())
}

#[test]
fn refused_whole(rt: HostRuntime) -> Result<(), Fail> {
    let heap = rt.alloc();
    for (file, room, answer) in REFUSED.iter() {
        let file = joined(heap, file)?;
        answers(&rt, heap, file.as_slice(), *room, *answer)?;
    }
    Ok(())
}

// Clauses of each kind through the call: kind, text, and the answer or the refusal's number, layer and place.
type Told = Result<u16, (usize, usize, usize)>;

const CLAUSES: [(usize, &[u8], Told); 9] = [
    (0, b"a", Err((6, 3, 0))),
    (5, b"", Err((6, 3, 0))),
    (1, b"a", Ok(2)),
    (2, b"a", Ok(4)),
    (3, b"", Err((1, 1, 0))),
    (3, b"a|b", Ok(10)),
    (4, b"a", Ok(3)),
    // the second property is refused before its text is read
    (4, b"", Err((7, 3, 0))),
    (1, b"b", Ok(6)),
];

#[test]
fn clauses(rt: HostRuntime) -> Result<(), Fail> {
    let mut draft = Draft::new(Sequents, rt.alloc())?;
    for (kind, text, told) in CLAUSES.iter() {
        let answer = match draft.clause(*kind, text) {
            Ok(number) => Ok(number.0),
            Err(fault) => {
                let refusal = Refusal::from(fault);
                Err((refusal.number, usize::from(refusal.layer), refusal.place))
            }
        };
        assert!(rt; answer == *told);
    }
    let (_case, count) = draft.seal();
    assert_eq!(rt; count, 5);
    Ok(())
}

// States of runs, by their letters: bit 0 is `a`, bit 1 is `b`.
const RUNS: [&[u32]; 7] = [
    &[1],
    &[0],
    &[1, 0],
    &[1, 2, 0],
    &[3, 1, 2],
    &[
        1, 0, 1, 2, 0, 0, 3, 1, 0, 1, 1, 0, 1, 0, 0, 0, 1, 1, 0, 0, 0, 1, 1, 0, 3, 1, 0, 0, 2, 2,
        1, 0, 1, 1, 1, 0, 0, 0, 1, 3, 0, 1, 1, 0, 1, 0, 1, 1, 1, 3, 2, 0, 0, 1, 1, 2, 0, 1, 0, 1,
        2, 0, 1, 0,
    ],
    &[
        1, 1, 1, 1, 1, 1, 1, 1, 1, 1, 1, 1, 1, 1, 1, 1, 1, 1, 1, 1, 1, 1, 1, 1, 1, 1, 1, 1, 1, 1,
        1, 1, 1, 1, 1, 1, 1, 1, 1, 1, 2, 1, 1, 1, 1, 1, 1, 1, 1, 1, 1, 1, 1, 1, 1, 1, 1, 1, 1, 1,
        1, 1, 1, 1,
    ],
];

// A text, the index of a run, a back position, and the row: worked out by another program, which walks along the run.
const ROWS: [(&[u8], usize, usize, u64); 229] = [
    (b"1", 0, 0, 1),
    (b"0", 0, 0, 0),
    (b"a", 0, 0, 1),
    (b"!a", 0, 0, 0),
    (b"Xa", 0, 0, 1),
    (b"Ga", 0, 0, 1),
    (b"Fa", 0, 0, 1),
    (b"aUb", 0, 0, 0),
    (b"aRb", 0, 0, 0),
    (b"bUa", 0, 0, 1),
    (b"a&b", 0, 0, 0),
    (b"a|b", 0, 0, 1),
    (b"a->b", 0, 0, 0),
    (b"!(aUb)", 0, 0, 1),
    (b"GFa", 0, 0, 1),
    (b"FGa", 0, 0, 1),
    (b"XXb", 0, 0, 0),
    (b"aU!a", 0, 0, 0),
    (b"G(a->Fb)", 0, 0, 0),
    (b"1", 1, 0, 1),
    (b"0", 1, 0, 0),
    (b"a", 1, 0, 0),
    (b"!a", 1, 0, 1),
    (b"Xa", 1, 0, 0),
    (b"Ga", 1, 0, 0),
    (b"Fa", 1, 0, 0),
    (b"aUb", 1, 0, 0),
    (b"aRb", 1, 0, 0),
    (b"bUa", 1, 0, 0),
    (b"a&b", 1, 0, 0),
    (b"a|b", 1, 0, 0),
    (b"a->b", 1, 0, 1),
    (b"!(aUb)", 1, 0, 1),
    (b"GFa", 1, 0, 0),
    (b"FGa", 1, 0, 0),
    (b"XXb", 1, 0, 0),
    (b"aU!a", 1, 0, 1),
    (b"G(a->Fb)", 1, 0, 1),
    (b"1", 2, 0, 3),
    (b"0", 2, 0, 0),
    (b"a", 2, 0, 1),
    (b"!a", 2, 0, 2),
    (b"Xa", 2, 0, 2),
    (b"Ga", 2, 0, 0),
    (b"Fa", 2, 0, 3),
    (b"aUb", 2, 0, 0),
    (b"aRb", 2, 0, 0),
    (b"bUa", 2, 0, 1),
    (b"a&b", 2, 0, 0),
    (b"a|b", 2, 0, 1),
    (b"a->b", 2, 0, 2),
    (b"!(aUb)", 2, 0, 3),
    (b"GFa", 2, 0, 3),
    (b"FGa", 2, 0, 0),
    (b"XXb", 2, 0, 0),
    (b"aU!a", 2, 0, 3),
    (b"G(a->Fb)", 2, 0, 0),
    (b"1", 2, 1, 3),
    (b"0", 2, 1, 0),
    (b"a", 2, 1, 1),
    (b"!a", 2, 1, 2),
    (b"Xa", 2, 1, 0),
    (b"Ga", 2, 1, 0),
    (b"Fa", 2, 1, 1),
    (b"aUb", 2, 1, 0),
    (b"aRb", 2, 1, 0),
    (b"bUa", 2, 1, 1),
    (b"a&b", 2, 1, 0),
    (b"a|b", 2, 1, 1),
    (b"a->b", 2, 1, 2),
    (b"!(aUb)", 2, 1, 3),
    (b"GFa", 2, 1, 0),
    (b"FGa", 2, 1, 0),
    (b"XXb", 2, 1, 0),
    (b"aU!a", 2, 1, 3),
    (b"G(a->Fb)", 2, 1, 2),
    (b"1", 3, 0, 7),
    (b"0", 3, 0, 0),
    (b"a", 3, 0, 1),
    (b"!a", 3, 0, 6),
    (b"Xa", 3, 0, 4),
    (b"Ga", 3, 0, 0),
    (b"Fa", 3, 0, 7),
    (b"aUb", 3, 0, 3),
    (b"aRb", 3, 0, 0),
    (b"bUa", 3, 0, 1),
    (b"a&b", 3, 0, 0),
    (b"a|b", 3, 0, 3),
    (b"a->b", 3, 0, 6),
    (b"!(aUb)", 3, 0, 4),
    (b"GFa", 3, 0, 7),
    (b"FGa", 3, 0, 0),
    (b"XXb", 3, 0, 4),
    (b"aU!a", 3, 0, 7),
    (b"G(a->Fb)", 3, 0, 7),
    (b"1", 3, 1, 7),
    (b"0", 3, 1, 0),
    (b"a", 3, 1, 1),
    (b"!a", 3, 1, 6),
    (b"Xa", 3, 1, 0),
    (b"Ga", 3, 1, 0),
    (b"Fa", 3, 1, 1),
    (b"aUb", 3, 1, 3),
    (b"aRb", 3, 1, 0),
    (b"bUa", 3, 1, 1),
    (b"a&b", 3, 1, 0),
    (b"a|b", 3, 1, 3),
    (b"a->b", 3, 1, 6),
    (b"!(aUb)", 3, 1, 4),
    (b"GFa", 3, 1, 0),
    (b"FGa", 3, 1, 0),
    (b"XXb", 3, 1, 2),
    (b"aU!a", 3, 1, 7),
    (b"G(a->Fb)", 3, 1, 7),
    (b"1", 4, 2, 7),
    (b"0", 4, 2, 0),
    (b"a", 4, 2, 3),
    (b"!a", 4, 2, 4),
    (b"Xa", 4, 2, 1),
    (b"Ga", 4, 2, 0),
    (b"Fa", 4, 2, 3),
    (b"aUb", 4, 2, 7),
    (b"aRb", 4, 2, 5),
    (b"bUa", 4, 2, 3),
    (b"a&b", 4, 2, 1),
    (b"a|b", 4, 2, 7),
    (b"a->b", 4, 2, 5),
    (b"!(aUb)", 4, 2, 0),
    (b"GFa", 4, 2, 0),
    (b"FGa", 4, 2, 0),
    (b"XXb", 4, 2, 7),
    (b"aU!a", 4, 2, 7),
    (b"G(a->Fb)", 4, 2, 7),
    (b"Xa", 5, 0, 11903554103263988578),
    (b"Fb", 5, 0, 18446744073709551615),
    (b"Gb", 5, 0, 0),
    (b"aUb", 5, 0, 1794614908218769484),
    (b"bRa", 5, 0, 1056355813163072),
    (b"aRb", 5, 0, 563499726012480),
    (b"GFb", 5, 0, 18446744073709551615),
    (b"FG!b", 5, 0, 0),
    (b"!aUb", 5, 0, 1190639702273687672),
    (b"Xa", 5, 63, 2680182066409212770),
    (b"Fb", 5, 63, 2305843009213693951),
    (b"Gb", 5, 63, 0),
    (b"aUb", 5, 63, 1794614908218769484),
    (b"bRa", 5, 63, 1056355813163072),
    (b"aRb", 5, 63, 563499726012480),
    (b"GFb", 5, 63, 0),
    (b"FG!b", 5, 63, 18446744073709551615),
    (b"!aUb", 5, 63, 1190639702273687672),
    (b"Xa", 5, 17, 11903554103263988578),
    (b"Fb", 5, 17, 18446744073709551615),
    (b"Gb", 5, 17, 0),
    (b"aUb", 5, 17, 1794614908218769484),
    (b"bRa", 5, 17, 1056355813163072),
    (b"aRb", 5, 17, 563499726012480),
    (b"GFb", 5, 17, 18446744073709551615),
    (b"FG!b", 5, 17, 0),
    (b"!aUb", 5, 17, 1190639702273687672),
    (b"Xa", 6, 0, 18446743523953737727),
    (b"Fb", 6, 0, 18446744073709551615),
    (b"Gb", 6, 0, 0),
    (b"aUb", 6, 0, 18446744073709551615),
    (b"bRa", 6, 0, 0),
    (b"aRb", 6, 0, 0),
    (b"GFb", 6, 0, 18446744073709551615),
    (b"FG!b", 6, 0, 0),
    (b"!aUb", 6, 0, 1099511627776),
    (b"Xa", 6, 30, 18446743523953737727),
    (b"Fb", 6, 30, 18446744073709551615),
    (b"Gb", 6, 30, 0),
    (b"aUb", 6, 30, 18446744073709551615),
    (b"bRa", 6, 30, 0),
    (b"aRb", 6, 30, 0),
    (b"GFb", 6, 30, 18446744073709551615),
    (b"FG!b", 6, 30, 0),
    (b"!aUb", 6, 30, 1099511627776),
    (b"Xa", 6, 41, 18446743523953737727),
    (b"Fb", 6, 41, 2199023255551),
    (b"Gb", 6, 41, 0),
    (b"aUb", 6, 41, 2199023255551),
    (b"bRa", 6, 41, 18446741874686296064),
    (b"aRb", 6, 41, 0),
    (b"GFb", 6, 41, 0),
    (b"FG!b", 6, 41, 18446744073709551615),
    (b"!aUb", 6, 41, 1099511627776),
    (b"1", 5, 0, 18446744073709551615),
    (b"0", 5, 0, 0),
    (b"a", 5, 0, 5360364132818425541),
    (b"!a", 5, 0, 13086379940891126074),
    (b"Ga", 5, 0, 0),
    (b"Fa", 5, 0, 18446744073709551615),
    (b"a&b", 5, 0, 563499726012480),
    (b"a|b", 5, 0, 6550440335156385485),
    (b"a->b", 5, 0, 13086943440617138554),
    (b"bUa", 5, 0, 5360364133623731909),
    (b"!(aUb)", 5, 0, 16652129165490782131),
    (b"XXb", 5, 0, 297659925515993106),
    (b"aU!a", 5, 0, 18446744073709551615),
    (b"G(a->Fb)", 5, 0, 18446744073709551615),
    (b"1", 5, 17, 18446744073709551615),
    (b"0", 5, 17, 0),
    (b"a", 5, 17, 5360364132818425541),
    (b"!a", 5, 17, 13086379940891126074),
    (b"Ga", 5, 17, 0),
    (b"Fa", 5, 17, 18446744073709551615),
    (b"a&b", 5, 17, 563499726012480),
    (b"a|b", 5, 17, 6550440335156385485),
    (b"a->b", 5, 17, 13086943440617138554),
    (b"bUa", 5, 17, 5360364133623731909),
    (b"!(aUb)", 5, 17, 16652129165490782131),
    (b"XXb", 5, 17, 297659925515993106),
    (b"aU!a", 5, 17, 18446744073709551615),
    (b"G(a->Fb)", 5, 17, 18446744073709551615),
    (b"1", 5, 63, 18446744073709551615),
    (b"0", 5, 63, 0),
    (b"a", 5, 63, 5360364132818425541),
    (b"!a", 5, 63, 13086379940891126074),
    (b"Ga", 5, 63, 0),
    (b"Fa", 5, 63, 9223372036854775807),
    (b"a&b", 5, 63, 563499726012480),
    (b"a|b", 5, 63, 6550440335156385485),
    (b"a->b", 5, 63, 13086943440617138554),
    (b"bUa", 5, 63, 5360364133623731909),
    (b"!(aUb)", 5, 63, 16652129165490782131),
    (b"XXb", 5, 63, 297659925515993106),
    (b"aU!a", 5, 63, 18446744073709551615),
    (b"G(a->Fb)", 5, 63, 9223372036854775808),
];

#[test]
fn rows(rt: HostRuntime) -> Result<(), Fail> {
    for (text, run, back, row) in ROWS.iter() {
        let draft = Draft::new(Sequents, rt.alloc())?;
        let (mut case, _count) = draft.seal();
        for letters in RUNS.get(*run).copied().unwrap_or(&[]) {
            let _ = case.state(*letters);
        }
        let number = match case.form(text) {
            Ok(number) => number.0 as usize,
            Err(_) => 512,
        };
        match case.row(number, *back) {
            Ok(found) => assert_eq!(rt; found, *row),
            Err(_) => return Err(Fail::new("no row")),
        }
    }
    Ok(())
}

// Rows that are refused: a number, a back position, and the refusal's number, layer and place, over two states.
const NO_ROWS: [(usize, usize, (usize, usize, usize)); 3] = [
    (2, 0, (10, 3, 0)),
    (512, 9, (10, 3, 0)),
    (0, 2, (17, 3, 0)),
];

#[test]
fn refused_rows(rt: HostRuntime) -> Result<(), Fail> {
    let draft = Draft::new(Sequents, rt.alloc())?;
    let (mut case, _count) = draft.seal();
    assert!(rt; case.row(0, 0).is_err());
    assert!(rt; matches!(case.state(1), Ok(0)));
    assert!(rt; matches!(case.state(0), Ok(1)));
    for (number, back, told) in NO_ROWS.iter() {
        match case.row(*number, *back) {
            Ok(_) => return Err(Fail::new("a row")),
            Err(fault) => {
                let refusal = Refusal::from(fault);
                assert!(rt; (refusal.number, usize::from(refusal.layer), refusal.place) == *told);
            }
        }
    }
    // bits past the last letter, at the lowest
    match case.state(0b101 << 27) {
        Ok(_) => Err(Fail::new("a state")),
        Err(fault) => {
            let refusal = Refusal::from(fault);
            assert!(rt; (refusal.number, usize::from(refusal.layer), refusal.place) == (14, 3, 27));
            Ok(())
        }
    }
}

// A sheet by its length, or why there is none.
#[test]
fn sheets_by_result(rt: HostRuntime) -> Result<(), Fail> {
    let heap = rt.alloc();
    let mut out = vec![in heap; 7u8; 200]?;
    assert!(rt; write_sheet(b"kit=s\nseal=\n", out.as_mut_slice(), heap) == Ok(13));
    assert!(rt; out.as_slice().starts_with(b"kit=s\nseal=1\n\x07"));
    assert!(rt; write_sheet(b"", out.as_mut_slice(), heap) == Err(SheetFault::FileRefused));
    assert!(rt;
        write_sheet(b"kit=s\n\n\n\n", out.as_mut_slice(), heap) == Err(SheetFault::BufferTooShort)
    );
    Ok(())
}
