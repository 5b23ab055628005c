use crate::full::{FILTERED, LOADED, SWAPPED, counted, first_full, long_texts};
use crate::plans::{Kind, Step, result};

// The number of a node is its place from 1. A node's numbers are those of its inputs, and then those
// of its fields.

/// The least vertex that each vertex of a graph is connected with; node 6 is the iteration.
const COMPONENTS: [Step; 11] = [
    (0, Kind::Source, [0; 4]),
    (0, Kind::BothWays, [1, 0, 0, 0]),
    (0, Kind::Field, [2, 0, 0, 0]),
    (0, Kind::Distinct, [3, 0, 0, 0]),
    (0, Kind::Fields, [4, 0, 0, 0]),
    (0, Kind::Lowering, [5, 5, 11, 11]),
    (6, Kind::Join, [6, 2, 3, 1]),
    (6, Kind::Least, [7, 0, 0, 0]),
    (6, Kind::Probe, [8, 0, 0, 0]),
    (6, Kind::Lower, [9, 0, 0, 0]),
    (6, Kind::Fields, [10, 0, 1, 0]),
];

const SUM: [Step; 2] = [(0, Kind::Source, [0; 4]), (0, Kind::Sum, [1, 0, 0, 0])];

const JOIN: [Step; 3] = [
    (0, Kind::Source, [0; 4]),
    (0, Kind::Source, [0; 4]),
    (0, Kind::Join, [1, 2, 1, 3]),
];

const BEST: [Step; 2] = [(0, Kind::Source, [0; 4]), (0, Kind::Best, [1, 0, 0, 0])];

const WORDS: [Step; 3] = [
    (0, Kind::Source, [0; 4]),
    (0, Kind::Count, [1, 0, 0, 0]),
    (0, Kind::Lengths, [2, 0, 0, 0]),
];

/// Numbers that are counted up until one passes 100; node 2 is the iteration.
const LOOP: [Step; 4] = [
    (0, Kind::Source, [0; 4]),
    (0, Kind::Bulk, [1, 3, 4, 0]),
    (2, Kind::More, [2, 0, 0, 0]),
    (2, Kind::Above, [3, 0, 0, 0]),
];

const OUTER: [Step; 3] = [
    (0, Kind::Source, [0; 4]),
    (0, Kind::Source, [0; 4]),
    (0, Kind::Full, [1, 2, 0, 0]),
];

const LEFT: [Step; 3] = [
    (0, Kind::Source, [0; 4]),
    (0, Kind::Source, [0; 4]),
    (0, Kind::Left, [1, 2, 0, 0]),
];

const RIGHT: [Step; 3] = [
    (0, Kind::Source, [0; 4]),
    (0, Kind::Source, [0; 4]),
    (0, Kind::Right, [1, 2, 0, 0]),
];

const UNION: [Step; 3] = [
    (0, Kind::Source, [0; 4]),
    (0, Kind::Source, [0; 4]),
    (0, Kind::Union, [1, 2, 0, 0]),
];

/// Texts, one behind the other, and cut.
const TEXTS: [Step; 3] = [
    (0, Kind::Source, [0; 4]),
    (0, Kind::Texts, [1, 0, 0, 0]),
    (0, Kind::Cut, [1, 0, 0, 0]),
];

/// Bools as a key, as a test and as a column.
const FLAGS: [Step; 5] = [
    (0, Kind::Source, [0; 4]),
    (0, Kind::Totals, [1, 0, 0, 0]),
    (0, Kind::Kept, [1, 0, 0, 0]),
    (0, Kind::Field, [1, 1, 0, 0]),
    (0, Kind::IsAbove, [4, 0, 0, 0]),
];

const COGROUP: [Step; 3] = [
    (0, Kind::Source, [0; 4]),
    (0, Kind::Source, [0; 4]),
    (0, Kind::Cogroup, [1, 2, 0, 0]),
];

/// One superstep that puts the second input into the first; node 3 is the iteration.
const SWAP: [Step; 4] = [
    (0, Kind::Source, [0; 4]),
    (0, Kind::Source, [0; 4]),
    (0, Kind::Replacing, [1, 2, 3, 4]),
    (3, Kind::Nothing, [3, 0, 0, 0]),
];

const ARITHMETIC: [Step; 2] = [
    (0, Kind::Source, [0; 4]),
    (0, Kind::Arithmetic, [1, 0, 0, 0]),
];

const ORDERS: [Step; 4] = [
    (0, Kind::Source, [0; 4]),
    (0, Kind::Source, [0; 4]),
    (0, Kind::Orders, [1, 2, 2, 5]),
    (0, Kind::Totals, [3, 0, 0, 0]),
];

/// One run: the plan, the number of its result, the inputs and the rows in ascending order.
type Case = (&'static [Step], u32, &'static str, &'static str);

// What the examples' authors say.
#[test]
fn examples_give_their_rows(rt: HostRuntime) {
    let cases: [Case; 20] = [
        (
            &COMPONENTS,
            6,
            "1,2 / 2,3 / 4,5",
            "1,1 / 2,1 / 3,1 / 4,4 / 5,4",
        ),
        (&SUM, 2, "9223372036854775807 / 1", "-9223372036854775808"),
        (
            &JOIN,
            3,
            "7,1 / 8,5 / 7,2 + 7,1 / 7,2 / 7,3 / 9,9",
            "1,1 / 1,2 / 1,3 / 2,1 / 2,2 / 2,3",
        ),
        (&BEST, 2, "1,5,d / 1,5,b / 1,5,c / 1,5,a", "1,5,a / 1,5,b"),
        (
            &WORDS,
            3,
            "a / a\0 / abcdefghijklmnopq / a / abcdefghijklmnopr",
            "1,2 / 2,1 / 17,1 / 17,1",
        ),
        (&LOOP, 2, "1", "2"),
        (&LOOP, 2, "200", "210"),
        (
            &OUTER,
            3,
            "1,x / 2,y + 2,7 / 3,8",
            "0,-,3,8 / 1,x,0,0 / 2,y,2,7",
        ),
        (&LEFT, 3, "1,x / 2,y + 2,7 / 3,8", "1,x,0,0 / 2,y,2,7"),
        (&RIGHT, 3, "1,x / 2,y + 2,7 / 3,8", "0,-,3,8 / 2,y,2,7"),
        (&UNION, 3, "1,x / 2,y + 2,y / 3,z", "1,x / 2,y / 2,y / 3,z"),
        (&TEXTS, 2, "b,bc / a, / b,d", "a / bbc / bd"),
        (
            &TEXTS,
            3,
            "abc,1 / aé,2 / €,3 / é,4 / x,5",
            ",3 / a,2 / ab,1 / x,5 / é,4",
        ),
        (
            &FLAGS,
            2,
            "true,1 / false,200 / true,5",
            "false,200,1 / true,6,2",
        ),
        (&FLAGS, 3, "true,1 / false,200 / true,5", "true,1 / true,5"),
        (
            &FLAGS,
            5,
            "true,1 / false,200 / true,5",
            "false / false / true",
        ),
        (
            &COGROUP,
            3,
            "1,10 / 1,20 / 2,5 + 2,1 / 3,4",
            "1,30,0,-1 / 2,5,1,1 / 3,0,1,4",
        ),
        (&SWAP, 3, "1,z + 1,a / 1,b", "1,b"),
        (
            &ARITHMETIC,
            2,
            "-9223372036854775808",
            "-9223372036854775808,0,-2",
        ),
        (
            &ORDERS,
            4,
            "1,Ann,DE / 2,Bob,FR / 3,Lee Cy,DE + 10,1,1250 / 11,3,400 / 12,2,999 / 13,1,50",
            "DE,1700,3 / FR,999,1",
        ),
    ];
    for (steps, last, inputs, want) in cases {
        let found = result(rt.alloc(), steps, last, inputs).expect(&rt, "no rows");
        assert_eq!(rt; found.as_str(), want, "{inputs}");
    }
}

/// How many entries are loaded, the workers, the segments and what is told.
type LoadCase = (u32, u32, u32, &'static str);

#[test]
fn loads_are_full_where_they_are_above(rt: HostRuntime) {
    let alloc = rt.alloc();
    let cases: [LoadCase; 6] = [
        (342, 1, 19, "3 0 0 8208 8192"),
        (341, 1, 19, "-"),
        (342, 1, 22, "-"),
        (513, 1, 22, "3 0 0 12312 12288"),
        (342, 1, 1, "3 0 0 8208 8192"),
        (684, 2, 44, "3 0 0 8208 8192"),
    ];
    for (count, workers, budget, want) in cases {
        let rows = counted(alloc, count).expect(&rt, "no rows");
        let found = first_full(alloc, LOADED, rows.as_str(), workers, budget).expect(
            &rt,
            "no answer",
        );
        assert_eq!(rt; found.as_str(), want, "{count}");
    }
}

/// The lengths of the entries' texts and of those that take their place, the workers, the segments and
/// what is told.
type SwapCase = (&'static str, u32, u32, &'static str);

#[test]
fn swaps_are_full_where_they_are_above(rt: HostRuntime) {
    let alloc = rt.alloc();
    let cases: [SwapCase; 3] = [
        (
            "1:1000 / 2:100 / 3:990 / 4:990 / 5:990 / 6:990 / 7:990 / 8:990 / 9:990 + 1:100 / 2:1000",
            1,
            19,
            "-",
        ),
        (
            "1:1000 / 2:100 / 3:990 / 4:990 / 5:990 / 6:990 / 7:990 / 8:990 / 9:990 + 2:1000",
            1,
            19,
            "3 1 0 9092 8192",
        ),
        ("1:9000 + 1:9", 4, 104, "3 0 2 9018 8192"),
    ];
    for (lengths, workers, budget, want) in cases {
        let rows = long_texts(alloc, lengths).expect(&rt, "no rows");
        let found = first_full(alloc, SWAPPED, rows.as_str(), workers, budget).expect(
            &rt,
            "no answer",
        );
        assert_eq!(rt; found.as_str(), want, "{lengths}");
    }
}

#[test]
fn no_iteration_is_never_full(rt: HostRuntime) {
    let found = first_full(rt.alloc(), FILTERED, "1,2 / 3,4", 1, 16).expect(&rt, "no answer");
    assert_eq!(rt; found.as_str(), "-");
}
