ghost use Rattle.std.specs.Prelude.{◌≡◌, None};
ghost use Rattle.fold_laws.specs.Parts.{kept_in, added_all};

use flow_types::agg::Agg;
use fold_laws::agg_fold::AggFold;
use fold_laws::count::CountFold;
use fold_laws::extremes::{MaxFold, MinFold};
use fold_laws::fold::Fold;
use fold_laws::part::Part;
use fold_laws::sum::SumFold;
use std::test::Fail;

/// What is kept of rows with these values.
fn part_of<F: Fold>(fold: &F, values: &[i64]) -> Part
    ensures { kept_in result ≡ added_all (F.agg fold.now) None values.now }
{
    let mut part = fold.zero();
    for value in values {
        part = fold.add(part, *value);
    }
    part
}

/// The value over three pieces of the rows, whose parts are merged from the left, and the last two first.
fn values_of<F: Fold>(fold: &F, pieces: [&[i64]; 3]) -> [i64; 2] {
    let [first, second, third] = pieces;
    let first = part_of(fold, first);
    let second = part_of(fold, second);
    let third = part_of(fold, third);
    let from_left = fold.merge(fold.merge(first, second), third);
    let last_first = fold.merge(first, fold.merge(third, second));
    [fold.finish(from_left), fold.finish(last_first)]
}

// Java's `Long.MAX_VALUE + 1` is `Long.MIN_VALUE`.
#[test]
fn sums_wrap(rt: HostRuntime) -> Result<(), Fail> {
    let cases: [(&[i64], i64); 5] = [
        (&[], 0),
        (&[5], 5),
        (&[i64::MAX, 1], i64::MIN),
        (&[i64::MIN, -1], i64::MAX),
        (&[i64::MAX, 1, i64::MIN, 7], 7),
    ];
    for (values, want) in cases {
        let have = SumFold.finish(part_of(&SumFold, values));
        assert!(rt; have == want, "{values:?}");
    }
    Ok(())
}

// The stated number is that of no rows alone, also where it would be the least or the greatest.
#[test]
fn extremes_of_no_rows_are_stated(rt: HostRuntime) -> Result<(), Fail> {
    let least = MinFold { empty: -9 };
    let greatest = MaxFold { empty: 9 };
    let cases: [(&[i64], i64, i64); 4] = [
        (&[], -9, 9),
        (&[4], 4, 4),
        (&[4, -2, 7], -2, 7),
        (&[i64::MAX, i64::MIN], i64::MIN, i64::MAX),
    ];
    for (values, low, high) in cases {
        assert!(rt; least.finish(part_of(&least, values)) == low, "{values:?}");
        assert!(rt;
            greatest.finish(part_of(&greatest, values)) == high,
            "{values:?}"
        );
    }
    Ok(())
}

#[test]
fn counts_add(rt: HostRuntime) -> Result<(), Fail> {
    let two = part_of(&CountFold, &[100, -3]);
    let three = part_of(&CountFold, &[0, 0, 8]);
    assert!(rt; CountFold.finish(CountFold.zero()) == 0);
    assert!(rt; CountFold.finish(two) == 2);
    assert!(rt; CountFold.finish(CountFold.merge(two, three)) == 5);
    Ok(())
}

#[test]
fn order_of_merging_does_not_count(rt: HostRuntime) -> Result<(), Fail> {
    let cases: [(Agg, i64, Option<u16>); 4] = [
        (Agg::Sum(3), 9, Some(3)),
        (Agg::Min(4, -100), -2, Some(4)),
        (Agg::Max(65_535, 100), 6, Some(65_535)),
        (Agg::Count, 4, None),
    ];
    for (agg, want, field) in cases {
        let fold = AggFold::of(&agg);
        assert!(rt; fold.field() == field, "{agg:?}");
        assert!(rt;
            values_of(&fold, [&[6, -2], &[], &[1, 4]]) == [want, want],
            "{agg:?}"
        );
        assert!(rt;
            values_of(&fold, [&[], &[1], &[4, 6, -2]]) == [want, want],
            "{agg:?}"
        );
    }
    Ok(())
}

// Where there is no row, the number of a part has no meaning.
#[test]
fn numbers_of_no_rows_do_not_count(rt: HostRuntime) -> Result<(), Fail> {
    let stray = Part { any: false, n: 77 };
    let aggs = [Agg::Sum(0), Agg::Min(0, 5), Agg::Max(0, 5), Agg::Count];
    for agg in aggs {
        let fold = AggFold::of(&agg);
        let some = fold.add(fold.zero(), 3);
        assert!(rt; fold.finish(stray) == fold.finish(fold.zero()), "{agg:?}");
        assert!(rt; fold.add(stray, 3) == some, "{agg:?}");
        assert!(rt; fold.merge(stray, some) == some, "{agg:?}");
        assert!(rt; fold.merge(some, stray) == some, "{agg:?}");
    }
    Ok(())
}
