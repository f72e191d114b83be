//! Small orders by hand, and one of the greatest size.
use mau_poset::{MAX_SORTS, Poset, PosetFault};
use std::alloc::Global;
use std::process::Abort;
use std::test::Fail;

fn build(
    rt: &impl Abort,
    alloc: Global,
    n: u32,
    pairs: &[(u32, u32)],
) -> Result<Poset, PosetFault> {
    assert!(rt; n <= MAX_SORTS);
    assert!(rt; pairs.iter().all(|p| p.0 < n && p.1 < n));
    Poset::build(alloc, n, pairs)
}

/// The sorts and kinds at or above each are those that its row has an `x` for, and its kind is the last of them.
fn shows(rt: &impl Abort, poset: &Poset, rows: &[&str]) {
    let count = poset.sorts() + poset.kinds();
    assert_eq!(rt; count as usize, rows.len());
    for (a, row) in (0..count).zip(rows) {
        for (b, letter) in (0..count).zip(row.bytes()) {
            assert!(rt; a < count && b < count);
            assert_eq!(rt; poset.leq(a, b), letter == b'x', "{a} {b}");
        }
        assert!(rt; a < count);
        let kind = poset.kind_of(a) as usize;
        assert_eq!(rt;
            row.bytes().rposition(|letter| letter == b'x'),
            Some(kind),
            "{a}"
        );
    }
}

/// Of each list the least is as said.
fn have_least(rt: &impl Abort, poset: &Poset, rows: &[(&[u32], Option<u32>)]) {
    let count = poset.sorts() + poset.kinds();
    for (sorts, least) in rows {
        assert!(rt; sorts.iter().all(|s| *s < count));
        assert_eq!(rt; poset.least_of(sorts), *least, "{sorts:?}");
    }
}

/// An order of so many sorts by pairs, with so many kinds: its rows, and what is the least of some lists.
fn is_order(
    rt: &impl Abort,
    alloc: Global,
    sorts: u32,
    pairs: &[(u32, u32)],
    kinds: u32,
    rows: &[&str],
    least: &[(&[u32], Option<u32>)],
) -> Result<(), Fail> {
    let poset = build(rt, alloc, sorts, pairs)?;
    assert_eq!(rt; (poset.sorts(), poset.kinds()), (sorts, kinds));
    shows(rt, &poset, rows);
    have_least(rt, &poset, least);
    Ok(())
}

#[test]
fn a_diamond_has_one_kind(rt: HostRuntime) -> Result<(), Fail> {
    is_order(
        &rt,
        rt.alloc(),
        4,
        &[(0, 1), (2, 3), (1, 3), (0, 2)],
        1,
        &["xxxxx", ".x.xx", "..xxx", "...xx", "....x"],
        &[
            (&[0, 1, 2], Some(0)),
            (&[1, 2, 3], None),
            (&[3, 1, 4], Some(1)),
            (&[4, 4, 4], Some(4)),
        ],
    )
}

#[test]
fn kinds_are_numbered_by_their_first_sort(rt: HostRuntime) -> Result<(), Fail> {
    is_order(
        &rt,
        rt.alloc(),
        5,
        &[(3, 1), (0, 4), (2, 4)],
        2,
        &[
            "x...xx.", ".x....x", "..x.xx.", ".x.x..x", "....xx.", ".....x.", "......x",
        ],
        &[(&[5, 6], None)],
    )
}

#[test]
fn an_order_may_have_no_sorts(rt: HostRuntime) -> Result<(), Fail> {
    is_order(&rt, rt.alloc(), 0, &[], 0, &[], &[(&[], None)])
}

#[test]
fn the_least_sort_on_a_cycle_is_named(rt: HostRuntime) {
    for (pairs, least) in [
        ([(2, 5), (5, 4), (4, 2), (0, 2)], 2),
        ([(5, 4), (4, 3), (3, 5), (1, 1)], 1),
        ([(0, 1), (1, 2), (5, 5), (4, 5)], 5),
    ] {
        let fault = build(&rt, rt.alloc(), 6, &pairs).err();
        assert_eq!(rt; fault, Some(PosetFault::Cycle(least, least)), "{pairs:?}");
    }
}

#[test]
fn the_longest_chain_has_a_least_sort(rt: HostRuntime) -> Result<(), Fail> {
    let last = MAX_SORTS - 1;
    let mut pairs = Vec::new(rt.alloc());
    for a in 0..last {
        pairs.push((a, a + 1))?;
    }
    let poset = build(&rt, rt.alloc(), MAX_SORTS, &pairs)?;
    let rows: [(&[u32], Option<u32>); 2] = [
        (&[last, 77, MAX_SORTS], Some(77)),
        (&[last, MAX_SORTS], Some(last)),
    ];
    have_least(&rt, &poset, &rows);
    Ok(())
}
