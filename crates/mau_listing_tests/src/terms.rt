//! Variables and names of an item, and terms that are read and compared.
use crate::notation::term;
use mau_terms::{Bare, Text, VarId, Vars};
use std::alloc::Global;
use std::process::Abort;
use std::test::Fail;

/// A name, a sort, and the place of that pair where they are added in this order.
const PAIRS: [(&str, u32, u32); 5] = [
    ("X", 1, 0),
    ("Y", 1, 1),
    ("X", 2, 2),
    ("X", 1, 0),
    ("Y", 1, 1),
];

/// A place, a sort, and the name and sort that are there.
const GIVEN: [(u32, u32, Option<(&str, u32)>); 5] = [
    (0, 1, Some(("X", 1))),
    (1, 1, Some(("Y", 1))),
    (2, 2, Some(("X", 2))),
    (2, 1, None),
    (3, 1, None),
];

#[test]
fn a_name_and_its_sort_have_one_place(rt: HostRuntime) -> Result<(), Fail> {
    let mut vars = Vars::new(rt.alloc());
    assert!(rt; vars.is_empty());
    for (name, sort, index) in PAIRS {
        assert!(rt; vars.len() < 9);
        assert_eq!(rt;
            vars.add(name, sort)?,
            VarId { index, sort },
            "{name} {sort}"
        );
    }
    assert_eq!(rt; vars.len(), 3);
    for (index, sort, given) in GIVEN {
        assert_eq!(rt; vars.get(VarId { index, sort }), given, "{index} {sort}");
    }
    for (index, sort) in [(0, Some(1)), (2, Some(2)), (3, None)] {
        let variable = vars.variable(index);
        assert_eq!(rt; variable.map(|variable| variable.sort), sort, "{index}");
    }
    Ok(())
}

/// Whether two terms are one tree.
fn are_same(
    rt: &impl Abort,
    alloc: Global,
    first: &str,
    second: &str,
    wanted: bool,
) -> Result<(), Fail> {
    let one = term(alloc, first)?;
    let other = term(alloc, second)?;
    assert_eq!(rt; one.same(&other), wanted, "{first} {second}");
    Ok(())
}

#[test]
fn terms_are_the_same_where_their_trees_are(rt: HostRuntime) -> Result<(), Fail> {
    for (first, second, wanted) in [
        ("a5fxg6fu", "a5fxg6fu", true),
        ("5", "6", false),
        ("5", "x", false),
        ("x", "y", false),
        ("a", "b", false),
        ("abu", "bau", false),
        ("abu", "abw", false),
        ("ag", "a", false),
    ] {
        are_same(&rt, rt.alloc(), first, second, wanted)?;
    }
    Ok(())
}

#[test]
fn arguments_are_read_in_order(rt: HostRuntime) -> Result<(), Fail> {
    match term(rt.alloc(), "56f")? {
        Bare::App(_, args) => {
            let (first, second) = (Bare::Num(5), Bare::Num(6));
            assert_eq!(rt; args.items().len(), 2);
            assert!(rt; args.items()[0].same(&first) && args.items()[1].same(&second));
        }
        _ => panic!(rt; "no application"),
    }
    Ok(())
}

#[test]
fn a_name_is_its_bytes(rt: HostRuntime) -> Result<(), Fail> {
    let name = Text::new(rt.alloc(), "_→_")?;
    assert_eq!(rt; name.as_str(), "_→_");
    Ok(())
}
