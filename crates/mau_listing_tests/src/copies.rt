//! Copies of terms, names, numbers and substitutions.
use mau_terms::{Args, Bare, Duplicate, NoMemory, OpId, Seq, Subst, TermId, Text, VarId};
use std::alloc::Global;
use std::process::Abort;
use std::test::Fail;

/// An operator over two terms.
fn pair(alloc: Global, op: u32, first: Bare, second: Bare) -> Result<Bare, NoMemory> {
    let items = Vec::from_array(alloc, [first, second])?;
    Ok(Bare::App(OpId(op), Args::new(items)))
}

/// A copy is the same term, and so is one through the trait. The same of arguments.
fn is_copied(rt: &impl Abort, alloc: Global, term: &Bare) -> Result<(), Fail> {
    let copy = term.copy(alloc)?;
    assert!(rt; copy.same(term));
    let again = Duplicate::copy(&copy, alloc)?;
    assert!(rt; again.same(term));
    if let Bare::App(_, args) = term {
        let copy = args.copy(alloc)?;
        assert!(rt; copy.same(args));
    }
    Ok(())
}

#[test]
fn a_copy_is_the_same_term(rt: HostRuntime) -> Result<(), Fail> {
    let x = Bare::Var(VarId { index: 0, sort: 1 });
    let inner = pair(rt.alloc(), 8, x, Bare::Num(6))?;
    let whole = pair(rt.alloc(), 7, Bare::Num(5), inner)?;
    is_copied(&rt, rt.alloc(), &whole)?;
    is_copied(&rt, rt.alloc(), &Bare::Num(5))
}

#[test]
fn a_name_is_copied(rt: HostRuntime) -> Result<(), Fail> {
    let name = Text::new(rt.alloc(), "_+_")?;
    assert_eq!(rt; name.copy(rt.alloc())?.as_str(), "_+_");
    assert_eq!(rt; Duplicate::copy(&name, rt.alloc())?.as_str(), "_+_");
    Ok(())
}

#[test]
fn numbers_are_copied(rt: HostRuntime) -> Result<(), Fail> {
    let numbers = (TermId(4), (OpId(3), 2u32));
    let copy = Duplicate::copy(&numbers, rt.alloc())?;
    assert_eq!(rt; copy, numbers);
    Ok(())
}

#[test]
fn a_substitution_is_copied(rt: HostRuntime) -> Result<(), Fail> {
    let x = VarId { index: 3, sort: 1 };
    let subst: Subst = Seq::new(Vec::from_array(rt.alloc(), [(x, Bare::Num(5))])?);
    let copy = Duplicate::copy(&subst, rt.alloc())?;
    assert_eq!(rt; copy.items().len(), 1);
    assert_eq!(rt; copy.items()[0].0, x);
    assert!(rt; copy.items()[0].1.same(&Bare::Num(5)));
    Ok(())
}
