//! A table of questions on which the lazy listing is compared with the plain slow one.
ghost use Rattle.std.specs.Prelude.{◌≡◌, Bool, Option, None, false, OnOk};
ghost use Rattle.mau_terms.specs.View.{tree_of};
ghost use Rattle.mau_store.specs.Node.{Extends};
ghost use Rattle.mau_sorts.specs.Table.{AreOver, KeepsEntries};
ghost use Rattle.mau_listing.specs.Asked.{Asked, asks, CanGoOn};
ghost use Rattle.mau_trial.specs.Tried.{asked_in};
ghost use Rattle.mau_listing.specs.declared.solution.Solution.{Solution as SolutionOf};

use crate::asking::{Question, listing_behind, next_behind, next_of, number, question_of, settled};
use crate::notation::{over_all, term};
use crate::signature::{F, U, example};
use mau_listing::Solution;
use mau_match::Listing;
use mau_plain::PlainListing;
use mau_signature::Signature;
use mau_sorts::SortTable;
use mau_store::Store;
use mau_terms::{Bare, NoMemory, TermId};
use std::alloc::Global;
use std::process::Abort;
use std::test::Fail;

/// More solutions than a question of the table has.
const MOST: usize = 100;

/// The term u(n, c).
fn beside_c(alloc: Global, n: u128) -> Result<Bare, Fail> {
    over_all(
        alloc,
        U,
        Vec::from_array(alloc, [Bare::Num(n), term(alloc, "c")?])?,
    )
}

/// The terms n, c, u(n, c) and f(c, u(n, c)). No question has one with a numeral above 9.
fn others(alloc: Global, n: u128) -> Result<Vec<Bare>, Fail> {
    let mut terms = Vec::new(alloc);
    terms.push(Bare::Num(n))?;
    terms.push(term(alloc, "c")?)?;
    terms.push(beside_c(alloc, n)?)?;
    let both = Vec::from_array(alloc, [term(alloc, "c")?, beside_c(alloc, n)?])?;
    terms.push(over_all(alloc, F, both)?)?;
    Ok(terms)
}

/// Puts a term into the store and its sorts into the table.
fn enter(
    rt: &impl Abort,
    sig: &Signature,
    store: &mut Store,
    sorts: &mut SortTable,
    term: &Bare,
) -> Result<(), Fail>
    requires { AreOver sig.now.hierarchy sorts.old }
    ensures over { OnOk result (AreOver sig.now.hierarchy sorts.new) }
    ensures extends { OnOk result (Extends store.old store.new) }
    ensures kept { OnOk result (KeepsEntries sorts.old sorts.new) }
{
    let id = number(rt, sig, store, term)?;
    if !sorts.is_settled(id) {
        assert!(rt; sorts.is_ready(sig, store, id));
        sorts.settle_declared(sig, store, id, &[])?;
    }
    Ok(())
}

/// Enters terms that no question has.
pub fn grow(
    rt: &impl Abort,
    sig: &Signature,
    store: &mut Store,
    sorts: &mut SortTable,
    n: u128,
) -> Result<(), Fail>
    requires { AreOver sig.now.hierarchy sorts.old }
    ensures { OnOk result ((c : Bool) (a : Asked) (o : Option SolutionOf) → CanGoOn c sig.now store.old sorts.old a o → CanGoOn c sig.now store.new sorts.new a o) }
{
    for term in &others(store.allocator(), n)? {
        enter(rt, sig, store, sorts, term)?;
    }
    Ok(())
}

/// Two listings give the same solution, or none.
fn are_same(found: &Option<Solution>, wanted: &Option<Solution>) -> bool {
    match (found, wanted) {
        (Some(one), Some(other)) => {
            let is_plain = one.left.items().is_empty() && one.right.items().is_empty();
            is_plain && one.values.items() == other.values.items()
        }
        (None, None) => true,
        _ => false,
    }
}

/// Whether the listing that is resumed from the last solution gives the one that is wanted.
fn is_resumed(
    sig: &Signature,
    store: &mut Store,
    sorts: &mut SortTable,
    question: &Question,
    id: TermId,
    last: &Option<Solution>,
    wanted: &Option<Solution>,
) -> Result<bool, NoMemory>
    requires { CanGoOn false sig.now store.old sorts.old (asks (tree_of question.now.pattern) question.now.bound.items id) last.now }
    ensures { OnOk result ((a : Asked) (o : Option SolutionOf) → CanGoOn false sig.now store.old sorts.old a o → CanGoOn false sig.now store.new sorts.new a o) }
{
    let found = next_behind::<Listing>(sig, store, sorts, question, id, last)?;
    Ok(are_same(&found, wanted))
}

/// Whether the listing that goes on gives the one that is wanted.
fn is_next(
    sig: &Signature,
    store: &mut Store,
    sorts: &mut SortTable,
    listing: &mut Listing,
    wanted: &Option<Solution>,
) -> Result<bool, NoMemory>
    requires { CanGoOn false sig.now store.old sorts.old (asked_in listing.old.trial) listing.old.trial.last }
    ensures asked { asked_in listing.new.trial ≡ asked_in listing.old.trial }
    ensures ready { OnOk result (CanGoOn false sig.now store.new sorts.new (asked_in listing.old.trial) listing.new.trial.last) }
    ensures kept { OnOk result ((a : Asked) (o : Option SolutionOf) → CanGoOn false sig.now store.old sorts.old a o → CanGoOn false sig.now store.new sorts.new a o) }
{
    let found = next_of(sig, store, sorts, listing)?;
    Ok(are_same(&found, wanted))
}

/// Whether a listing, one that is resumed from each solution, and one that is resumed after the store and the table have grown, give
/// the solutions that the plain one gives.
fn agrees(
    rt: &impl Abort,
    sig: &Signature,
    store: &mut Store,
    sorts: &mut SortTable,
    question: &Question,
    id: TermId,
    listing: &mut Listing,
) -> Result<bool, Fail>
    requires ready { CanGoOn false sig.now store.old sorts.old (asks (tree_of question.now.pattern) question.now.bound.items id) None }
    requires asked { asked_in listing.old.trial ≡ asks (tree_of question.now.pattern) question.now.bound.items id }
    requires given { listing.old.trial.last ≡ None }
{
    let mut last = None;
    for count in 0..MOST {
        let next = next_behind::<PlainListing>(sig, store, sorts, question, id, &last)?;
        let resumed = is_resumed(sig, store, sorts, question, id, &last, &next)?;
        let went_on = is_next(sig, store, sorts, listing, &next)?;
        grow(rt, sig, store, sorts, 10 + count as u128)?;
        let grown = is_resumed(sig, store, sorts, question, id, &last, &next)?;
        if !(resumed && went_on && grown) {
            return Ok(false);
        }
        if next.is_none() {
            return Ok(true);
        }
        last = next;
    }
    Err("there are too many solutions".into())
}

/// The listings agree on a question.
fn agree(rt: &impl Abort, sig: &Signature, store: &mut Store, text: &str) -> Result<(), Fail> {
    let question = question_of(rt, sig, store, text)?;
    let (id, mut sorts) = settled(rt, sig, store, &question)?;
    let mut listing = listing_behind(store.allocator(), sig, &question, id, &None)?;
    assert!(rt;
        agrees(rt, sig, store, &mut sorts, &question, id, &mut listing)?,
        "{text}"
    );
    Ok(())
}

/// The listings agree on each question of a table: a pattern, a subject, and a value beforehand, if there is one.
fn agree_on(rt: &impl Abort, alloc: Global, questions: &str) -> Result<(), Fail> {
    let sig = example(rt, alloc)?;
    for text in questions.lines() {
        agree(rt, &sig, &mut Store::new(alloc), text)?;
    }
    Ok(())
}

const FREE: &str = "xyf abf
xxf aaf
xxf abf
xgyf agbf
xgyf abf
xayff babff
abf abf
abf baf
pqf abuaf
xs 3
xss 3
xss 1
xs 0
xs as
ps as
ps es
xsxf 32f
xsyf 20f
0s 1";

#[test]
fn agrees_without_axioms_and_over_the_successor(rt: HostRuntime) -> Result<(), Fail> {
    agree_on(&rt, rt.alloc(), FREE)
}

const NOT_ASSOCIATIVE: &str = "xyh abh
xxh aah
xbh abh
xyhzh abhch
xgyh abhgch
xgyh agbgh
xgyhzh agbhch
pyh aeh
xyk abk
xyk a
xxk e
xykzk abk
xgyk ag
pyk abk
xyi abi
xyi a
xxi aai
xyizi abi
xgyi ag
pqi abi
xykzi abk
xyizk abk
xymzk nak
xykxh aah
xsyk 2
xsyi 21i";

#[test]
fn agrees_over_operators_that_are_not_associative(rt: HostRuntime) -> Result<(), Fail> {
    agree_on(&rt, rt.alloc(), NOT_ASSOCIATIVE)
}

const LISTS: &str = "xyv abcvv
xyzvv abavv
xxv abvabvv
xyxvv abavv
xbyvv abcvv
xbyvv abv
pyv abavv
xpv abavv
xyfzv abfcv
xgyv agbv
xyl abcll
xxl e
xxl abablll
xyzll abl
xbyll abl
xyl a
pyl abl
xyizl abl
xyizl e
xyxil abl
xykzl abl
xymzl abl
xylzk abl
xyvzl abvcl
xylzv abv";

#[test]
fn agrees_over_lists_in_order(rt: HostRuntime) -> Result<(), Fail> {
    agree_on(&rt, rt.alloc(), LISTS)
}

const MULTISETS: &str = "xyw abcww
xyzww aabww
xxw aaw
xxyww aabww
xaw abcww
pyw abcww
pqw abw
xykzw abw
xyizw aabww
xgyw agbw
xyu abcuu
xyu aauaauu
xyzuu aabuu
xxu aau
xxyuu aabuu
xayuu abu
xayuu a
pqu abu
pqu a
pyu e
xgygu agbgu";

#[test]
fn agrees_over_multisets(rt: HostRuntime) -> Result<(), Fail> {
    agree_on(&rt, rt.alloc(), MULTISETS)
}

const ALIENS: &str = "xyizu abu
xyizu e
xykzu aau
xykzu abkbu
xxkyu aau
xymzu abu
xympu abu
xylzu abu
xylzu ablbu
xyuxl aau
xyuzl abu
xyupk abu
xywzu abw
xywzu abwcu
xyuzw abuaw
xykgzu agbu
xyuzh abuah
xyugzu abugcu";

#[test]
fn agrees_over_aliens_that_collapse(rt: HostRuntime) -> Result<(), Fail> {
    agree_on(&rt, rt.alloc(), ALIENS)
}

const BEFOREHAND: &str = "xyf abf xa
xyf abf xb
xs 3 x2
xs 3 x1
xyh abh xb
xyk abk xe
xyi abi yb
xyv abavv xabv
xyv abavv ya
xyl abl xe
xyizl abl zb
xyw abcww xb
xyu abu xa
xyu abu yabu
xyu abu za
xxyuu aabuu xa
xykzu abu xe
pyu abu pabu";

#[test]
fn agrees_with_values_beforehand(rt: HostRuntime) -> Result<(), Fail> {
    agree_on(&rt, rt.alloc(), BEFOREHAND)
}
