//! Signatures that are declared by a text, checked as it is read. Each line declares an operator: the words of its form, of which `_` is a
//! hole, a colon, the sorts of its arguments, `>`, its sort, and its attributes, as in `_ + _ : 0 0 > 0 assoc prec:33 gather:Ee id:zero`.
//! A strategy and the frozen arguments are digits, `strat:120`, and the identity `id:7` is a numeral.
ghost use Rattle.std.specs.Prelude.{◌≡◌, true, false, All};
ghost use Rattle.std.specs.List.{list_any};
ghost use Rattle.mau_poset.specs.Order.{kind_of};
ghost use Rattle.mau_signature.specs.Faults.{HasSorts, IsSort, IsSuccessorIn, is_successor};

use mau_poset::{MAX_SORTS, Poset};
use mau_signature::{
    Attrs, Decl, Form, Gather, IdSpec, MAX_DECLARATIONS, Piece, SigFault, Signature,
};
use mau_terms::{NoMemory, Seq, Text};
use std::alloc::Global;
use std::process::Abort;
use std::test::Fail;

/// The form of these words, which are parted by spaces, and of which `_` is a hole.
pub fn form(alloc: Global, words: &str) -> Result<Form, NoMemory> {
    let mut pieces = Vec::new(alloc);
    for word in words.split_whitespace() {
        if word == "_" {
            pieces.push(Piece::Hole)?;
        } else {
            pieces.push(Piece::Word(Text::new(alloc, word)?))?;
        }
    }
    Ok(Form::new(pieces))
}

/// The number that these digits are, where it is small.
fn number(digits: &str) -> u32 {
    let mut number: u32 = 0;
    for digit in digits.bytes() {
        number = number
            .wrapping_mul(10)
            .wrapping_add(digit.wrapping_sub(b'0') as u32);
    }
    number
}

/// The numbers that are parted by spaces.
fn numbers(alloc: Global, text: &str) -> Result<Vec<u32>, NoMemory> {
    let mut numbers = Vec::new(alloc);
    for word in text.split_whitespace() {
        numbers.push(number(word))?;
    }
    Ok(numbers)
}

/// The number of each digit.
fn digits(alloc: Global, text: &str) -> Result<Option<Seq<u8>>, NoMemory> {
    let mut numbers = Vec::new(alloc);
    for digit in text.bytes() {
        numbers.push(digit.wrapping_sub(b'0'))?;
    }
    Ok(Some(Seq::new(numbers)))
}

/// What each hole gathers, by its letter.
fn gathers(alloc: Global, text: &str) -> Result<Option<Seq<Gather>>, NoMemory> {
    let mut gathers = Vec::new(alloc);
    for letter in text.bytes() {
        gathers.push(match letter {
            b'e' => Gather::Below,
            b'E' => Gather::Upto,
            _ => Gather::Any,
        })?;
    }
    Ok(Some(Seq::new(gathers)))
}

/// The identity that a numeral or a word is.
fn identity(alloc: Global, word: &str) -> Result<Option<IdSpec>, NoMemory> {
    match word.bytes().next() {
        Some(b'0'..=b'9') => Ok(Some(IdSpec::Num(number(word) as u128))),
        _ => Ok(Some(IdSpec::Const(form(alloc, word)?))),
    }
}

/// Gives an attribute its value.
fn attribute(alloc: Global, attrs: &mut Attrs, word: &str) -> Result<(), NoMemory> {
    let (name, value) = word.split_once(':').unwrap_or((word, ""));
    match name {
        "assoc" => attrs.assoc = true,
        "comm" => attrs.comm = true,
        "prec" => attrs.prec = Some((number(value) & 255) as u8),
        "id" => attrs.id = identity(alloc, value)?,
        "strat" => attrs.strat = digits(alloc, value)?,
        "frozen" => attrs.frozen = digits(alloc, value)?,
        "gather" => attrs.gather = gathers(alloc, value)?,
        _ => attrs.builtin = Some(Text::new(alloc, name)?),
    }
    Ok(())
}

/// The declaration of a line.
fn declaration(alloc: Global, line: &str) -> Result<Decl, Fail> {
    let (words, rest) = line.rsplit_once(" : ").ok_or("no colon")?;
    let (args, rest) = rest.split_once('>').ok_or("no arrow")?;
    let mut rest = rest.split_whitespace();
    let result = number(rest.next().ok_or("no sort")?);
    let mut attrs = Attrs::none();
    for word in rest {
        attribute(alloc, &mut attrs, word)?;
    }
    Ok(Decl {
        form: form(alloc, words)?,
        args: Seq::new(numbers(alloc, args)?),
        result,
        attrs,
    })
}

/// The declarations of a text, one a line.
fn declarations(alloc: Global, text: &str) -> Result<Vec<Decl>, Fail> {
    let mut decls = Vec::new(alloc);
    for line in text.lines() {
        decls.push(declaration(alloc, line)?)?;
    }
    Ok(decls)
}

/// The poset of so many sorts, where each pair is a sort and one above it.
fn poset_of(
    rt: &impl Abort,
    alloc: Global,
    sorts: u32,
    pairs: &[(u32, u32)],
) -> Result<Poset, Fail> {
    assert!(rt; sorts <= MAX_SORTS);
    assert!(rt; pairs.iter().all(|p| p.0 < sorts && p.1 < sorts));
    Ok(Poset::build(alloc, sorts, pairs)?)
}

fn is_successor(decl: &Decl) -> bool
    ensures { result ≡ is_successor decl.now.attrs }
{
    match &decl.attrs.builtin {
        Some(text) => text.as_str() == "succ",
        None => false,
    }
}

/// The declaration is over the sorts of the poset.
pub fn assert_sorts(rt: &impl Abort, poset: &Poset, decl: &Decl)
    ensures { HasSorts poset.now decl.now }
{
    let count = poset.sorts() + poset.kinds();
    assert!(rt; decl.result < count);
    assert!(rt; decl.args.items().iter().all(|a| *a < count));
}

/// The declaration is over the sorts of the poset, and the successor is in the kind of a sort.
fn assert_one(rt: &impl Abort, poset: &Poset, sort: u32, decl: &Decl)
    requires { IsSort poset.now sort }
    ensures sorts { HasSorts poset.now decl.now }
    ensures successor { IsSuccessorIn poset.now (kind_of poset.now sort) decl.now }
{
    assert_sorts(rt, poset, decl);
    if is_successor(decl) {
        let kind = poset.kind_of(sort);
        assert!(rt; decl.args.items().len() == 1);
        assert!(rt; poset.kind_of(decl.args.items()[0]) == kind);
        assert!(rt; poset.kind_of(decl.result) == kind);
    }
}

/// The same of all declarations, and the successor is declared.
fn assert_all(rt: &impl Abort, poset: &Poset, sort: u32, decls: &[Decl])
    requires { IsSort poset.now sort }
    ensures sorts { All (HasSorts poset.now) decls.now }
    ensures successors { All (IsSuccessorIn poset.now (kind_of poset.now sort)) decls.now }
    ensures declared { list_any (λ d. is_successor d.attrs) decls.now ≡ true }
{
    for decl in decls {
        assert_one(rt, poset, sort, decl);
    }
    assert!(rt; decls.iter().any(|decl| is_successor(decl)));
}

/// All declarations are over the sorts of the poset, and none is the successor.
fn assert_plain(rt: &impl Abort, poset: &Poset, decls: &[Decl])
    ensures sorts { All (HasSorts poset.now) decls.now }
    ensures plain { All (λ d. is_successor d.attrs ≡ false) decls.now }
{
    for decl in decls {
        assert_sorts(rt, poset, decl);
    }
    assert!(rt; decls.iter().all(|decl| !is_successor(decl)));
}

/// What the declarations of a text make, or their fault, where each pair is a sort and one above it. There are numerals in two sorts
/// exactly where the successor is declared.
pub fn declared(
    rt: &impl Abort,
    alloc: Global,
    sorts: u32,
    pairs: &[(u32, u32)],
    numerals: Option<(u32, u32)>,
    text: &str,
) -> Result<Result<Signature, SigFault>, Fail> {
    let poset = poset_of(rt, alloc, sorts, pairs)?;
    let decls = declarations(alloc, text)?;
    assert!(rt; decls.len() <= MAX_DECLARATIONS);
    match numerals {
        Some((zero, other)) => {
            let count = poset.sorts() + poset.kinds();
            assert!(rt; zero < count && other < count);
            assert!(rt; poset.kind_of(zero) == poset.kind_of(other));
            assert_all(rt, &poset, zero, &decls);
        }
        None => assert_plain(rt, &poset, &decls),
    }
    Ok(Signature::build(alloc, poset, decls, numerals))
}

/// The signature that the declarations of a text make.
pub fn signature(
    rt: &impl Abort,
    alloc: Global,
    sorts: u32,
    pairs: &[(u32, u32)],
    numerals: Option<(u32, u32)>,
    text: &str,
) -> Result<Signature, Fail> {
    let made = declared(rt, alloc, sorts, pairs, numerals, text)?;
    Ok(made?)
}
