//! Variables as they are written.
ghost use Rattle.std.specs.Prelude.{◌≡◌, ◌<◌, ◌&&◌, Some, None, length, bytes_eq, codes, is_some, IfSome, IfNone};
ghost use Rattle.std.specs.Option.{option_map};
ghost use Rattle.mau_poset.specs.Order.{kind_of};
ghost use Rattle.mau_signature.specs.Faults.{IsSort};
ghost use Rattle.mau_logic.specs.Lines.{cut, in_brackets, sort_named, sort_or_kind, pair_of, is_hole};

use mau_signature::Signature;
use mau_terms::Text;

/// A variable, or a hole: its name, and the number of its sort or its kind.
#[derive(Clone, Copy, Debug)]
pub struct Written<'a> {
    pub name: &'a str,
    pub sort: u32,
    pub hole: bool,
}

/// What stands before the last colon of a text, and behind it.
fn cut(text: &str) -> Option<(&str, &str)>
    ensures some { IfSome result (λ p. cut text.now ≡ Some (p.0.now, p.1.now)) }
    ensures none { IfNone result (cut text.now ≡ None) }
{
    match text.rsplit_once(":") {
        Some((front, back)) => Some((front, back)),
        None => None,
    }
}

/// The text between brackets, if it is in brackets.
fn in_brackets(text: &[u8]) -> Option<&[u8]>
    ensures some { IfSome result (λ inner. in_brackets text.now ≡ Some inner.now) }
    ensures none { IfNone result (in_brackets text.now ≡ None) }
{
    let (first, rest) = match text.split_first() {
        Some((first, rest)) => (first, rest),
        None => return None,
    };
    if *first != b'[' {
        return None;
    }
    let (last, inner) = match rest.split_last() {
        Some((last, inner)) => (last, inner),
        None => return None,
    };
    if *last != b']' {
        return None;
    }
    Some(inner)
}

/// Whether a text is in brackets.
fn has_brackets(text: &[u8]) -> bool
    ensures { result ≡ is_some (in_brackets text.now) }
{
    match in_brackets(text) {
        Some(_) => true,
        None => false,
    }
}

/// Whether a sort has a name.
fn is_called(sort: &Text, name: &[u8]) -> bool
    ensures { result ≡ bytes_eq sort.now name.now }
{
    sort.as_str().as_bytes() == name
}

/// The number of a sort by its name.
fn sort_named(sorts: &[Text], name: &[u8]) -> Option<usize>
    ensures some { IfSome result (λ i. sort_named sorts.now name.now ≡ Some i) }
    ensures within { IfSome result (λ i. i < length sorts.now) }
    ensures none { IfNone result (sort_named sorts.now name.now ≡ None) }
{
    for i in 0..sorts.len() {
        if is_called(&sorts[i], name) {
            return Some(i);
        }
    }
    None
}

/// The number of a sort by its name.
fn plain_sort(sig: &Signature, sorts: &[Text], name: &[u8]) -> Option<u32>
    requires named { length sorts.now ≡ sig.now.hierarchy.sorts }
    ensures some { IfSome result (λ r. sort_named sorts.now name.now ≡ Some r) }
    ensures sort { IfSome result (λ r. r < sig.now.hierarchy.sorts) }
    ensures none { IfNone result (sort_named sorts.now name.now ≡ None) }
{
    let _ = sig.poset().sorts();
    match sort_named(sorts, name) {
        Some(sort) => Some(sort as u32),
        None => None,
    }
}

/// The number of the kind of a sort by its name.
fn kind_named(sig: &Signature, sorts: &[Text], name: &[u8]) -> Option<u32>
    requires named { length sorts.now ≡ sig.now.hierarchy.sorts }
    ensures some { IfSome result (λ r. option_map (kind_of sig.now.hierarchy) (sort_named sorts.now name.now) ≡ Some r) }
    ensures sort { IfSome result (IsSort sig.now.hierarchy) }
    ensures none { IfNone result (sort_named sorts.now name.now ≡ None) }
{
    match plain_sort(sig, sorts, name) {
        Some(sort) => Some(sig.poset().kind_of(sort)),
        None => None,
    }
}

/// The number of a sort by its name, or of the kind of the sort in brackets.
fn sort_or_kind(sig: &Signature, sorts: &[Text], text: &[u8]) -> Option<u32>
    requires named { length sorts.now ≡ sig.now.hierarchy.sorts }
    ensures some { IfSome result (λ r. sort_or_kind sig.now sorts.now text.now ≡ Some r) }
    ensures sort { IfSome result (IsSort sig.now.hierarchy) }
    ensures none { IfNone result (sort_or_kind sig.now sorts.now text.now ≡ None) }
{
    match in_brackets(text) {
        Some(inner) => kind_named(sig, sorts, inner),
        None => plain_sort(sig, sorts, text),
    }
}

/// Whether a name is that of a hole.
fn is_hole_name(name: &str) -> bool
    ensures { result ≡ bytes_eq name.now (codes "HOLE") }
{
    name == "HOLE"
}

/// Whether a variable with this name and this sort is a hole.
fn is_hole(name: &str, sort: &[u8]) -> bool
    ensures { result ≡ (bytes_eq name.now (codes "HOLE") && is_some (in_brackets sort.now)) }
{
    is_hole_name(name) && has_brackets(sort)
}

/// A variable, or a hole, if it names a sort.
pub fn read_variable<'a>(sig: &Signature, sorts: &[Text], text: &'a str) -> Option<Written<'a>>
    requires named { length sorts.now ≡ sig.now.hierarchy.sorts }
    ensures some { IfSome result (λ v. pair_of sig.now sorts.now text.now ≡ Some (v.name.now, v.sort)) }
    ensures hole { IfSome result (λ v. is_hole text.now ≡ v.hole) }
    ensures sort { IfSome result (λ v. IsSort sig.now.hierarchy v.sort) }
    ensures none { IfNone result (pair_of sig.now sorts.now text.now ≡ None) }
{
    let (name, sort) = match cut(text) {
        Some((name, sort)) => (name, sort),
        None => return None,
    };
    let bytes = sort.as_bytes();
    let hole = is_hole(name, bytes);
    match sort_or_kind(sig, sorts, bytes) {
        Some(number) => Some(Written {
            name,
            sort: number,
            hole,
        }),
        None => None,
    }
}
