//! How much elements declare.
ghost use Rattle.std.specs.Prelude.{◌≡◌, min};
ghost use Rattle.mau_declare.specs.Counts;

use mau_modtext::RawElement;

/// How many operators an element declares: as many as it has forms.
fn forms_in(element: &RawElement) -> usize
    ensures { result ≡ Counts.forms_in element.now }
{
    match element {
        RawElement::Ops(ops) => ops.forms.items().len(),
        _ => 0,
    }
}

/// How many operators elements declare; the greatest number there is, where there are more.
pub fn declaration_count(elements: &[RawElement]) -> usize
    ensures { result ≡ min (Counts.declaration_count elements.now) usize.MAX }
{
    let mut count = 0usize;
    for element in elements {
        count = count.saturating_add(forms_in(element));
    }
    count
}

fn is_statement(element: &RawElement) -> bool
    ensures { result ≡ Counts.is_statement element.now }
{
    matches!(element, RawElement::Statement(_))
}

/// How many of the elements are statements.
pub fn statement_count(elements: &[RawElement]) -> usize
    ensures { result ≡ Counts.statement_count elements.now }
{
    let mut count = 0;
    for element in elements {
        if is_statement(element) {
            count += 1;
        }
    }
    count
}
