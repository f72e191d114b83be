//! How loosely an operator binds, and which terms its places admit.
ghost use Rattle.std.specs.Prelude.{◌≡◌, ◌<◌};
ghost use Rattle.mau_signature.specs.Form.{is_hole};
ghost use Rattle.mau_grammar.specs.Precedence.{is_hole_at, begins_with_hole, ends_with_hole, is_closed, is_end_hole, default_precedence, precedence, is_chain, default_gather, gather_in, upto};

use mau_signature::{Decl, Form, Gather, Piece};

/// Whether the piece is a hole.
pub fn is_hole(piece: &Piece) -> bool
    ensures { result ≡ Rattle.mau_signature.specs.Form.is_hole piece.now }
{
    match piece {
        Piece::Hole => true,
        Piece::Word(_) => false,
    }
}

/// Whether a hole stands at this place of the form.
fn is_hole_at(form: &Form, i: usize) -> bool
    ensures { result ≡ Rattle.mau_grammar.specs.Precedence.is_hole_at form.now i }
{
    match form.pieces().get(i) {
        Some(piece) => is_hole(piece),
        None => false,
    }
}

/// Whether the form begins with a hole.
fn begins_with_hole(form: &Form) -> bool
    ensures { result ≡ Rattle.mau_grammar.specs.Precedence.begins_with_hole form.now }
{
    is_hole_at(form, 0)
}

/// Whether the form ends with a hole.
fn ends_with_hole(form: &Form) -> bool
    ensures { result ≡ Rattle.mau_grammar.specs.Precedence.ends_with_hole form.now }
{
    is_hole_at(form, form.pieces().len().saturating_sub(1))
}

/// Whether the form neither begins nor ends with a hole.
fn is_closed(form: &Form) -> bool
    ensures { result ≡ Rattle.mau_grammar.specs.Precedence.is_closed form.now }
{
    !begins_with_hole(form) && !ends_with_hole(form)
}

/// Whether the hole with this number is the first piece of the form or its last.
fn is_end_hole(form: &Form, hole: usize) -> bool
    requires { hole < 18446744073709551615 }
    ensures { result ≡ Rattle.mau_grammar.specs.Precedence.is_end_hole form.now hole }
{
    (hole == 0 && begins_with_hole(form)) || (hole + 1 == form.holes() && ends_with_hole(form))
}

fn default_precedence(form: &Form) -> u8
    ensures { result ≡ Rattle.mau_grammar.specs.Precedence.default_precedence form.now }
{
    if is_closed(form) {
        0
    } else if form.holes() == 1 {
        15
    } else {
        41
    }
}

/// The precedence of an operator, by a declaration with its united attributes.
pub fn precedence(decl: &Decl) -> u8
    ensures { result ≡ Rattle.mau_grammar.specs.Precedence.precedence decl.now }
{
    match decl.attrs.prec {
        Some(precedence) => precedence,
        None => default_precedence(&decl.form),
    }
}

/// Whether it is a binary associative operator with holes at both ends.
fn is_chain(decl: &Decl) -> bool
    ensures { result ≡ Rattle.mau_grammar.specs.Precedence.is_chain decl.now }
{
    decl.attrs.assoc
        && decl.form.holes() == 2
        && begins_with_hole(&decl.form)
        && ends_with_hole(&decl.form)
}

fn default_gather(decl: &Decl, hole: usize) -> Gather
    requires { hole < 18446744073709551615 }
    ensures { result ≡ Rattle.mau_grammar.specs.Precedence.default_gather decl.now hole }
{
    if is_closed(&decl.form) {
        return Gather::Any;
    }
    if decl.form.holes() == 1 {
        return Gather::Upto;
    }
    if is_chain(decl) {
        return if hole == 0 {
            Gather::Below
        } else {
            Gather::Upto
        };
    }
    if is_end_hole(&decl.form, hole) {
        Gather::Upto
    } else {
        Gather::Any
    }
}

/// Which precedence the argument at this hole may have.
fn gather(decl: &Decl, hole: usize) -> Gather
    requires { hole < 18446744073709551615 }
    ensures { result ≡ gather_in decl.now.attrs.gather decl.now hole }
{
    match &decl.attrs.gather {
        Some(gathers) => match gathers.items().get(hole) {
            Some(gather) => *gather,
            None => Gather::Any,
        },
        None => default_gather(decl, hole),
    }
}

/// The greatest level that the hole admits.
pub fn upto(decl: &Decl, hole: usize) -> u32
    requires { hole < 18446744073709551615 }
    ensures { result ≡ Rattle.mau_grammar.specs.Precedence.upto decl.now hole }
{
    let precedence = precedence(decl) as u32;
    match gather(decl, hole) {
        Gather::Upto => precedence + 1,
        Gather::Below => precedence,
        Gather::Any => 256,
    }
}
