//! Which limit a module passes.
ghost use Rattle.std.specs.Prelude.{◌≡◌, ◌<◌, length, min, All};
ghost use Rattle.mau_module.specs.Modules.{statement_total};
ghost use Rattle.mau_module.specs.Framed.{included_declarations, included_statements, limit_passed};

use crate::fault::Limit;
use crate::frame::Frame;
use crate::library::Library;
use crate::module::Module;
use mau_declare::{MAX_DECLARATIONS, MAX_STATEMENTS, declaration_count, statement_count};
use mau_modtext::RawModule;
use mau_poset::MAX_SORTS;

/// How many declarations some modules have themselves, as far as numbers go.
pub fn included_declarations(library: &Library, parts: &[usize]) -> usize
    requires { All (λ p. p < length library.now) parts.now }
    ensures { result ≡ min (included_declarations library.now parts.now) usize.MAX }
{
    let mut count: usize = 0;
    for part in parts {
        count = count.saturating_add(library.module(*part).own_declarations().len());
    }
    count
}

/// How many statements a module has itself, as far as numbers go.
fn own_statements(module: &Module) -> usize
    ensures { result ≡ min (statement_total «module».now.own.statements) usize.MAX }
{
    module
        .own_equations()
        .len()
        .saturating_add(module.own_memberships().len())
        .saturating_add(module.own_rules().len())
        .saturating_add(module.own_strategies().len())
}

/// How many statements some modules have themselves, as far as numbers go.
fn included_statements(library: &Library, parts: &[usize]) -> usize
    requires { All (λ p. p < length library.now) parts.now }
    ensures { result ≡ min (included_statements library.now parts.now) usize.MAX }
{
    let mut count: usize = 0;
    for part in parts {
        count = count.saturating_add(own_statements(library.module(*part)));
    }
    count
}

/// The first limit that a module passes.
pub fn limit_passed(library: &Library, frame: &Frame, raw: &RawModule) -> Option<Limit>
    requires { All (λ p. p < length library.now) frame.now.parts }
    ensures { result ≡ limit_passed library.now frame.now raw.now }
{
    let elements = raw.elements.items();
    let declarations = included_declarations(library, &frame.parts).saturating_add(
        declaration_count(elements),
    );
    let statements = included_statements(library, &frame.parts).saturating_add(statement_count(
        elements,
    ));
    if frame.names.len() > MAX_SORTS as usize {
        Some(Limit::Sorts)
    } else if declarations > MAX_DECLARATIONS {
        Some(Limit::Declarations)
    } else if statements > MAX_STATEMENTS {
        Some(Limit::Statements)
    } else {
        None
    }
}
