//! The declarations of the natural numbers.
ghost use Rattle.std.specs.Prelude.{◌≡◌, ◌++◌, [], ◌∷◌, IfOk};
ghost use Rattle.mau_signature.specs.Attributes.{no_attributes};
ghost use Rattle.mau_signature.specs.declared.attributes.Gather.TheVariants.{Upto, Below};
ghost use Rattle.mau_prelude.specs.Numbers.{sums, products, choices, comparisons};

use crate::rows::{
    BOOL, NAT, NZ_NAT, Rows, assoc_comm, assoc_comm_at, comm, gathering, native, precedence,
};
use mau_signature::{Attrs, Decl, Gather};
use mau_terms::NoMemory;
use std::alloc::Global;

// The attributes of an operator whose arguments nest to the left.
fn to_the_left(alloc: Global, prec: u8) -> Result<Attrs, NoMemory>
    ensures { IfOk result (λ a. a ≡ record no_attributes { prec = Some prec; gather = Some (Upto ∷ Below ∷ []) }) }
{
    gathering(alloc, prec, Gather::Upto, Gather::Below)
}

// The successor, sums and differences.
fn sums(alloc: Global) -> Result<Vec<Decl>, NoMemory>
    ensures { IfOk result (λ rows. rows.items ≡ sums) }
{
    let mut rows = Rows::new(alloc);
    let succ = native(alloc, Attrs::none(), "succ")?;
    rows.prefix("s", NAT, NZ_NAT, succ)?;
    rows.native_between("+", [NZ_NAT, NAT], NZ_NAT, assoc_comm_at(33), "nat-add")?;
    rows.native_between("+", [NAT, NAT], NAT, Attrs::none(), "nat-add")?;
    rows.native_word("sd", [NAT, NAT], NAT, comm(), "nat-sd")?;
    Ok(rows.list)
}

// Products, quotients, remainders and powers.
fn products(alloc: Global) -> Result<Vec<Decl>, NoMemory>
    ensures { IfOk result (λ rows. rows.items ≡ products) }
{
    let mut rows = Rows::new(alloc);
    rows.native_between("*", [NZ_NAT, NZ_NAT], NZ_NAT, assoc_comm_at(31), "nat-mul")?;
    rows.native_between("*", [NAT, NAT], NAT, Attrs::none(), "nat-mul")?;
    let left = to_the_left(alloc, 31)?;
    rows.native_between("quo", [NAT, NZ_NAT], NAT, left, "nat-quo")?;
    let left = to_the_left(alloc, 31)?;
    rows.native_between("rem", [NAT, NZ_NAT], NAT, left, "nat-rem")?;
    let left = to_the_left(alloc, 29)?;
    rows.native_between("^", [NZ_NAT, NAT], NZ_NAT, left, "nat-pow")?;
    rows.native_between("^", [NAT, NAT], NAT, Attrs::none(), "nat-pow")?;
    Ok(rows.list)
}

// Greatest common divisors, minima and maxima.
fn choices(alloc: Global) -> Result<Vec<Decl>, NoMemory>
    ensures { IfOk result (λ rows. rows.items ≡ choices) }
{
    let mut rows = Rows::new(alloc);
    rows.native_word("gcd", [NZ_NAT, NAT], NZ_NAT, assoc_comm(), "nat-gcd")?;
    rows.native_word("gcd", [NAT, NAT], NAT, Attrs::none(), "nat-gcd")?;
    rows.native_word("min", [NZ_NAT, NZ_NAT], NZ_NAT, assoc_comm(), "nat-min")?;
    rows.native_word("min", [NAT, NAT], NAT, Attrs::none(), "nat-min")?;
    rows.native_word("max", [NZ_NAT, NAT], NZ_NAT, assoc_comm(), "nat-max")?;
    rows.native_word("max", [NAT, NAT], NAT, Attrs::none(), "nat-max")?;
    Ok(rows.list)
}

// Comparisons.
fn comparisons(alloc: Global) -> Result<Vec<Decl>, NoMemory>
    ensures { IfOk result (λ rows. rows.items ≡ comparisons) }
{
    let mut rows = Rows::new(alloc);
    rows.native_between("<", [NAT, NAT], BOOL, precedence(37), "nat-lt")?;
    rows.native_between("<=", [NAT, NAT], BOOL, precedence(37), "nat-le")?;
    rows.native_between(">", [NAT, NAT], BOOL, precedence(37), "nat-gt")?;
    rows.native_between(">=", [NAT, NAT], BOOL, precedence(37), "nat-ge")?;
    Ok(rows.list)
}

// The declarations of `NAT`.
pub fn number_declarations(alloc: Global) -> Result<Vec<Decl>, NoMemory>
    ensures { IfOk result (λ rows. rows.items ≡ sums ++ (products ++ (choices ++ comparisons))) }
{
    let mut rows = sums(alloc)?;
    rows.append(&mut products(alloc)?)?;
    rows.append(&mut choices(alloc)?)?;
    rows.append(&mut comparisons(alloc)?)?;
    Ok(rows)
}
