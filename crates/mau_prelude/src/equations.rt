//! The equations of truth values.
ghost use Rattle.std.specs.Prelude.{◌≡◌, ◌++◌, [], ◌∷◌, true, false, IfOk, slice_get};
ghost use Rattle.mau_terms.specs.View.{tree_of};
ghost use Rattle.mau_terms.specs.Tree.{node, variable};
ghost use Rattle.mau_prelude.specs.Rows.{a, bare_of, bool, of_a, of_ab, of_abc, equation};
ghost use Rattle.mau_prelude.specs.Booleans.{equations_of_and_and_xor, equations_that_reduce_to_xor};

use crate::rows::BOOL;
use mau_program::Equation;
use mau_terms::{Args, Bare, NoMemory, OpId, Seq, VarId, Vars};
use std::alloc::Global;

const TRUE: u32 = 1;

const FALSE: u32 = 2;

const AND: u32 = 3;

const OR: u32 = 4;

const XOR: u32 = 5;

const NOT: u32 = 6;

const IMPLIES: u32 = 7;

/// The variables, numbered as they come in an equation.
const A: u32 = 0;

const B: u32 = 1;

const C: u32 = 2;

fn variable(index: u32) -> Bare
    ensures { result ≡ bare_of (variable index bool) }
{
    Bare::Var(VarId { index, sort: BOOL })
}

fn constant(alloc: Global, op: u32) -> Bare
    ensures { result ≡ bare_of (node op []) }
{
    Bare::App(OpId(op), Args::new(Vec::new(alloc)))
}

fn unary(alloc: Global, op: u32, t: Bare) -> Result<Bare, NoMemory>
    ensures { IfOk result (λ made. made ≡ bare_of (node op (tree_of t ∷ []))) }
{
    Ok(Bare::App(OpId(op), Args::new(vec![in alloc; t]?)))
}

fn binary(alloc: Global, op: u32, t: Bare, u: Bare) -> Result<Bare, NoMemory>
    ensures { IfOk result (λ made. made ≡ bare_of (node op (tree_of t ∷ tree_of u ∷ []))) }
{
    Ok(Bare::App(OpId(op), Args::new(vec![in alloc; t, u]?)))
}

// An operator over two variables.
fn over(alloc: Global, op: u32, x: u32, y: u32) -> Result<Bare, NoMemory>
    ensures { IfOk result (λ made. made ≡ bare_of (node op (variable x bool ∷ variable y bool ∷ []))) }
{
    binary(alloc, op, variable(x), variable(y))
}

fn of_a(alloc: Global) -> Result<Vars, NoMemory>
    ensures { IfOk result (λ vars. vars ≡ of_a) }
{
    let mut vars = Vars::new(alloc);
    vars.add("A", BOOL)?;
    Ok(vars)
}

fn of_ab(alloc: Global) -> Result<Vars, NoMemory>
    ensures { IfOk result (λ vars. vars ≡ of_ab) }
{
    let mut vars = of_a(alloc)?;
    vars.add("B", BOOL)?;
    Ok(vars)
}

fn of_abc(alloc: Global) -> Result<Vars, NoMemory>
    ensures { IfOk result (λ vars. vars ≡ of_abc) }
{
    let mut vars = of_ab(alloc)?;
    vars.add("C", BOOL)?;
    Ok(vars)
}

fn equation(alloc: Global, vars: Vars, left: Bare, right: Bare) -> Equation
    ensures { result ≡ record { left = left; right = right; cond = []; owise = false; exec = true; vars = vars } }
{
    Equation {
        left,
        right,
        cond: Seq::new(Vec::new(alloc)),
        owise: false,
        exec: true,
        vars,
    }
}

// An equation whose left side has an operator over a constant and A.
fn with_constant(alloc: Global, op: u32, left: u32, right: Bare) -> Result<Equation, NoMemory>
    ensures { IfOk result (λ e. e ≡ record (equation of_a (node op (node left [] ∷ a ∷ [])) a) { right = right }) }
{
    let left = binary(alloc, op, constant(alloc, left), variable(A))?;
    let vars = of_a(alloc)?;
    Ok(equation(alloc, vars, left, right))
}

// An equation whose left side has an operator over A twice.
fn with_itself(alloc: Global, op: u32, right: Bare) -> Result<Equation, NoMemory>
    ensures { IfOk result (λ e. e ≡ record (equation of_a (node op (a ∷ a ∷ [])) a) { right = right }) }
{
    let left = over(alloc, op, A, A)?;
    let vars = of_a(alloc)?;
    Ok(equation(alloc, vars, left, right))
}

// A and (B xor C) = A and B xor A and C
fn and_over_xor(alloc: Global) -> Result<Equation, NoMemory>
    ensures { IfOk result (λ e. slice_get equations_that_reduce_to_xor 0 ≡ Some e) }
{
    let b_xor_c = over(alloc, XOR, B, C)?;
    let left = binary(alloc, AND, variable(A), b_xor_c)?;
    let a_and_b = over(alloc, AND, A, B)?;
    let a_and_c = over(alloc, AND, A, C)?;
    let right = binary(alloc, XOR, a_and_b, a_and_c)?;
    let vars = of_abc(alloc)?;
    Ok(equation(alloc, vars, left, right))
}

// not A = A xor true
fn not_by_xor(alloc: Global) -> Result<Equation, NoMemory>
    ensures { IfOk result (λ e. slice_get equations_that_reduce_to_xor 1 ≡ Some e) }
{
    let left = unary(alloc, NOT, variable(A))?;
    let right = binary(alloc, XOR, variable(A), constant(alloc, TRUE))?;
    let vars = of_a(alloc)?;
    Ok(equation(alloc, vars, left, right))
}

// A or B = A and B xor A xor B
fn or_by_xor(alloc: Global) -> Result<Equation, NoMemory>
    ensures { IfOk result (λ e. slice_get equations_that_reduce_to_xor 2 ≡ Some e) }
{
    let left = over(alloc, OR, A, B)?;
    let a_and_b = over(alloc, AND, A, B)?;
    let a_xor_b = over(alloc, XOR, A, B)?;
    let right = binary(alloc, XOR, a_and_b, a_xor_b)?;
    let vars = of_ab(alloc)?;
    Ok(equation(alloc, vars, left, right))
}

// A implies B = not (A xor A and B)
fn implies_by_xor(alloc: Global) -> Result<Equation, NoMemory>
    ensures { IfOk result (λ e. slice_get equations_that_reduce_to_xor 3 ≡ Some e) }
{
    let left = over(alloc, IMPLIES, A, B)?;
    let a_and_b = over(alloc, AND, A, B)?;
    let difference = binary(alloc, XOR, variable(A), a_and_b)?;
    let right = unary(alloc, NOT, difference)?;
    let vars = of_ab(alloc)?;
    Ok(equation(alloc, vars, left, right))
}

// The equations of `and` and of `xor` alone.
fn equations_of_and_and_xor(alloc: Global) -> Result<Vec<Equation>, NoMemory>
    ensures { IfOk result (λ rows. rows.items ≡ equations_of_and_and_xor) }
{
    let mut rows = Vec::new(alloc);
    rows.push(with_constant(alloc, AND, TRUE, variable(A))?)?;
    rows.push(with_constant(alloc, AND, FALSE, constant(alloc, FALSE))?)?;
    rows.push(with_itself(alloc, AND, variable(A))?)?;
    rows.push(with_constant(alloc, XOR, FALSE, variable(A))?)?;
    rows.push(with_itself(alloc, XOR, constant(alloc, FALSE))?)?;
    Ok(rows)
}

// The equations that reduce the other operators to `xor` and `and`.
fn equations_that_reduce_to_xor(alloc: Global) -> Result<Vec<Equation>, NoMemory>
    ensures { IfOk result (λ rows. rows.items ≡ equations_that_reduce_to_xor) }
{
    let mut rows = Vec::new(alloc);
    rows.push(and_over_xor(alloc)?)?;
    rows.push(not_by_xor(alloc)?)?;
    rows.push(or_by_xor(alloc)?)?;
    rows.push(implies_by_xor(alloc)?)?;
    Ok(rows)
}

// The equations of `BOOL`.
pub fn boolean_equations(alloc: Global) -> Result<Vec<Equation>, NoMemory>
    ensures { IfOk result (λ rows. rows.items ≡ equations_of_and_and_xor ++ equations_that_reduce_to_xor) }
{
    let mut rows = equations_of_and_and_xor(alloc)?;
    rows.append(&mut equations_that_reduce_to_xor(alloc)?)?;
    Ok(rows)
}
