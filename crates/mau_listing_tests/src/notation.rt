//! Terms written behind their arguments: `abu` is u(a, b), and `M` is the greatest numeral. x, y and z are variables of the sort All, p, q and r of the sort Elt.
use crate::signature::{A, ALL, B, C, E, ELT, F, G, H, I, K, L, M, N, S, U, V, W};
use mau_terms::{Args, Bare, OpId, VarId};
use std::alloc::Global;
use std::test::Fail;

/// The constant of a letter.
fn constant(letter: u8) -> Option<u32> {
    match letter {
        b'a' => Some(A),
        b'b' => Some(B),
        b'c' => Some(C),
        b'e' => Some(E),
        b'n' => Some(N),
        _ => None,
    }
}

/// The operator with two arguments of a letter.
fn over_two(letter: u8) -> Option<u32> {
    match letter {
        b'u' => Some(U),
        b'w' => Some(W),
        b'l' => Some(L),
        b'v' => Some(V),
        b'i' => Some(I),
        b'h' => Some(H),
        b'k' => Some(K),
        b'm' => Some(M),
        b'f' => Some(F),
        _ => None,
    }
}

/// The operator of a letter, with the number of its arguments.
pub fn operator(letter: u8) -> Option<(u32, usize)> {
    match letter {
        b'g' => Some((G, 1)),
        b's' => Some((S, 1)),
        _ => match constant(letter) {
            Some(op) => Some((op, 0)),
            None => {
                let op = over_two(letter)?;
                Some((op, 2))
            }
        },
    }
}

/// The variable of a letter.
pub fn variable(letter: u8) -> Option<VarId> {
    let (index, sort) = match letter {
        b'x' => (0, ALL),
        b'y' => (1, ALL),
        b'z' => (2, ALL),
        b'p' => (3, ELT),
        b'q' => (4, ELT),
        b'r' => (5, ELT),
        _ => return None,
    };
    Some(VarId { index, sort })
}

/// The numeral or the variable of a letter.
pub fn leaf(letter: u8) -> Option<Bare> {
    match letter {
        b'0'..=b'9' => Some(Bare::Num((letter - b'0') as u128)),
        b'M' => Some(Bare::Num(u128::MAX)),
        _ => {
            let variable = variable(letter)?;
            Some(Bare::Var(variable))
        }
    }
}

/// The last `count` items, which are taken from the others.
pub fn last<T: Drop>(alloc: Global, items: &mut Vec<T>, count: usize) -> Result<Vec<T>, Fail> {
    let mut taken = Vec::new(alloc);
    for _ in 0..count {
        taken.insert(0, items.pop().ok_or("an argument is missing")?)?;
    }
    Ok(taken)
}

/// The term that a text stands for.
pub fn term(alloc: Global, text: &str) -> Result<Bare, Fail> {
    let mut terms = Vec::new(alloc);
    for letter in text.bytes() {
        let next = match operator(letter) {
            Some((op, count)) => Bare::App(OpId(op), Args::new(last(alloc, &mut terms, count)?)),
            None => leaf(letter).ok_or("no letter of the notation")?,
        };
        terms.push(next)?;
    }
    let whole = terms.pop().ok_or("no term")?;
    if terms.is_empty() {
        Ok(whole)
    } else {
        Err("there is more than one term".into())
    }
}

/// An operator with two arguments over as many terms, each beside all behind it.
pub fn over_all(alloc: Global, op: u32, mut terms: Vec<Bare>) -> Result<Bare, Fail> {
    let mut whole = terms.pop().ok_or("no term")?;
    for _ in 0..terms.len() {
        let first = terms.pop().ok_or("no term")?;
        whole = Bare::App(OpId(op), Args::new(Vec::from_array(alloc, [first, whole])?));
    }
    Ok(whole)
}
