//! The rows of the tables: sorts, declarations, attributes and variables.
ghost use Rattle.std.specs.Prelude.{◌≡◌, ◌++◌, [], ◌∷◌, true, IfOk, OnOk};
ghost use Rattle.mau_signature.specs.Attributes.{no_attributes};
ghost use Rattle.mau_prelude.specs.Rows.{word_form, prefix_form, infix_form, declare, declare_variable};

use mau_grammar::Alias;
use mau_signature::{Attrs, Decl, Form, Gather, Piece};
use mau_terms::{NoMemory, Seq, Text};
use std::alloc::Global;

/// The sort `Bool`.
pub const BOOL: u32 = 0;

/// The sort `Zero`.
pub const ZERO: u32 = 1;

/// The sort `NzNat`.
pub const NZ_NAT: u32 = 2;

/// The sort `Nat`.
pub const NAT: u32 = 3;

fn piece(alloc: Global, word: &str) -> Result<Piece, NoMemory>
    ensures { IfOk result (λ p. p ≡ Piece.Word word.now) }
{
    Ok(Piece::Word(Text::new(alloc, word)?))
}

// A word alone.
fn word_form(alloc: Global, word: &str) -> Result<Form, NoMemory>
    ensures { IfOk result (λ f. f ≡ word_form word.now) }
{
    let word = piece(alloc, word)?;
    Ok(Form::new(vec![in alloc; word]?))
}

// A word before a hole.
fn prefix_form(alloc: Global, word: &str) -> Result<Form, NoMemory>
    ensures { IfOk result (λ f. f ≡ prefix_form word.now) }
{
    let word = piece(alloc, word)?;
    Ok(Form::new(vec![in alloc; word, Piece::Hole]?))
}

// A word between two holes.
fn infix_form(alloc: Global, word: &str) -> Result<Form, NoMemory>
    ensures { IfOk result (λ f. f ≡ infix_form word.now) }
{
    let word = piece(alloc, word)?;
    Ok(Form::new(vec![in alloc; Piece::Hole, word, Piece::Hole]?))
}

/// Rows of a table, to which others are added.
#[derive(Drop)]
pub struct Rows {
    alloc: Global,
    pub list: Vec<Decl>,
}

impl Rows {
    pub fn new(alloc: Global) -> Rows
        ensures { result.list.items ≡ [] }
    {
        Rows {
            alloc,
            list: Vec::new(alloc),
        }
    }

    fn add(&mut self, form: Form, args: Seq<u32>, sort: u32, attrs: Attrs) -> Result<(), NoMemory>
        ensures { OnOk result (self.new.list.items ≡ self.old.list.items ++ declare form args sort attrs ∷ []) }
    {
        self.list.push(Decl {
            form,
            args,
            result: sort,
            attrs,
        })?;
        Ok(())
    }

    // A constant.
    pub fn constant(&mut self, word: &str, sort: u32) -> Result<(), NoMemory>
        ensures { OnOk result (self.new.list.items ≡ self.old.list.items ++ declare (word_form word.now) [] sort no_attributes ∷ []) }
    {
        let form = word_form(self.alloc, word)?;
        self.add(form, Seq::new(Vec::new(self.alloc)), sort, Attrs::none())
    }

    // A word before its argument.
    pub fn prefix(&mut self, word: &str, arg: u32, sort: u32, attrs: Attrs) -> Result<(), NoMemory>
        ensures { OnOk result (self.new.list.items ≡ self.old.list.items ++ declare (prefix_form word.now) (arg ∷ []) sort attrs ∷ []) }
    {
        let form = prefix_form(self.alloc, word)?;
        let args = Seq::new(Vec::from_array(self.alloc, [arg])?);
        self.add(form, args, sort, attrs)
    }

    // A word between its arguments.
    pub fn between(
        &mut self,
        word: &str,
        args: [u32; 2],
        sort: u32,
        attrs: Attrs,
    ) -> Result<(), NoMemory>
        ensures { OnOk result (self.new.list.items ≡ self.old.list.items ++ declare (infix_form word.now) args sort attrs ∷ []) }
    {
        let form = infix_form(self.alloc, word)?;
        let args = Seq::new(Vec::from_array(self.alloc, args)?);
        self.add(form, args, sort, attrs)
    }

    // A word between its arguments, with the name of its native function.
    pub fn native_between(
        &mut self,
        word: &str,
        args: [u32; 2],
        sort: u32,
        attrs: Attrs,
        hook: &str,
    ) -> Result<(), NoMemory>
        ensures { OnOk result (self.new.list.items ≡ self.old.list.items ++ declare (infix_form word.now) args sort (record attrs { builtin = Some hook.now }) ∷ []) }
    {
        let attrs = native(self.alloc, attrs, hook)?;
        self.between(word, args, sort, attrs)
    }

    // A word before its arguments in parentheses, with the name of its native function.
    pub fn native_word(
        &mut self,
        word: &str,
        args: [u32; 2],
        sort: u32,
        attrs: Attrs,
        hook: &str,
    ) -> Result<(), NoMemory>
        ensures { OnOk result (self.new.list.items ≡ self.old.list.items ++ declare (word_form word.now) args sort (record attrs { builtin = Some hook.now }) ∷ []) }
    {
        let attrs = native(self.alloc, attrs, hook)?;
        let form = word_form(self.alloc, word)?;
        let args = Seq::new(Vec::from_array(self.alloc, args)?);
        self.add(form, args, sort, attrs)
    }
}

// A precedence.
pub fn precedence(prec: u8) -> Attrs
    ensures { result ≡ record no_attributes { prec = Some prec } }
{
    Attrs {
        prec: Some(prec),
        ..Attrs::none()
    }
}

// Associative and commutative.
pub fn assoc_comm() -> Attrs
    ensures { result ≡ record no_attributes { assoc = true; comm = true } }
{
    Attrs {
        assoc: true,
        comm: true,
        ..Attrs::none()
    }
}

// Associative and commutative, with a precedence.
pub fn assoc_comm_at(prec: u8) -> Attrs
    ensures { result ≡ record no_attributes { assoc = true; comm = true; prec = Some prec } }
{
    Attrs {
        assoc: true,
        comm: true,
        prec: Some(prec),
        ..Attrs::none()
    }
}

pub fn comm() -> Attrs
    ensures { result ≡ record no_attributes { comm = true } }
{
    Attrs {
        comm: true,
        ..Attrs::none()
    }
}

// A precedence, and which precedences the two arguments may have.
pub fn gathering(alloc: Global, prec: u8, first: Gather, second: Gather) -> Result<Attrs, NoMemory>
    ensures { IfOk result (λ a. a ≡ record no_attributes { prec = Some prec; gather = Some (first ∷ second ∷ []) }) }
{
    Ok(Attrs {
        prec: Some(prec),
        gather: Some(Seq::new(vec![in alloc; first, second]?)),
        ..Attrs::none()
    })
}

// The attributes with the name of a native function.
pub fn native(alloc: Global, attrs: Attrs, name: &str) -> Result<Attrs, NoMemory>
    ensures { IfOk result (λ a. a ≡ record attrs { builtin = Some name.now }) }
{
    Ok(Attrs {
        builtin: Some(Text::new(alloc, name)?),
        ..attrs
    })
}

// A declared variable.
pub fn variable(alloc: Global, name: &str, sort: u32) -> Result<Alias, NoMemory>
    ensures { IfOk result (λ v. v ≡ declare_variable name.now sort) }
{
    Ok(Alias {
        name: Text::new(alloc, name)?,
        sort,
    })
}
