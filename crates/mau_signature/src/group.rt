//! Declarations of one operator.
ghost use Rattle.std.specs.Prelude.{◌≡◌, ◌++◌, ◌∷◌, [], map, IfOk, OnOk};
ghost use Rattle.mau_signature.specs.Attributes.{unite, united, with_attributes, with_united};

use crate::{Attrs, Decl};
use mau_terms::NoMemory;
use std::alloc::Global;
use std::marker::Model;

/// Declarations of one operator with their united attributes, seen as the list of the declarations.
#[derive(Drop)]
pub struct Group {
    decls: Vec<Decl>,
    attrs: Attrs,
}

impl Model for Group {
    ghost use Rattle.std.specs.Prelude.{◌≡◌, List};
    ghost use Rattle.mau_signature.specs.declared.decl.Decl.{Decl};

    ghost Value = { List Decl };

    ghost use Rattle.mau_signature.specs.Attributes.{united};

    ghost view = { λ g. g.decls.items };

    ghost invariant = { λ g. g.attrs ≡ united g.decls.items };
}

impl Group {
    /// No declarations.
    pub fn new(alloc: Global) -> Group
        ensures { result ≡ [] }
    {
        Group {
            decls: Vec::new(alloc),
            attrs: Attrs::none(),
        }
    }

    /// The declarations in order.
    pub fn decls(&self) -> &[Decl]
        ensures { result.now ≡ self.now }
    {
        &self.decls
    }

    /// The united attributes.
    pub fn attrs(&self) -> &Attrs
        ensures { result.now ≡ united self.now }
    {
        &self.attrs
    }

    /// Adds a declaration at the end. `attrs` are the united attributes from then on.
    pub fn add(&mut self, decl: Decl, attrs: Attrs) -> Result<(), NoMemory>
        requires { attrs ≡ unite (united self.old) decl.attrs }
        ensures { OnOk result (self.new ≡ self.old ++ decl ∷ []) }
    {
        self.decls.push(decl)?;
        self.attrs = attrs;
        Ok(())
    }

    /// The declarations, each with the united attributes of all.
    pub fn finish(self, alloc: Global) -> Result<Vec<Decl>, NoMemory>
        ensures { IfOk result (λ decls. decls.items ≡ with_united self) }
    {
        let Group { decls, attrs } = self;
        with_attributes(alloc, decls, &attrs)
    }
}

// The declarations, each with the attributes `attrs` in place of its own.
fn with_attributes(alloc: Global, decls: Vec<Decl>, attrs: &Attrs) -> Result<Vec<Decl>, NoMemory>
    ensures { IfOk result (λ finished. finished.items ≡ map (with_attributes attrs.now) decls.items) }
{
    let mut finished = Vec::with_capacity(alloc, decls.len())?;
    for decl in decls {
        finished.push(Decl {
            form: decl.form,
            args: decl.args,
            result: decl.result,
            attrs: attrs.copy(alloc)?,
        })?;
    }
    Ok(finished)
}
