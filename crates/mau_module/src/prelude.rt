//! The modules of the prelude, made from their tables.
ghost use Rattle.std.specs.Prelude.{◌≡◌, ◌<◌, ◌≤◌, ℕ, List, length, fold, All, IfOk, OnOk};
ghost use Rattle.mau_poset.specs.Order.{IsPoset};
ghost use Rattle.mau_signature.specs.Faults.{HasSorts, IsSort};
ghost use Rattle.mau_declare.specs.Names.{with_name};
ghost use Rattle.mau_declare.specs.Flattened.{AreLower};
ghost use Rattle.mau_signing.specs.Signed.{signature_over};
ghost use Rattle.mau_program.specs.BuiltIns.{HasTruth};
ghost use Rattle.mau_module.specs.Known.{AreKnown};
ghost use Rattle.mau_module.specs.Included.{depth_over, parts_of, sorts_of};
ghost use Rattle.mau_module.specs.Declarations.{hierarchy_over, given_over};
ghost use Rattle.mau_module.specs.Libraries.{IsNext};
ghost use Rattle.mau_module.specs.Made.{IsRightOver};
ghost use Rattle.mau_module.specs.declared.TheConstants.{MAX_DEPTH};
ghost use Rattle.mau_module.specs.Stated.{AreLawful};
ghost use Rattle.mau_module.specs.Carried.{carried};
ghost use Rattle.mau_module.specs.Ready.{IsSignable, module_of, IsReady};
ghost use Rattle.mau_sigcheck.specs.Accepted.{IsAccepted};
ghost use Rattle.mau_module.specs.Prelude.{table_module, with_table, prelude};

use crate::context::grammar_over;
use crate::declarations::pairs_of;
use crate::frame::Frame;
use crate::include::{depth_over, parts_of, sorts_of};
use crate::library::{BOOL, Library, TRUTH, TRUTH_VALUE};
use crate::module::Module;
use crate::own::read_carried;
use crate::signing::{Signed, fault_of, only_memory, sign_declarations};
use crate::statements::Statements;
use mau_declare::{Names, lower_sorts};
use mau_grammar::Alias;
use mau_prelude::{PreludeModule, table};
use mau_program::Equation;
use mau_signature::Decl;
use mau_signing::order_sorts;
use mau_terms::{NoMemory, Text};
use std::alloc::Global;

/// Adds names that are not there.
fn add_texts(names: &mut Names, more: &[Text]) -> Result<(), NoMemory>
    ensures { OnOk result (names.new ≡ fold with_name names.old more.now) }
{
    for name in more {
        names.add(name.as_str())?;
    }
    Ok(())
}

/// What a module of the prelude includes that imports these, and the names of its sorts.
fn table_frame(
    alloc: Global,
    library: &Library,
    imports: &[usize],
    sorts: &[Text],
) -> Result<Frame, NoMemory>
    requires imports { All (λ i. i < length library.now) imports.now }
    ensures frame { IfOk result (λ f. f ≡ record { depth = depth_over library.now imports.now; parts = parts_of library.now imports.now; names = fold with_name (sorts_of library.now (parts_of library.now imports.now)) sorts.now }) }
    ensures within { IfOk result (λ f. All (λ p. p < length library.now) f.parts) }
    ensures known { IfOk result (λ f. AreKnown library.now f.names f.parts) }
{
    let depth = depth_over(library, imports);
    let parts = parts_of(alloc, library, imports)?;
    let mut names = sorts_of(alloc, library, &parts)?;
    add_texts(&mut names, sorts)?;
    Ok(Frame {
        depth,
        parts,
        names,
    })
}

/// The signature of a module of the prelude that has these subsort pairs and declarations itself.
fn sign_table(
    alloc: Global,
    library: &Library,
    names: &Names,
    parts: &[usize],
    pairs: &[(u32, u32)],
    own: Vec<Decl>,
) -> Result<Signed, NoMemory>
    requires parts { All (λ p. p < length library.now) parts.now }
    requires known { AreKnown library.now names.now parts.now }
    requires signable { IsSignable library.now parts.now names.now pairs.now own.items }
    ensures signature { IfOk result (λ s. s.signature ≡ signature_over (given_over library.now parts.now names.now (hierarchy_over library.now parts.now names.now pairs.now) own.items)) }
    ensures hierarchy { IfOk result (λ s. s.signature.hierarchy ≡ hierarchy_over library.now parts.now names.now pairs.now) }
    ensures right { IfOk result (λ s. IsPoset s.signature.hierarchy × IsAccepted s.signature) }
    ensures lower { IfOk result (λ s. AreLower (length names.now) (hierarchy_over library.now parts.now names.now pairs.now).pairs s.lower.items) }
    ensures own { IfOk result (λ s. s.own.items ≡ own.items) }
    ensures sorts { IfOk result (λ s. All (HasSorts (hierarchy_over library.now parts.now names.now pairs.now)) s.own.items) }
{
    let mut all = pairs_of(alloc, library, names, parts)?;
    all.extend_from_slice(pairs)?;
    let lower = lower_sorts(alloc, names.len() as u32, &all)?;
    let poset = match order_sorts(alloc, names, &all) {
        Ok(poset) => poset,
        Err(fault) => return Err(only_memory(fault_of(fault))),
    };
    match sign_declarations(alloc, library, names, parts, &lower, poset, &own, None) {
        Ok(signature) => Ok(Signed {
            signature,
            lower,
            own,
        }),
        Err(fault) => Err(only_memory(fault)),
    }
}

/// The module with this frame that declares these pairs, operators, variables and equations itself.
fn make_module(
    alloc: Global,
    library: &Library,
    frame: Frame,
    name: Text,
    pairs: Vec<(u32, u32)>,
    declarations: Vec<Decl>,
    variables: Vec<Alias>,
    equations: Vec<Equation>,
) -> Result<Module, NoMemory>
    requires depth { frame.depth ≤ MAX_DEPTH }
    requires parts { All (λ p. p < length library.now) frame.parts }
    requires known { AreKnown library.now frame.names frame.parts }
    requires signable { IsSignable library.now frame.parts frame.names pairs.items declarations.items }
    requires variables { All (λ alias. IsSort (hierarchy_over library.now frame.parts frame.names pairs.items) alias.sort) variables.items }
    requires tops { AreLawful (signature_over (given_over library.now frame.parts frame.names (hierarchy_over library.now frame.parts frame.names pairs.items) declarations.items))
        (carried library.now frame.names (signature_over (given_over library.now frame.parts frame.names (hierarchy_over library.now frame.parts frame.names pairs.items) declarations.items)) frame.parts) }
    requires truth { HasTruth frame.names (signature_over (given_over library.now frame.parts frame.names (hierarchy_over library.now frame.parts frame.names pairs.items) declarations.items)) }
    ensures value { (sorts : List (List ℕ)) → IfOk result (λ m. m ≡ table_module library.now frame (record { name = name; sorts = sorts; pairs = pairs.items; declarations = declarations.items; variables = variables.items; equations = equations.items })) }
    ensures right { IfOk result (λ m. IsRightOver library.now m frame.parts) }
{
    let signed = sign_table(
        alloc,
        library,
        &frame.names,
        &frame.parts,
        &pairs,
        declarations,
    )?;
    let grammar = grammar_over(alloc, &frame.names, &signed.signature, &variables)?;
    // What is known of every signature is needed below, and this call tells it.
    let _operators = signed.signature.operators();
    let mut statements = match read_carried(
        alloc,
        library,
        &frame.names,
        &signed.signature,
        &frame.parts,
    ) {
        Ok(statements) => statements,
        Err(fault) => return Err(only_memory(fault)),
    };
    let included = statements.counts();
    statements.append(Statements::of_equations(alloc, equations))?;
    Module::new(
        alloc,
        library.len(),
        name,
        frame,
        signed,
        grammar,
        pairs,
        included,
        statements,
    )
}

/// The module of a table over a library, where it imports these.
fn table_module(
    alloc: Global,
    library: &Library,
    imports: &[usize],
    module: PreludeModule,
) -> Result<Module, NoMemory>
    requires imports { All (λ i. i < length library.now) imports.now }
    requires ready { IsReady library.now imports.now «module» }
    ensures value { IfOk result (λ m. m ≡ module_of library.now imports.now «module») }
    ensures next { IfOk result (IsNext library.now) }
{
    // What is known of every library is needed below, and this call tells it.
    let _modules = library.len();
    let table = table(alloc, module)?;
    let frame = table_frame(alloc, library, imports, &table.sorts)?;
    make_module(
        alloc,
        library,
        frame,
        table.name,
        table.pairs,
        table.declarations,
        table.variables,
        table.equations,
    )
}

impl Library {
    ghost use Rattle.std.specs.Prelude.{◌≡◌, ◌<◌, ◌+◌, length, All, IfOk, OnOk};
    ghost use Rattle.mau_module.specs.Library.{HasPrelude};
    ghost use Rattle.mau_module.specs.Prelude.{with_table, prelude};
    ghost use Rattle.mau_module.specs.Libraries.{AreLawfulModules};
    ghost use Rattle.mau_module.specs.Ready.{IsReady};

    /// Adds the module of a table, where it imports these.
    fn enter_table(
        &mut self,
        alloc: Global,
        imports: &[usize],
        module: PreludeModule,
    ) -> Result<(), NoMemory>
        requires imports { All (λ i. i < length self.old) imports.now }
        requires ready { IsReady self.old imports.now «module» }
        ensures modules { OnOk result (self.new ≡ with_table self.old imports.now «module») }
        ensures count { OnOk result (length self.new ≡ length self.old + 1) }
    {
        let module = table_module(alloc, self, imports, module)?;
        self.enter(module)
    }

    /// The library of a session's start: the four modules of the prelude, with the numbers 0 to 3. No text is read.
    pub fn prelude(alloc: Global) -> Result<Library, NoMemory>
        ensures value { IfOk result (λ l. l ≡ prelude) }
        ensures count { IfOk result HasPrelude }
        ensures lawful { IfOk result AreLawfulModules }
    {
        let mut library = Library::new(alloc);
        library.enter_table(alloc, &[], PreludeModule::TruthValue)?;
        library.enter_table(alloc, &[TRUTH_VALUE], PreludeModule::Truth)?;
        library.enter_table(alloc, &[TRUTH], PreludeModule::Bool)?;
        library.enter_table(alloc, &[BOOL], PreludeModule::Nat)?;
        // What is known of every library is said below, and this call tells it.
        let _modules = library.len();
        Ok(library)
    }
}
