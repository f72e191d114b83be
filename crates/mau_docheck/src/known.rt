//! The modules of a text.
ghost use Rattle.std.specs.Prelude.{◌≡◌, ◌≢◌, ◌+◌, ◌<◌, ◌≤◌, ℕ, List, [], ◌∷◌, length, take, Ok, IfOk, IfSome, IfNone, OnOk};
ghost use Rattle.std.specs.Str.{IsUtf8};
ghost use Rattle.mau_tokens.specs.TokensOf.{TokensOf};
ghost use Rattle.mau_modtext.specs.declared.raw.RawItem.{RawItem};
ghost use Rattle.mau_modtext.specs.declared.raw.RawBody.TheVariants as RawBody;
ghost use Rattle.mau_tokens.specs.Spans.{AreSpans};
ghost use Rattle.mau_modtext.specs.Words.{words_of};
ghost use Rattle.mau_module.specs.Library.{last_named, HasPrelude};
ghost use Rattle.mau_program.specs.LawfulPrograms.{IsLawfulProgram};
ghost use Rattle.mau_module.specs.Lawful.{program_of};
ghost use Rattle.mau_docheck.specs.Known.{is_built as is_built_kind};
ghost use Rattle.mau_docheck.specs.Known.{Leaves};
ghost use Rattle.mau_docheck.specs.Kept.{IsLonger, AreCounts, count_before, AreModulesOf, IsModuleAt, HasNoModule};

use mau_declare::Words;
use mau_modtext::{ModuleKind, RawBody, RawItem, RawModule, items};
use mau_module::{Library, Module, ModuleFault};
use mau_terms::NoMemory;
use mau_tokens::{Token, TokenFault, tokens};
use std::alloc::Global;

/// All modules of a text, those of the prelude first, and how many of them are known behind the first items, none of them to all.
#[derive(Drop)]
pub struct Known {
    library: Library,
    counts: Vec<usize>,
}

/// Whether modules of this kind are built.
fn is_built(kind: ModuleKind) -> bool
    ensures { result ≡ is_built_kind kind }
{
    match kind {
        ModuleKind::StrategyModule => false,
        _ => true,
    }
}

/// What a fault of a module stops: nothing, unless memory was wanting.
fn passed_by(fault: &ModuleFault) -> Result<(), NoMemory>
    ensures { OnOk result (fault.now ≢ ModuleFault.NoMemory) }
{
    match fault {
        ModuleFault::NoMemory => Err(NoMemory),
        _ => Ok(()),
    }
}

/// Enters the module of a text, if it is accepted.
fn enter_module(
    alloc: Global,
    words: &Words,
    library: &mut Library,
    raw: &RawModule,
) -> Result<(), NoMemory>
    requires prelude { HasPrelude library.old }
    ensures leaves { (item : RawItem) → item.body ≡ Ok (RawBody.Module raw.now) → OnOk result (Leaves words.now library.old item library.new) }
    ensures longer { OnOk result (IsLonger library.old library.new) }
{
    if !is_built(raw.kind) {
        return Ok(());
    }
    match library.flatten(alloc, words, raw) {
        Ok(module) => library.enter(module),
        Err(fault) => passed_by(&fault),
    }
}

/// Enters the module that is said, if one is and it is accepted.
fn enter_body(
    alloc: Global,
    words: &Words,
    library: &mut Library,
    body: &RawBody,
) -> Result<(), NoMemory>
    requires prelude { HasPrelude library.old }
    ensures leaves { (item : RawItem) → item.body ≡ Ok body.now → OnOk result (Leaves words.now library.old item library.new) }
    ensures longer { OnOk result (IsLonger library.old library.new) }
{
    match body {
        RawBody::Module(raw) => enter_module(alloc, words, library, raw),
        RawBody::Command(_) => Ok(()),
        RawBody::Setting(_) => Ok(()),
        RawBody::Quit => Ok(()),
    }
}

/// Enters the module that an item is, if it is one that is accepted.
fn enter_item(
    alloc: Global,
    words: &Words,
    library: &mut Library,
    item: &RawItem,
) -> Result<(), NoMemory>
    requires prelude { HasPrelude library.old }
    ensures leaves { OnOk result (Leaves words.now library.old item.now library.new) }
    ensures longer { OnOk result (IsLonger library.old library.new) }
{
    match &item.body {
        Ok(body) => enter_body(alloc, words, library, body),
        Err(_) => Ok(()),
    }
}

/// The modules of the items of a text.
fn modules_of_items(alloc: Global, words: &Words, items: &[RawItem]) -> Result<Known, NoMemory>
    ensures counts { IfOk result (λ k. AreCounts words.now items.now k.library k.counts.items) }
    ensures all { IfOk result (λ k. length k.counts.items ≡ length items.now + 1) }
{
    let mut library = Library::prelude(alloc)?;
    let mut counts = Vec::new(alloc);
    counts.push(library.len())?;
    for item in items {
        enter_item(alloc, words, &mut library, item)?;
        counts.push(library.len())?;
    }
    Ok(Known { library, counts })
}

/// No modules.
fn no_modules(alloc: Global) -> Result<Known, NoMemory>
    ensures { IfOk result (λ k. k.counts.items ≡ 0 ∷ []) }
{
    let library = Library::prelude(alloc)?;
    let mut counts = Vec::new(alloc);
    counts.push(0)?;
    Ok(Known { library, counts })
}

/// The modules of a text that has this fault in place of tokens: there are none, unless memory was wanting.
fn without_tokens(alloc: Global, fault: TokenFault) -> Result<Known, NoMemory>
    ensures counts { IfOk result (λ k. k.counts.items ≡ 0 ∷ []) }
    ensures named { OnOk result (fault ≢ TokenFault.NoMemory) }
{
    match fault {
        TokenFault::NoMemory => Err(NoMemory),
        _ => no_modules(alloc),
    }
}

/// The modules of a text that has these tokens.
fn modules_of_tokens(alloc: Global, text: &[u8], found: &[Token]) -> Result<Known, NoMemory>
    requires tokens { TokensOf text.now (Ok found.now) }
    requires utf8 { IsUtf8 text.now }
    requires spans { AreSpans text.now found.now }
    ensures { IfOk result (λ k. AreModulesOf text.now k.library k.counts.items) }
{
    let items = items(alloc, text, found)?;
    match std::str::from_utf8(text) {
        Ok(text) => {
            let words = Words::new(text, found);
            modules_of_items(alloc, &words, &items)
        }
        Err(_) => unreachable!(),
    }
}

/// The number of the last of the first `count` modules of a library that has a name, if there is one.
fn find_within(library: &Library, count: usize, name: &str) -> Option<usize>
    requires { count ≤ length library.now }
    ensures number { result ≡ last_named (take count library.now) name.now }
    ensures within { IfSome result (λ n. n < count) }
{
    let mut last = None;
    for i in 0..count {
        if library.module(i).name() == name {
            last = Some(i);
        }
    }
    last
}

impl Known {
    /// The modules of a text. None are known where it has no tokens.
    pub fn of(alloc: Global, text: &[u8]) -> Result<Known, NoMemory>
        requires { length text.now ≤ 16777216 }
        ensures { IfOk result (λ k. AreModulesOf text.now k.library k.counts.items) }
    {
        match tokens(alloc, text) {
            Ok(found) => modules_of_tokens(alloc, text, &found),
            Err(fault) => without_tokens(alloc, fault),
        }
    }

    /// How many modules are known before an item.
    fn count_before(&self, item: u32) -> usize
        requires { 0 < length self.now.counts.items }
        ensures { result ≡ count_before self.now.counts.items item }
    {
        let before = (item as usize).saturating_sub(1);
        self.counts[before.min(self.counts.len() - 1)]
    }

    /// The module of a name that is known before an item, if there is one.
    pub fn module_before(&self, item: u32, name: &str) -> Option<&Module>
        requires { (text : List ℕ) × AreModulesOf text self.now.library self.now.counts.items }
        ensures found { (text : List ℕ) → AreModulesOf text self.now.library self.now.counts.items → IfSome result (λ m. IsModuleAt text item name.now m.now) }
        ensures none { (text : List ℕ) → AreModulesOf text self.now.library self.now.counts.items → IfNone result (HasNoModule text item name.now) }
        ensures lawful { IfSome result (λ m. IsLawfulProgram (program_of m.now)) }
    {
        match find_within(&self.library, self.count_before(item), name) {
            Some(number) => Some(self.library.module(number)),
            None => None,
        }
    }
}
