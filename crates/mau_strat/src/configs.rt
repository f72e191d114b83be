//! Configurations as numbers.
ghost use Rattle.std.specs.Prelude.{◌≡◌, ◌↔◌, ℕ, ◌∷◌, ◌<◌, [], length, slice_get, Some, IsTrue, IfOk, OnErr, MatchOption};
ghost use Rattle.mau_strat.specs.Sharing.{list_at};
ghost use Rattle.mau_strat.specs.Interned.{nothing, IsInterned, Grows, AddsBinding, AddsTodos, AddsFrames, AddsConfig, IsWithin};

use crate::lists::Lists;
use crate::numbered::Numbered;
use mau_terms::{NoMemory, TermId, VarId};
use std::alloc::Global;
use std::marker::Model;

/// The number of a strategy.
#[derive(Clone, Copy, PartialEq, Eq, Hash, Debug)]
pub struct StrategyId(pub usize);

/// The number of a list of variables with their values.
#[derive(Clone, Copy, PartialEq, Eq, Hash, Debug)]
pub struct BindingId(pub usize);

/// The number of a list of what is left to do.
#[derive(Clone, Copy, PartialEq, Eq, Hash, Debug)]
pub struct TodosId(pub usize);

/// The number of a chain of frames, the innermost first.
#[derive(Clone, Copy, PartialEq, Eq, Hash, Debug)]
pub struct FramesId(pub usize);

/// A variable with its value.
#[derive(Clone, Copy, PartialEq, Eq, Hash, Debug)]
pub struct Bound {
    pub variable: VarId,
    pub value: TermId,
}

/// One member of what is left to do: a strategy, with the calls that are left to it and the values of its variables.
#[derive(Clone, Copy, PartialEq, Eq, Hash, Debug)]
pub struct Todo {
    pub form: StrategyId,
    pub calls: usize,
    pub values: BindingId,
}

/// An enclosing test: its strategy, what follows a result of it, the term on which it began, and the rest behind it.
#[derive(Clone, Copy, PartialEq, Eq, Hash, Debug)]
pub struct Frame {
    pub test: Todo,
    pub after: Todo,
    pub begun: TermId,
    pub behind: TodosId,
}

/// A term, the rest of the strategy, and the chain of frames.
#[derive(Clone, Copy, PartialEq, Eq, Hash, Debug)]
pub struct Config {
    pub term: TermId,
    pub todo: TodosId,
    pub frames: FramesId,
}

/// Configurations by their numbers, with the lists that they are made of. None is taken out. A list that is there keeps its number as one
/// is added, and the empty one has the number 0. Out of memory, all stays as it was.
#[derive(Drop)]
pub struct Interner {
    bindings: Lists<Bound>,
    todos: Lists<Todo>,
    frames: Lists<Frame>,
    configs: Numbered<Config>,
}

impl Model for Interner {
    ghost use Rattle.mau_strat.specs.Interned.{Interned, IsInterned};

    ghost Value = { Interned };

    ghost view = { λ i. record { bindings = i.bindings; todos = i.todos; frames = i.frames; configs = i.configs } };

    ghost invariant = { λ i. IsInterned (record { bindings = i.bindings; todos = i.todos; frames = i.frames; configs = i.configs }) };
}

impl Interner {
    /// No configurations, and of lists the empty ones alone, with the number 0.
    pub fn new(alloc: Global) -> Interner
        ensures { result ≡ nothing }
    {
        Interner {
            bindings: Lists::new(alloc),
            todos: Lists::new(alloc),
            frames: Lists::new(alloc),
            configs: Numbered::new(alloc),
        }
    }

    /// The number of the binding with this variable and its value before the rest.
    pub fn add_bound(&mut self, first: Bound, rest: BindingId) -> Result<BindingId, NoMemory>
        requires rest { rest.0 < length self.old.bindings }
        ensures ok { IfOk result (λ id. slice_get self.new.bindings id.0 ≡ Some (first ∷ list_at self.old.bindings rest.0)) }
        ensures adds { AddsBinding self.old (first ∷ list_at self.old.bindings rest.0) self.new }
        ensures grows { Grows self.old self.new }
        ensures unchanged { OnErr result (self.new ≡ self.old) }
        ensures interned { IsInterned self.new }
        ensures within { (terms strategies : ℕ) → IsWithin terms strategies self.old → first.value.0 < terms → IsWithin terms strategies self.new }
    {
        let id = self.bindings.add(first, rest.0)?;
        Ok(BindingId(id))
    }

    /// The number of the list with this member before the rest.
    pub fn add_todo(&mut self, first: Todo, rest: TodosId) -> Result<TodosId, NoMemory>
        requires values { first.values.0 < length self.old.bindings }
        requires rest { rest.0 < length self.old.todos }
        ensures ok { IfOk result (λ id. slice_get self.new.todos id.0 ≡ Some (first ∷ list_at self.old.todos rest.0)) }
        ensures adds { AddsTodos self.old (first ∷ list_at self.old.todos rest.0) self.new }
        ensures grows { Grows self.old self.new }
        ensures unchanged { OnErr result (self.new ≡ self.old) }
        ensures interned { IsInterned self.new }
        ensures within { (terms strategies : ℕ) → IsWithin terms strategies self.old → first.form.0 < strategies → IsWithin terms strategies self.new }
    {
        let id = self.todos.add(first, rest.0)?;
        Ok(TodosId(id))
    }

    /// The number of the chain with this frame inside the rest.
    pub fn add_frame(&mut self, first: Frame, rest: FramesId) -> Result<FramesId, NoMemory>
        requires test { first.test.values.0 < length self.old.bindings }
        requires after { first.after.values.0 < length self.old.bindings }
        requires behind { first.behind.0 < length self.old.todos }
        requires rest { rest.0 < length self.old.frames }
        ensures ok { IfOk result (λ id. slice_get self.new.frames id.0 ≡ Some (first ∷ list_at self.old.frames rest.0)) }
        ensures adds { AddsFrames self.old (first ∷ list_at self.old.frames rest.0) self.new }
        ensures grows { Grows self.old self.new }
        ensures unchanged { OnErr result (self.new ≡ self.old) }
        ensures interned { IsInterned self.new }
        ensures within { (terms strategies : ℕ) → IsWithin terms strategies self.old → first.test.form.0 < strategies → first.after.form.0 < strategies → first.begun.0 < terms → IsWithin terms strategies self.new }
    {
        let id = self.frames.add(first, rest.0)?;
        Ok(FramesId(id))
    }

    /// The number of a configuration. One that is there keeps its number; another has the next one. Out of memory, all stays as it was.
    pub fn add_config(&mut self, config: Config) -> Result<usize, NoMemory>
        requires todo { config.todo.0 < length self.old.todos }
        requires frames { config.frames.0 < length self.old.frames }
        ensures ok { IfOk result (λ number. slice_get self.new.configs number ≡ Some config) }
        ensures adds { AddsConfig self.old config self.new }
        ensures grows { Grows self.old self.new }
        ensures unchanged { OnErr result (self.new ≡ self.old) }
        ensures interned { IsInterned self.new }
        ensures within { (terms strategies : ℕ) → IsWithin terms strategies self.old → config.term.0 < terms → IsWithin terms strategies self.new }
    {
        self.configs.add(config)
    }

    /// Whether a binding has this number.
    pub fn has_binding(&self, id: BindingId) -> bool
        ensures { IsTrue result ↔ (id.0 < length self.now.bindings) }
    {
        id.0 < self.bindings.len()
    }

    /// Whether a list of what is left to do has this number.
    pub fn has_todos(&self, id: TodosId) -> bool
        ensures { IsTrue result ↔ (id.0 < length self.now.todos) }
    {
        id.0 < self.todos.len()
    }

    /// Whether a chain of frames has this number.
    pub fn has_frames(&self, id: FramesId) -> bool
        ensures { IsTrue result ↔ (id.0 < length self.now.frames) }
    {
        id.0 < self.frames.len()
    }

    /// The first variable with its value, and the rest of a binding; none of the empty one.
    pub fn bound_parts(&self, id: BindingId) -> Option<(Bound, BindingId)>
        requires { id.0 < length self.now.bindings }
        ensures parts { MatchOption result (list_at self.now.bindings id.0 ≡ []) (λ p. list_at self.now.bindings id.0 ≡ p.0 ∷ list_at self.now.bindings p.1.0) }
        ensures older { MatchOption result (id.0 ≡ 0) (λ p. p.1.0 < id.0) }
        ensures interned { IsInterned self.now }
    {
        let (first, rest) = self.bindings.parts(id.0)?;
        Some((first, BindingId(rest)))
    }

    /// The first member of what is left to do, and the rest; none where nothing is left.
    pub fn todo_parts(&self, id: TodosId) -> Option<(Todo, TodosId)>
        requires { id.0 < length self.now.todos }
        ensures parts { MatchOption result (list_at self.now.todos id.0 ≡ []) (λ p. list_at self.now.todos id.0 ≡ p.0 ∷ list_at self.now.todos p.1.0) }
        ensures older { MatchOption result (id.0 ≡ 0) (λ p. p.1.0 < id.0) }
        ensures interned { IsInterned self.now }
    {
        let (first, rest) = self.todos.parts(id.0)?;
        Some((first, TodosId(rest)))
    }

    /// The innermost frame, and the rest of a chain; none of the empty one.
    pub fn frame_parts(&self, id: FramesId) -> Option<(Frame, FramesId)>
        requires { id.0 < length self.now.frames }
        ensures parts { MatchOption result (list_at self.now.frames id.0 ≡ []) (λ p. list_at self.now.frames id.0 ≡ p.0 ∷ list_at self.now.frames p.1.0) }
        ensures older { MatchOption result (id.0 ≡ 0) (λ p. p.1.0 < id.0) }
        ensures interned { IsInterned self.now }
    {
        let (first, rest) = self.frames.parts(id.0)?;
        Some((first, FramesId(rest)))
    }

    /// The configuration with a number.
    pub fn config(&self, number: usize) -> Config
        requires { number < length self.now.configs }
        ensures config { slice_get self.now.configs number ≡ Some result }
        ensures interned { IsInterned self.now }
    {
        self.configs.at(number)
    }

    /// How many configurations there are.
    pub fn len(&self) -> usize
        ensures len { result ≡ length self.now.configs }
        ensures interned { IsInterned self.now }
    {
        self.configs.len()
    }

    /// Whether there is none.
    pub fn is_empty(&self) -> bool
        ensures { IsTrue result ↔ (length self.now.configs ≡ 0) }
    {
        self.configs.len() == 0
    }
}
