//! What is read of a document so far.
ghost use Rattle.std.specs.Prelude.{◌≡◌, [], length, OnOk, IfSome, IfNone, IsSome, None};
ghost use Rattle.mau_facts.specs.Fronts.{start, added, with_term, with_fact, place_of, terms_so_far, facts_so_far};

use crate::document::{Fact, Section, TermLine};
use crate::entry::{Entry, Place};
use mau_terms::{NoMemory, Seq, Text};
use std::alloc::Global;
use std::marker::Model;

/// A section without its last line.
#[derive(Drop)]
pub struct Begun {
    item: u32,
    name: Text,
    terms: Vec<TermLine>,
    facts: Vec<Fact>,
}

impl Model for Begun {
    ghost use Rattle.mau_facts.specs.declared.document.Section.{Section};

    ghost Value = { Section };

    ghost view = { λ x. record { item = x.item; «module» = x.name; terms = x.terms.items; facts = x.facts.items } };
}

impl Begun {
    /// A section of its first line.
    fn new(alloc: Global, item: u32, name: Text) -> Begun
        ensures { result ≡ record { item = item; «module» = name; terms = []; facts = [] } }
    {
        Begun {
            item,
            name,
            terms: Vec::new(alloc),
            facts: Vec::new(alloc),
        }
    }

    /// One term more.
    fn push_term(&mut self, term: TermLine) -> Result<(), NoMemory>
        ensures { OnOk result (self.new ≡ with_term term self.old) }
    {
        self.terms.push(term)?;
        Ok(())
    }

    /// One fact more.
    fn push_fact(&mut self, fact: Fact) -> Result<(), NoMemory>
        ensures { OnOk result (self.new ≡ with_fact fact self.old) }
    {
        self.facts.push(fact)?;
        Ok(())
    }

    /// How many terms there are.
    fn term_count(&self) -> usize
        ensures { result ≡ length self.now.terms }
    {
        self.terms.len()
    }

    /// How many facts there are.
    fn fact_count(&self) -> usize
        ensures { result ≡ length self.now.facts }
    {
        self.facts.len()
    }

    /// The section.
    fn end(self) -> Section
        ensures { result ≡ self }
    {
        let Begun {
            item,
            name,
            terms,
            facts,
        } = self;
        Section {
            item,
            module: name,
            terms: Seq::new(terms),
            facts: Seq::new(facts),
        }
    }
}

/// Sections, and one that is not ended yet.
#[derive(Drop)]
pub struct Progress {
    done: Vec<Section>,
    begun: Option<Begun>,
}

impl Model for Progress {
    ghost use Rattle.mau_facts.specs.Lines.{Front};

    ghost Value = { Front };

    ghost view = { λ p. record { done = p.done.items; begun = p.begun } };
}

impl Progress {
    /// Nothing so far.
    pub fn new(alloc: Global) -> Progress
        ensures { result ≡ start }
    {
        Progress {
            done: Vec::new(alloc),
            begun: None,
        }
    }

    /// Where the next line stands.
    pub fn place(&self) -> Place
        ensures { result ≡ place_of self.now.begun }
    {
        match &self.begun {
            None => Place::Outside,
            Some(section) => {
                if section.fact_count() == 0 {
                    Place::AmongTerms
                } else {
                    Place::AmongFacts
                }
            }
        }
    }

    /// How many terms the open section has.
    pub fn terms(&self) -> u64
        ensures { result ≡ terms_so_far self.now.begun }
    {
        match &self.begun {
            None => 0,
            Some(section) => section.term_count() as u64,
        }
    }

    /// How many facts the open section has.
    pub fn facts(&self) -> u64
        ensures { result ≡ facts_so_far self.now.begun }
    {
        match &self.begun {
            None => 0,
            Some(section) => section.fact_count() as u64,
        }
    }

    /// Ends the open section.
    fn end(&mut self) -> Result<(), NoMemory>
        ensures { OnOk result (self.new ≡ added self.old Entry.End) }
    {
        if let Some(section) = self.begun.take() {
            self.done.push(section.end())?;
        }
        Ok(())
    }

    /// One line more.
    pub fn add(&mut self, alloc: Global, entry: Entry) -> Result<(), NoMemory>
        ensures { OnOk result (self.new ≡ added self.old entry) }
    {
        match entry {
            Entry::Begin(item, name) => {
                self.begun = Some(Begun::new(alloc, item, name));
                Ok(())
            }
            Entry::Term(term) => match &mut self.begun {
                None => Ok(()),
                Some(section) => section.push_term(term),
            },
            Entry::Fact(fact) => match &mut self.begun {
                None => Ok(()),
                Some(section) => section.push_fact(fact),
            },
            Entry::End => self.end(),
        }
    }

    /// The sections, if none is open.
    pub fn sections(self) -> Option<Seq<Section>>
        ensures some { IfSome result (λ xs. (xs ≡ self.done) × (self.begun ≡ None)) }
        ensures none { IfNone result (IsSome self.begun) }
    {
        let Progress { done, begun } = self;
        match begun {
            None => Some(Seq::new(done)),
            Some(_) => None,
        }
    }
}
