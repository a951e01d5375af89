//! A library in memory.
ghost use Rattle.std.specs.Prelude.{◌≡◌, ◌↔◌, [], Some, IfSome, IfOk, OnOk, OnErr, IsTrue, MatchResult, take};
ghost use Rattle.std.specs.Option.{option_copied};
ghost use Rattle.cu_io.specs.Calls.{no_calls};
ghost use Rattle.cu_io.specs.Fetches.{FetchCount, Fetches};
ghost use Rattle.cu_io.specs.Shelf.{Copies, after_call, fails_next, is_file, is_module, newest_file, newest_module, shelf_holdings, with_file, with_module};

use crate::calls::Calls;
use crate::library::{Fetched, Library, MAX_FETCHED_BYTES};
use std::alloc::{AllocError, Global};
use std::marker::Model;

/// The text of a module.
#[derive(Drop)]
struct HeldModule {
    dir: String,
    name: String,
    text: Vec<u8>,
}

impl Model for HeldModule {
    ghost use Rattle.cu_io.specs.Shelf.{ModuleText};
    ghost use Rattle.std.specs.String.{string_bytes};

    ghost Value = { ModuleText };

    ghost view = { λ held. record {
      dir = string_bytes held.dir;
      name = string_bytes held.name;
      text = held.text.items;
    } };
}

impl HeldModule {
    fn new(alloc: Global, dir: &str, name: &str, text: &[u8]) -> Result<HeldModule, AllocError>
        ensures { IfOk result (λ held.
            held ≡ record { dir = dir.now; name = name.now; text = text.now }) }
    {
        Ok(HeldModule {
            dir: String::from_str(alloc, dir)?,
            name: String::from_str(alloc, name)?,
            text: Vec::from_slice(alloc, text)?,
        })
    }

    fn is_at(&self, dir: &str, name: &str) -> bool
        ensures { result ≡ is_module dir.now name.now self.now }
    {
        self.dir.as_str() == dir && self.name.as_str() == name
    }

    fn text(&self) -> &[u8]
        ensures { result.now ≡ self.now.text }
    {
        self.text.as_slice()
    }
}

/// The text at a path.
#[derive(Drop)]
struct HeldFile {
    path: String,
    text: Vec<u8>,
}

impl Model for HeldFile {
    ghost use Rattle.cu_io.specs.Shelf.{FileText};
    ghost use Rattle.std.specs.String.{string_bytes};

    ghost Value = { FileText };

    ghost view = { λ held. record { path = string_bytes held.path; text = held.text.items } };
}

impl HeldFile {
    fn new(alloc: Global, path: &str, text: &[u8]) -> Result<HeldFile, AllocError>
        ensures { IfOk result (λ held. held ≡ record { path = path.now; text = text.now }) }
    {
        Ok(HeldFile {
            path: String::from_str(alloc, path)?,
            text: Vec::from_slice(alloc, text)?,
        })
    }

    fn is_at(&self, path: &str) -> bool
        ensures { result ≡ is_file path.now self.now }
    {
        self.path.as_str() == path
    }

    fn text(&self) -> &[u8]
        ensures { result.now ≡ self.now.text }
    {
        self.text.as_slice()
    }
}

/// The first bytes of a text, `most` at most.
fn prefix(text: &[u8], most: usize) -> &[u8]
    ensures { result.now ≡ take most text.now }
{
    &text[..most.min(text.len())]
}

/// The first bytes of a text that is held, as many as a library gives, or
/// `Absent` where there is none.
fn copied(alloc: Global, held: Option<&[u8]>) -> Result<Fetched, AllocError>
    ensures { IfOk result (Copies (option_copied held.entry)) }
{
    match held {
        Some(text) => Ok(Fetched::Text(Vec::from_slice(alloc, prefix(text, MAX_FETCHED_BYTES))?)),
        None => Ok(Fetched::Absent),
    }
}

/// The newest text of a module.
fn newest_module<'a>(modules: &'a [HeldModule], dir: &str, name: &str) -> Option<&'a [u8]>
    ensures { option_copied result ≡ newest_module modules.now dir.now name.now }
{
    modules
        .iter()
        .find(|held| held.is_at(dir, name))
        .map(|held| held.text())
}

/// The newest text at a path.
fn newest_file<'a>(files: &'a [HeldFile], path: &str) -> Option<&'a [u8]>
    ensures { option_copied result ≡ newest_file files.now path.now }
{
    files
        .iter()
        .find(|held| held.is_at(path))
        .map(|held| held.text())
}

/// A library in memory. It holds what was added, and some of its calls of
/// `fetch` and `file` fail.
#[derive(Drop)]
pub struct ShelfLibrary {
    alloc: Global,
    modules: Vec<HeldModule>,
    files: Vec<HeldFile>,
    failing: Vec<u64>,
    calls: Calls,
}

impl Model for ShelfLibrary {
    ghost use Rattle.cu_io.specs.Shelf.{Shelf};

    ghost Value = { Shelf };

    ghost view = { λ s. record {
      modules = s.modules.items;
      files = s.files.items;
      failing = s.failing.items;
      calls = s.calls;
    } };
}

impl ShelfLibrary {
    /// A library that holds nothing. Its calls of `fetch` and `file` are
    /// numbered together, from 0; those in `failing` fail.
    pub fn new(alloc: Global, failing: Vec<u64>) -> ShelfLibrary
        ensures { result
            ≡ record { modules = []; files = []; failing = failing.items; calls = no_calls } }
    {
        ShelfLibrary {
            alloc,
            modules: Vec::new(alloc),
            files: Vec::new(alloc),
            failing,
            calls: Calls::new(),
        }
    }

    /// Holds a text as the module of a name in a directory, in place of one
    /// that is there already.
    pub fn add_module(&mut self, dir: &str, name: &str, text: &[u8]) -> Result<(), AllocError>
        ensures ok { OnOk result (self.new ≡ with_module self.old
            (record { dir = dir.now; name = name.now; text = text.now })) }
        ensures held { OnOk result
            ((shelf_holdings self.new).module_at dir.now name.now ≡ Some text.now) }
        ensures err { OnErr result (self.new ≡ self.old) }
    {
        let held = HeldModule::new(self.alloc, dir, name, text)?;
        self.modules.insert(0, held)?;
        Ok(())
    }

    /// Holds a text at a path, in place of one that is there already.
    pub fn add_file(&mut self, path: &str, text: &[u8]) -> Result<(), AllocError>
        ensures ok { OnOk result (self.new ≡ with_file self.old
            (record { path = path.now; text = text.now })) }
        ensures held { OnOk result ((shelf_holdings self.new).file_at path.now ≡ Some text.now) }
        ensures err { OnErr result (self.new ≡ self.old) }
    {
        let held = HeldFile::new(self.alloc, path, text)?;
        self.files.insert(0, held)?;
        Ok(())
    }

    fn fails_next(&self) -> bool
        ensures { result ≡ fails_next self.now }
    {
        self.failing.contains(&self.calls.next)
    }
}

impl Library for ShelfLibrary {
    ghost fault_count = { λ s. s.calls.faults };

    ghost holdings = { λ s. Some (shelf_holdings s) };

    fn faults(&self) -> u64 {
        self.calls.faults
    }

    fn fetch(&mut self, alloc: Global, dir: &str, name: &str) -> Result<Fetched, AllocError>
        ensures same { Some (shelf_holdings self.new) ≡ Some (shelf_holdings self.old) }
        ensures told { IfOk result (λ fetched. IfSome (Some (shelf_holdings self.old)) (λ held.
            Fetches (held.module_at dir.now name.now) fetched)) }
        ensures count { MatchResult result
            (λ fetched. FetchCount fetched self.old.calls.faults self.new.calls.faults)
            (λ _. self.new.calls.faults ≡ self.old.calls.faults) }
        ensures fails { IfOk result (λ fetched.
            (fetched ≡ Fetched.Failed) ↔ IsTrue (fails_next self.old)) }
        ensures after { OnOk result (self.new ≡ after_call self.old) }
        ensures err { OnErr result (self.new ≡ self.old) }
    {
        if self.fails_next() {
            self.calls.count(true);
            return Ok(Fetched::Failed);
        }
        let fetched = copied(alloc, newest_module(&self.modules, dir, name))?;
        self.calls.count(false);
        Ok(fetched)
    }

    fn file(&mut self, alloc: Global, path: &str) -> Result<Fetched, AllocError>
        ensures same { Some (shelf_holdings self.new) ≡ Some (shelf_holdings self.old) }
        ensures told { IfOk result (λ fetched. IfSome (Some (shelf_holdings self.old)) (λ held.
            Fetches (held.file_at path.now) fetched)) }
        ensures count { MatchResult result
            (λ fetched. FetchCount fetched self.old.calls.faults self.new.calls.faults)
            (λ _. self.new.calls.faults ≡ self.old.calls.faults) }
        ensures fails { IfOk result (λ fetched.
            (fetched ≡ Fetched.Failed) ↔ IsTrue (fails_next self.old)) }
        ensures after { OnOk result (self.new ≡ after_call self.old) }
        ensures err { OnErr result (self.new ≡ self.old) }
    {
        if self.fails_next() {
            self.calls.count(true);
            return Ok(Fetched::Failed);
        }
        let fetched = copied(alloc, newest_file(&self.files, path))?;
        self.calls.count(false);
        Ok(fetched)
    }
}
