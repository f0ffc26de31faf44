ghost use Rattle.std.specs.Prelude.{◌≡◌, ◌↔◌, ◌≤◌, ◌==◌, ◌++◌, [], ◌∷◌, List, ℕ, Some, IfOk, IsErrOf, IsSome, IsTrue, OnErr, OnOk};
ghost use Rattle.std.specs.FinMap as map;
ghost use Rattle.std.specs.List.{list_any};
ghost use Rattle.std.specs.Option.{option_copied, option_map};
ghost use Rattle.vt_io.specs.Counts.{Advances, Rose};
ghost use Rattle.vt_io.specs.Fetched.{IsFetched};
ghost use Rattle.vt_io.specs.Memory.{after_fetch, fails, faults_in, held_in, raised, told, with_fault, IsCalm};

use crate::{Bytes, FetchFault, Fetched, Files};
use std::alloc::{AllocError, Global};
use std::collections::BTreeMap;
use std::marker::Model;

#[derive(Debug, Drop)]
struct MemFile {
    bytes: Vec<u8>,
    faults: u64,
}

impl MemFile {
    // The bytes, if they are no more than the limit.
    fn read(&self, alloc: Global, limit: usize) -> Result<Fetched, FetchFault>
        ensures fetched { IfOk result (IsFetched (Some self.now.bytes.items) limit) }
        ensures never_failed { IsErrOf result FetchFault.Failed → ⊥ }
    {
        if self.bytes.len() > limit {
            return Ok(Fetched::TooLong);
        }
        let bytes = Vec::from_slice(alloc, &self.bytes).map_err(|_| FetchFault::Memory)?;
        Ok(Fetched::Whole(Bytes::new(bytes)))
    }

    fn count_fault(&mut self)
        ensures after { self.new ≡ record self.old { faults = raised self.old.faults } }
        ensures never_falls { self.old.faults ≤ self.new.faults }
    {
        self.faults = self.faults.saturating_add(1);
    }
}

/// Files in memory, which tell all that they hold. A fetch fails where its number is listed by
/// [`MemFiles::fail_at`] or where nothing is held under its name.
#[derive(Debug, Drop)]
pub struct MemFiles {
    alloc: Global,
    files: BTreeMap<String, MemFile>,
    others: u64,
    failing: Vec<u64>,
    fetches: u64,
}

impl Model for MemFiles {
    ghost use Rattle.vt_io.specs.Memory.{MemoryFiles, memory_files_code};

    ghost Value = { MemoryFiles };

    ghost coded = { memory_files_code };

    ghost use Rattle.vt_io.specs.Kept.{files_of};

    ghost view = { λ m. record { files = files_of m.files; others = m.others; failing = m.failing.items; fetches = m.fetches } };
}

impl MemFiles {
    ghost use Rattle.vt_io.specs.Kept.{file_of};

    /// No files, no failures.
    pub fn new(alloc: Global) -> MemFiles
        ensures { result ≡ record { files = map.empty; others = 0; failing = []; fetches = 0 } }
    {
        MemFiles {
            alloc,
            files: BTreeMap::new(alloc),
            others: 0,
            failing: Vec::new(alloc),
            fetches: 0,
        }
    }

    /// Sets the bytes of a name. A name that was not held keeps the count of failures that it had.
    pub fn add(&mut self, name: &str, bytes: &[u8]) -> Result<(), AllocError>
        ensures ok { OnOk result (self.new ≡ record self.old { files = map.insert self.old.files name.now (bytes.now, faults_in self.old name.now) }) }
        ensures err { OnErr result (self.new ≡ self.old) }
    {
        let faults = self.faults_of(name);
        let bytes = Vec::from_slice(self.alloc, bytes)?;
        let name = String::from_str(self.alloc, name)?;
        self.files.insert(name, MemFile { bytes, faults })?;
        Ok(())
    }

    /// Makes the fetch of this number fail; the first fetch has the number 1.
    pub fn fail_at(&mut self, call: u64) -> Result<(), AllocError>
        ensures ok { OnOk result (self.new ≡ record self.old { failing = self.old.failing ++ call ∷ [] }) }
        ensures err { OnErr result (self.new ≡ self.old) }
    {
        self.failing.push(call)?;
        Ok(())
    }

    fn file(&self, name: &str) -> Option<&MemFile>
        ensures { option_map file_of (option_copied result) ≡ map.get self.now.files name.now }
    {
        self.files.get(name)
    }

    fn faults_of(&self, name: &str) -> u64
        ensures { result ≡ faults_in self.now name.now }
    {
        match self.file(name) {
            Some(file) => file.faults,
            None => self.others,
        }
    }

    // The number of the next fetch is listed.
    fn is_listed(&self) -> bool
        ensures { result ≡ list_any (λ call. call == raised self.now.fetches) self.now.failing }
    {
        self.failing.contains(&self.fetches.saturating_add(1))
    }

    fn count_fault(&mut self, name: &str)
        ensures after { self.new ≡ with_fault self.old name.now (map.get self.old.files name.now) }
        ensures never_falls { (other : List ℕ) → faults_in self.old other ≤ faults_in self.new other }
    {
        match self.files.get_mut(name) {
            Some(file) => file.count_fault(),
            None => self.others = self.others.saturating_add(1),
        }
    }
}

impl Files for MemFiles {
    ghost held = { held_in };

    ghost faults = { faults_in };

    ghost fetches = { λ m. told m.fetches };

    ghost calm = { IsCalm };

    fn fetch(&mut self, alloc: Global, name: &str, limit: usize) -> Result<Fetched, FetchFault>
        ensures fetched { IfOk result (IsFetched (held_in self.old name.now) limit) }
        ensures failed { IsErrOf result FetchFault.Failed → Rose (faults_in self.old name.now) (faults_in self.new name.now) }

        ensures same { (other : List ℕ) → held_in self.new other ≡ held_in self.old other }
        ensures never_falls { (other : List ℕ) → faults_in self.old other ≤ faults_in self.new other }
        ensures counted { Advances (told self.old.fetches) (told self.new.fetches) }

        ensures stays_calm { IsCalm self.old → IsCalm self.new }
        ensures no_fault { IsCalm self.old → (other : List ℕ) → IsSome (held_in self.old other) → faults_in self.new other ≡ faults_in self.old other }

        // Which fetches fail, and all that a fetch changes.
        ensures exact { IsErrOf result FetchFault.Failed ↔ IsTrue (fails self.old name.now) }
        ensures after { self.new ≡ after_fetch self.old name.now }
    {
        let listed = self.is_listed();
        self.fetches = self.fetches.saturating_add(1);
        match self.file(name) {
            Some(file) if !listed => file.read(alloc, limit),
            _ => {
                self.count_fault(name);
                Err(FetchFault::Failed)
            }
        }
    }

    ghost room_to_count = { λ _ name calm held. calm.counts name held };
}
