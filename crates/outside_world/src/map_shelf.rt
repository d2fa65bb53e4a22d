ghost use Rattle.std.specs.Prelude.{◌≡◌, ◌≤◌, ◌+◌, ℕ, List, Option, Some, None, Err, IfOk, IfErr, OnOk, OnErr, [], ◌∷◌, option_copied};
ghost use Rattle.std.specs.FinMap as map;
ghost use Rattle.outside_world.specs.Causes.{Rose};
ghost use Rattle.outside_world.specs.Shelf.{answered, failed, file_in, on_shelf, holding, HasCause, HasPut};
ghost use Rattle.outside_world.specs.declared.faults.ShelfFault.TheVariants as fault;
ghost use Rattle.outside_world.specs.Journal.{files_of, told_by};

use crate::file_name::is_same;
use crate::{ByteBuffer, FileName, Shelf, ShelfFault};
use lics_text::Memory;
use std::collections::VecDeque;

/// What happened on a shelf in memory.
#[derive(Drop)]
pub(crate) enum Entry {
    // A file was put there, by no call of the shelf.
    Added(FileName, ByteBuffer),
    // A call was done that changed no file.
    Asked,
    Put(FileName, ByteBuffer),
    Removed(FileName),
    // A call failed, and this is what its file then held.
    Failed(Option<ByteBuffer>),
}

/// A shelf in memory. The calls with the given numbers, counted from 1, fail, and leave the files as they were. It
/// keeps what happened on it, the newest first.
#[derive(Drop)]
pub struct MapShelf {
    journal: VecDeque<Entry>,
    failing: Vec<u64>,
    calls: u64,
    faults: u64,
}

impl MapShelf {
    ghost use Rattle.outside_world.specs.Told.{shelf_told, shelf_faults};

    /// A shelf with no file.
    pub fn new(failing: Vec<u64>) -> MapShelf
        ensures empty { shelf_told result ≡ on_shelf map.empty [] }
        ensures fresh { shelf_faults result ≡ 0 }
    {
        MapShelf {
            journal: VecDeque::new(*failing.allocator()),
            failing,
            calls: 0,
            faults: 0,
        }
    }

    /// Puts a file there, by no call that is counted. After want of memory the files are as they were.
    pub fn add(&mut self, name: FileName, bytes: ByteBuffer) -> Result<(), Memory>
        ensures ok { OnOk result (shelf_told self.new ≡ holding name (Some bytes) (shelf_told self.old)) }
        ensures err { OnErr result (shelf_told self.new ≡ shelf_told self.old) }
        ensures faults { shelf_faults self.new ≡ shelf_faults self.old }
    {
        self.journal.push_front(Entry::Added(name, bytes))?;
        Ok(())
    }
}

// The newest entry that tells of a file.
fn held<'a>(journal: &'a VecDeque<Entry>, name: &FileName) -> Option<&'a ByteBuffer>
    ensures { option_copied result ≡ file_in name.now (files_of journal.now.items) }
{
    for entry in journal {
        match entry {
            Entry::Added(other, bytes) | Entry::Put(other, bytes) => {
                if is_same(name, other) {
                    return Some(bytes);
                }
            }
            Entry::Removed(other) => {
                if is_same(name, other) {
                    return None;
                }
            }
            Entry::Asked | Entry::Failed(_) => {}
        }
    }
    None
}

// What a file holds.
fn copy_held(journal: &VecDeque<Entry>, name: &FileName) -> Result<Option<ByteBuffer>, Memory>
    ensures { IfOk result (λ copy. copy ≡ file_in name.now (files_of journal.now.items)) }
{
    match held(journal, name) {
        Some(bytes) => Ok(Some(bytes.copy()?)),
        None => Ok(None),
    }
}

impl MapShelf {
    ghost use Rattle.outside_world.specs.Told.{shelf_told, shelf_faults};

    // Whether the next call is to fail.
    fn begin(&mut self) -> bool
        ensures told { shelf_told self.new ≡ shelf_told self.old }
        ensures faults { shelf_faults self.new ≡ shelf_faults self.old }
    {
        self.calls = self.calls.saturating_add(1);
        self.failing.contains(&self.calls)
    }

    // Adds to what happened.
    fn enter(&mut self, entry: Entry) -> Result<(), ShelfFault>
        ensures ok { OnOk result (self.new.journal.items ≡ entry ∷ self.old.journal.items) }
        ensures err { IfErr result (λ e. (e ≡ fault.Memory) × (self.new.journal.items ≡ self.old.journal.items)) }
        ensures faults { shelf_faults self.new ≡ shelf_faults self.old }
    {
        match self.journal.push_front(entry) {
            Ok(()) => Ok(()),
            Err(_) => Err(ShelfFault::Memory),
        }
    }

    // A call fails, and its file stays.
    #[tactic(auto, using(crate::proofs::Found::no_put))]
    fn fail(&mut self, name: &FileName) -> ShelfFault
        ensures failed { result ≡ fault.Failed →
            (shelf_told self.new
            ≡ answered (failed (file_in name.now (shelf_told self.old).files)) (shelf_told self.old))
            × (shelf_faults self.old ≤ shelf_faults self.new) × Rose (shelf_faults self.old) (shelf_faults self.new) }
        ensures put { (bytes : List ℕ) →
            HasPut name.now bytes (Some (shelf_told self.old)) (Some (shelf_told self.new)) (Err result) }
        ensures memory { result ≡ fault.Memory →
            (shelf_told self.new ≡ shelf_told self.old) × (shelf_faults self.new ≡ shelf_faults self.old) }
    {
        let Ok(copy) = copy_held(&self.journal, name) else {
            return ShelfFault::Memory;
        };
        match self.enter(Entry::Failed(copy)) {
            Ok(()) => {
                self.faults = self.faults.saturating_add(1);
                ShelfFault::Failed
            }
            Err(fault) => fault,
        }
    }
}

impl Shelf for MapShelf {
    ghost use Rattle.outside_world.specs.Told.{shelf_told, shelf_faults};

    ghost holds = { λ s. Some (told_by s.journal.items) };

    ghost faults = { λ s. s.faults };

    fn has(&mut self, name: &FileName) -> Result<bool, ShelfFault> {
        if self.begin() {
            return Err(self.fail(name));
        }
        let there = held(&self.journal, name).is_some();
        self.enter(Entry::Asked)?;
        Ok(there)
    }

    fn get(&mut self, name: &FileName) -> Result<Option<ByteBuffer>, ShelfFault> {
        if self.begin() {
            return Err(self.fail(name));
        }
        let Ok(copy) = copy_held(&self.journal, name) else {
            return Err(ShelfFault::Memory);
        };
        self.enter(Entry::Asked)?;
        Ok(copy)
    }

    // A put that fails leaves its file too.
    #[tactic(auto, using(crate::proofs::Found::unchanged_put))]
    fn put(&mut self, name: &FileName, bytes: &ByteBuffer) -> Result<(), ShelfFault>
        ensures held { HasPut name.now bytes.now (Some (shelf_told self.old)) (Some (shelf_told self.new)) result }
        ensures cause { HasCause (shelf_faults self.old) (shelf_faults self.new) result }
        ensures kept { OnErr result ((shelf_told self.new).files ≡ (shelf_told self.old).files) }
    {
        if self.begin() {
            return Err(self.fail(name));
        }
        let Ok(copy) = bytes.copy() else {
            return Err(ShelfFault::Memory);
        };
        self.enter(Entry::Put(name.copy(), copy))
    }

    fn remove(&mut self, name: &FileName) -> Result<bool, ShelfFault> {
        if self.begin() {
            return Err(self.fail(name));
        }
        let there = held(&self.journal, name).is_some();
        self.enter(Entry::Removed(name.copy()))?;
        Ok(there)
    }
}
