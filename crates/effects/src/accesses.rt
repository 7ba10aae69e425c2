//! Sets of accesses.

ghost use Rattle.std.specs.Prelude.{◌↔◌, ◌⊎◌, ◌≡◌, ◌<◌, IsTrue, OnOk, IfOk, false, true, ℕ};
ghost use Rattle.effects.specs.Accesses.{Access as PlainAccess};
ghost use Rattle.effects.specs.AccessSets.{HasAccess, IsUseOf};
ghost use Rattle.effects.specs.LabelSets.{HasLabel, HasNew};
ghost use Rattle.effects.specs.Least.{IsFirst};
ghost use Rattle.effects.specs.Translation.{access as access_of};

use crate::access::Access;
use crate::label_set::LabelSet;
use crate::uses::Uses;
use sections::id::SectionId;
use std::alloc::{AllocError, Global};
use types::code::Label;

/// A set of accesses.
#[derive(Drop)]
pub struct Accesses {
    reads: Uses,
    writes: Uses,
}

impl Accesses {
    /// Returns an empty set. It allocates no memory.
    pub fn new(alloc: Global) -> Accesses
        ensures { (x : PlainAccess) → HasAccess result x → ⊥ }
    {
        Accesses {
            reads: Uses::new(alloc),
            writes: Uses::new(alloc),
        }
    }

    /// Returns whether the set contains an access.
    pub fn has(&self, access: Access) -> bool
        ensures { IsTrue result ↔ HasAccess self.now (access_of access) }
    {
        if access.write {
            self.writes.has(access.section, access.label)
        } else {
            self.reads.has(access.section, access.label)
        }
    }

    /// Returns the smallest label of the accesses of this kind to a section.
    pub fn first(&self, section: SectionId, write: bool) -> Option<Label>
        ensures { IsFirst (HasAccess self.now) section.number write result }
    {
        if write {
            self.writes.first(section)
        } else {
            self.reads.first(section)
        }
    }

    /// Adds one access: the statement with this label writes, or reads, the section.
    pub fn insert(
        &mut self,
        alloc: Global,
        section: SectionId,
        write: bool,
        label: Label,
    ) -> Result<(), AllocError>
        ensures { OnOk result ((x : PlainAccess) → HasAccess self.new x
            ↔ (HasAccess self.old x ⊎ (IsUseOf section.number write x × (x.label ≡ label)))) }
    {
        if write {
            self.writes.insert(alloc, section, label)
        } else {
            self.reads.insert(alloc, section, label)
        }
    }

    /// Adds an access for each of these labels: the statements write, or read, the section. Returns
    /// false if no access was new.
    pub fn unite(
        &mut self,
        alloc: Global,
        section: SectionId,
        write: bool,
        labels: &LabelSet,
    ) -> Result<bool, AllocError>
        ensures both { OnOk result ((x : PlainAccess) → HasAccess self.new x
            ↔ (HasAccess self.old x ⊎ (IsUseOf section.number write x
            × HasLabel labels.now x.label))) }
        ensures grown { IfOk result (λ grown. grown ≡ false
            → (l : ℕ) → HasLabel labels.now l
            → HasAccess self.old (record { label = l; section = section.number; write = write })) }
        ensures new { IfOk result (λ grown. grown ≡ true → HasNew
            (λ l. HasAccess self.old (record { label = l; section = section.number; write = write }))
            (HasLabel labels.now)) }
    {
        if write {
            self.writes.unite(alloc, section, labels)
        } else {
            self.reads.unite(alloc, section, labels)
        }
    }

    /// Returns the labels of the statements that write a section, or of those that read it.
    pub fn copied(
        &self,
        alloc: Global,
        section: SectionId,
        write: bool,
    ) -> Result<LabelSet, AllocError>
        ensures { IfOk result (λ labels. (l : ℕ) → HasLabel labels l
            ↔ HasAccess self.now (record { label = l; section = section.number; write = write })) }
    {
        if write {
            self.writes.copied(alloc, section)
        } else {
            self.reads.copied(alloc, section)
        }
    }

    /// Returns an upper bound: each accessed section has a smaller number.
    pub fn end(&self) -> usize
        ensures { (x : PlainAccess) → HasAccess self.now x → x.section < result }
    {
        self.reads.end().max(self.writes.end())
    }
}
