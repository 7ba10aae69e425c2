//! The scope, which the resolver updates as it walks through a text.

#![tactic(auto, using(crate::proofs::Telling::telling))]

ghost use Rattle.std.specs.Prelude.{◌≡◌, ◌∷◌, ◌++◌, [], ◌-◌, ◌+◌, ◌≤◌, ◌<◌, length, OnOk, IfOk, IfErr, Some};
ghost use Rattle.std.specs.String.{string_bytes};
ghost use Rattle.types.specs.NameErrors.{declaring};
ghost use Rattle.types.specs.Resolving.{scope_of, left as left_by};
ghost use Rattle.types.specs.Scope.{ASection, AScalar, meant, empty_scope, with_scalar, with_root};
ghost use Rattle.types.specs.Scope.{with_sides, with_piece, with_turn, next as next_place, inside_async as in_async_body, kind_of};
ghost use Rattle.types.specs.Told.{Told};
ghost use Rattle.types.specs.Translation.{parameter};

use crate::check::names::{Meaning, Names};
use crate::code::{Label, SectionParameter};
use crate::error::TypeError;
use crate::ids::Slot;
use sections::id::SectionId;
use sections::tree::SectionTree;
use std::alloc::Global;
use syntax_tree::tree::ElementType;

/// The scope at a position in a text, and the sections of its procedure so far.
#[derive(Drop)]
pub struct NameScope {
    pub names: Names,
    /// The label of the next statement.
    pub label: Label,
    /// The slot of the next scalar.
    pub slots: usize,
    /// The slot that was next when the innermost async body started.
    pub outside: usize,
    pub sections: SectionTree,
    pub section_names: Vec<String>,
    /// Whether each section may be written, and its element type.
    pub kinds: Vec<SectionParameter>,
}

/// What is restored at the end of a block.
#[derive(Clone, Copy)]
pub struct BlockMark {
    pub names: usize,
    pub outside: usize,
}

impl NameScope {
    /// Returns the scope at the start of a procedure whose first statement has the label.
    pub fn new(alloc: Global, label: Label) -> NameScope
        ensures { scope_of result ≡ empty_scope label }
    {
        NameScope {
            names: Names::new(alloc),
            label,
            slots: 0,
            outside: 0,
            sections: SectionTree::new(alloc),
            section_names: Vec::new(alloc),
            kinds: Vec::new(alloc),
        }
    }

    /// Declares a scalar.
    pub fn scalar(&mut self, label: Option<Label>, name: &String) -> Result<(), TypeError>
        requires { self.old.slots ≤ 16 + self.old.label }
        ensures place { OnOk result
            (scope_of self.new ≡ with_scalar (string_bytes name.now) (scope_of self.old)) }
        ensures right { OnOk result (declaring label
            (meant (string_bytes name.now) (scope_of self.old).names) ≡ []) }
        ensures error { IfErr result (Told (declaring label
            (meant (string_bytes name.now) (scope_of self.old).names))) }
    {
        self.names
            .declare(label, name, Meaning::Scalar(Slot { number: self.slots }))?;
        self.slots += 1;
        Ok(())
    }

    /// Declares an array, or a section parameter.
    pub fn root(&mut self, name: &String, kind: SectionParameter) -> Result<(), TypeError>
        ensures place { OnOk result (scope_of self.new
            ≡ with_root (string_bytes name.now) (parameter kind) (scope_of self.old)) }
        ensures right { OnOk result (declaring None
            (meant (string_bytes name.now) (scope_of self.old).names) ≡ []) }
        ensures error { IfErr result (Told (declaring None
            (meant (string_bytes name.now) (scope_of self.old).names))) }
    {
        let section = self.sections.root()?;
        self.names.declare(None, name, Meaning::Section(section))?;
        self.section_names.push(name.clone()?)?;
        self.kinds.push(kind)?;
        Ok(())
    }

    /// Declares the two sides of a split in the statement with the label.
    pub fn sides(
        &mut self,
        label: Label,
        section: SectionId,
        left: &String,
        right: &String,
    ) -> Result<(SectionId, SectionId), TypeError>
        requires { section.number < length (scope_of self.old).sections }
        ensures place { OnOk result (scope_of self.new ≡ with_sides section.number
            (string_bytes left.now) (string_bytes right.now) (scope_of self.old)) }
        ensures numbers { IfOk result (λ r. (r.0.number ≡ length (scope_of self.old).sections)
            × (r.1.number ≡ length (scope_of self.old).sections + 1)) }
        ensures right { OnOk result (declaring (Some label)
            (meant (string_bytes right.now) (scope_of self.old).names)
            ++ declaring (Some label) (meant (string_bytes left.now)
            ((string_bytes right.now, ASection (length (scope_of self.old).sections + 1))
            ∷ (scope_of self.old).names)) ≡ []) }
        ensures error { IfErr result (Told (declaring (Some label)
            (meant (string_bytes right.now) (scope_of self.old).names)
            ++ declaring (Some label) (meant (string_bytes left.now)
            ((string_bytes right.now, ASection (length (scope_of self.old).sections + 1))
            ∷ (scope_of self.old).names)))) }
    {
        let kind = self.kind(section);
        let sides = self.sections.split(section)?;
        self.names
            .declare(Some(label), right, Meaning::Section(sides.1))?;
        self.names
            .declare(Some(label), left, Meaning::Section(sides.0))?;
        self.section_names.push(left.clone()?)?;
        self.section_names.push(right.clone()?)?;
        self.kinds.push(kind)?;
        self.kinds.push(kind)?;
        Ok(sides)
    }

    /// Declares the piece and the turn of a `parts` in the statement with the label.
    pub fn turn(
        &mut self,
        label: Label,
        section: SectionId,
        piece: &String,
        turn: &String,
    ) -> Result<(SectionId, Slot), TypeError>
        requires section { section.number < length (scope_of self.old).sections }
        requires slots { self.old.slots ≤ 16 + self.old.label }
        ensures place { OnOk result (scope_of self.new ≡ with_turn section.number
            (string_bytes piece.now) (string_bytes turn.now) (scope_of self.old)) }
        ensures numbers { IfOk result (λ r. (r.0.number ≡ length (scope_of self.old).sections)
            × (r.1.number ≡ (scope_of self.old).slot)) }
        ensures right { OnOk result (declaring (Some label)
            (meant (string_bytes turn.now) (scope_of self.old).names)
            ++ declaring (Some label) (meant (string_bytes piece.now)
            ((string_bytes turn.now, AScalar (scope_of self.old).slot)
            ∷ (scope_of self.old).names)) ≡ []) }
        ensures error { IfErr result (Told (declaring (Some label)
            (meant (string_bytes turn.now) (scope_of self.old).names)
            ++ declaring (Some label) (meant (string_bytes piece.now)
            ((string_bytes turn.now, AScalar (scope_of self.old).slot)
            ∷ (scope_of self.old).names)))) }
    {
        let slot = Slot { number: self.slots };
        self.scalar(Some(label), turn)?;
        let piece = self.piece(label, section, piece)?;
        Ok((piece, slot))
    }

    /// Declares the piece of a `parts` in the statement with the label.
    fn piece(
        &mut self,
        label: Label,
        section: SectionId,
        name: &String,
    ) -> Result<SectionId, TypeError>
        requires { section.number < length (scope_of self.old).sections }
        ensures place { OnOk result (scope_of self.new
            ≡ with_piece section.number (string_bytes name.now) (scope_of self.old)) }
        ensures number { IfOk result (λ s. s.number ≡ length (scope_of self.old).sections) }
        ensures right { OnOk result (declaring (Some label)
            (meant (string_bytes name.now) (scope_of self.old).names) ≡ []) }
        ensures error { IfErr result (Told (declaring (Some label)
            (meant (string_bytes name.now) (scope_of self.old).names))) }
    {
        let kind = self.kind(section);
        let piece = self.sections.part(section)?;
        self.names
            .declare(Some(label), name, Meaning::Section(piece))?;
        self.section_names.push(name.clone()?)?;
        self.kinds.push(kind)?;
        Ok(piece)
    }

    /// Returns whether a section may be written, and its element type.
    pub fn kind(&self, section: SectionId) -> SectionParameter
        ensures { parameter result ≡ kind_of (scope_of self.now) section.number }
    {
        match self.kinds.get(section.number) {
            Some(kind) => *kind,
            None => SectionParameter {
                may_write: false,
                element: ElementType::Int,
            },
        }
    }

    /// Advances past the label of a statement.
    pub fn step(&mut self)
        requires { self.old.label ≤ 65535 }
        ensures { scope_of self.new ≡ next_place (scope_of self.old) }
    {
        self.label += 1;
    }

    /// Enters an async body.
    pub fn enter_async(&mut self)
        ensures { scope_of self.new ≡ in_async_body (scope_of self.old) }
    {
        self.outside = self.slots;
    }

    /// Returns what has to be restored after a block that is about to start.
    pub fn mark(&self) -> BlockMark
        ensures names { result.names ≡ length (scope_of self.now).names }
        ensures outside { result.outside ≡ (scope_of self.now).outside }
    {
        BlockMark {
            names: self.names.len(),
            outside: self.outside,
        }
    }

    /// Leaves a block.
    pub fn leave(&mut self, mark: BlockMark)
        ensures { scope_of self.new ≡ left_by mark.names mark.outside (scope_of self.old) }
    {
        self.names.forget(mark.names);
        self.outside = mark.outside;
    }
}
