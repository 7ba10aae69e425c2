//! The declarations that are in scope at a statement.

use crate::arguments::{is_of_bytes, parameters};
use crate::kind::NameKind;
use std::alloc::{AllocError, Global};
use syntax::token::{Mark, Spanned, Token, Word};

/// A declaration.
#[derive(Clone, Copy)]
pub struct Declared<'t> {
    pub name: &'t str,
    pub kind: NameKind,
    /// The number of the first character of the name.
    pub at: usize,
    /// For a side of a split, or the piece of a `parts`: the section that is cut.
    pub part_of: Option<PartOrigin<'t>>,
    /// The number of open blocks in which it is in scope.
    level: usize,
}

/// The origin of a side of a split, or of the piece of a `parts`.
#[derive(Clone, Copy)]
pub struct PartOrigin<'t> {
    /// The section that is cut.
    pub whole: &'t str,
    /// The number of the first character of its name in that statement.
    pub at: usize,
}

/// An open block. If it is the body of an `async`, it has the character at which that starts.
#[derive(Clone, Copy)]
struct Block {
    task: Option<usize>,
}

/// What is in scope at a token.
#[derive(Drop)]
pub struct VisibleNames<'t> {
    pub declared: Vec<Declared<'t>>,
    blocks: Vec<Block>,
    /// Where the `async` is whose block comes next.
    task: Option<usize>,
}

impl<'t> VisibleNames<'t> {
    /// Returns the scope after these tokens. Adds to `over` what was declared in them and is no
    /// longer in scope.
    pub fn behind(
        alloc: Global,
        tokens: &'t [Spanned],
        over: &mut Vec<Declared<'t>>,
    ) -> Result<VisibleNames<'t>, AllocError> {
        let mut scope = VisibleNames {
            declared: Vec::new(alloc),
            blocks: Vec::new(alloc),
            task: None,
        };
        let mut left = tokens;
        'tokens: while let [first, behind @ ..] = left {
            scope.pass(alloc, first, behind, over)?;
            left = behind;
        }
        Ok(scope)
    }

    /// Handles one token, given those after it.
    fn pass(
        &mut self,
        alloc: Global,
        first: &'t Spanned,
        behind: &'t [Spanned],
        over: &mut Vec<Declared<'t>>,
    ) -> Result<(), AllocError> {
        match &first.token {
            Token::Word(Word::Proc) => self.parameters(alloc, behind)?,
            Token::Word(Word::Array) => self.declare(behind, array_kind(behind))?,
            Token::Word(Word::Var) => self.declare(behind, NameKind::Scalar)?,
            Token::Word(Word::Split) => self.cut(behind, true)?,
            Token::Word(Word::Parts) => self.cut(behind, false)?,
            Token::Word(Word::Rescue) => self.declare_inside(behind, NameKind::Scalar, None)?,
            Token::Word(Word::Async) => self.task = Some(first.at),
            Token::Mark(Mark::LeftBrace) => {
                let task = self.task.take();
                self.blocks.push(Block { task })?;
            }
            Token::Mark(Mark::RightBrace) => self.close(over)?,
            _ => {}
        }
        Ok(())
    }

    /// Declares the name that comes first, in the open block.
    fn declare(&mut self, tokens: &'t [Spanned], kind: NameKind) -> Result<(), AllocError> {
        if let Some((name, at)) = first_name(tokens) {
            self.declared.push(Declared {
                name,
                kind,
                at,
                part_of: None,
                level: self.blocks.len(),
            })?;
        }
        Ok(())
    }

    /// Declares the sides of a split, or the piece and the turn of a `parts`. Sides and pieces have
    /// the kind of the section that is cut, whose name comes first.
    fn cut(&mut self, tokens: &'t [Spanned], is_split: bool) -> Result<(), AllocError> {
        let Some((whole, at)) = first_name(tokens) else {
            return Ok(());
        };
        let kind = match self.find(whole) {
            Some(declared) => declared.kind,
            None => NameKind::Written { bytes: false },
        };
        let mut next = None;
        let mut left = tokens;
        'tokens: while let [first, behind @ ..] = left {
            match &first.token {
                Token::Word(Word::As) => next = Some((kind, Some(PartOrigin { whole, at }))),
                Token::Mark(Mark::Comma) if !is_split => next = Some((NameKind::Scalar, None)),
                Token::Mark(Mark::LeftBrace) => break,
                _ => {}
            }
            if let Some((kind, part_of)) = next {
                self.declare_inside(left, kind, part_of)?;
            }
            left = behind;
        }
        Ok(())
    }

    /// Declares the name that comes first, in the block that is opened next.
    fn declare_inside(
        &mut self,
        tokens: &'t [Spanned],
        kind: NameKind,
        part_of: Option<PartOrigin<'t>>,
    ) -> Result<(), AllocError> {
        if let Some((name, at)) = first_name(tokens) {
            self.declared.push(Declared {
                name,
                kind,
                at,
                part_of,
                level: self.blocks.len().saturating_add(1),
            })?;
        }
        Ok(())
    }

    /// Declares the parameters of a procedure, whose name comes first.
    fn parameters(&mut self, alloc: Global, tokens: &'t [Spanned]) -> Result<(), AllocError> {
        let parameters = parameters(alloc, tokens.get(1..).unwrap_or(tokens))?;
        for parameter in &parameters {
            self.declared.push(Declared {
                name: parameter.name,
                kind: parameter.kind,
                at: parameter.at,
                part_of: None,
                level: 1,
            })?;
        }
        Ok(())
    }

    /// Closes a block: what was declared in it goes out of scope.
    fn close(&mut self, over: &mut Vec<Declared<'t>>) -> Result<(), AllocError> {
        let _ = self.blocks.pop();
        for _ in 0..self.declared.len() {
            let Some(last) = self.declared.last() else {
                break;
            };
            if last.level <= self.blocks.len() {
                break;
            }
            over.push(*last)?;
            let _ = self.declared.pop();
        }
        Ok(())
    }

    /// Returns the declaration of a name that is in scope.
    pub fn find(&self, name: &str) -> Option<Declared<'t>> {
        find(&self.declared, name)
    }

    /// Returns whether two sections may overlap: they come from the same section, and are not on
    /// the two sides of one split.
    pub fn may_share(&self, one: Declared<'t>, other: Declared<'t>) -> bool {
        let mut left = Some(one);
        for _ in 0..=self.declared.len() {
            let Some(part) = left else {
                break;
            };
            if self.is_apart(part, other) {
                return false;
            }
            left = self.whole_of(part);
        }
        self.root_of(one) == self.root_of(other)
    }

    /// Returns whether another section is, or comes from, the other side of the split that this one
    /// is a side of.
    fn is_apart(&self, side: Declared<'t>, other: Declared<'t>) -> bool {
        let mut right = Some(other);
        for _ in 0..=self.declared.len() {
            let Some(part) = right else {
                break;
            };
            if are_sides(side, part) {
                return true;
            }
            right = self.whole_of(part);
        }
        false
    }

    /// Returns the section that this one comes from and that is not itself a side or a piece.
    fn root_of(&self, section: Declared<'t>) -> &'t str {
        let mut root = section;
        for _ in 0..=self.declared.len() {
            match self.whole_of(root) {
                Some(whole) => root = whole,
                None => break,
            }
        }
        root.name
    }

    /// Returns the section that this one is a side or a piece of.
    fn whole_of(&self, section: Declared<'t>) -> Option<Declared<'t>> {
        self.find(section.part_of?.whole)
    }

    /// Returns where the innermost async starts that a declaration is outside of.
    pub fn task_around(&self, declared: Declared<'t>) -> Option<usize> {
        let mut task = None;
        for block in self.blocks.iter().skip(declared.level) {
            if task.is_none() {
                task = block.task;
            }
        }
        task
    }
}

/// Returns whether two sections are the two sides of one split.
fn are_sides(one: Declared<'_>, other: Declared<'_>) -> bool {
    match (one.part_of, other.part_of) {
        (Some(left), Some(right)) => left.at == right.at && one.name != other.name,
        _ => false,
    }
}

/// Returns the declaration of a name among these.
pub fn find<'t>(declared: &[Declared<'t>], name: &str) -> Option<Declared<'t>> {
    for one in declared {
        if one.name == name {
            return Some(*one);
        }
    }
    None
}

/// Returns the kind of the array whose name comes first.
fn array_kind(tokens: &[Spanned]) -> NameKind {
    NameKind::Written {
        bytes: is_of_bytes(tokens),
    }
}

/// Returns the name after the `rescue` of the `finish` that comes first, with the number of the
/// name's first character.
pub fn rescued_name(tokens: &[Spanned]) -> Option<(&str, usize)> {
    let mut depth: u32 = 0;
    for (number, spanned) in tokens.iter().enumerate() {
        match &spanned.token {
            Token::Mark(Mark::LeftBrace) => depth = depth.saturating_add(1),
            Token::Mark(Mark::RightBrace) => {
                depth = depth.saturating_sub(1);
                if depth == 0 {
                    return name_after_rescue(tokens.get(number.saturating_add(1)..).unwrap_or(&[]));
                }
            }
            _ => {}
        }
    }
    None
}

/// Returns the name after a `rescue` that comes first.
fn name_after_rescue(tokens: &[Spanned]) -> Option<(&str, usize)> {
    match tokens {
        [first, behind @ ..] if matches!(&first.token, Token::Word(Word::Rescue)) => {
            first_name(behind)
        }
        _ => None,
    }
}

/// Returns the name that comes first, with the number of its first character.
fn first_name(tokens: &[Spanned]) -> Option<(&str, usize)> {
    match tokens {
        [first, ..] => match &first.token {
            Token::Name(name) => Some((name.as_str(), first.at)),
            _ => None,
        },
        [] => None,
    }
}
