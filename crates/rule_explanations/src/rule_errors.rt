//! Programs that break a rule.

use crate::arguments::{Argument, ParameterHead, ProcedureHead, arguments, procedure_of};
use crate::declared::{Declared, VisibleNames, find, rescued_name};
use crate::expressions::{ExpressionPart, Value, parts_of, wrong_part};
use crate::limits::push_over_limit;
use crate::rule_texts;
use excerpts::heading::Heading;
use excerpts::named::{Named, Role, head, names};
use excerpts::nouns::noun;
use excerpts::similar::similar;
use excerpts::source::Source;
use excerpts::statements::PlacedStatements;
use std::alloc::{AllocError, Global};
use syntax::TextPlace;
use syntax::token::{Spanned, Token, Word};
use types::error::TypeError;

/// Returns the text after the line of a rule that a program breaks: where, why, and how to fix it.
/// It is empty if the text isn't that of such a program.
pub fn explained_rule(
    alloc: Global,
    text: &str,
    error: TypeError,
    heading: Heading<'_>,
) -> Result<String, AllocError> {
    let mut told = String::new(alloc);
    let Some(statements) = PlacedStatements::of(alloc, text)? else {
        return Ok(told);
    };
    match error.label() {
        None => match error {
            TypeError::OverLimit => push_over_limit(alloc, &mut told, &statements, heading)?,
            _ => rule_texts::push_without_label(&mut told, &statements, error, heading)?,
        },
        Some(label) => {
            if let Some(place) = statements.place(label) {
                let shown = Shown { text, heading };
                let broken = Broken::at(alloc, shown, &statements.source, place)?;
                broken.push(&mut told, error)?;
            }
        }
    }
    Ok(told)
}

/// The text of a program, and the first line of an explanation.
#[derive(Clone, Copy)]
struct Shown<'t> {
    text: &'t str,
    heading: Heading<'t>,
}

/// A statement that breaks a rule.
#[derive(Drop)]
pub struct Broken<'t> {
    alloc: Global,
    shown: Shown<'t>,
    source: &'t Source,
    place: TextPlace,
    head: &'t [Spanned],
    names: Vec<Named<'t>>,
    scope: VisibleNames<'t>,
    /// What was declared before the statement and is no longer in scope.
    over: Vec<Declared<'t>>,
}

impl<'t> Broken<'t> {
    /// Finds the statement that starts at a place.
    fn at(
        alloc: Global,
        shown: Shown<'t>,
        source: &'t Source,
        place: TextPlace,
    ) -> Result<Broken<'t>, AllocError> {
        let tokens = source.tokens_from(place);
        let head = head(tokens);
        let many = source.tokens.len().saturating_sub(tokens.len());
        let before = source.tokens.get(..many).unwrap_or(&[]);
        let mut over = Vec::new(alloc);
        let scope = VisibleNames::behind(alloc, before, &mut over)?;
        let names = names(alloc, head)?;
        Ok(Broken {
            alloc,
            shown,
            source,
            place,
            head,
            names,
            scope,
            over,
        })
    }

    /// Adds where the statement is, why it breaks the rule, and how to fix it.
    fn push(&self, told: &mut String, error: TypeError) -> Result<(), AllocError> {
        match error {
            TypeError::NotInScope { .. } => self.push_not_in_scope(told),
            TypeError::DeclaredTwice { .. } => self.push_declared_twice(told),
            TypeError::WrongKind { .. } => self.push_wrong_kind(told),
            TypeError::WrongArguments { .. } => self.push_wrong_arguments(told),
            TypeError::AssignedOutsideAsync { .. } => self.push_assigned(told),
            TypeError::ReadOnly { .. } => self.push_read_only(told),
            TypeError::Overlapping { .. } => self.push_overlapping(told),
            _ => Ok(()),
        }
    }

    // ---- where

    /// Adds the first line, and the line of a character, with a caret under it.
    fn push_at(&self, told: &mut String, at: usize) -> Result<(), AllocError> {
        self.push_excerpt(told, self.source.place(at))
    }

    /// Adds the first line, and the line at which the statement starts.
    fn push_start(&self, told: &mut String) -> Result<(), AllocError> {
        self.push_excerpt(told, self.place)
    }

    /// Adds the first line, and the line of a position, with a caret under it.
    fn push_excerpt(&self, told: &mut String, place: TextPlace) -> Result<(), AllocError> {
        self.shown
            .heading
            .push_excerpt(told, self.shown.text, place)
    }

    /// Adds the place of a declaration.
    fn push_place(&self, told: &mut String, declared: Declared<'t>) -> Result<(), AllocError> {
        let place = self.source.place(declared.at);
        write!(told, "{place}")
    }

    // ---- the rules

    /// Explains a name or a procedure that isn't in scope.
    fn push_not_in_scope(&self, told: &mut String) -> Result<(), AllocError> {
        for named in &self.names {
            if named.role == Role::Called {
                if procedure_of(self.alloc, &self.source.tokens, named.name)?.is_none() {
                    return self.push_no_procedure(told, *named);
                }
            } else if named.role != Role::Declared && self.scope.find(named.name).is_none() {
                return self.push_no_name(told, *named);
            }
        }
        self.push_start(told)
    }

    /// Explains a call of a procedure that doesn't exist.
    fn push_no_procedure(&self, told: &mut String, named: Named<'t>) -> Result<(), AllocError> {
        self.push_at(told, named.at)?;
        let name = named.name;
        write!(told, "There is no procedure `{name}`.")?;
        let procedures = rule_texts::procedures(self.alloc, &self.source.tokens)?;
        push_similar(told, similar(self.alloc, name, &procedures)?)?;
        rule_texts::push_procedures(told, &procedures)?;
        told.push_str("help: call an existing procedure, or add this one before main.\n")
    }

    /// Explains a name that isn't in scope.
    fn push_no_name(&self, told: &mut String, named: Named<'t>) -> Result<(), AllocError> {
        self.push_at(told, named.at)?;
        let name = named.name;
        write!(told, "`{name}` is not in scope here.")?;
        if let Some(declared) = find(&self.over, name) {
            told.push_str(" It was declared at ")?;
            self.push_place(told, declared)?;
            told.push_str(", in a block that has ended.")?;
        }
        push_similar(told, self.similar_in_scope(name)?)?;
        self.push_scope(told)?;
        let is_section = wants_section(named.role) || self.is_section_argument(named)?;
        told.push_str("help: ")?;
        told.push_str(if !is_section {
            "declare it first, in this block or an enclosing one"
        } else if self.is_in_main() {
            "declare an array with this name at the beginning of main"
        } else {
            "add a section parameter with this name to the procedure"
        })?;
        told.push_str("; or use a name that is in scope.\n")
    }

    /// Returns the name in scope that is spelled most like a name.
    fn similar_in_scope(&self, name: &str) -> Result<Option<&'t str>, AllocError> {
        let mut names = Vec::new(self.alloc);
        for declared in &self.scope.declared {
            names.push(declared.name)?;
        }
        similar(self.alloc, name, &names)
    }

    /// Returns whether the statement is in main.
    fn is_in_main(&self) -> bool {
        let Some(begin) = self.head.first() else {
            return false;
        };
        for spanned in &self.source.tokens {
            if matches!(&spanned.token, Token::Word(Word::Main)) {
                return spanned.at < begin.at;
            }
        }
        false
    }

    /// Adds the names that are in scope.
    fn push_scope(&self, told: &mut String) -> Result<(), AllocError> {
        if self.scope.declared.is_empty() {
            return told.push_str("Nothing is in scope here.\n");
        }
        told.push_str("In scope here:")?;
        for declared in &self.scope.declared {
            let name = declared.name;
            write!(told, " {name}")?;
        }
        told.push('\n')
    }

    /// Explains a name that is declared while the same name is in scope.
    fn push_declared_twice(&self, told: &mut String) -> Result<(), AllocError> {
        if let Some((declared, at)) = self.declared_before() {
            self.push_at(told, at)?;
            let name = declared.name;
            write!(told, "`{name}` is already in scope: it was declared at ")?;
            self.push_place(told, declared)?;
            told.push_str(".\n")?;
        } else {
            self.push_start(told)?;
            told.push_str(if begins_with_word(self.head, Word::Parts) {
                "The piece and the turn have the same name.\n"
            } else {
                "Both sides of the split have the same name.\n"
            })?;
        }
        told.push_str("help: use another name.\n")
    }

    /// Returns the declaration that is in scope of a name that the statement declares, and where the
    /// statement declares it.
    fn declared_before(&self) -> Option<(Declared<'t>, usize)> {
        for named in &self.names {
            if named.role == Role::Declared {
                if let Some(declared) = self.scope.find(named.name) {
                    return Some((declared, named.at));
                }
            }
        }
        let (name, at) = rescued_name(self.source.tokens_from(self.place))?;
        let declared = self.scope.find(name)?;
        Some((declared, at))
    }

    /// Explains a section where a variable is expected or a boolean where a number is expected, or
    /// the reverse.
    fn push_wrong_kind(&self, told: &mut String) -> Result<(), AllocError> {
        let most = self.head.len().saturating_mul(2).saturating_add(1);
        if let Some(part) = wrong_part(self.alloc, self.parts()?, most)? {
            return self.push_wrong_part(told, part);
        }
        for named in &self.names {
            if let Some(declared) = self.scope.find(named.name) {
                let is_other = if declared.kind.is_section() {
                    self.wants_scalar(*named)?
                } else {
                    wants_section(named.role)
                };
                if is_other {
                    return self.push_other_kind(told, *named, declared);
                }
            }
        }
        self.push_start(told)?;
        told.push_str(rule_texts::TRUTHS)?;
        told.push_str(rule_texts::COMPARED)
    }

    /// Returns the expressions of the statement, with the kind of value that each must have.
    fn parts(&self) -> Result<Vec<ExpressionPart<'t>>, AllocError> {
        let Some((called, given)) = self.call()? else {
            return parts_of(self.alloc, self.head);
        };
        let mut parts = Vec::new(self.alloc);
        for (argument, parameter) in given.iter().zip(called.parameters.iter()) {
            if !parameter.kind.is_section() {
                let tokens = argument.tokens;
                let wanted = Value::Number;
                parts.push(ExpressionPart { tokens, wanted })?;
            }
        }
        Ok(parts)
    }

    /// Explains a boolean where a number is expected, or the reverse.
    fn push_wrong_part(
        &self,
        told: &mut String,
        part: ExpressionPart<'t>,
    ) -> Result<(), AllocError> {
        match part.tokens.first() {
            Some(first) => self.push_at(told, first.at)?,
            None => self.push_start(told)?,
        }
        if let Some(name) = part.name() {
            if let Some(declared) = self.scope.find(name) {
                if declared.kind.is_section() {
                    return self.push_no_truth(told, declared);
                }
            }
        }
        match part.wanted {
            Value::Number => {
                told.push_str("Expected a number, found a boolean.\n")?;
                told.push_str(rule_texts::TRUTHS)?;
                told.push_str(rule_texts::KEPT)
            }
            Value::Truth => {
                told.push_str("Expected a boolean, found a number.\n")?;
                told.push_str(rule_texts::TRUTHS)?;
                told.push_str(rule_texts::COMPARED)
            }
        }
    }

    /// Explains a section where a boolean is expected.
    fn push_no_truth(&self, told: &mut String, section: Declared<'t>) -> Result<(), AllocError> {
        let name = section.name;
        self.push_kind(told, section)?;
        told.push_str("expected a boolean.\n")?;
        write!(
            told,
            "help: compare an element, as in `{name}[0] != 0`, or the length, as in `len({name}) != 0`.\n"
        )
    }

    /// Returns whether a variable is expected where a name is used.
    fn wants_scalar(&self, named: Named<'t>) -> Result<bool, AllocError> {
        match named.role {
            Role::Assigned => Ok(true),
            Role::Value => Ok(!self.is_section_argument(named)?),
            _ => Ok(false),
        }
    }

    /// Returns whether a name is an argument for a section parameter.
    fn is_section_argument(&self, named: Named<'t>) -> Result<bool, AllocError> {
        let Some((called, given)) = self.call()? else {
            return Ok(false);
        };
        for (argument, parameter) in given.iter().zip(called.parameters.iter()) {
            if parameter.kind.is_section() && argument.stands_at(named.at) {
                return Ok(true);
            }
        }
        Ok(false)
    }

    /// Explains a section where a variable is expected, or a variable where a section is expected.
    fn push_other_kind(
        &self,
        told: &mut String,
        named: Named<'t>,
        declared: Declared<'t>,
    ) -> Result<(), AllocError> {
        self.push_at(told, named.at)?;
        self.push_kind(told, declared)?;
        let name = named.name;
        if !declared.kind.is_section() {
            told.push_str("expected a section.\n")?;
            return told.push_str(
                "help: use an array, a side of a split, a piece, or a `mut` or `read` parameter.\n",
            );
        }
        if named.role == Role::Assigned {
            return push_no_variable(told, declared);
        }
        told.push_str("expected a number.\n")?;
        write!(
            told,
            "help: use an element, as in `{name}[0]`, or the length, `len({name})`.\n"
        )
    }

    /// Adds what a name is, and where it is declared.
    fn push_kind(&self, told: &mut String, declared: Declared<'t>) -> Result<(), AllocError> {
        let name = declared.name;
        let kind = if declared.kind.is_section() {
            "section"
        } else {
            "variable"
        };
        write!(told, "`{name}` is a {kind}, declared at ")?;
        self.push_place(told, declared)?;
        told.push_str("; ")
    }

    /// Explains a call with arguments that don't match.
    fn push_wrong_arguments(&self, told: &mut String) -> Result<(), AllocError> {
        let Some((called, given)) = self.call()? else {
            return self.push_unfit(told);
        };
        if called.parameters.len() != given.len() {
            return self.push_count(told, &called, given.len());
        }
        for (argument, parameter) in given.iter().zip(called.parameters.iter()) {
            if parameter.kind.is_section() && !self.fits(argument, *parameter) {
                return self.push_argument(told, argument, *parameter, &called);
            }
        }
        self.push_unfit(told)
    }

    /// Explains arguments that don't match, without naming one.
    fn push_unfit(&self, told: &mut String) -> Result<(), AllocError> {
        self.push_start(told)?;
        told.push_str(rule_texts::ARGUMENTS)
    }

    /// Explains a wrong number of arguments.
    fn push_count(
        &self,
        told: &mut String,
        called: &ProcedureHead<'t>,
        given: usize,
    ) -> Result<(), AllocError> {
        self.push_start(told)?;
        let wanted = called.parameters.len();
        let arguments = noun(wanted, "argument", "arguments");
        let place = self.source.place(called.at);
        write!(
            told,
            "The procedure declared at {place} takes {wanted} {arguments}, but the call passes {given}.\n"
        )?;
        rule_texts::push_parameters(told, &called.parameters)?;
        told.push_str(if wanted == 0 {
            "help: remove the arguments.\n"
        } else {
            "help: pass one argument for each parameter, in order.\n"
        })
    }

    /// Returns whether an argument is the name of a section with the parameter's element type.
    fn fits(&self, argument: &Argument<'t>, parameter: ParameterHead<'t>) -> bool {
        match argument.name() {
            Some(name) => match self.scope.find(name) {
                Some(declared) => {
                    declared.kind.is_section() && declared.kind.bytes() == parameter.kind.bytes()
                }
                None => false,
            },
            None => false,
        }
    }

    /// Explains an argument that isn't a section with the right element type.
    fn push_argument(
        &self,
        told: &mut String,
        argument: &Argument<'t>,
        parameter: ParameterHead<'t>,
        called: &ProcedureHead<'t>,
    ) -> Result<(), AllocError> {
        match argument.tokens.first() {
            Some(first) => self.push_at(told, first.at)?,
            None => self.push_start(told)?,
        }
        self.push_found(told, argument)?;
        let name = parameter.name;
        let element = parameter.kind.element();
        write!(
            told,
            "The parameter `{name}` takes the name of a section of `{element}`.\n"
        )?;
        rule_texts::push_parameters(told, &called.parameters)?;
        told.push_str(
            "help: pass an array, a side of a split, a piece or a section parameter with this element type.\n",
        )
    }

    /// Adds what was found as an argument where a section is expected.
    fn push_found(&self, told: &mut String, argument: &Argument<'t>) -> Result<(), AllocError> {
        let Some(name) = argument.name() else {
            return Ok(());
        };
        let Some(declared) = self.scope.find(name) else {
            return Ok(());
        };
        if declared.kind.is_section() {
            let element = declared.kind.element();
            write!(told, "`{name}` is a section of `{element}`, declared at ")?;
        } else {
            write!(told, "`{name}` is a variable, declared at ")?;
        }
        self.push_place(told, declared)?;
        told.push_str(".\n")
    }

    /// Explains an assignment in an async to a variable that is declared outside it.
    fn push_assigned(&self, told: &mut String) -> Result<(), AllocError> {
        self.push_start(told)?;
        let Some(named) = self.names.first() else {
            return Ok(());
        };
        let Some(declared) = self.scope.find(named.name) else {
            return Ok(());
        };
        let name = named.name;
        write!(told, "`{name}` is declared at ")?;
        self.push_place(told, declared)?;
        if let Some(at) = self.scope.task_around(declared) {
            let place = self.source.place(at);
            write!(told, ", outside the async at {place}")?;
        }
        told.push_str(
            ": the task has its own copy of the variable, so the assignment would be lost.\n",
        )?;
        write!(
            told,
            "help: write the result into a section, as in `out[0] = ..;` (see `afx explain answers`), or declare a variable inside the async.\n"
        )
    }

    /// Explains a read-only section that is written or passed as `mut`.
    fn push_read_only(&self, told: &mut String) -> Result<(), AllocError> {
        let Some((name, at)) = self.written_one()? else {
            return self.push_start(told);
        };
        self.push_at(told, at)?;
        write!(told, "`{name}` is read-only")?;
        if let Some(declared) = self.scope.find(name) {
            told.push_str(": it is declared at ")?;
            self.push_place(told, declared)?;
            told.push_str(if declared.part_of.is_some() {
                ", as a part of a `read` section"
            } else {
                ", as `read`"
            })?;
        }
        told.push_str(
            ".\nhelp: declare the parameter as `mut` here and in every caller, or write into another section.\n",
        )
    }

    /// Returns the `read` section that the statement writes or passes as `mut`, with its place.
    fn written_one(&self) -> Result<Option<(&'t str, usize)>, AllocError> {
        let Some((called, given)) = self.call()? else {
            return Ok(self.names.first().map(|named| (named.name, named.at)));
        };
        for (argument, parameter) in given.iter().zip(called.parameters.iter()) {
            if let (Some(name), Some(first)) = (argument.name(), argument.tokens.first()) {
                if parameter.kind.is_written() && self.is_only_read(name) {
                    return Ok(Some((name, first.at)));
                }
            }
        }
        Ok(None)
    }

    /// Returns whether a name belongs to a read-only section.
    fn is_only_read(&self, name: &str) -> bool {
        match self.scope.find(name) {
            Some(declared) => declared.kind.is_read(),
            None => false,
        }
    }

    /// Explains a `mut` argument that overlaps another argument.
    fn push_overlapping(&self, told: &mut String) -> Result<(), AllocError> {
        self.push_start(told)?;
        if let Some((one, other)) = self.overlapping_ones()? {
            let (first, second) = (one.name, other.name);
            if first == second {
                write!(told, "`{first}` is passed twice, and once as `mut`.\n")?;
            } else {
                write!(
                    told,
                    "`{first}` and `{second}` may overlap, and one of them is passed as `mut`.\n"
                )?;
            }
        }
        told.push_str(
            "help: pass sections that don't overlap: different arrays, or the two sides of one split.\n",
        )
    }

    /// Returns two arguments that may overlap and of which one is written.
    fn overlapping_ones(&self) -> Result<Option<(Declared<'t>, Declared<'t>)>, AllocError> {
        let Some((called, given)) = self.call()? else {
            return Ok(None);
        };
        let mut passed = Vec::new(self.alloc);
        for (argument, parameter) in given.iter().zip(called.parameters.iter()) {
            if let Some(declared) = self.section(argument) {
                if let Some(other) = self.clash(&passed, declared, *parameter) {
                    return Ok(Some((other, declared)));
                }
                passed.push((declared, *parameter))?;
            }
        }
        Ok(None)
    }

    /// Returns the section that an argument is.
    fn section(&self, argument: &Argument<'t>) -> Option<Declared<'t>> {
        self.scope
            .find(argument.name()?)
            .filter(|declared| declared.kind.is_section())
    }

    /// Returns the first of the sections passed earlier that may overlap this one, if at least one
    /// of the two is written.
    fn clash(
        &self,
        passed: &[(Declared<'t>, ParameterHead<'t>)],
        declared: Declared<'t>,
        parameter: ParameterHead<'t>,
    ) -> Option<Declared<'t>> {
        for (other, taken) in passed {
            let is_written = parameter.kind.is_written() || taken.kind.is_written();
            if is_written && self.scope.may_share(*other, declared) {
                return Some(*other);
            }
        }
        None
    }

    /// Returns the procedure that the statement calls, and the arguments.
    fn call(&self) -> Result<Option<(ProcedureHead<'t>, Vec<Argument<'t>>)>, AllocError> {
        let Some(named) = self.names.first() else {
            return Ok(None);
        };
        if named.role != Role::Called {
            return Ok(None);
        }
        match procedure_of(self.alloc, &self.source.tokens, named.name)? {
            Some(called) => Ok(Some((called, arguments(self.alloc, self.head)?))),
            None => Ok(None),
        }
    }
}

/// Adds which name may be meant, and the end of the line.
fn push_similar(told: &mut String, name: Option<&str>) -> Result<(), AllocError> {
    match name {
        Some(name) => write!(told, " Did you mean `{name}`?\n"),
        None => told.push('\n'),
    }
}

/// Explains an assignment of a number to a section.
fn push_no_variable(told: &mut String, section: Declared<'_>) -> Result<(), AllocError> {
    told.push_str("only a variable can be assigned like this.\n")?;
    if section.kind.is_read() {
        return told.push_str("help: assign to a variable; a `read` section can't be written.\n");
    }
    let name = section.name;
    write!(
        told,
        "help: store it in an element, as in `{name}[0] = ..;`, or assign to a variable.\n"
    )
}

/// Returns whether a head starts with this word.
fn begins_with_word(head: &[Spanned], word: Word) -> bool {
    match head.first() {
        Some(first) => match &first.token {
            Token::Word(found) => *found == word,
            _ => false,
        },
        None => false,
    }
}

/// Returns whether a name with this role must be a section.
fn wants_section(role: Role) -> bool {
    match role {
        Role::Stored | Role::Element | Role::Measured | Role::Cut => true,
        _ => false,
    }
}
