//! What calls bring from the rows of the called procedures into rows of the callers.

ghost use Rattle.std.specs.Prelude.{◌≡◌, ◌++◌, [], ◌∷◌, OnOk, map};
ghost use Rattle.sections.specs.Translation.{section as section_of};
ghost use Rattle.effects.specs.Roots.{root_in};
ghost use Rattle.effects.specs.Flows.{flows_of, flows_of_call, flows_of_labels, flows_of_sections};
ghost use Rattle.effects.specs.Flows.{flows_of_use};
ghost use Rattle.effects.specs.Visits.{visit as visit_of};

use crate::roots::Roots;
use crate::summary::SummaryRow;
use crate::visits::{Standing, Visit};
use sections::id::SectionId;
use std::alloc::AllocError;
use types::code::StmtKind;
use types::ids::ProcedureId;

/// A flow: the labels in a row of one procedure are also in a row of another procedure, which calls
/// it.
#[derive(Clone, Copy)]
pub struct CallFlow {
    pub callee: ProcedureId,
    pub from: SummaryRow,
    pub caller: ProcedureId,
    pub to: SummaryRow,
}

/// Adds what a statement's call brings, if the statement is a call. `main` is numbered after the
/// procedures, and is never called.
pub fn flow_visit(
    caller: ProcedureId,
    procedures: usize,
    roots: &Roots,
    visit: Visit<'_>,
    into: &mut Vec<CallFlow>,
) -> Result<(), AllocError>
    ensures { OnOk result (into.new.items ≡ into.old.items
        ++ flows_of caller procedures (root_in roots.now) (visit_of visit.entry)) }
{
    match &visit.statement.kind {
        StmtKind::Do(_) => Ok(()),
        StmtKind::If { .. } => Ok(()),
        StmtKind::While { .. } => Ok(()),
        StmtKind::Split { .. } => Ok(()),
        StmtKind::Parts { .. } => Ok(()),
        StmtKind::Call {
            procedure,
            sections,
            ..
        } => {
            let call = Call {
                caller,
                callee: *procedure,
                standing: visit.standing,
            };
            call.flow_all(procedures, roots, sections, into)?;
            Ok(())
        }
        StmtKind::Async { .. } => Ok(()),
        StmtKind::Finish { .. } => Ok(()),
        StmtKind::Rescue { .. } => Ok(()),
    }
}

/// A call and its position in the body.
#[derive(Clone, Copy)]
struct Call {
    caller: ProcedureId,
    callee: ProcedureId,
    standing: Standing,
}

impl Call {
    /// Adds everything that the call brings.
    fn flow_all(
        self,
        procedures: usize,
        roots: &Roots,
        sections: &[SectionId],
        into: &mut Vec<CallFlow>,
    ) -> Result<(), AllocError>
        ensures { OnOk result (into.new.items ≡ into.old.items
            ++ flows_of_call self.caller procedures (root_in roots.now) self.standing
            self.callee.number (map section_of sections.now)) }
    {
        if self.callee.number >= procedures {
            return Ok(());
        }
        self.flow_labels(into)?;
        self.flow_sections(roots, sections, into)?;
        Ok(())
    }

    /// Adds a flow from a row of the callee to a row of the caller.
    fn flow(
        self,
        from: SummaryRow,
        to: SummaryRow,
        into: &mut Vec<CallFlow>,
    ) -> Result<(), AllocError>
        ensures { OnOk result (into.new.items ≡ into.old.items
            ++ record { callee = self.callee; from = from; caller = self.caller; to = to } ∷ []) }
    {
        into.push(CallFlow {
            callee: self.callee,
            from,
            caller: self.caller,
            to,
        })?;
        Ok(())
    }

    /// Adds the flows of statement labels.
    fn flow_labels(self, into: &mut Vec<CallFlow>) -> Result<(), AllocError>
        ensures { OnOk result (into.new.items ≡ into.old.items
            ++ flows_of_labels self.caller self.standing self.callee) }
    {
        self.flow(SummaryRow::Labels, SummaryRow::Labels, into)?;
        match self.standing {
            Standing::Open => self.flow(SummaryRow::PendingLabels, SummaryRow::PendingLabels, into),
            Standing::Begun => self.flow(SummaryRow::Labels, SummaryRow::PendingLabels, into),
            Standing::Awaited => Ok(()),
        }
    }

    /// Adds the flows of the parameters, for which these sections are passed.
    fn flow_sections(
        self,
        roots: &Roots,
        sections: &[SectionId],
        into: &mut Vec<CallFlow>,
    ) -> Result<(), AllocError>
        ensures { OnOk result (into.new.items ≡ into.old.items
            ++ flows_of_sections self.caller (root_in roots.now) self.standing self.callee 0
            (map section_of sections.now)) }
    {
        for (number, section) in sections.iter().enumerate() {
            let parameter = SectionId { number };
            let root = roots.of(*section);
            self.flow_use(parameter, root, true, into)?;
            self.flow_use(parameter, root, false, into)?;
        }
        Ok(())
    }

    /// Adds the flows of the accesses of one kind to a parameter.
    fn flow_use(
        self,
        parameter: SectionId,
        section: SectionId,
        write: bool,
        into: &mut Vec<CallFlow>,
    ) -> Result<(), AllocError>
        ensures { OnOk result (into.new.items ≡ into.old.items
            ++ flows_of_use self.caller self.standing self.callee parameter section write) }
    {
        let all = SummaryRow::All {
            section: parameter,
            write,
        };
        self.flow(all, SummaryRow::All { section, write }, into)?;
        match self.standing {
            Standing::Open => {
                let pending = SummaryRow::Pending {
                    section: parameter,
                    write,
                };
                self.flow(pending, SummaryRow::Pending { section, write }, into)
            }
            Standing::Begun => self.flow(all, SummaryRow::Pending { section, write }, into),
            Standing::Awaited => Ok(()),
        }
    }
}
