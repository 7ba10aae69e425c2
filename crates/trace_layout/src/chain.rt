//! The longest chain of steps, and which events are on it.

ghost use Rattle.std.specs.Prelude.{◌≡◌, [], IfOk, length};

use crate::children::next_child;
use events::event::Event;
use std::alloc::{AllocError, Global};
use std::collections::HashMap;
use trace_numbers::chains::Chains;
use types::path::Path;

/// The last step of each chain, and the step before each.
#[derive(Drop)]
struct Links {
    /// For each task, the last step of the longest chain that leads to its current state.
    tasks: HashMap<Path, usize>,
    /// For each scope, by its number, the last step of the longest chain that came back to it.
    scopes: Vec<Option<usize>>,
    /// For each event that is a step, the step before it on the longest chain that leads to it.
    before: Vec<Option<usize>>,
}

/// Returns, for each event, whether it is on the longest chain of steps that came back to the
/// root's scope.
pub fn longest_chain(alloc: Global, events: &[Event]) -> Result<Vec<bool>, AllocError>
    ensures { IfOk result (λ marks. length marks.items ≡ length events.now) }
{
    let mut chains = Chains::start(alloc)?;
    let mut links = Links::start(alloc)?;
    for (number, event) in events.iter().enumerate() {
        let before = links.happens(number, event, &chains)?;
        links.before.push(before)?;
        chains.happens(event)?;
    }
    links.followed(alloc)
}

impl Links {
    /// Returns links without any steps.
    fn start(alloc: Global) -> Result<Links, AllocError>
        ensures { IfOk result (λ links. links.before.items ≡ []) }
    {
        let mut scopes = Vec::new(alloc);
        scopes.push(None)?;
        Ok(Links {
            tasks: HashMap::new(alloc),
            scopes,
            before: Vec::new(alloc),
        })
    }

    /// Records an event, with the chains before it, and returns the step before it if it is a step.
    fn happens(
        &mut self,
        number: usize,
        event: &Event,
        chains: &Chains,
    ) -> Result<Option<usize>, AllocError>
        ensures { self.new.before ≡ self.old.before }
    {
        match event {
            Event::Step { path } => self.step(number, path),
            Event::Open { path } => {
                self.scopes.push(None)?;
                self.step(number, path)
            }
            Event::Spawn { path } => {
                let child = next_child(chains, path)?;
                self.tasks.insert(child, number)?;
                self.step(number, path)
            }
            Event::Park { path } | Event::End { path } => {
                self.come_back(path, chains);
                Ok(None)
            }
            Event::Resume { path, .. } => {
                self.leave(path, chains)?;
                Ok(None)
            }
            _ => Ok(None),
        }
    }

    /// Records a task's step, and returns the step before it.
    fn step(&mut self, number: usize, path: &Path) -> Result<Option<usize>, AllocError>
        ensures { self.new.before ≡ self.old.before }
    {
        Ok(self.tasks.insert(path.clone()?, number)?)
    }

    /// Gives a task's chain back to its innermost scope, which keeps it if no longer chain came back
    /// before.
    fn come_back(&mut self, path: &Path, chains: &Chains)
        ensures { self.new.before ≡ self.old.before }
    {
        let chain = chains.chain(path);
        let Some(scope) = chains.scopes.get(chain.stands) else {
            return;
        };
        if chain.cost <= scope.came_back {
            return;
        }
        if let Some(last) = self.scopes.get_mut(chain.stands) {
            *last = self.tasks.get(path).copied();
        }
    }

    /// Continues a task after its innermost scope.
    fn leave(&mut self, path: &Path, chains: &Chains) -> Result<(), AllocError>
        ensures { self.new.before ≡ self.old.before }
    {
        match self.scopes.get(chains.chain(path).stands) {
            Some(Some(last)) => {
                self.tasks.insert(path.clone()?, *last)?;
            }
            _ => {
                let _ = self.tasks.remove(path);
            }
        }
        Ok(())
    }

    /// Returns, for each event, whether it is on the chain that came back to the root's scope.
    fn followed(&self, alloc: Global) -> Result<Vec<bool>, AllocError>
        ensures { IfOk result (λ marks. length marks.items ≡ length self.now.before.items) }
    {
        let mut marks = vec![in alloc; false; self.before.len()]?;
        let mut next = match self.scopes.first() {
            Some(last) => *last,
            None => None,
        };
        for number in (0..self.before.len()).rev() {
            if next == Some(number) {
                marks[number] = true;
                next = self.before[number];
            }
        }
        Ok(marks)
    }
}
