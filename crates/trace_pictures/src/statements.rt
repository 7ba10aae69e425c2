//! The statements at the events of a trace, for tooltips, and its rescues.

use std::alloc::{AllocError, Global};
use trace_layout::spells::Spells;
use types::code::Label;

/// The statements at events, and rescues.
#[derive(Clone, Copy)]
pub struct Statements<'s> {
    /// The label of the statement at each event, or 0 if there is none.
    pub labels: &'s [Label],
    /// The description of each statement, by its label.
    pub descriptions: &'s [String],
    /// The number of faults that a rescue has dropped: at the event that opens its finish, and at the
    /// one at which the owner continues; 0 at all other events.
    pub rescued: &'s [u64],
}

impl<'s> Statements<'s> {
    /// Returns the description of the statement at an event, if there is one.
    pub(crate) fn at(self, event: usize) -> Option<&'s str> {
        self.described(self.label_at(event))
    }

    /// Returns the description of the statement with this label, if there is one.
    pub(crate) fn described(self, label: Label) -> Option<&'s str> {
        if label == 0 {
            return None;
        }
        match self.descriptions.get(usize::try_from(label).unwrap_or(0)) {
            Some(description) => Some(description.as_str()),
            None => None,
        }
    }

    /// Returns the label of the first statement of each spell, or 0 if there is none.
    pub(crate) fn first_labels(
        self,
        alloc: Global,
        spells: &Spells,
    ) -> Result<Vec<Label>, AllocError> {
        let mut firsts = Vec::new(alloc);
        for _ in 0..spells.all.len() {
            firsts.push(0)?;
        }
        for (event, place) in spells.places.iter().enumerate() {
            if let Some(place) = place {
                if let Some(first) = firsts.get_mut(*place) {
                    if *first == 0 {
                        *first = self.label_at(event);
                    }
                }
            }
        }
        Ok(firsts)
    }

    /// Returns the number of faults that the rescue of a finish has dropped, or 0. The event opens the
    /// finish, or its owner continues there.
    pub(crate) fn rescued_at(self, event: usize) -> u64 {
        self.rescued.get(event).copied().unwrap_or(0)
    }

    /// Returns whether there is a rescue.
    pub(crate) fn has_rescue(self) -> bool {
        self.rescued.iter().any(|faults| *faults > 0)
    }

    /// Returns the label of the statement at an event, or 0.
    fn label_at(self, event: usize) -> Label {
        self.labels.get(event).copied().unwrap_or(0)
    }
}
