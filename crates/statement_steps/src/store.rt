//! The contents of all arrays.

ghost use Rattle.std.specs.Prelude.{◌≡◌, IfOk, ℕ, List};

use crate::memory::Memory;
use sections::window::Place;
use std::alloc::{AllocError, Global};
use types::input::Input;
use types::value::Places;

/// The numbers of each array, in the order of declaration.
#[derive(Drop)]
pub struct Store {
    pub arrays: Vec<Vec<i64>>,
}

impl Places for Store {
    ghost use Rattle.types.specs.Contents.{read as read_of};
    ghost use Rattle.statement_steps.specs.Lists.{contents_of};

    ghost numbers = { λ s. read_of (contents_of s) };

    fn read(&self, place: Place) -> i64 {
        match self.arrays.get(place.array.number) {
            None => 0,
            Some(contents) => match contents.get(place.index) {
                None => 0,
                Some(value) => *value,
            },
        }
    }
}

impl Memory for Store {
    ghost use Rattle.std.specs.Prelude.{refl};
    ghost use Rattle.statement_steps.specs.Bounds.{HasPlace};
    ghost use Rattle.statement_steps.specs.Lists.{contents_of, lengths_of};

    ghost contents = { contents_of };

    ghost Writable = { HasPlace };

    ghost Shape = { List ℕ };

    ghost shape = { lengths_of };

    fn write(&mut self, place: Place, value: i64) -> Result<(), AllocError> {
        self.write(place, value);
        Ok(())
    }

    ghost reads = { λ s. refl };
}

impl Store {
    ghost use Rattle.sections.specs.Translation.{place as place_of};
    ghost use Rattle.types.specs.Contents.{write as written};
    ghost use Rattle.types.specs.Translation.{input as lists_in};
    ghost use Rattle.statement_steps.specs.Bounds.{HasPlace};
    ghost use Rattle.statement_steps.specs.Lists.{contents_of, lengths_of, lists_of};

    /// Returns the contents at the start of a run.
    pub fn of_input(alloc: Global, input: &Input) -> Result<Store, AllocError>
        ensures { IfOk result (λ s. lists_of s ≡ lists_in input.now) }
    {
        let mut arrays = Vec::new(alloc);
        for contents in &input.arrays {
            arrays.push(Vec::from_slice(alloc, contents)?)?;
        }
        Ok(Store { arrays })
    }

    /// Writes the number at a place, without allocating.
    pub fn write(&mut self, place: Place, value: i64)
        requires { HasPlace self.old (place_of place) }
        ensures written { contents_of self.new
            ≡ written (place_of place) value (contents_of self.old) }
        ensures shape { lengths_of self.new ≡ lengths_of self.old }
    {
        let contents = &mut self.arrays[place.array.number];
        contents[place.index] = value;
    }
}
