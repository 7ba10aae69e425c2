//! The parts of rows of tables: the files that commands can use, outputs that end, and expected
//! results.

#![tactic(auto)]

pub mod bytes;
pub mod objects_told;
pub mod output;
pub mod races_told;
pub mod test_files;
pub mod values;
pub mod wanted;
pub mod words;
