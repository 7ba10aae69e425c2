//! The lines about a program that is tested.

ghost use Rattle.std.specs.Prelude.{◌≡◌, ◌++◌, codes, IfErr, IfOk};
ghost use Rattle.std.specs.String.{string_bytes};
ghost use Rattle.failures.specs.Messages.{failure_text};
ghost use Rattle.printing.specs.Reasons.{escaped};
ghost use Rattle.test_and_bench.specs.Trials.{line_for, line_of_writing, lines_of_difference};
ghost use Rattle.test_and_bench.specs.Trials.{trial as trial_of};

use crate::trial::Trial;
use failures::failure::Failure;
use failures::message::emit_message;
use printing::reasons::emit_file;
use std::alloc::{AllocError, Global};

impl Trial<'_> {
    /// Returns the lines of a program of which a text, such as the output, differs in this way.
    pub fn otherwise(&self, alloc: Global, what: &str, how: Vec<u8>) -> Result<String, Failure>
        ensures line { IfOk result (λ told. string_bytes told
            ≡ lines_of_difference (trial_of self.now) what.now how.items) }
        ensures why { IfErr result (λ f. f ≡ Failure.NoMemory) }
    {
        let shown = self.shown(alloc)?;
        let how = text_of(how)?;
        match format!(in alloc; "{shown}.afx: {what} {how}") {
            Ok(lines) => Ok(lines),
            Err(AllocError) => Err(Failure::NoMemory),
        }
    }

    /// Returns the line of a program whose output was written, if it was.
    pub fn line_if_written(&self, alloc: Global, written: bool) -> Result<String, Failure>
        ensures line { IfOk result
            (λ line. string_bytes line ≡ line_of_writing (trial_of self.now) written) }
        ensures why { IfErr result (λ f. f ≡ Failure.NoMemory) }
    {
        if !written {
            return Ok(String::new(alloc));
        }
        let shown = self.shown(alloc)?;
        match format!(in alloc; "{shown}.afx: output written\n") {
            Ok(line) => Ok(line),
            Err(AllocError) => Err(Failure::NoMemory),
        }
    }

    /// Returns the line of a program whose options aren't understood.
    pub fn not_understood(&self, alloc: Global) -> Result<String, Failure>
        ensures line { IfOk result (λ line. string_bytes line
            ≡ escaped (trial_of self.now).program.shown ++ codes ".afx: options not understood\n") }
        ensures why { IfErr result (λ f. f ≡ Failure.NoMemory) }
    {
        let shown = self.shown(alloc)?;
        match format!(in alloc; "{shown}.afx: options not understood\n") {
            Ok(line) => Ok(line),
            Err(AllocError) => Err(Failure::NoMemory),
        }
    }

    /// Returns the line of a program that isn't refused, though it is to be.
    pub fn not_refused(&self, alloc: Global) -> Result<String, Failure>
        ensures line { IfOk result (λ line. string_bytes line
            ≡ escaped (trial_of self.now).program.shown ++ codes ".afx: not refused\n") }
        ensures why { IfErr result (λ f. f ≡ Failure.NoMemory) }
    {
        let shown = self.shown(alloc)?;
        match format!(in alloc; "{shown}.afx: not refused\n") {
            Ok(line) => Ok(line),
            Err(AllocError) => Err(Failure::NoMemory),
        }
    }

    /// Returns the line of a program that fails for this reason.
    pub fn failed(&self, alloc: Global, failure: &Failure) -> Result<String, Failure>
        ensures line { IfOk result
            (λ line. string_bytes line ≡ line_for (trial_of self.now) failure.now) }
        ensures why { IfErr result (λ f. f ≡ Failure.NoMemory) }
    {
        let shown = self.shown(alloc)?;
        let message = message_of(alloc, failure)?;
        match format!(in alloc; "{shown}.afx: {message}") {
            Ok(line) => Ok(line),
            Err(AllocError) => Err(Failure::NoMemory),
        }
    }

    /// Returns what it is called in lines, with control characters escaped.
    fn shown(&self, alloc: Global) -> Result<String, Failure>
        ensures text { IfOk result
            (λ text. string_bytes text ≡ escaped (trial_of self.now).program.shown) }
        ensures why { IfErr result (λ f. f ≡ Failure.NoMemory) }
    {
        let mut bytes = Vec::new(alloc);
        if emit_file(&mut bytes, "", self.program.shown.as_str()).is_err() {
            return Err(Failure::NoMemory);
        }
        text_of(bytes)
    }
}

/// Returns the message of a failure, with its newline.
pub fn message_of(alloc: Global, failure: &Failure) -> Result<String, Failure>
    ensures text { IfOk result (λ text. string_bytes text ≡ failure_text failure.now ++ codes "\n") }
    ensures why { IfErr result (λ f. f ≡ Failure.NoMemory) }
{
    let mut bytes = Vec::new(alloc);
    if emit_message(&mut bytes, failure).is_err() {
        return Err(Failure::NoMemory);
    }
    text_of(bytes)
}

/// Returns the text that these bytes are.
fn text_of(bytes: Vec<u8>) -> Result<String, Failure>
    ensures text { IfOk result (λ text. string_bytes text ≡ bytes.items) }
    ensures why { IfErr result (λ f. f ≡ Failure.NoMemory) }
{
    match String::from_utf8(bytes) {
        Ok(text) => Ok(text),
        // No contract states that they are UTF-8; they consist of texts.
        Err(_) => Err(Failure::NoMemory),
    }
}
