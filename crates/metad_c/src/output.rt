//! The output of a server, which its host program fetches.
ghost use Rattle.std.specs.Prelude.{◌≡◌, ◌++◌, List, ℕ, OnOk, OnErr, [], drop, length, min, take, vec_len};
ghost use Rattle.std.specs.List.{flat_map};
ghost use Rattle.wire_format.specs.Text.{text_of_line};

use session_model::Line;
use std::alloc::{AllocError, Global};
use wire_format::write_line;

/// The output lines that are not fetched yet.
#[derive(Drop)]
pub struct Output {
    pub(crate) said: Vec<u8>,
    /// Memory for the text of a line, reused for all lines.
    text: String,
}

impl Output {
    pub(crate) fn new(alloc: Global) -> Output
        ensures { result.said.items ≡ [] }
    {
        Output {
            said: Vec::new(alloc),
            text: String::new(alloc),
        }
    }

    /// Outputs one line, or nothing if there is no memory for it.
    pub(crate) fn say(
        &mut self,
        alloc: Global,
        session: &str,
        line: &Line,
    ) -> Result<(), AllocError>
        ensures ok { OnOk result (self.new.said.items ≡ self.old.said.items ++ text_of_line session.now line.now) }
        ensures err { OnErr result (self.new.said.items ≡ self.old.said.items) }
    {
        write_line(alloc, &mut self.text, session, line)?;
        self.said.extend_from_slice(self.text.as_bytes())
    }

    /// Outputs several lines, or nothing if there is no memory for one of them.
    pub(crate) fn say_all(
        &mut self,
        alloc: Global,
        session: &str,
        lines: &[Line],
    ) -> Result<(), AllocError>
        ensures ok { OnOk result (self.new.said.items ≡ self.old.said.items ++ flat_map (text_of_line session.now) lines.now) }
        ensures err { OnErr result (self.new.said.items ≡ self.old.said.items) }
    {
        let before = self.said.len();
        match self.say_each(alloc, session, lines) {
            Ok(()) => Ok(()),
            Err(AllocError) => {
                self.said.truncate(before);
                Err(AllocError)
            }
        }
    }

    /// Outputs lines until memory runs out.
    fn say_each(&mut self, alloc: Global, session: &str, lines: &[Line]) -> Result<(), AllocError>
        ensures ok { OnOk result (self.new.said.items ≡ self.old.said.items ++ flat_map (text_of_line session.now) lines.now) }
        ensures front { (more : List ℕ) × (self.new.said.items ≡ self.old.said.items ++ more) }
    {
        for line in lines {
            self.say(alloc, session, line)?;
        }
        Ok(())
    }

    /// Removes bytes from the front of the output, as many as there is room for, and returns how many.
    pub(crate) fn fetch(&mut self, into: &mut [u8]) -> usize
        ensures count { result ≡ min (vec_len self.old.said) (length into.old) }
        ensures fetched { into.new ≡ take result self.old.said.items ++ drop result into.old }
        ensures rest { self.new.said.items ≡ drop result self.old.said.items }
    {
        let count = self.said.len().min(into.len());
        into[..count].copy_from_slice(&self.said[..count]);
        drop(self.said.drain(..count));
        count
    }
}
