//! The output of a command: its lines so far, and the turns that are left for the calls that it causes.
ghost use Rattle.std.specs.Prelude.{◌≡◌, OnOk};
ghost use Rattle.session_model.specs.declared.line.Line.TheVariants as line;
ghost use Rattle.session_model.specs.declared.line.Line.TheVariants.{BindingWarning, Warning};
ghost use Rattle.dispatch.specs.CommandOutput.{Warns, fresh_output, spent, with_line};

use binding_values::BindingError;
use plain_types::{Code, Fault, Items, Text};
use property_store::Property;
use session_effects::{Setup, Slot};
use session_model::{Call, Line};
use std::alloc::{AllocError, Global};
use variant_value::Args;

/// The output of a command: its lines so far, and the turns that are left for the calls that it causes.
#[derive(Drop)]
pub struct CommandOutput {
    pub lines: Items<Line>,
    pub turns: u32,
    /// Whether the warning that no turn is left has been given.
    pub spent: bool,
    /// How many events it took.
    pub taken: u32,
    /// Another session has failed by a post of this command.
    pub failing: bool,
}

impl CommandOutput {
    /// The output of a command that begins.
    pub fn new(setup: &Setup) -> CommandOutput
        ensures { result ≡ fresh_output setup.now.turns }
    {
        CommandOutput {
            lines: Items::new(setup.alloc),
            turns: setup.turns,
            spent: false,
            taken: 0,
            failing: false,
        }
    }

    /// Tells a line.
    pub fn tell(&mut self, line: Line) -> Result<(), AllocError>
        ensures told { OnOk result (self.new ≡ with_line self.old line) }
        ensures failing { self.new.failing ≡ self.old.failing }
    {
        self.lines.push(line)
    }

    /// Warns of a code, and names an object with it.
    pub(crate) fn warn(&mut self, code: Code, object: Option<u32>) -> Result<(), AllocError>
        ensures told { OnOk result (self.new ≡ with_line self.old (Warning code object)) }
        ensures failing { self.new.failing ≡ self.old.failing }
    {
        self.tell(Line::Warning { code, object })
    }

    /// Warns of the error that a bound property of this name stands for.
    pub(crate) fn warn_of_property(
        &mut self,
        at: Property,
        name: Text,
        error: BindingError,
    ) -> Result<(), AllocError>
        ensures told { OnOk result (self.new ≡ with_line self.old (BindingWarning at.object name error)) }
        ensures failing { self.new.failing ≡ self.old.failing }
    {
        self.tell(Line::BindingWarning {
            object: at.object,
            property: name,
            error,
        })
    }

    /// Warns that no turn is left, once in a command.
    pub fn use_up(&mut self) -> Result<(), AllocError>
        ensures told { OnOk result (self.new ≡ spent self.old) }
        ensures failing { self.new.failing ≡ self.old.failing }
    {
        if self.spent {
            return Ok(());
        }
        self.warn(Code::TurnsUsedUp, None)?;
        self.spent = true;
        Ok(())
    }

    /// Warns that an action of the slot of `object` was refused. If memory ran out, it fails without a warning.
    pub(crate) fn warn_of(&mut self, fault: Fault, object: u32) -> Result<(), AllocError>
        ensures told { OnOk result (Warns fault object self.old self.new) }
        ensures failing { self.new.failing ≡ self.old.failing }
    {
        match fault {
            Fault::Refused(code) => self.warn(code, Some(object)),
            Fault::Memory => Err(AllocError),
        }
    }

    /// Reports the call of a slot or a functor, by its name.
    pub(crate) fn call(&mut self, alloc: Global, name: &Text, slot: &Slot) -> Result<(), AllocError>
        ensures told { OnOk result (self.new ≡ with_line self.old
            (line.Call (record { method = name.now; object = slot.now.object; sender = slot.now.sender; args = slot.now.args.now }))) }
        ensures failing { self.new.failing ≡ self.old.failing }
    {
        let call = Call {
            method: name.copy(alloc)?,
            object: slot.object,
            sender: slot.sender,
            args: Args::copied(alloc, slot.args)?,
        };
        self.tell(Line::Call(call))
    }
}
