//! The codes of the protocol.
ghost use Rattle.std.specs.Prelude.{◌≡◌};
ghost use Rattle.plain_types.specs.Codes.{code_text};

use std::error::Error;
use std::fmt;

/// Why a line, a command or an action is refused. The protocol prints each as `E` and two digits.
#[derive(Clone, Copy, Debug, PartialEq, Eq)]
pub enum Code {
    /// A line that is no JSON, no UTF-8, or too long.
    UnreadableLine,
    /// A line that is JSON and no command.
    NotACommand,
    NoSuchClass,
    NoSuchObject,
    NoSuchMethod,
    /// A text that is no signature, or no type name.
    BadSignature,
    /// The slot's types are no prefix of the signal's.
    DoesNotFit,
    /// A unique connection whose sender, signal, receiver and method are connected.
    ConnectedAlready,
    /// A unique connection with a functor.
    UniqueFunctor,
    NoSuchFunctor,
    NoSuchProperty,
    /// A parent that is the object itself or below it.
    Cycle,
    /// An object that is being deleted.
    Dying,
    /// One of the protocol's limits.
    Limit,
    NameTaken,
    /// A join of one's own session.
    OwnSession,
    /// The end of a group of property changes where none is open.
    NoGroup,
    NotBindable,
    /// Numbers of objects, connections or ages have run out.
    NumbersUsedUp,
    /// A session that ran out of memory, failed, and has not been reset since.
    SessionFailed,
    OutOfMemory,
    /// A value, a kind or a form that does not serve.
    BadValue,
    /// A command has used up its turns: a warning, and no refusal.
    TurnsUsedUp,
}

impl Code {
    /// The code as the protocol prints it.
    pub fn text(self) -> &'static str
        ensures { result.now ≡ code_text self }
    {
        match self {
            Code::UnreadableLine => "E01",
            Code::NotACommand => "E02",
            Code::NoSuchClass => "E03",
            Code::NoSuchObject => "E04",
            Code::NoSuchMethod => "E05",
            Code::BadSignature => "E06",
            Code::DoesNotFit => "E07",
            Code::ConnectedAlready => "E08",
            Code::UniqueFunctor => "E09",
            Code::NoSuchFunctor => "E10",
            Code::NoSuchProperty => "E11",
            Code::Cycle => "E12",
            Code::Dying => "E13",
            Code::Limit => "E14",
            Code::NameTaken => "E15",
            Code::OwnSession => "E16",
            Code::NoGroup => "E17",
            Code::NotBindable => "E18",
            Code::NumbersUsedUp => "E19",
            Code::SessionFailed => "E20",
            Code::OutOfMemory => "E21",
            Code::BadValue => "E22",
            Code::TurnsUsedUp => "E23",
        }
    }
}

impl fmt::Display for Code {
    ghost use Rattle.std.specs.Prelude.{Some};

    ghost output = { λ code. Some (code_text code) };

    fn fmt<W: fmt::Write>(&self, f: &mut fmt::Formatter<W>) -> fmt::Result {
        let text = self.text();
        write!(f, "{text}")
    }
}

impl Error for Code {}
