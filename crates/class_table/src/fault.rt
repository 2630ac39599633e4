//! A class file may have these faults.
ghost use Rattle.std.specs.Prelude.{◌≡◌};
ghost use Rattle.class_table.specs.Faults.{error_at, kind_text};

use std::alloc::{AllocError, AllocFailed};
use std::error::Error;
use std::fmt;

/// A kind of fault, printed as `C` and two digits.
#[derive(Clone, Copy, Debug, PartialEq, Eq)]
pub enum ClassFaultKind {
    /// The file is not UTF-8 or not JSON.
    NotJson,
    /// A key is missing or unknown, its value is of the wrong kind, or a name or a type's name is invalid.
    BadForm,
    /// There is already a class of this name.
    NameTaken,
    /// The superclass is not declared earlier.
    NoSuperclass,
    /// The signature of a signal or a slot is invalid.
    BadSignature,
    /// A method or a property is there already, in the class or in a superclass.
    DeclaredTwice,
    /// A property's `notify` is not a signal of the class or a superclass, or has other parameters than a
    /// single one of the property's kind.
    BadNotify,
    /// A slot's body is invalid.
    BadBody,
    /// The file, a class, a body or an expression is too large.
    Limit,
}

impl ClassFaultKind {
    /// The kind as it is printed.
    pub fn text(self) -> &'static str
        ensures { result.now ≡ kind_text self }
    {
        match self {
            ClassFaultKind::NotJson => "C01",
            ClassFaultKind::BadForm => "C02",
            ClassFaultKind::NameTaken => "C03",
            ClassFaultKind::NoSuperclass => "C04",
            ClassFaultKind::BadSignature => "C05",
            ClassFaultKind::DeclaredTwice => "C06",
            ClassFaultKind::BadNotify => "C07",
            ClassFaultKind::BadBody => "C08",
            ClassFaultKind::Limit => "C09",
        }
    }
}

impl fmt::Display for ClassFaultKind {
    ghost use Rattle.std.specs.Prelude.{Some};

    ghost output = { λ kind. Some (kind_text kind) };

    fn fmt<W: fmt::Write>(&self, f: &mut fmt::Formatter<W>) -> fmt::Result {
        let text = self.text();
        write!(f, "{text}")
    }
}

impl Error for ClassFaultKind {}

/// The first fault of a class file.
#[derive(Clone, Copy, Debug, PartialEq, Eq)]
pub struct ClassFault {
    pub kind: ClassFaultKind,
    /// The class that is at fault, counted from 1; 0 is the file as a whole.
    pub class: u32,
}

/// Why a class file gave no table.
#[derive(Clone, Copy, Debug)]
pub enum ClassError {
    /// The file is at fault.
    Fault(ClassFault),
    /// Memory was wanted and not found.
    Memory,
}

impl From<AllocError> for ClassError {
    ghost use Rattle.class_table.specs.declared.fault.ClassError.TheVariants.{Memory};

    ghost from_gives = { λ _ error. error ≡ Memory };

    fn from(_error: AllocError) -> ClassError {
        ClassError::Memory
    }
}

impl<T: Drop> From<AllocFailed<T>> for ClassError {
    ghost use Rattle.class_table.specs.declared.fault.ClassError.TheVariants.{Memory};

    ghost from_gives = { λ _ error. error ≡ Memory };

    fn from(_error: AllocFailed<T>) -> ClassError {
        ClassError::Memory
    }
}

/// Why a class was not read, whichever its number.
#[derive(Clone, Copy, Debug)]
pub(crate) enum Stop {
    Fault(ClassFaultKind),
    Memory,
}

impl Stop {
    /// The error of the class of this number.
    pub(crate) fn at(self, class: u32) -> ClassError
        ensures { result ≡ error_at class self }
    {
        match self {
            Stop::Fault(kind) => ClassError::Fault(ClassFault { kind, class }),
            Stop::Memory => ClassError::Memory,
        }
    }
}

impl From<AllocError> for Stop {
    ghost use Rattle.class_table.specs.declared.fault.Stop.TheVariants.{Memory};

    ghost from_gives = { λ _ stop. stop ≡ Memory };

    fn from(_error: AllocError) -> Stop {
        Stop::Memory
    }
}

impl<T: Drop> From<AllocFailed<T>> for Stop {
    ghost use Rattle.class_table.specs.declared.fault.Stop.TheVariants.{Memory};

    ghost from_gives = { λ _ stop. stop ≡ Memory };

    fn from(_error: AllocFailed<T>) -> Stop {
        Stop::Memory
    }
}
