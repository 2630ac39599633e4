//! Where class files are found.
ghost use Rattle.std.specs.Prelude.{◌≡◌, ◌≢◌, ℕ, Bool, true, false, List, Option, Some, None, Err, IfOk, IfSome};
ghost use Rattle.class_table.specs.declared.fault.ClassFault.{ClassFault};
ghost use Rattle.command_line.specs.declared.class_file.ClassFileError.TheVariants.{Refused, Unreadable};

use crate::class_file::ClassFileError;
use std::fs;
use std::io::ErrorKind;
use std::rt::Files;
use wire_format::{Counted, Source};

/// Class files by their paths.
pub trait ClassFiles {
    type File: Source + Drop;

    // The bytes of the file at a path, where they are known.
    ghost holds: { Self → List ℕ → Option (List ℕ) };

    // Whether it is known that the file at a path can be opened, and that none of its reads fails.
    ghost readable: { Self → List ℕ → Bool };

    /// Opens the file at this path. An empty path is that of no file.
    fn class_file(&self, path: &str) -> Result<Self::File, ClassFileError>
        ensures bytes { IfOk result (λ file. IfSome (holds self.now path.now) (λ bytes. Self.File.left file ≡ Some bytes)) }
        ensures opens { readable self.now path.now ≡ true → result ≢ Err Unreadable }
        ensures reads { readable self.now path.now ≡ true → IfOk result (λ file. Self.File.infallible file ≡ true) }
        ensures kinds { (fault : ClassFault) → result ≢ Err (Refused fault) };
}

/// The files of the system. Proofs assume nothing about their bytes: only tests cover that the file at the
/// path is opened. A read that is interrupted is made again, at most 1,000 times in a row.
impl<R: Files> ClassFiles for R {
    type File = Counted<R::File>;

    ghost holds = { λ _ _. None };

    ghost readable = { λ _ _. false };

    fn class_file(&self, path: &str) -> Result<Counted<R::File>, ClassFileError> {
        match fs::open(self, path) {
            Ok(file) => Ok(Counted::new(file)),
            Err(error) if error.kind() == ErrorKind::OutOfMemory => Err(ClassFileError::Memory),
            Err(_) => Err(ClassFileError::Unreadable),
        }
    }
}
