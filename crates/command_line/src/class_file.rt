//! Where the classes come from: a class file, or the demonstration classes.
ghost use Rattle.std.specs.Prelude.{◌≡◌, ◌≢◌, ◌+◌, ◌-◌, ◌<◌, ◌≤◌, ◌++◌, ℕ, List, Err, IfOk, IfSome, OnOk, option_map, take, vec_len};
ghost use Rattle.std.specs.Io.KnownBytes.{Consumes, IsAtEnd};
ghost use Rattle.class_table.specs.declared.fault.ClassFault.{ClassFault};
ghost use Rattle.class_table.specs.ClassFile.{table_of};
ghost use Rattle.command_line.specs.declared.class_file.ClassFileError.TheVariants.{Refused};
ghost use Rattle.command_line.specs.ClassBytes.{Answers, AnswersAt, AnswersByDemonstration, AnswersFor, AnswersOfFile};
ghost use Rattle.command_line.specs.ClassBytes.{CountsUnreadable, IsReadIf, ReadsSurely, TakesAtMost, most_bytes};

use crate::class_files::ClassFiles;
use crate::demonstration::DEMONSTRATION;
use class_table::{ClassError, ClassFault, ClassTable, FILE_BYTES};
use std::alloc::{AllocError, Global};
use wire_format::{Failed, Source};

/// The most bytes that are read of a class file: one more than it may have, so that a longer one is
/// known to be too long.
pub const MOST_BYTES: usize = FILE_BYTES + 1;

/// How many bytes a source is asked for at once.
const CHUNK_BYTES: usize = 4096;

/// Why there are no classes to run with.
#[derive(Clone, Copy, PartialEq, Eq)]
pub enum ClassFileError {
    /// The class file has this fault.
    Refused(ClassFault),
    /// The class file could not be opened or read.
    Unreadable,
    /// Out of memory.
    Memory,
}

impl From<AllocError> for ClassFileError {
    ghost use Rattle.command_line.specs.declared.class_file.ClassFileError.TheVariants.{Memory};

    ghost from_gives = { λ _ error. error ≡ Memory };

    fn from(_error: AllocError) -> ClassFileError {
        ClassFileError::Memory
    }
}

impl From<Failed> for ClassFileError {
    ghost use Rattle.command_line.specs.declared.class_file.ClassFileError.TheVariants.{Unreadable};

    ghost from_gives = { λ _ error. error ≡ Unreadable };

    fn from(_failed: Failed) -> ClassFileError {
        ClassFileError::Unreadable
    }
}

impl From<ClassError> for ClassFileError {
    ghost use Rattle.command_line.specs.ClassBytes.{file_error};

    ghost from_gives = { λ error given. given ≡ file_error error };

    fn from(error: ClassError) -> ClassFileError {
        match error {
            ClassError::Fault(fault) => ClassFileError::Refused(fault),
            ClassError::Memory => ClassFileError::Memory,
        }
    }
}

/// The classes of the file at this path, or the demonstration classes if no path is given.
pub fn classes_at<F: ClassFiles + AllocGlobal>(
    files: &F,
    path: Option<&str>,
) -> Result<ClassTable, ClassFileError>
    ensures { AnswersAt (F.holds files.now) (F.readable files.now) (option_map (λ path. path.now) path.entry) result }
{
    let file = match path {
        Some(path) => Some(files.class_file(path)?),
        None => None,
    };
    classes_of(files.alloc(), file)
}

/// The classes of a class file, or the demonstration classes if no file is given.
pub fn classes_of<S: Source + Drop>(
    alloc: Global,
    file: Option<S>,
) -> Result<ClassTable, ClassFileError>
    ensures { AnswersFor S.left S.infallible file result }
{
    match file {
        Some(mut file) => classes_in(alloc, &mut file),
        None => demonstration_classes(alloc),
    }
}

/// The demonstration classes.
fn demonstration_classes(alloc: Global) -> Result<ClassTable, ClassFileError>
    ensures { AnswersByDemonstration result }
{
    table_from(alloc, DEMONSTRATION.as_bytes())
}

/// The classes of a class file: those that all of its bytes give, though no more of them are read
/// than it takes to know that there are too many.
pub fn classes_in<S: Source>(alloc: Global, file: &mut S) -> Result<ClassTable, ClassFileError>
    ensures classes { IfSome (S.left file.old) (λ bytes. AnswersOfFile result (table_of bytes)) }
    ensures taken { TakesAtMost most_bytes (S.left file.old) (S.left file.new) }
    ensures failed { CountsUnreadable (S.failures file.old) (S.failures file.new) result }
    ensures read { IsReadIf (S.infallible file.old) result }
{
    let bytes = read_at_most(alloc, file, MOST_BYTES)?;
    table_from(alloc, bytes.as_slice())
}

/// The classes of a class file of these bytes.
fn table_from(alloc: Global, bytes: &[u8]) -> Result<ClassTable, ClassFileError>
    ensures { Answers result (table_of bytes.now) }
{
    match ClassTable::from_text(alloc, bytes) {
        Ok(classes) => Ok(classes),
        Err(error) => Err(ClassFileError::from(error)),
    }
}

/// The bytes of a source up to its end, or the first `most` of them where it has more.
pub fn read_at_most<S: Source>(
    alloc: Global,
    source: &mut S,
    most: usize,
) -> Result<Vec<u8>, ClassFileError>
    ensures bytes { IfOk result (λ bytes. IfSome (S.left source.old) (λ left. bytes.items ≡ take most left)) }
    ensures few { IfOk result (λ bytes. vec_len bytes ≤ most) }
    ensures taken { TakesAtMost most (S.left source.old) (S.left source.new) }
    ensures failed { CountsUnreadable (S.failures source.old) (S.failures source.new) result }
    ensures read { IsReadIf (S.infallible source.old) result }
    ensures kinds { (fault : ClassFault) → result ≢ Err (Refused fault) }
{
    let mut bytes = Vec::new(alloc);
    'chunks: while bytes.len() < most {
        match read_more(source, &mut bytes, most) {
            Ok(0) => return Ok(bytes),
            Ok(_) => {}
            Err(error) => return Err(error),
        }
    }
    Ok(bytes)
}

/// Reads once, into the room that is left, and answers how many bytes came: none at the end.
fn read_more<S: Source>(
    source: &mut S,
    bytes: &mut Vec<u8>,
    most: usize,
) -> Result<usize, ClassFileError>
    requires { vec_len bytes.old < most }
    ensures more { IfOk result (λ count. vec_len bytes.new ≡ vec_len bytes.old + count) }
    ensures few { vec_len bytes.new ≤ most }
    ensures came { OnOk result ((came : List ℕ) × (bytes.new.items ≡ bytes.old.items ++ came) × Consumes (S.left source.old) (S.left source.new) came) }
    ensures end { IfOk result (λ count. count ≡ 0 → IsAtEnd (S.left source.new)) }
    ensures taken { TakesAtMost (most - vec_len bytes.old) (S.left source.old) (S.left source.new) }
    ensures failed { CountsUnreadable (S.failures source.old) (S.failures source.new) result
        × ReadsSurely (S.infallible source.old) (S.infallible source.new) result }
    ensures kinds { (fault : ClassFault) → result ≢ Err (Refused fault) }
{
    let mut chunk = [0; CHUNK_BYTES];
    let wanted = CHUNK_BYTES.min(most - bytes.len());
    let count = source.read(&mut chunk[..wanted])?;
    bytes.extend_from_slice(&chunk[..count])?;
    Ok(count)
}
