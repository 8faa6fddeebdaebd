// Describing: from the bytes of a file of handlers to what is printed of it.

ghost use Rattle.std.specs.Prelude.{◌≡◌, ◌≤◌, [], Bool, true, false, length, IfOk, IfErr};
ghost use Rattle.session_values.specs.Limits.{max_input};
ghost use Rattle.handler_syntax.specs.Language.{AreNamed, IsSourceOf, file_mentions, names_of};
ghost use Rattle.serve_faults.specs.Input.{IsInput};
ghost use Rattle.serve_faults.specs.Answer.{IsTextOf};
ghost use Rattle.serve_faults.specs.Ways.{describing};
ghost use Rattle.serve_reading.specs.Described.{IsPrintable, IsPrintableWith, text_of, text_with};
ghost use Rattle.serve_reading.specs.Programs.{Describes, IsParsed};
ghost use Rattle.serve_reading.specs.Reasons.{IsFileReason, IsReason, IsSyntaxReason};

use crate::load_error::LoadError;
use crate::naming::names_of_input;
use byte_ends::{PutsText, TextSink};
use declaration_insertion::{Program, insert, put_shown};
use handler_check::{Accepted, accept, check};
use handler_syntax::{File, is_countable, parse, put_canonical};
use may_use_analysis::{bound_later_sets, later_sets};
use request_files::has_mark;
use serve_faults::Fault;
use session_values::Names;
use std::alloc::Global;

/// A file of handlers with what is printed of it, and the names of its text. To print it takes no
/// memory.
#[derive(Drop)]
pub struct Description {
    pub names: Names,
    pub file: DescribedFile,
}

/// A file of which the canonical text is printed, or the text with its declarations.
#[derive(Drop)]
pub enum DescribedFile {
    Canonical(Accepted),
    Declared(Program),
}

impl PutsText for Description {
    ghost use Rattle.serve_reading.specs.Described.{IsPrintable, text_of};

    ghost text = { text_of };

    ghost CanPut = { IsPrintable };

    fn put_text<T: TextSink>(&self, out: &mut T) {
        match &self.file {
            DescribedFile::Canonical(accepted) => put_canonical(accepted.file(), &self.names, out),
            DescribedFile::Declared(program) => put_shown(program, &self.names, out),
        }
    }
}

/// Reads a file of handlers of which the canonical text is to be printed; with `shown`, the text
/// with its declarations. The bytes are freed as soon as they are parsed.
pub fn read_description(
    alloc: Global,
    shown: bool,
    bytes: Vec<u8>,
) -> Result<Description, LoadError>
    requires { length bytes.items ≤ max_input }
    ensures input { IfOk result (λ _. IsInput (describing shown) bytes.items) }
    ensures text { IfOk result
        (λ found. IsTextOf (describing shown) bytes.items (text_of found)) }
    ensures printable { IfOk result IsPrintable }
    ensures refused { IfErr result (IsReason (describing shown) bytes.items) }
{
    match parsed_bytes(alloc, bytes) {
        Ok((file, names)) => match described_file(alloc, shown, file, &names) {
            Ok(file) => Ok(Description { names, file }),
            Err(e) => Err(e),
        },
        Err(e) => Err(e),
    }
}

/// The same of bytes that stay where they are: what `read_description` reads of them.
pub fn description_of(alloc: Global, shown: bool, bytes: &[u8]) -> Result<Description, LoadError>
    requires { length bytes.now ≤ max_input }
    ensures input { IfOk result (λ _. IsInput (describing shown) bytes.now) }
    ensures text { IfOk result
        (λ found. IsTextOf (describing shown) bytes.now (text_of found)) }
    ensures printable { IfOk result IsPrintable }
    ensures refused { IfErr result (IsReason (describing shown) bytes.now) }
{
    match parsed(alloc, bytes) {
        Ok((tree, names)) => match described_file(alloc, shown, tree, &names) {
            Ok(file) => Ok(Description { names, file }),
            Err(e) => Err(e),
        },
        Err(e) => Err(e),
    }
}

// The file that some bytes are, and the names of its text. The bytes are freed.
fn parsed_bytes(alloc: Global, bytes: Vec<u8>) -> Result<(File, Names), LoadError>
    requires { length bytes.items ≤ max_input }
    ensures parsed { IfOk result (λ found. IsParsed bytes.items found.0 found.1) }
    ensures refused { IfErr result (λ e. (shown : Bool)
        → IsReason (describing shown) bytes.items e) }
{
    parsed(alloc, bytes.as_slice())
}

// The file that some bytes are, and the names of its text.
fn parsed(alloc: Global, bytes: &[u8]) -> Result<(File, Names), LoadError>
    requires { length bytes.now ≤ max_input }
    ensures parsed { IfOk result (λ found. IsParsed bytes.now found.0 found.1) }
    ensures refused { IfErr result (λ e. (shown : Bool)
        → IsReason (describing shown) bytes.now e) }
{
    let Ok(text) = std::str::from_utf8(bytes) else {
        return Err(LoadError::Refused(Fault::NotText));
    };
    if has_mark(text) {
        return Err(LoadError::Refused(Fault::HasRequests));
    }
    match named_file(alloc, text) {
        Ok(found) => Ok(found),
        Err(e) => Err(e),
    }
}

// The file that a text is, and its names.
fn named_file(alloc: Global, text: &str) -> Result<(File, Names), LoadError>
    requires { length text.now ≤ max_input }
    ensures form { IfOk result (λ found. IsSourceOf [] text.now found.0) }
    ensures names { IfOk result (λ found. found.1 ≡ names_of [] text.now) }
    ensures named { IfOk result (λ found. AreNamed found.1 (file_mentions found.0)) }
    ensures refused { IfErr result (IsSyntaxReason text.now) }
{
    let mut names = names_of_input(alloc, text, "", "");
    let file = parse(alloc, text, &mut names)?;
    Ok((file, names))
}

// A file that breaks no rule, with what is printed of it.
fn described_file(
    alloc: Global,
    shown: bool,
    file: File,
    names: &Names,
) -> Result<DescribedFile, LoadError>
    requires { AreNamed names.now (file_mentions file) }
    ensures text { IfOk result
        (λ found. Describes shown names.now file (text_with names.now found)) }
    ensures printable { IfOk result (IsPrintableWith names.now) }
    ensures refused { IfErr result (IsFileReason file) }
{
    if shown {
        declared_file(alloc, file, names)
    } else {
        canonical_file(alloc, file, names)
    }
}

// A file of which the canonical text is printed. One handler is resolved at a time.
fn canonical_file(alloc: Global, file: File, names: &Names) -> Result<DescribedFile, LoadError>
    requires { AreNamed names.now (file_mentions file) }
    ensures text { IfOk result
        (λ found. Describes false names.now file (text_with names.now found)) }
    ensures printable { IfOk result (IsPrintableWith names.now) }
    ensures refused { IfErr result (IsFileReason file) }
{
    let accepted = accept(alloc, file.into_tree())?;
    bound_later_sets(alloc, &accepted)?;
    if is_countable(accepted.file()) {
        Ok(DescribedFile::Canonical(accepted))
    } else {
        Err(LoadError::NoMemory)
    }
}

// A file of which the text with its declarations is printed.
fn declared_file(alloc: Global, file: File, names: &Names) -> Result<DescribedFile, LoadError>
    requires { AreNamed names.now (file_mentions file) }
    ensures text { IfOk result
        (λ found. Describes true names.now file (text_with names.now found)) }
    ensures printable { IfOk result (IsPrintableWith names.now) }
    ensures refused { IfErr result (IsFileReason file) }
{
    let checked = check(alloc, file.into_tree())?;
    let later = later_sets(alloc, &checked)?;
    let program = insert(alloc, checked, later)?;
    if is_countable(program.checked().file()) {
        Ok(DescribedFile::Declared(program))
    } else {
        Err(LoadError::NoMemory)
    }
}
