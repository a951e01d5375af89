//! Files of a file system as a library.
ghost use Rattle.std.specs.Prelude.{◌≡◌, ◌<◌, ◌≤◌, ◌++◌, ℕ, None, Ok, Err, ◌≢◌, ◌↔◌, IsTrue, IsErr, IfErr, IfOk, IfSome, MatchOption, MatchResult, length, take};
ghost use Rattle.std.specs.Fs.{IsFile, file_type};
ghost use Rattle.std.specs.IoError.{error_kind};
ghost use Rattle.std.specs.String.{string_bytes};
ghost use Rattle.std.specs.Io.KnownBytes.{IsAtEnd};
ghost use Rattle.cu_io.specs.Fetches.{FetchCount, max_fetched_bytes};
ghost use Rattle.cu_io.specs.Once.{fetch_faults};
ghost use Rattle.cu_io.specs.Inside.Outside.{IsTextWithin, Moves, module_path, path_char, slashed};

use crate::library::{Fetched, Library, MAX_FETCHED_BYTES};
use std::alloc::{AllocError, Global};
use std::fs::Metadata;
use std::io::{ErrorKind, Read};
use std::marker::Model;
use std::rt::Files;
use std::{fs, io};

/// The most bytes that one read takes.
const PIECE: usize = 8192;

/// Reads once at the end of a text, `most` bytes at most; tells how many, none
/// only at the end of the file.
fn read_piece<F: Read>(file: &mut F, text: &mut Vec<u8>, most: usize) -> io::Result<usize>
    requires { 0 < most }
    ensures within { IfOk result (λ count. count ≤ most) }
    ensures moves { IfOk result (λ count.
        Moves count (F.remaining file.old) (F.remaining file.new) text.old.items text.new.items) }
    ensures end { IfOk result (λ count. count ≡ 0 → IsAtEnd (F.remaining file.new)) }
{
    let mut piece = [0; PIECE];
    let room = &mut piece[..most.min(PIECE)];
    let said = file.read(room);
    take_read(said, room, text)
}

/// Takes what a read put into a room to the end of a text; tells how many
/// bytes that is. An error of the read is passed on.
fn take_read(said: io::Result<usize>, room: &[u8], text: &mut Vec<u8>) -> io::Result<usize>
    requires { IfOk said (λ count. count ≤ length room.now) }
    ensures failed { IfErr said (λ e. (result ≡ Err e) × (text.new.items ≡ text.old.items)) }
    ensures taken { IfOk said (λ count. IfOk result (λ told.
        (told ≡ count) × (text.new.items ≡ text.old.items ++ take count room.now))) }
    ensures memory { IfOk said (λ _. IfErr result (λ e. error_kind e ≡ ErrorKind.OutOfMemory)) }
{
    let count = said?;
    text.extend_from_slice(&room[..count])?;
    Ok(count)
}

/// The first bytes of a file, `most` at most.
fn read_prefix<F: Read>(alloc: Global, file: &mut F, most: usize) -> io::Result<Vec<u8>>
    ensures within { IfOk result (λ text. length text.items ≤ most) }
    ensures told { IfOk result (λ text. IfSome (F.remaining file.old) (λ bytes.
        text.items ≡ take most bytes)) }
{
    let mut text = Vec::new(alloc);
    while text.len() < most {
        let missing = most - text.len();
        if read_piece(file, &mut text, missing)? == 0 {
            return Ok(text);
        }
    }
    Ok(text)
}

/// A letter of a module's name in a path.
fn path_char(letter: char) -> char
    ensures { result ≡ path_char letter }
{
    if letter == '.' { '/' } else { letter }
}

/// A module's name with a slash for each dot.
fn slashed(alloc: Global, name: &str) -> Result<String, AllocError>
    ensures { IfOk result (λ path. string_bytes path ≡ slashed name.now) }
{
    name.chars().map(path_char).collect(alloc)
}

/// The path of a module's file: `A.B` in `dir` is `dir/A/B.curry`.
fn module_path(alloc: Global, dir: &str, name: &str) -> Result<String, AllocError>
    ensures { IfOk result (λ path. string_bytes path ≡ module_path dir.now name.now) }
{
    let name = slashed(alloc, name)?;
    format!(in alloc; "{dir}/{name}.curry")
}

/// Whether a path is opened, by what the system said of it: what is there has
/// to be a regular file. An error is left to the opening, which meets it again.
fn may_open(said: &io::Result<Metadata>) -> bool
    ensures there { IfOk said.now (λ found. IsTrue result ↔ IsFile (file_type found)) }
    ensures error { IfErr said.now (λ _. IsTrue result) }
{
    match said {
        Ok(found) => found.is_file(),
        Err(_) => true,
    }
}

/// Opens a file to read it. A directory, a pipe, a socket and a device are
/// errors, so that no opening or read of them waits.
fn open_regular<R: Files>(files: &R, path: &str) -> io::Result<R::File> {
    if may_open(&fs::metadata(files, path)) {
        return fs::open(files, path);
    }
    Err(io::Error::from(ErrorKind::InvalidInput))
}

/// What a file holds that couldn't be opened: nothing where it isn't there.
fn unopened(error: io::Error) -> io::Result<Option<Vec<u8>>>
    ensures absent { error_kind error ≡ ErrorKind.NotFound → result ≡ Ok None }
    ensures other { error_kind error ≢ ErrorKind.NotFound → result ≡ Err error }
{
    if error.kind() == ErrorKind::NotFound {
        return Ok(None);
    }
    Err(error)
}

/// What a file holds, by what opening it said: the first bytes of a file that
/// was opened, nothing where it isn't there, and else the error.
fn held<F: Read + Drop>(alloc: Global, opened: io::Result<F>) -> io::Result<Option<Vec<u8>>>
    ensures text { IfOk opened (λ file. IfOk result (λ held. MatchOption held ⊥ (λ text.
        (length text.items ≤ max_fetched_bytes)
        × IfSome (F.remaining file) (λ bytes. text.items ≡ take max_fetched_bytes bytes)))) }
    ensures absent { IfErr opened (λ e. error_kind e ≡ ErrorKind.NotFound → result ≡ Ok None) }
    ensures failed { IfErr opened (λ e. error_kind e ≢ ErrorKind.NotFound → result ≡ Err e) }
{
    match opened {
        Ok(mut file) => Ok(Some(read_prefix(alloc, &mut file, MAX_FETCHED_BYTES)?)),
        Err(error) => unopened(error),
    }
}

/// Files as a library: the module `A.B` under a directory `D` is the file
/// `D/A/B.curry`. It doesn't tell what is held. A clause sees its count of
/// faults, which every error raises but an allocation failure and that a file
/// isn't there.
#[derive(Drop)]
pub struct FolderLibrary<R> {
    files: R,
    faults: u64,
}

impl<R> Model for FolderLibrary<R> {
    ghost use Rattle.std.specs.Prelude.{ℕ};

    ghost Value = { ℕ };

    ghost view = { λ s. s.faults };
}

impl<R: Files> FolderLibrary<R> {
    /// A library over a runtime, or over a reference to one.
    pub fn new(files: R) -> FolderLibrary<R>
        ensures { result ≡ 0 }
    {
        FolderLibrary { files, faults: 0 }
    }

    /// The library's answer by what was read of a file: its text, or that it
    /// isn't there, or a failure, which is counted. Where memory ran out it is
    /// an allocation failure, which isn't counted.
    fn answer(&mut self, read: io::Result<Option<Vec<u8>>>) -> Result<Fetched, AllocError>
        ensures text { IfOk read (λ held. IfSome held (λ text. result ≡ Ok (Fetched.Text text))) }
        ensures absent { read ≡ Ok None → result ≡ Ok Fetched.Absent }
        ensures memory { IfErr read (λ e. error_kind e ≡ ErrorKind.OutOfMemory → IsErr result) }
        ensures failed { IfErr read (λ e.
            error_kind e ≢ ErrorKind.OutOfMemory → result ≡ Ok Fetched.Failed) }
        ensures count { MatchResult result
            (λ fetched. FetchCount fetched self.old self.new)
            (λ _. self.new ≡ self.old) }
        ensures once { IfOk result (λ fetched. self.new ≡ fetch_faults fetched self.old) }
    {
        match read {
            Ok(Some(text)) => Ok(Fetched::Text(text)),
            Ok(None) => Ok(Fetched::Absent),
            Err(error) if error.kind() == ErrorKind::OutOfMemory => Err(AllocError),
            Err(_) => {
                self.faults = self.faults.saturating_add(1);
                Ok(Fetched::Failed)
            }
        }
    }

    fn read(&mut self, alloc: Global, path: &str) -> Result<Fetched, AllocError>
        ensures within { IfOk result (IsTextWithin max_fetched_bytes) }
        ensures count { MatchResult result
            (λ fetched. FetchCount fetched self.old self.new)
            (λ _. self.new ≡ self.old) }
        ensures once { IfOk result (λ fetched. self.new ≡ fetch_faults fetched self.old) }
    {
        let opened = open_regular(&self.files, path);
        self.answer(held(alloc, opened))
    }
}

impl<R: Files> Library for FolderLibrary<R> {
    ghost fault_count = { λ s. s };

    ghost holdings = { λ _. None };

    fn faults(&self) -> u64 {
        self.faults
    }

    fn fetch(&mut self, alloc: Global, dir: &str, module: &str) -> Result<Fetched, AllocError> {
        let path = module_path(alloc, dir, module)?;
        self.read(alloc, path.as_str())
    }

    fn file(&mut self, alloc: Global, path: &str) -> Result<Fetched, AllocError> {
        self.read(alloc, path)
    }
}
