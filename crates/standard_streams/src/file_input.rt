// Files as a source.

ghost use Rattle.std.specs.Prelude.{◌≡◌, None};
ghost use Rattle.standard_streams.specs.Opening.{left_of};

use crate::input::{PIECE, read_again};
use crate::opens_files::{Opened, OpensFiles};
use byte_ends::{Got, Source};
use std::fs;
use std::fs::Files;
use std::io::ErrorKind;

/// The files of a system, and the one of them that is open. What is left of that one is what its
/// reader tells, so a read that fails is never taken for its end; what the others hold isn't told.
#[derive(Drop)]
pub struct FileInput<'a, R: Files> {
    files: &'a R,
    opened: Option<R::File>,
    faults: u64,
}

impl<'a, R: Files> FileInput<'a, R> {
    /// None is open at first.
    pub fn over(files: &'a R) -> FileInput<'a, R>
        ensures { result.faults ≡ 0 }
    {
        FileInput {
            files,
            opened: None,
            faults: 0,
        }
    }
}

impl<R: Files> Source for FileInput<'_, R> {
    ghost left = { λ s. left_of R.File.remaining s.opened };

    ghost faults = { λ s. s.faults };

    fn read(&mut self, buf: &mut [u8]) -> Got {
        let Some(file) = &mut self.opened else {
            return Got::End;
        };
        let most = buf.len().min(PIECE);
        match read_again(file, &mut buf[..most]) {
            Ok(0) => Got::End,
            Ok(n) => Got::Bytes(n as u32),
            Err(_) => {
                self.faults = self.faults.saturating_add(1);
                Got::Failed
            }
        }
    }
}

impl<R: Files> OpensFiles for FileInput<'_, R> {
    ghost bytes_of = { λ _ _. None };

    fn open(&mut self, name: &str) -> Opened {
        self.opened = None;
        match fs::open(self.files, name) {
            Ok(file) => {
                self.opened = Some(file);
                Opened::Open
            }
            Err(e) if e.kind() == ErrorKind::OutOfMemory => Opened::NoMemory,
            Err(_) => {
                self.faults = self.faults.saturating_add(1);
                Opened::Failed
            }
        }
    }
}
