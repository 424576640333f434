// Files that are read whole, and replaced whole so that they last: the bytes are written beside the file and brought to the disk, then they take its
// name, then the folder is brought to the disk. Whatever cuts this off, the file has its old bytes or its new ones. No contract can say what a call of
// the operating system does, so these promise only to be safe and to end. Each says on standard error what it could not do.
#![tactic(auto)]

ghost use Rattle.std.specs.Prelude.{◌≤◌, length};

use std::fs::{File, OpenFile, OpenOptions};
use std::io::{ErrorKind, Write};
use std::rt::Files;
use std::{fs, io};

// What the system says of a file that is not there, and of a name that is no text.
const ENOENT: i32 = 2;

const EILSEQ: i32 = 84;

/// What reading a file gives: its bytes, that there is no such file, or that it cannot be read.
// Kept: a missing file is no error to kept and plan_text, and a failed one is said already, so no caller would hand either on by `?`.
#[derive(Clone, Copy, Debug, PartialEq, Eq)]
pub enum FileRead<'a> {
    Bytes(&'a [u8]),
    Missing,
    Failed,
}

const NEW: &[u8] = b".conepalhui-new";

// A path as text, which is what today's library opens. A name that is no UTF-8 leads to no file here.
fn text_of(path: &[u8]) -> Result<&str, io::Error> {
    str::from_utf8(path).map_err(|_| io::Error::from_raw_os_error(EILSEQ))
}

fn opened<R: Files>(rt: &R, path: &[u8]) -> io::Result<R::File> {
    fs::open(rt, text_of(path)?)
}

// Makes a file that was not there, and opens it to write.
fn created<R: Files>(rt: &R, path: &[u8]) -> io::Result<R::File> {
    OpenOptions::new()
        .write(true)
        .create_new(true)
        .open(rt, text_of(path)?)
}

fn unlinked<R: Files>(rt: &R, path: &[u8]) -> io::Result<()> {
    fs::remove_file(rt, text_of(path)?)
}

fn renamed<R: Files>(rt: &R, from: &[u8], to: &[u8]) -> io::Result<()> {
    fs::rename(rt, text_of(from)?, text_of(to)?)
}

/// Reads a file into a buffer, as much of it as there is room for. That a file is missing is left to the caller to say.
pub fn file<'a, R: Files, E: Write>(
    rt: &R,
    err: &mut E,
    path: &[u8],
    buffer: &'a mut [u8],
) -> FileRead<'a> {
    let mut file = match opened(rt, path) {
        Ok(file) => file,
        Err(e) if e.kind() == ErrorKind::NotFound => return FileRead::Missing,
        Err(e) => {
            reasons::fail(err, path, &e);
            return FileRead::Failed;
        }
    };
    match input::whole(&mut file, buffer) {
        Ok(bytes) => FileRead::Bytes(bytes),
        Err(e) => {
            reasons::fail(err, path, &e);
            FileRead::Failed
        }
    }
}

/// Says that a file is missing.
pub fn missing<E: Write>(err: &mut E, path: &[u8]) {
    reasons::fail(err, path, &io::Error::from_raw_os_error(ENOENT));
}

// Whether it was done. Where it was not, that is said of this path.
// Kept: callers ask only whether it was done, and chain such calls by &&; why it was not is said here and goes no further.
fn said<E: Write>(err: &mut E, path: &[u8], done: io::Result<()>) -> bool {
    match done {
        Ok(()) => true,
        Err(e) => {
            reasons::fail(err, path, &e);
            false
        }
    }
}

/// Puts a path and its ending into a buffer and returns them, or nothing where there is no room for them.
// Kept: an empty path is no file's, so the next call fails and its sentence is said; an Option would have the same sentence at each caller.
pub fn ended<'a>(path: &[u8], ending: &[u8], out: &'a mut [u8]) -> &'a [u8]
    ensures { length result.now ≤ length out.old }
{
    let n = path.len();
    if out.len() < n || out.len() - n < ending.len() {
        return &[];
    }
    let end = n + ending.len();
    out[..n].copy_from_slice(path);
    out[n..end].copy_from_slice(ending);
    &out[..end]
}

/// Writes parts, one after the other, beside a file, and brings them to the disk. What a run that was cut off left there goes.
// Kept: callers ask only whether it was done, and chain such calls by &&; why it was not is said here and goes no further.
// Kept: no length stands beside the array: a path is put together in it, and `ended` gives back the slice.
pub fn write_beside<R: Files, E: Write>(rt: &R, err: &mut E, path: &[u8], parts: &[&[u8]]) -> bool {
    let mut room = [0u8; 4096];
    let beside = ended(path, NEW, &mut room);
    let _ = unlinked(rt, beside);
    let mut file = match created(rt, beside) {
        Ok(file) => file,
        Err(e) => {
            reasons::fail(err, beside, &e);
            return false;
        }
    };
    if !said(err, beside, write_parts(&mut file, parts)) {
        let _ = unlinked(rt, beside);
        return false;
    }
    true
}

fn write_parts<F: Write + OpenFile>(file: &mut F, parts: &[&[u8]]) -> io::Result<()> {
    for part in parts {
        file.write_all(part)?;
    }
    file.sync_all()
}

/// Gives what was written beside a file its name, and brings the folder to the disk.
// Kept: callers ask only whether it was done, and chain such calls by &&; why it was not is said here and goes no further.
// Kept: no length stands beside the array: a path is put together in it, and `ended` gives back the slice.
pub fn put_in_place<R: Files, E: Write>(rt: &R, err: &mut E, path: &[u8]) -> bool {
    let mut room = [0u8; 4096];
    let beside = ended(path, NEW, &mut room);
    said(err, path, renamed(rt, beside, path)) && sync_folder_of(rt, err, path)
}

/// The same under a name that no file has; a file that has it is never replaced. The name is taken first, by an empty file: cut off there, that is what
/// stays, and otherwise no file or the whole one.
// Kept: callers ask only whether it was done, and chain such calls by &&; why it was not is said here and goes no further.
// Kept: no length stands beside the array: a path is put together in it, and `ended` gives back the slice.
pub fn put_under_new_name<R: Files, E: Write>(rt: &R, err: &mut E, path: &[u8]) -> bool {
    let mut room = [0u8; 4096];
    let beside = ended(path, NEW, &mut room);
    if !said(err, path, take_name(rt, path)) {
        let _ = unlinked(rt, beside);
        return false;
    }
    if !said(err, path, renamed(rt, beside, path)) {
        let _ = unlinked(rt, path);
        let _ = unlinked(rt, beside);
        return false;
    }
    sync_folder_of(rt, err, path)
}

// Makes an empty file, where none has that name.
fn take_name<R: Files>(rt: &R, path: &[u8]) -> io::Result<()> {
    created(rt, path)?;
    Ok(())
}

/// Removes a file, if there is one, and brings the folder to the disk.
// Kept: callers ask only whether it was done, and chain such calls by &&; why it was not is said here and goes no further.
pub fn remove<R: Files, E: Write>(rt: &R, err: &mut E, path: &[u8]) -> bool {
    match unlinked(rt, path) {
        Err(e) if e.kind() != ErrorKind::NotFound => {
            reasons::fail(err, path, &e);
            false
        }
        _ => sync_folder_of(rt, err, path),
    }
}

/// Removes a file, if there is one.
pub fn dropped<R: Files>(rt: &R, path: &[u8]) {
    let _ = unlinked(rt, path);
}

/// Makes a file, which no other has the name of, and brings it to the disk.
// Kept: its one caller asks only whether it was done; why it was not is said here and goes no further.
pub fn made<R: Files, E: Write>(rt: &R, err: &mut E, path: &[u8], bytes: &[u8]) -> bool {
    said(err, path, made_new(rt, path, bytes))
}

fn made_new<R: Files>(rt: &R, path: &[u8], bytes: &[u8]) -> io::Result<()> {
    let mut file = created(rt, path)?;
    file.write_all(bytes)?;
    file.sync_all()
}

// Brings the folder of a path to the disk.
// Kept: callers ask only whether it was done, and chain such calls by &&; why it was not is said here and goes no further.
fn sync_folder_of<R: Files, E: Write>(rt: &R, err: &mut E, path: &[u8]) -> bool {
    let folder = match path.iter().rposition(|b| *b == b'/') {
        Some(i) => &path[..i + 1],
        None => b".",
    };
    said(err, folder, synced(rt, folder))
}

fn synced<R: Files>(rt: &R, folder: &[u8]) -> io::Result<()> {
    File::open(rt, text_of(folder)?)?.sync_all()
}
