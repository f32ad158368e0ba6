//! Why the host doesn't read or write a file, as far as it tells when it is asked once more.
//! Nothing can be proved of what it tells.

use crate::Bar;
use std::fs::OpenOptions;
use std::path::Path;
use std::rt::Files;
use std::{fs, io};

// Why a call of the host failed.
fn bar_by(error: &io::Error) -> Bar {
    match error.kind() {
        io::ErrorKind::NotFound | io::ErrorKind::NotADirectory => Bar::Absent,
        io::ErrorKind::IsADirectory => Bar::Folder,
        io::ErrorKind::PermissionDenied => Bar::Denied,
        _ => Bar::Other,
    }
}

fn is_folder<R: Files + AllocGlobal>(rt: &R, name: &str) -> bool {
    match fs::metadata(rt, name) {
        Ok(data) => data.is_dir(),
        Err(_) => false,
    }
}

// Why the regular file of this name isn't opened.
fn bar_of<R: Files>(rt: &R, name: &str, how: &OpenOptions) -> Bar {
    match how.open(rt, name) {
        Ok(_) => Bar::Other,
        Err(error) => bar_by(&error),
    }
}

/// Why the file of this name can't be read. Only a regular file is opened: a pipe would wait.
pub fn why_unread<R: Files + AllocGlobal>(rt: &R, name: &str) -> Bar {
    match fs::metadata(rt, name) {
        Ok(data) => {
            if data.is_dir() {
                Bar::Folder
            } else if data.is_file() {
                bar_of(rt, name, OpenOptions::new().read(true))
            } else {
                Bar::Other
            }
        }
        Err(error) => bar_by(&error),
    }
}

// Whether the folder of the file is there; a name without one lies in the folder where the program runs.
fn has_place<R: Files + AllocGlobal>(rt: &R, name: &str) -> bool {
    match Path::new(name).parent() {
        Some(folder) => folder.as_str().is_empty() || is_folder(rt, folder.as_str()),
        None => true,
    }
}

/// Why the file of this name can't be written. It is neither made nor changed, and only a regular one is opened.
pub fn why_unwritten<R: Files + AllocGlobal>(rt: &R, name: &str) -> Bar {
    if !has_place(rt, name) {
        return Bar::Absent;
    }
    match fs::metadata(rt, name) {
        Ok(data) => {
            if data.is_dir() {
                Bar::Folder
            } else if data.is_file() {
                bar_of(rt, name, OpenOptions::new().append(true))
            } else {
                Bar::Other
            }
        }
        Err(_) => Bar::Other,
    }
}
