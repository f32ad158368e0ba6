//! How a file of the host gets its new bytes: a new file is written beside it, synced and renamed over it. So a full
//! disk, a kill or a lost machine leaves the old file or the new one, whole.
//! No clause sees what the host does with a name.

ghost use Rattle.std.specs.Prelude.{OnOk};
ghost use Rattle.std.specs.Io.KnownBytes.{Appends};

use crate::host::write_whole;
use std::fs::{Metadata, OpenFile, OpenOptions, Permissions};
use std::io::{Error, ErrorKind, Write};
use std::os::unix::fs::{MetadataExt, OpenOptionsExt, PermissionsExt, lchown};
use std::path::{Path, PathBuf};
use std::rt::Files;
use std::{fs, io};

// How many links are followed to a file, at most.
const MOST_LINKS: u32 = 40;

// How many names are tried for the file that is written beside, at most.
const MOST_NAMES: u32 = 10000;

// The bits of a mode that say who may read, write and run a file.
const ACCESS_BITS: u32 = 0o777;

// The mode of a file that stands beside one whose own mode is to come: none but the owner may read it.
const OWNER_ALONE: u32 = 0o600;

// ---- which file a name leads to

// Whether a link stands for a file that is open already, as the one behind `/dev/stdout` does.
fn is_of_open_file<R: Files>(rt: &R, link: &Metadata) -> bool {
    match fs::metadata(rt, "/proc") {
        Ok(processes) => processes.dev() == link.dev(),
        Err(_) => false,
    }
}

// Puts what a link names in the link's place. A relative name is read from the folder of the link.
fn follow<R: Files + AllocGlobal>(rt: &R, path: &mut PathBuf) -> io::Result<()> {
    let named = fs::read_link(rt, path.as_path())?;
    path.pop();
    path.push(named)?;
    Ok(())
}

/// The name of the regular file that a write of this name replaces or makes, behind all links; None where what stands
/// there is written as it is: a pipe, a device, a file that is open already. A folder, too, which no write opens.
pub(crate) fn own_name<R: Files + AllocGlobal>(rt: &R, name: &str) -> io::Result<Option<PathBuf>> {
    let mut path = PathBuf::from_str(rt.alloc(), name)?;
    for _ in 0..MOST_LINKS {
        let found = match fs::symlink_metadata(rt, path.as_path()) {
            Ok(found) => found,
            Err(e) if e.kind() == ErrorKind::NotFound => return Ok(Some(path)),
            Err(e) => return Err(e),
        };
        if found.is_file() {
            return Ok(Some(path));
        }
        if !found.is_symlink() || is_of_open_file(rt, &found) {
            return Ok(None);
        }
        follow(rt, &mut path)?;
    }
    Err(Error::from(ErrorKind::FilesystemLoop))
}

/// The folder of a file.
pub(crate) fn folder_of(file: Path<'_>) -> Path<'_> {
    match file.parent() {
        Some(folder) if !folder.as_os_str().is_empty() => folder,
        _ => Path::new("."),
    }
}

// ---- the file beside

// What the file of this name is, where there is one. One that may not be written is an error.
fn old_file<R: Files>(rt: &R, name: Path<'_>) -> io::Result<Option<Metadata>> {
    match OpenOptions::new().write(true).open(rt, name) {
        Ok(file) => Ok(Some(file.metadata()?)),
        Err(e) if e.kind() == ErrorKind::NotFound => Ok(None),
        Err(e) => Err(e),
    }
}

// Makes a new file in the folder of that one, which gets this mode less what the process withholds.
fn make_beside<R: Files + AllocGlobal>(
    rt: &R,
    name: &PathBuf,
    mode: u32,
) -> io::Result<(PathBuf, R::File)> {
    for n in 0..MOST_NAMES {
        let beside = format!(in rt.alloc(); ".dsnroute-{n}.part")?;
        let path = folder_of(name.as_path()).join(rt.alloc(), beside)?;
        let mut how = OpenOptions::new();
        how.write(true).create_new(true).mode(mode);
        match how.open(rt, path.as_path()) {
            Ok(file) => return Ok((path, file)),
            Err(e) if e.kind() == ErrorKind::AlreadyExists => {}
            Err(e) => return Err(e),
        }
    }
    Err(Error::from(ErrorKind::AlreadyExists))
}

// Gives a file the owner, the group and the mode of the old one. Whom the host refuses the owner keeps the group, and
// whom it refuses both keeps the mode alone.
fn take_after<R: Files>(rt: &R, name: Path<'_>, file: &R::File, old: &Metadata) -> io::Result<()> {
    let group = Some(old.gid());
    if lchown(rt, name, Some(old.uid()), group).is_err() {
        let _ = lchown(rt, name, None, group);
    }
    file.set_permissions(Permissions::from_mode(old.mode() & ACCESS_BITS))
}

// Writes all the bytes, and waits until the host has stored them.
fn fill<F: Write + OpenFile>(file: &mut F, bytes: &[u8]) -> io::Result<()>
    ensures { OnOk result (Appends (F.contents file.old) (F.contents file.new) bytes.now) }
{
    if !write_whole(file, bytes) {
        return Err(Error::from(ErrorKind::Other));
    }
    file.sync_all()
}

// Makes the new file like the old one, fills it, and renames it over that.
fn put_over<R: Files>(
    rt: &R,
    beside: (&PathBuf, R::File),
    name: &PathBuf,
    old: Option<Metadata>,
    bytes: &[u8],
) -> io::Result<()> {
    let (path, mut file) = beside;
    if let Some(old) = &old {
        take_after(rt, path.as_path(), &file, old)?;
    }
    fill(&mut file, bytes)?;
    fs::rename(rt, path.as_path(), name.as_path())
}

// Waits until the host has stored a folder's names. Some hosts can't, which changes nothing of what is written.
fn sync_folder<R: Files>(rt: &R, folder: Path<'_>) {
    if let Ok(folder) = fs::open(rt, folder) {
        let _ = folder.sync_all();
    }
}

/// Makes the bytes the whole file of this name, which is behind all links. Where that fails, the old file stays, whole,
/// and nothing is left beside it.
pub(crate) fn replace<R: Files + AllocGlobal>(
    rt: &R,
    name: &PathBuf,
    bytes: &[u8],
) -> io::Result<()> {
    let old = old_file(rt, name.as_path())?;
    let mode = if old.is_some() { OWNER_ALONE } else { 0o666 };
    let (path, file) = make_beside(rt, name, mode)?;
    let done = put_over(rt, (&path, file), name, old, bytes);
    if done.is_err() {
        let _ = fs::remove_file(rt, path.as_path());
        return done;
    }
    sync_folder(rt, folder_of(name.as_path()));
    Ok(())
}
