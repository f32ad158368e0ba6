//! The host's desk over hosts that do little at a time, or stop in the middle: a disk that is full, a sync or a rename
//! that fails. Their files are the host's own, in the folder that the tests run in.

use desk_io::{Desk, HostDesk, are_one_file, has_no_place, holds_a_list};
use std::alloc::{Allocator, Global};
use std::fs::{File, Metadata, OpenFile, OpenOptions, Permissions};
use std::io::{Error, ErrorKind, Read, Seek, SeekFrom, Write};
use std::os::unix::fs::{PermissionsExt, symlink};
use std::path::PathBuf;
use std::rt::Files;
use std::{fs, io};

/// What a host does not do.
#[derive(Clone, Copy)]
struct Limits {
    /// How many bytes there is room for.
    room: usize,
    syncs: bool,
    renames: bool,
}

/// A host that takes seven bytes at a call, and gives three.
#[derive(Drop)]
struct Slow<'a, R> {
    rt: &'a R,
    limits: Limits,
}

/// A file of such a host.
#[derive(Drop)]
struct SlowFile<F> {
    file: F,
    limits: Limits,
}

impl<F: Read> Read for SlowFile<F> {
    fn read(&mut self, buf: &mut [u8]) -> io::Result<usize> {
        let most = buf.len().min(3);
        self.file.read(&mut buf[..most])
    }
}

impl<F: Write> Write for SlowFile<F> {
    fn write(&mut self, buf: &[u8]) -> io::Result<usize> {
        let most = buf.len().min(7).min(self.limits.room);
        if most == 0 {
            return Err(Error::from(ErrorKind::StorageFull));
        }
        let taken = self.file.write(&buf[..most])?;
        self.limits.room = self.limits.room.saturating_sub(taken);
        Ok(taken)
    }

    fn flush(&mut self) -> io::Result<()> {
        self.file.flush()
    }
}

impl<F: Seek> Seek for SlowFile<F> {
    fn seek(&mut self, to: SeekFrom) -> io::Result<u64> {
        self.file.seek(to)
    }
}

impl<F: OpenFile> OpenFile for SlowFile<F> {
    fn metadata(&self) -> io::Result<Metadata> {
        self.file.metadata()
    }

    fn set_len(&self, size: u64) -> io::Result<()> {
        self.file.set_len(size)
    }

    fn sync_all(&self) -> io::Result<()> {
        if self.limits.syncs {
            self.file.sync_all()
        } else {
            Err(Error::from(ErrorKind::Other))
        }
    }

    fn sync_data(&self) -> io::Result<()> {
        self.sync_all()
    }

    fn set_permissions(&self, perm: Permissions) -> io::Result<()> {
        self.file.set_permissions(perm)
    }
}

impl<'a, R: AllocGlobal> Alloc for Slow<'a, R> {
    type A = Global;

    fn alloc(&self) -> Global {
        self.rt.alloc()
    }
}

impl<'a, R: Files> Files for Slow<'a, R> {
    type File = SlowFile<R::File>;

    type Dir = R::Dir;

    fn open_file(&self, how: &OpenOptions, path: &str) -> io::Result<SlowFile<R::File>> {
        let file = self.rt.open_file(how, path)?;
        Ok(SlowFile {
            file,
            limits: self.limits,
        })
    }

    fn open_dir(&self, path: &str) -> io::Result<R::Dir> {
        self.rt.open_dir(path)
    }

    fn metadata(&self, path: &str) -> io::Result<Metadata> {
        self.rt.metadata(path)
    }

    fn symlink_metadata(&self, path: &str) -> io::Result<Metadata> {
        self.rt.symlink_metadata(path)
    }

    fn copy(&self, from: &str, to: &str) -> io::Result<u64> {
        self.rt.copy(from, to)
    }

    fn rename(&self, from: &str, to: &str) -> io::Result<()> {
        if self.limits.renames {
            self.rt.rename(from, to)
        } else {
            Err(Error::from(ErrorKind::Other))
        }
    }

    fn remove_file(&self, path: &str) -> io::Result<()> {
        self.rt.remove_file(path)
    }

    fn create_dir(&self, path: &str) -> io::Result<()> {
        self.rt.create_dir(path)
    }

    fn remove_dir(&self, path: &str) -> io::Result<()> {
        self.rt.remove_dir(path)
    }

    fn remove_dir_all<B: Allocator>(&self, alloc: B, path: &str) -> io::Result<()> {
        self.rt.remove_dir_all(alloc, path)
    }

    fn read_link<B: Allocator>(&self, alloc: B, path: &str) -> io::Result<PathBuf<B>> {
        self.rt.read_link(alloc, path)
    }
}

// ---- full disks

const OLD: &str = "the old session";

const NEW: &str = "the new session, which is longer";

/// Whether a file holds that text, and nothing lies beside it that a write left.
fn holds_alone<R: Files + AllocGlobal>(rt: &R, name: &str, text: &str) -> bool {
    let is_text = match fs::read_to_string(rt, name) {
        Ok(content) => content.as_str() == text,
        Err(_) => false,
    };
    is_text && fs::symlink_metadata(rt, ".dsnroute-0.part").is_err()
}

/// Whether a write over an old text on such a host succeeds, or fails, and leaves the text that is then due.
fn leaves<R: Files + AllocGlobal>(rt: &R, name: &str, limits: Limits, succeeds: bool) -> bool {
    let slow = Slow { rt, limits };
    let mut desk = HostDesk::new(&slow);
    fs::write(rt, name, OLD).is_ok()
        && desk.write(name, NEW.as_bytes()).is_ok() == succeeds
        && holds_alone(rt, name, if succeeds { NEW } else { OLD })
        && fs::remove_file(rt, name).is_ok()
}

/// For how many bytes a host has room, whether it syncs and renames, and whether a write succeeds there.
static HOSTS: [(usize, bool, bool, bool); 7] = [
    (0, true, true, false),
    (1, true, true, false),
    (14, true, true, false),
    (31, true, true, false),
    (1_000, false, true, false),
    (1_000, true, false, false),
    (1_000, true, true, true),
];

#[test]
fn a_write_leaves_the_old_file_or_the_new_one(rt: HostRuntime) {
    for &(room, syncs, renames, succeeds) in &HOSTS {
        let limits = Limits {
            room,
            syncs,
            renames,
        };
        assert!(rt;
            leaves(&rt, "desk_io_replaced", limits, succeeds),
            "{room}, {syncs} and {renames}"
        );
    }
}

/// Whether a read gives this text where the host gives three bytes at a call.
fn reads_all<R: Files + AllocGlobal>(rt: &R, name: &str) -> bool {
    let limits = Limits {
        room: 0,
        syncs: true,
        renames: true,
    };
    let slow = Slow { rt, limits };
    let mut desk = HostDesk::new(&slow);
    let is_all = match desk.read(name, 100) {
        Ok(bytes) => bytes.as_slice() == NEW.as_bytes(),
        Err(_) => false,
    };
    is_all && desk.faults() == 0
}

#[test]
fn a_read_goes_on_after_a_short_one(rt: HostRuntime) {
    assert!(rt; fs::write(&rt, "desk_io_short", NEW).is_ok());
    assert!(rt; reads_all(&rt, "desk_io_short"));
    assert!(rt; fs::remove_file(&rt, "desk_io_short").is_ok());
}

// ---- names

/// Whether a file has this mode.
fn has_mode<R: Files>(rt: &R, name: &str, mode: u32) -> bool {
    match fs::metadata(rt, name) {
        Ok(found) => found.permissions().mode() & 0o777 == mode,
        Err(_) => false,
    }
}

/// Whether a write of a link's name goes to the file that it names, whose mode stays.
fn follows<R: Files + AllocGlobal>(rt: &R, link: &str, file: &str) -> bool {
    fs::write(rt, file, OLD).is_ok()
        && fs::set_permissions(rt, file, Permissions::from_mode(0o640)).is_ok()
        && HostDesk::new(rt).write(link, NEW.as_bytes()).is_ok()
        && holds_alone(rt, file, NEW)
        && has_mode(rt, file, 0o640)
        && are_one_file(rt, link, file)
}

#[test]
fn a_link_is_followed_and_a_mode_is_kept(rt: HostRuntime) {
    assert!(rt; symlink(&rt, "desk_io_target", "desk_io_link").is_ok());
    assert!(rt;
        HostDesk::new(&rt)
            .write("desk_io_link", NEW.as_bytes())
            .is_ok()
    );
    assert!(rt; follows(&rt, "desk_io_link", "desk_io_target"));
    assert!(rt; fs::remove_file(&rt, "desk_io_target").is_ok());
    assert!(rt; fs::remove_file(&rt, "desk_io_link").is_ok());
}

/// Whether these names are told apart where there is a file of the first.
fn tells_names<R: Files + AllocGlobal>(rt: &R) -> bool {
    are_one_file(rt, "desk_io_name", "./desk_io_name")
        && !are_one_file(rt, "desk_io_name", ".")
        && !are_one_file(rt, "desk_io_name", "desk_io_no_file")
        && has_no_place(rt, "desk_io_no_folder/file")
        && has_no_place(rt, "desk_io_name/file")
        && has_no_place(rt, ".")
        && !has_no_place(rt, "desk_io_name")
        && !has_no_place(rt, "desk_io_no_file")
        && !has_no_place(rt, "/dev/full")
}

#[test]
fn names_of_one_file_and_of_no_place_are_told(rt: HostRuntime) {
    assert!(rt; fs::write(&rt, "desk_io_name", OLD).is_ok());
    assert!(rt; tells_names(&rt));
    assert!(rt; fs::remove_file(&rt, "desk_io_name").is_ok());
}

/// What a file holds, and whether it begins with a list.
static FRONTS: [(&str, bool); 6] = [
    ("(session", true),
    (" \n# skipped (\n\t(pcb b)", true),
    ("<svg>(", false),
    ("# (", false),
    ("", false),
    ("text", false),
];

#[test]
fn a_file_that_begins_with_a_list_is_told(rt: HostRuntime) {
    for &(text, is_list) in &FRONTS {
        assert!(rt; fs::write(&rt, "desk_io_front", text).is_ok());
        assert!(rt; holds_a_list(&rt, "desk_io_front") == is_list, "{text}");
    }
    assert!(rt; fs::remove_file(&rt, "desk_io_front").is_ok());
    assert!(rt; !holds_a_list(&rt, "desk_io_front"));
}
