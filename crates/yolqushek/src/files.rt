// Files by name: the bytes of one, and bytes into another, which is written whole or not at all.

use crate::failure::{Failure, Fault};
use std::fs::{File, OpenFile, OpenOptions};
use std::io::{ErrorKind, Read, Seek, SeekFrom, Write};
use std::os::fd::AsRawFd;
use std::os::unix::fs::MetadataExt;
use std::random::RandomSource;
use std::{fs, io};

// Standard input until it ends, or so many bytes of it.
pub(crate) fn read_input(rt: HostRuntime, most: u64) -> Result<Vec<u8>, Failure<'static>> {
    let mut bytes = Vec::new(rt.alloc());
    read_most(rt.stdin(), most, &mut bytes).map_err(|fault| fault.of(b"standard input"))?;
    Ok(bytes)
}

// The file with a name until it ends, or so many bytes of it. It must not be the one that is to be written.
pub(crate) fn read<'a>(
    rt: HostRuntime,
    name: &'a [u8],
    output: Option<&'a [u8]>,
    most: u64,
) -> Result<Vec<u8>, Failure<'a>> {
    let mut bytes = Vec::new(rt.alloc());
    Input::open(rt, name, output)?.read_on(most, &mut bytes)?;
    Ok(bytes)
}

// A file that is read, with its name.
#[derive(Debug, Drop)]
pub struct Input<'a> {
    name: &'a [u8],
    file: File,
}

impl<'a> Input<'a> {
    // The file with a name. It must not be the one that is to be written.
    pub(crate) fn open(
        rt: HostRuntime,
        name: &'a [u8],
        output: Option<&'a [u8]>,
    ) -> Result<Input<'a>, Failure<'a>> {
        let file = open(rt, name, OpenOptions::new().read(true)).map_err(|fault| fault.of(name))?;
        if let Some(output) = output
            && is_file_of(rt, &file, output)
        {
            return Err(Fault::IsRead.of(output));
        }
        Ok(Input { name, file })
    }

    // Puts what comes next, until the file ends, or so many bytes of it, after the bytes that are there.
    pub(crate) fn read_on(&self, most: u64, bytes: &mut Vec<u8>) -> Result<(), Failure<'a>> {
        read_most(&self.file, most, bytes).map_err(|fault| fault.of(self.name))
    }
}

// Puts what a reader gives until it ends, or so many bytes of it, after the bytes that are there.
fn read_most<R: Read + Drop>(reader: R, most: u64, bytes: &mut Vec<u8>) -> Result<(), Fault> {
    reader.take(most).read_to_end(bytes)?;
    Ok(())
}

// std opens no name that isn't UTF-8.
fn path_of(name: &[u8]) -> Result<&str, Fault> {
    str::from_utf8(name).map_err(|_| Fault::NotText)
}

fn open(rt: HostRuntime, name: &[u8], how: &OpenOptions) -> Result<File, Fault> {
    Ok(how.open(&rt, path_of(name)?)?)
}

// Opens a file that is there for reading and writing, and leaves its bytes as they are.
fn open_update(rt: HostRuntime, name: &[u8]) -> Result<File, Fault> {
    open(rt, name, OpenOptions::new().read(true).write(true))
}

// Whether an open file is the one with a name.
fn is_file_of(rt: HostRuntime, file: &File, name: &[u8]) -> bool {
    open_update(rt, name).is_ok_and(|other| are_same(rt, file, &other))
}

// Whether two open files have one name, by what the system calls them. Where std can't tell either name, they are told apart by the system's numbers for them;
// where these are missing too, they count as one, so that nothing is lost.
fn are_same(rt: HostRuntime, one: &File, other: &File) -> bool {
    match (name_of(rt, one), name_of(rt, other)) {
        (Err(_), Err(_)) => are_one(one, other),
        (Ok(one), Ok(other)) => one == other,
        _ => false,
    }
}

fn are_one(one: &File, other: &File) -> bool {
    match (one.metadata(), other.metadata()) {
        (Ok(one), Ok(other)) => one.dev() == other.dev() && one.ino() == other.ino(),
        _ => true,
    }
}

// The name of an open file, with all links on the way to it followed. std reads only a name in UTF-8.
fn name_of(rt: HostRuntime, file: &File) -> io::Result<String> {
    let link = format!(in rt.alloc(); "/proc/self/fd/{}", file.as_raw_fd())?;
    Ok(fs::read_link(&rt, link)?.into_string())
}

// Writes the file with a name whole or not at all, where it is missing or a regular file: into a new file beside it, which then takes its name.
pub(crate) fn write<'a>(rt: HostRuntime, name: &'a [u8], bytes: &[u8]) -> Result<(), Failure<'a>> {
    replace(rt, name, bytes).map_err(|fault| fault.of(name))
}

fn replace(rt: HostRuntime, name: &[u8], bytes: &[u8]) -> Result<(), Fault> {
    let path = path_of(name)?;
    check_output(rt, path)?;
    let new = beside(rt, path)?;
    Ok(write_beside(rt, &new, path, bytes)?)
}

// A path to be written is free, or a regular file that may be written.
fn check_output(rt: HostRuntime, path: &str) -> Result<(), Fault> {
    if is_link(rt, path) {
        return Err(Fault::IsLink);
    }
    match open_update(rt, path.as_bytes()) {
        Ok(file) if is_regular(&file) => Ok(()),
        Ok(_) => Err(Fault::IsIrregular),
        Err(Fault::System(error)) if error.kind() == ErrorKind::NotFound => Ok(()),
        Err(fault) => Err(fault),
    }
}

// A path that is too long is no link.
fn is_link(rt: HostRuntime, path: &str) -> bool {
    fs::symlink_metadata(&rt, path).is_ok_and(|found| found.is_symlink())
}

// Only a regular file has an end to go to and takes a length; the one that it has leaves it as it is.
fn is_regular(mut file: &File) -> bool {
    file.seek(SeekFrom::End(0))
        .is_ok_and(|end| file.set_len(end).is_ok())
}

// The path of a new file in the folder of a path: `.yolqushek-` and 16 random digits.
fn beside(rt: HostRuntime, path: &str) -> io::Result<String> {
    let mut bytes = [0u8; 8];
    let _ = rt.fill_bytes(&mut bytes);
    let random = u64::from_le_bytes(bytes);
    let path = match path.rsplit_once('/') {
        Some((folder, _)) => format!(in rt.alloc(); "{folder}/.yolqushek-{random:016x}")?,
        None => format!(in rt.alloc(); ".yolqushek-{random:016x}")?,
    };
    Ok(path)
}

// Makes the new file, which the process's umask gives its mode, and has it take the path. Where that fails, it is gone.
fn write_beside(rt: HostRuntime, new: &str, path: &str, bytes: &[u8]) -> io::Result<()> {
    let file = OpenOptions::new()
        .write(true)
        .create_new(true)
        .open(&rt, new)?;
    let finished = finish(rt, file, new, path, bytes);
    if finished.is_err() {
        let _ = fs::remove_file(&rt, new);
    }
    finished
}

// Writes the new file, has the system keep it, and gives it the path's name. std tells no error of a file's closing, so it is asked for before.
fn finish(rt: HostRuntime, mut file: File, new: &str, path: &str, bytes: &[u8]) -> io::Result<()> {
    file.write_all(bytes)?;
    file.sync_all()?;
    fs::rename(&rt, new, path)
}
