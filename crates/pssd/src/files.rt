// The files that the words name.
use pss_base::Bytes;
use pss_daemon::{Plan, plan};
use std::fs::{File, OpenFile, OpenOptions};
use std::io::ErrorKind;
use std::str::from_utf8;
use std::{fs, io};

// A file's name as text.
fn text_of(name: &[u8]) -> Option<&str> {
    from_utf8(name).ok()
}

/// The schema's file, where the words name one that can be opened.
pub fn open_schema(rt: &HostRuntime, words: &[Bytes]) -> Option<File> {
    let schema = match plan(words) {
        Ok(Plan::Check { schema }) => schema,
        Ok(Plan::Init { schema, .. }) => schema,
        Ok(Plan::Run { schema, .. }) => schema,
        _ => return None,
    };
    let name = text_of(words.get(schema)?.as_slice())?;
    fs::open(rt, name).ok()
}

// Opens a file to be read and written, which may make it. What is in it stays.
fn open_whole(rt: &HostRuntime, name: &str, create: bool) -> io::Result<File> {
    OpenOptions::new()
        .read(true)
        .write(true)
        .create(create)
        .open(rt, name)
}

// The folder that has a name.
fn folder_of(name: &str) -> &str {
    match name.rfind('/') {
        Some(0) => "/",
        Some(end) => &name[..end],
        None => ".",
    }
}

// Syncs the folder that has a name, where it can be opened.
fn sync_folder_of(rt: &HostRuntime, name: &str) -> io::Result<()> {
    match fs::open(rt, folder_of(name)) {
        Ok(folder) => folder.sync_all(),
        Err(_) => Ok(()),
    }
}

// Makes sure that a file is in its folder. Where its name is a symbolic link, that is the folder of the file to which it leads.
fn settle_in_folder(rt: &HostRuntime, name: &str) -> io::Result<()> {
    match fs::canonicalize(rt, name) {
        Ok(path) => sync_folder_of(rt, path.as_str()),
        Err(_) => sync_folder_of(rt, name),
    }
}

// Opens a file, and makes it where there is none. One that was there may have come just now, so its folder is synced too.
fn open_or_make(rt: &HostRuntime, name: &str) -> io::Result<File> {
    let file = match open_whole(rt, name, false) {
        Err(error) if error.kind() == ErrorKind::NotFound => open_whole(rt, name, true)?,
        opened => opened?,
    };
    settle_in_folder(rt, name)?;
    Ok(file)
}

// The store's file, which nobody else holds.
fn hold(file: File) -> Option<File> {
    match file.try_lock() {
        Ok(()) => Some(file),
        Err(_) => None,
    }
}

/// The store's file, where the words name one that can be opened to be read and written, and that no other call holds. To make a
/// store, and to demonstrate one, the file is made where there is none. It is held to the end of the program.
pub fn open_store(rt: &HostRuntime, words: &[Bytes]) -> Option<File> {
    let (store, is_made) = match plan(words) {
        Ok(Plan::Init { store, .. }) => (store, true),
        Ok(Plan::Demo { store, .. }) => (store, true),
        Ok(Plan::Run { store, .. }) => (store, false),
        _ => return None,
    };
    let name = text_of(words.get(store)?.as_slice())?;
    let opened = if is_made {
        open_or_make(rt, name)
    } else {
        open_whole(rt, name, false)
    };
    hold(opened.ok()?)
}
