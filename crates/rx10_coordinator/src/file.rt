// The file of the log.
use std::fs::{OpenFile, OpenOptions};
use std::rt::Files;
use std::{io, str};

/// The file of this name for a log: it is made, or is there and has no bytes. Where there is none, standard error is told why.
pub(crate) fn open<R: Files + Eprint>(rt: &R, name: &[u8]) -> Option<R::File> {
    let Ok(path) = str::from_utf8(name) else {
        let _ = eprintln!(rt; "no log: the name of its file is no UTF-8");
        return None;
    };
    match empty_file(rt, path) {
        Ok(Some(file)) => Some(file),
        Ok(None) => {
            let _ = eprintln!(rt; "no log: {path} has bytes already");
            None
        }
        Err(error) => {
            let _ = eprintln!(rt; "no log: {path}: {error}");
            None
        }
    }
}

// The file, to be appended to, where it has no bytes.
fn empty_file<R: Files>(rt: &R, path: &str) -> io::Result<Option<R::File>> {
    let file = OpenOptions::new().append(true).create(true).open(rt, path)?;
    if file.metadata()?.len() > 0 {
        return Ok(None);
    }
    Ok(Some(file))
}
