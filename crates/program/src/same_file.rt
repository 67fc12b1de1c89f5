//! Whether an output would overwrite an input, and whether an input is a regular file.

use std::fs;
use std::os::unix::fs::MetadataExt;
use std::rt::Files;

/// Whether two paths, by whatever names or links, are one regular file. What can't be asked of a path is taken as no.
pub(crate) fn is_same_file<F: Files>(files: &F, one: &str, other: &str) -> bool {
    let (Ok(one), Ok(other)) = (fs::metadata(files, one), fs::metadata(files, other)) else {
        return false;
    };
    one.is_file() && one.dev() == other.dev() && one.ino() == other.ino()
}

/// Whether a path is that of a regular file. What can't be asked of it is taken as no.
pub(crate) fn is_regular<F: Files>(files: &F, path: &str) -> bool {
    match fs::metadata(files, path) {
        Ok(it) => it.is_file(),
        Err(_) => false,
    }
}
