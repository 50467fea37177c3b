// Folders of routines.

use std::alloc::Global;
use std::fs::{DirEntry, metadata, read_dir};
use std::io;

/// Whether there is a folder at a path.
pub(crate) fn is_folder(rt: &HostRuntime, path: &str) -> bool {
    match metadata(rt, path) {
        Ok(found) => found.is_dir(),
        Err(_) => false,
    }
}

// What is found below a folder: folders that were not looked into yet, and routines.
#[derive(Drop)]
struct Found {
    alloc: Global,
    folders: Vec<String>,
    routines: Vec<String>,
}

impl Found {
    // Adds what is in a folder, if it is a folder, but no link to one, or a routine's file.
    fn add(&mut self, entry: &DirEntry) -> io::Result<()> {
        let path = String::from_str(self.alloc, entry.path().as_str())?;
        if entry.file_type()?.is_dir() {
            self.folders.push(path)?;
        } else if path.ends_with(".m") {
            self.routines.push(path)?;
        }
        Ok(())
    }
}

/// Lists the files `*.m` below a folder, in the order of their paths. Links to folders are not followed.
pub(crate) fn routines_below(rt: &HostRuntime, folder: &str) -> io::Result<Vec<String>> {
    let alloc = rt.alloc();
    let mut found = Found {
        alloc,
        folders: Vec::new(alloc),
        routines: Vec::new(alloc),
    };
    found.folders.push(String::from_str(alloc, folder)?)?;
    for _ in 0..u64::MAX {
        let Some(folder) = found.folders.pop() else {
            break;
        };
        for entry in read_dir(rt, folder.as_str())? {
            found.add(&entry?)?;
        }
    }
    let mut routines = found.routines;
    routines.sort()?;
    Ok(routines)
}
