//! The files of cases.

use anyhow::Context;
use hs_io::{MemShelf, Name};
use std::alloc::{AllocError, Global};

/// A name and the bytes under it.
#[derive(Drop)]
struct CaseFile {
    name: Name,
    bytes: Vec<u8>,
}

/// The files that cases load, in the order in which they were added.
#[derive(Drop)]
pub(crate) struct CaseFiles {
    alloc: Global,
    files: Vec<CaseFile>,
}

impl CaseFiles {
    pub(crate) fn new(alloc: Global) -> CaseFiles {
        CaseFiles {
            alloc,
            files: Vec::new(alloc),
        }
    }

    /// Adds a file with a name and a copy of the bytes.
    pub(crate) fn add(&mut self, name: &[u8], bytes: &[u8]) -> Result<(), AllocError> {
        let file = file_of(self.alloc, name, bytes)?;
        self.files.push(file)?;
        Ok(())
    }

    /// The bytes that were added last under a name.
    pub(crate) fn bytes(&self, name: &[u8]) -> anyhow::Result<&[u8]> {
        self.last(name).context("no such file")
    }

    /// The bytes that were added last under a name, if there are any.
    fn last(&self, name: &[u8]) -> Option<&[u8]> {
        for file in self.files.iter().rev() {
            if file.name.bytes() == name {
                return Some(file.bytes.as_slice());
            }
        }
        None
    }

    /// The shelf that holds the files.
    pub(crate) fn shelf(&self) -> Result<MemShelf, AllocError> {
        let mut shelf = MemShelf::new(self.alloc);
        self.put(&mut shelf)?;
        Ok(shelf)
    }

    /// Puts the files on a shelf.
    fn put(&self, shelf: &mut MemShelf) -> Result<(), AllocError> {
        for file in &self.files {
            shelf.add(file.name.bytes(), file.bytes.as_slice())?;
        }
        Ok(())
    }
}

/// A file with a name and a copy of the bytes.
fn file_of(alloc: Global, name: &[u8], bytes: &[u8]) -> Result<CaseFile, AllocError> {
    let name = Name::new(alloc, name)?;
    let bytes = Vec::from_slice(alloc, bytes)?;
    Ok(CaseFile { name, bytes })
}
