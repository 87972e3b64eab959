//! Names that rows give to trees.

use crate::faults::{Read, RowFault};
use std::alloc::Global;
use term_table::Id;

/// A name with its tree.
#[derive(Drop)]
struct Named {
    name: Vec<u8>,
    tree: Id,
}

/// Names with their trees, each name once.
#[derive(Drop)]
pub struct Names {
    rows: Vec<Named>,
}

impl Names {
    /// Returns an empty list of names.
    pub fn new(alloc: Global) -> Names {
        Names {
            rows: Vec::new(alloc),
        }
    }

    /// Returns the tree with this name, or None if there is none.
    pub fn find(&self, name: &[u8]) -> Option<Id> {
        for row in self.rows.as_slice() {
            if row.name.as_slice() == name {
                return Some(row.tree);
            }
        }
        None
    }

    /// Gives the name to this tree if it names a tree already, and returns whether it did.
    fn replace(&mut self, name: &[u8], tree: Id) -> bool {
        for row in self.rows.iter_mut() {
            if row.name.as_slice() == name {
                row.tree = tree;
                return true;
            }
        }
        false
    }

    /// Adds a name that isn't there yet.
    fn add(&mut self, name: &[u8], tree: Id) -> Read<()> {
        let alloc = *self.rows.allocator();
        let name = Vec::from_slice(alloc, name)?;
        match self.rows.push(Named { name, tree }) {
            Ok(()) => Ok(()),
            Err(_) => Err(RowFault::Memory),
        }
    }

    /// Gives the name to this tree from now on.
    pub fn define(&mut self, name: &[u8], tree: Id) -> Read<()> {
        if self.replace(name, tree) {
            Ok(())
        } else {
            self.add(name, tree)
        }
    }
}
