// Sets of scopes.
use rx_base::{NoMemory, ScopeId};
use std::alloc::Global;

/// A set of scopes, with one byte for each number up to the greatest that was added. No contract speaks of it.
#[derive(Drop)]
pub struct ScopeSet {
    // By the number of a scope.
    has: Vec<bool>,
}

impl ScopeSet {
    /// The empty set. It takes no memory.
    pub fn new(alloc: Global) -> ScopeSet {
        ScopeSet {
            has: Vec::new(alloc),
        }
    }

    /// Adds a scope. A refusal means out of memory, and then the set is as before.
    pub fn add(&mut self, scope: ScopeId) -> Result<(), NoMemory> {
        let at = scope.0 as usize;
        if let Some(is_there) = self.has.get_mut(at) {
            *is_there = true;
            return Ok(());
        }
        self.has.resize(at, false)?;
        self.has.push(true)?;
        Ok(())
    }

    /// Takes a scope out, and says whether it was there.
    pub fn take(&mut self, scope: ScopeId) -> bool {
        match self.has.get_mut(scope.0 as usize) {
            Some(is_there) => std::mem::replace(is_there, false),
            None => false,
        }
    }

    /// Takes all scopes out.
    pub fn clear(&mut self) {
        self.has.clear();
    }
}
