//! Modules that are still to load, and the files above them.
ghost use Rattle.std.specs.Prelude.{◌≡◌, ◌+◌, [], ◌∷◌, ◌++◌, None, OnOk, length, true, false, option_to_list};
ghost use Rattle.modules_files.specs.Found.{has_text};
ghost use Rattle.modules_sources.specs.Queue.{IsChain, chain_keys, cut_to, is_among};

use just_text::Name;
use modules_compilation::{Place, Source};
use std::alloc::{AllocError, Global};
use std::collections::BTreeSet;

/// A module that is still to load.
#[derive(Clone, Copy)]
pub struct Pending<'src> {
    pub source: Source<'src>,
    pub parent: Option<usize>,
    pub item: Option<Place>,
    pub name: Option<Name<'src>>,
}

/// A module that was loaded.
#[derive(Clone, Copy)]
struct Loaded<'src> {
    /// Its place among the modules.
    module: usize,
    /// The key of its file.
    key: &'src str,
}

/// The modules that are still to load, of which the last is the next, and the chain of modules from the
/// root to the one that was loaded last.
#[derive(Drop)]
pub struct Queue<'src> {
    pending: Vec<Pending<'src>>,
    /// Each module stands after its parent.
    chain: Vec<Loaded<'src>>,
    /// The keys of the chain's files, no two of which are the same.
    keys: BTreeSet<&'src str>,
}

impl<'src> Queue<'src> {
    /// Nothing to load. Takes no memory.
    pub fn new(alloc: Global) -> Queue<'src>
        ensures pending { result.pending.items ≡ [] }
        ensures chain { result.chain.items ≡ [] }
        ensures keys { IsChain result }
    {
        Queue {
            pending: Vec::new(alloc),
            chain: Vec::new(alloc),
            keys: BTreeSet::new(alloc),
        }
    }

    /// Puts the module after those that are still to load.
    pub fn push(&mut self, pending: Pending<'src>) -> Result<(), AllocError>
        ensures pending { OnOk result (self.new.pending.items ≡ self.old.pending.items ++ pending.entry ∷ []) }
        ensures chain { self.new.chain ≡ self.old.chain }
        ensures keys { self.new.keys ≡ self.old.keys }
    {
        self.pending.push(pending)?;
        Ok(())
    }

    /// Takes the module that is the next to load, if there is one.
    pub fn pop(&mut self) -> Option<Pending<'src>>
        ensures pending { self.old.pending.items ≡ self.new.pending.items ++ option_to_list result }
        ensures none { result ≡ None → self.new.pending.items ≡ [] }
        ensures chain { self.new.chain ≡ self.old.chain }
        ensures keys { self.new.keys ≡ self.old.keys }
    {
        self.pending.pop()
    }

    /// Takes the last module off the chain; false where it is this one, or there is none.
    fn cut_last(&mut self, parent: Option<usize>) -> bool
        ensures pending { self.new.pending ≡ self.old.pending }
        ensures cut { cut_to parent self.new.chain.items ≡ cut_to parent self.old.chain.items }
        ensures done { result ≡ false → self.new.chain.items ≡ cut_to parent self.old.chain.items }
        ensures shorter { result ≡ true → length self.new.chain.items + 1 ≡ length self.old.chain.items }
        ensures keys { IsChain self.old → IsChain self.new }
    {
        let Some(last) = self.chain.last().copied() else {
            return false;
        };
        if parent == Some(last.module) {
            return false;
        }
        let _ = self.chain.pop();
        let _ = self.keys.remove(last.key);
        true
    }

    /// Takes the modules off the chain that stand after this one.
    fn cut_behind(&mut self, parent: Option<usize>)
        ensures pending { self.new.pending ≡ self.old.pending }
        ensures chain { self.new.chain.items ≡ cut_to parent self.old.chain.items }
        ensures keys { IsChain self.old → IsChain self.new }
    {
        for _ in 0..self.chain.len() {
            if !self.cut_last(parent) {
                return;
            }
        }
    }

    /// Ends the chain in the module at this place, which was the next to load. Refused only where memory
    /// is.
    pub fn enter(&mut self, loaded: &Pending<'src>, module: usize) -> Result<(), AllocError>
        ensures pending { OnOk result (self.new.pending ≡ self.old.pending) }
        ensures chain { OnOk result (self.new.chain.items ≡ cut_to loaded.now.parent self.old.chain.items ++ (record { «module» = «module»; key = loaded.now.source.key }) ∷ []) }
        ensures keys { OnOk result (IsChain self.old → is_among (chain_keys (cut_to loaded.now.parent self.old.chain.items)) loaded.now.source.key.now ≡ false → IsChain self.new) }
    {
        self.cut_behind(loaded.parent);
        let key = loaded.source.key;
        self.chain.push(Loaded { module, key })?;
        let _ = self.keys.insert(key)?;
        Ok(())
    }

    /// Whether the key is that of the file of the module that was loaded last, or of one above it.
    pub fn is_above(&self, key: &str) -> bool
        ensures has { result ≡ has_text self.now.keys key.now }
        ensures above { IsChain self.now → result ≡ is_among (chain_keys self.now.chain.items) key.now }
    {
        self.keys.contains(key)
    }
}
