//! The symbols and debug blocks of the current hunk of a reader.
ghost use Rattle.std.specs.Prelude.{◌≡◌, [], ◌∷◌, ◌++◌, OnOk, OnErr};
ghost use Rattle.hunk_words.specs.DebugInfo.{lists_of, no_debug_info};
ghost use Rattle.hunk_words.specs.EventValue.{on_last};
ghost use Rattle.hunk_base.specs.OpenName.{Opens, bytes_so_far};

use hunk_base::name::Name;
use hunk_base::name::open_name::OpenName;
use std::alloc::{AllocError, Allocator, Global};
use std::marker::Model;
use std::mem;

/// What the current hunk of a reader has for a debugger: the symbols and the debug blocks so far, in
/// file order.
///
/// Every builder that keeps them holds one. If an allocation fails, it is left as it was.
#[derive(Drop)]
pub struct DebugInfo<A: Allocator + Copy = Global> {
    symbols: Vec<(Name<A>, u32), A>,
    debugs: Vec<Vec<u32, A>, A>,
}

impl<A: Allocator + Copy> Model for DebugInfo<A> {
    ghost use Rattle.hunk_words.specs.DebugInfo.{DebugLists, lists_of};

    ghost Value = { DebugLists };

    ghost view = { λ d. record { symbols = d.symbols.items; debugs = lists_of d.debugs.items } };
}

impl<A: Allocator + Copy> DebugInfo<A> {
    /// No symbols and no debug blocks. Does not allocate.
    pub fn new(alloc: A) -> Self
        ensures { result ≡ no_debug_info }
    {
        DebugInfo {
            symbols: Vec::new(alloc),
            debugs: Vec::new(alloc),
        }
    }

    /// Adds a symbol, which leaves its name without longwords.
    ///
    /// # Errors
    ///
    /// [`AllocError`] only if an allocation failed; then the name is as it was, too.
    pub fn add_symbol(
        &mut self,
        alloc: A,
        name: &mut OpenName<A>,
        value: u32,
    ) -> Result<(), AllocError>
        ensures adds { OnOk result (self.new ≡
            record self.old { symbols = self.old.symbols ++ (bytes_so_far name.old, value) ∷ [] }) }
        ensures refused { OnErr result (self.new ≡ self.old) }
        ensures emptied { OnOk result (Opens name.new []) }
        ensures name { OnErr result (name.new ≡ name.old) }
    {
        self.symbols.reserve(1)?;
        let whole = mem::replace(name, OpenName::new(alloc));
        self.symbols.push_reserved((whole.close(), value));
        Ok(())
    }

    /// Begins a debug block.
    ///
    /// # Errors
    ///
    /// [`AllocError`] only if an allocation failed.
    pub fn begin_debug(&mut self, alloc: A) -> Result<(), AllocError>
        ensures begins { OnOk result
            (self.new ≡ record self.old { debugs = self.old.debugs ++ [] ∷ [] }) }
        ensures refused { OnErr result (self.new ≡ self.old) }
    {
        match self.debugs.push(Vec::new(alloc)) {
            Ok(()) => Ok(()),
            Err(_) => Err(AllocError),
        }
    }

    /// Takes a longword of the last debug block, if there is one.
    ///
    /// # Errors
    ///
    /// [`AllocError`] only if an allocation failed.
    pub fn add_debug_word(&mut self, word: u32) -> Result<(), AllocError>
        ensures adds { OnOk result (self.new ≡
            record self.old { debugs = on_last (λ ws. ws ++ word ∷ []) self.old.debugs }) }
        ensures refused { OnErr result (self.new ≡ self.old) }
    {
        match self.debugs.last_mut() {
            Some(debug) => match debug.push(word) {
                Ok(()) => Ok(()),
                Err(_) => Err(AllocError),
            },
            None => Ok(()),
        }
    }

    /// The symbols and the debug blocks.
    pub fn into_lists(self) -> (Vec<(Name<A>, u32), A>, Vec<Vec<u32, A>, A>)
        ensures symbols { result.0.items ≡ self.symbols }
        ensures debugs { lists_of result.1.items ≡ self.debugs }
    {
        (self.symbols, self.debugs)
    }
}
