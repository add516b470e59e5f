//! The symbol at an offset or before it.
ghost use Rattle.std.specs.Prelude.{option_map, IsTrue, IsFalse};
ghost use Rattle.amihunk_c.specs.SymbolBefore.{IsFound, IsHigher, IsNoHigher};

use hunk_words::Name;

/// Of the symbols whose value is at most `offset`, the one with the highest value, and of several the
/// first.
pub(crate) fn symbol_before(symbols: &[(Name, u32)], offset: u32) -> Option<&(Name, u32)>
    ensures { IsFound symbols.now offset (option_map (λ symbol. symbol.now) result) }
{
    let mut found = None;
    for symbol in symbols {
        if symbol.1 <= offset && is_higher(symbol.1, found) {
            found = Some(symbol);
        }
    }
    found
}

/// Whether a value is higher than that of the symbol found so far, if there is one.
fn is_higher(value: u32, found: Option<&(Name, u32)>) -> bool
    ensures higher { IsTrue result →
        IsHigher value (option_map (λ symbol. symbol.now) found.entry) }
    ensures lower { IsFalse result →
        IsNoHigher value (option_map (λ symbol. symbol.now) found.entry) }
{
    match found {
        Some(before) => before.1 < value,
        None => true,
    }
}
