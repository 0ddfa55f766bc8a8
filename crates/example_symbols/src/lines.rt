//! The symbols of lines that `nm` prints.
ghost use Rattle.std.specs.List.{list_all};
ghost use Rattle.std.specs.Option.{option_map, option_to_list};
ghost use Rattle.std.specs.Char.{is_ascii_hexdigit};
ghost use Rattle.std.specs.Prelude.{IfOk, OnOk, map, ◌++◌, ◌≡◌};
ghost use Rattle.example_symbols.specs.{has_symbol, symbol_of, symbols_of, with_name_bytes};

use std::alloc::{AllocError, Global};

/// Returns whether all bytes are hexadecimal digits.
fn are_digits(bytes: &[u8]) -> bool
    ensures { result ≡ list_all is_ascii_hexdigit bytes.now }
{
    bytes.iter().all(|byte| byte.is_ascii_hexdigit())
}

/// Returns whether the line has a symbol with its address.
fn has_symbol(line: &[u8]) -> bool
    ensures { result ≡ has_symbol line.now }
{
    line.len() > 19 && line[16] == b' ' && line[18] == b' ' && are_digits(&line[..16])
}

/// Returns the symbol of a line, with its address, or `None` if it has none.
fn symbol(line: &str) -> Option<(&str, u64)>
    ensures { option_map with_name_bytes result ≡ symbol_of line.now }
{
    if !has_symbol(line.as_bytes()) {
        return None;
    }
    let Ok(address) = u64::from_str_radix(&line[..16], 16) else {
        return None;
    };
    Some((&line[19..], address))
}

/// Appends the symbol of a line, if it has one.
fn push_symbol<'a>(line: &'a str, symbols: &mut Vec<(&'a str, u64)>) -> Result<(), AllocError>
    ensures { OnOk result (map with_name_bytes symbols.new.items
        ≡ map with_name_bytes symbols.old.items ++ option_to_list (symbol_of line.now)) }
{
    if let Some(symbol) = symbol(line) {
        symbols.push(symbol)?;
    }
    Ok(())
}

/// Returns the symbols of a text, in the order of its lines, each a name with its address.
///
/// A line with a symbol consists of:
///
/// - sixteen hexadecimal digits, which are the address,
/// - a space, one byte for the type of the symbol, and a space,
/// - the name, of at least one byte.
///
/// All other lines are skipped, as those of undefined symbols.
///
/// # Errors
///
/// - `AllocError`: the vector fails to allocate.
pub fn parse(alloc: Global, text: &str) -> Result<Vec<(&str, u64)>, AllocError>
    ensures { IfOk result (λ symbols. map with_name_bytes symbols.items ≡ symbols_of text.now) }
{
    let mut symbols = Vec::new(alloc);
    for line in text.lines() {
        push_symbol(line, &mut symbols)?;
    }
    Ok(symbols)
}
