//! From a symbol to its site.

ghost use Rattle.std.specs.Prelude.{◌≡◌, false, ◌||◌, IfSome, IfNone};
ghost use Rattle.qk_ast.specs.Characters.{every, is_small_letter, is_digit};
ghost use Rattle.qk_ast.specs.Framework.{is_module_name, is_symbol};
ghost use Rattle.qk_sites.specs.Symbols.{IsSymbolOf, site_number};

/// The module and the number of the site whose symbol the text is; `None` exactly where the text is no symbol.
pub fn read_symbol(text: &str) -> Option<(&str, u32)>
    ensures some { IfSome result (λ site. IsSymbolOf site.0.now site.1 text.now) }
    ensures none { IfNone result (is_symbol text.now ≡ false) }
{
    let (name, rest) = text.split_once('_')?;
    let digits = rest.strip_prefix('s')?;
    if !is_module_name(name) {
        return None;
    }
    Some((name, site_number(digits)?))
}

/// Whether a module may have the name: a small letter, then small letters and digits, 32 at most.
fn is_module_name(name: &str) -> bool
    ensures { result ≡ is_module_name name.now }
{
    match name.as_bytes().split_first() {
        Some((first, later)) => {
            first.is_ascii_lowercase() && are_small_or_digits(later) && later.len() < 32
        }
        None => false,
    }
}

fn are_small_or_digits(bytes: &[u8]) -> bool
    ensures { result ≡ every (λ c. is_small_letter c || is_digit c) bytes.now }
{
    for byte in bytes {
        if !(byte.is_ascii_lowercase() || byte.is_ascii_digit()) {
            return false;
        }
    }
    true
}

/// The number of a site: from 1 to 4,294,967,295, without a leading zero.
fn site_number(digits: &str) -> Option<u32>
    ensures { result ≡ site_number digits.now }
{
    match digits.as_bytes().first() {
        Some(b'1'..=b'9') => digits.parse().ok(),
        _ => None,
    }
}
