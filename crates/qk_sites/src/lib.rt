//! The symbols of dollar sites, and which site a symbol is of.
#![tactic(auto)]

mod laws;
mod reading;
mod spelling;

pub use laws::{one_site, reads_back, spelled_is_symbol, symbol_is_spelled};
pub use reading::read_symbol;
pub use spelling::{SitesFault, symbol};
