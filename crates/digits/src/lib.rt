//! Numbers as text: hexadecimal with a fixed number of digits, and decimal with no leading zero.
#![tactic(auto)]

mod decimals;
mod hexadecimals;

pub use decimals::read_decimal;
pub use hexadecimals::{hex_digit, hex16, read_hex};
