// Counter mode (ctr) and check value (cmac) of GOST R 34.13-2015, with Magma. `specs/Modes.antt` says what they are. A key is given as eight words;
// `key_words` makes them of its bytes.
#![tactic(auto)]

mod cmac;
mod ctr;

pub use cmac::{CheckKey, check_value, check_with};
pub use ctr::counter;
pub use magma::key_words;
