//! Finite sets of texts, and the texts that a policy on cross-origin requests is made of.
#![tactic(auto)]

mod allowed;
mod methods;
mod origin;
mod sorted_texts;
mod text_set;
mod token;
mod values;

pub use allowed::{allow_text, allows_same, copy_to_ask, copy_to_ask_and_print, copy_to_print};
pub use methods::nine_methods;
pub use origin::{are_origin_bytes, is_uri, origin_value};
pub use text_set::TextSet;
pub use token::{is_name, is_token};
pub use values::{literal, lowered_value, name_value, number_value, push_literal, token_value};
