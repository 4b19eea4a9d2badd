//! The methods of HTTP.
ghost use Rattle.std.specs.Prelude.{◌≡◌, true, fold, IfOk, OnOk};
ghost use Rattle.std.specs.List.{list_all};
ghost use Rattle.http1_plain.specs.Fields.{is_field_byte};
ghost use Rattle.cors_rules.specs.Building.{nine_methods};
ghost use Rattle.cors_rules.specs.Sets.{with};

use crate::text_set::TextSet;
use crate::values::literal;
use std::alloc::{AllocError, Global};

// The text becomes a member.
fn add(set: &mut TextSet, text: &'static str) -> Result<(), AllocError>
    requires { list_all is_field_byte text.now ≡ true }
    ensures { OnOk result (set.new ≡ with set.old text.now) }
{
    let text = literal(set.allocator(), text)?;
    set.insert(text)
}

// Each text becomes a member.
#[tactic(auto, using(std::proofs::lemmas::List::Sums::fold_more))]
fn add_all(set: &mut TextSet, texts: &[&'static str]) -> Result<(), AllocError>
    requires { list_all (λ text. list_all is_field_byte text.now) texts.now ≡ true }
    ensures { OnOk result (set.new ≡ fold (λ set text. with set text.now) set.old texts.now) }
{
    for text in texts {
        add(set, text)?;
    }
    Ok(())
}

/// CONNECT, DELETE, GET, HEAD, OPTIONS, PATCH, POST, PUT and TRACE.
pub fn nine_methods(alloc: Global) -> Result<TextSet, AllocError>
    ensures { IfOk result (λ set. set ≡ nine_methods) }
{
    let methods = [
        "CONNECT", "DELETE", "GET", "HEAD", "OPTIONS", "PATCH", "POST", "PUT", "TRACE",
    ];
    let mut set = TextSet::new(alloc);
    match add_all(&mut set, &methods) {
        Ok(()) => Ok(set),
        Err(error) => {
            drop(set);
            Err(error)
        }
    }
}
