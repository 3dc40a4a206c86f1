//! Arguments as a program is given them, lent as texts.

ghost use Rattle.std.specs.Prelude.{◌≡◌, IfOk};
ghost use Rattle.arguments.specs.Request.{texts, texts_of_strings};

use std::alloc::{AllocError, Global};

/// Lends the texts of arguments, in their order. Out of memory is the only error.
pub fn lent_texts(alloc: Global, arguments: &[String]) -> Result<Vec<&str>, AllocError>
    ensures { IfOk result (λ lent. texts lent.items ≡ texts_of_strings arguments.now) }
{
    let mut lent = Vec::with_capacity(alloc, arguments.len())?;
    for argument in arguments {
        lent.push(argument.as_str())?;
    }
    Ok(lent)
}
