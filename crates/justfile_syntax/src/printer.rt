//! A file's text as the formatter writes it.
ghost use Rattle.std.specs.Prelude.{◌≡◌, IfOk};
ghost use Rattle.std.specs.String.{string_bytes};
ghost use Rattle.tree_items.specs.Files.{file_text, item_shapes};

use std::alloc::{AllocError, Global};
use std::fmt::Formatter;
use tree_items::Ast;

/// The file's text, bodies with this indentation. Between items and at the start, a run of blank
/// lines is cut to two; after the last item there is one newline.
pub fn print(alloc: Global, ast: &Ast, indentation: &str) -> Result<String, AllocError>
    ensures { IfOk result (λ text. string_bytes text ≡ file_text indentation.now (item_shapes ast.now.items.items)) }
{
    let mut f = Formatter::new(String::new(alloc));
    match ast.print(&mut f, indentation) {
        Ok(()) => Ok(f.into_inner()),
        Err(_) => Err(AllocError),
    }
}
