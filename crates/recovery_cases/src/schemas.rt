// The schema of a text.
ghost use Rattle.std.specs.Prelude.{IfSome};
ghost use Rattle.type_layout.specs.Sound.{IsSoundSchema};

use psdl_check::check;
use psdl_sound::text_is_sound;
use psdl_syntax::parse;
use std::alloc::Global;
use type_layout::Schema;

/// The schema of a text, none where the text is refused.
pub fn schema_of(alloc: Global, text: &[u8]) -> Option<Schema>
    ensures { IfSome result IsSoundSchema }
{
    text_is_sound();
    let Ok(tree) = parse(alloc, text) else {
        return None;
    };
    match check(alloc, &tree) {
        Ok(schema) => Some(schema),
        Err(_) => None,
    }
}
