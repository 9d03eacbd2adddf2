//! Laws alone: the schema of every PSDL text without a fault is sound, and the names in the schema of every text are identifiers.
#![tactic(auto)]

mod laws;

pub use laws::{
    identifiers_are_names, layouts_begin_with_bases, literals_are_small, schema_has_sound_catalogs,
    schema_has_sound_homes, schema_is_named, schema_is_sound, text_is_sound,
};
