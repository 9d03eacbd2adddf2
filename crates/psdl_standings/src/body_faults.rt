// What is wrong in the bodies of declarations.
use psdl_directory::Least;

/// The least fault of names, of strings, of values and of structs that name themselves so far.
#[derive(Drop)]
pub(crate) struct BodyFaults {
    pub names: Least,
    pub strings: Least,
    pub values: Least,
    pub selves: Least,
}
