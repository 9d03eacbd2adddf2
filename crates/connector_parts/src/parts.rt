// What commands are performed on.

use owner_accounts::Accounts;
use pss_copies::Attended;
use pss_machine::Limits;
use schema_names::NamedSchema;
use std::alloc::Global;

/// A schema whose names are found by hash, how much there may be at once, the objects with their owners, and the sessions
/// with their entries.
#[derive(Drop)]
pub struct Parts {
    pub alloc: Global,
    pub schema: NamedSchema,
    pub limits: Limits,
    pub accounts: Accounts,
    pub attended: Attended,
}
