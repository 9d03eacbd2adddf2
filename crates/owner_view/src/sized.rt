// Objects with the lengths of their records.
ghost use Rattle.std.specs.Prelude.{◌≡◌};
ghost use Rattle.owner_view.specs.Seen.{Fits, plain_object};
ghost use Rattle.owner_view.specs.Sized.{IsSized};

use crate::object::Changed;
use cdr_codec::record_len;
use type_layout::{HomeNo, Record, Schema, home_at};

/// The object of a home with this record.
pub fn sized(schema: &Schema, home: HomeNo, values: Record) -> Changed
    requires { Fits schema.now (record { home = home; values = «values» }) }
    ensures object { plain_object result ≡ record { home = home; values = «values» } }
    ensures sized { IsSized schema.now result }
{
    match home_at(schema, home) {
        Some(found) => Changed {
            home,
            len: record_len(&found.layout, &values),
            record: values,
        },
        None => unreachable!(),
    }
}
