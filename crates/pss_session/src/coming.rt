// Sessions come and go.
ghost use Rattle.std.specs.Prelude.{◌≡◌, ◌+◌, ◌-◌, ◌^◌, ◌<◌, None, IfOk, OnOk};
ghost use Rattle.indexmap.specs.IndexMap.{spare};
ghost use Rattle.pss_session.specs.Meaning.{opened, closed, number_named};
ghost use Rattle.pss_session.specs.inner.Register.{IsSound, meaning_of};

use crate::register::{Register, SessionRecord};
use crate::{names, rows};
use pss_base::{Bytes, NoMemory, SessionNo};
use pss_machine::{Access, Association, Kind};

/// Makes room for one more session, and copies its name. Without memory the sessions are as before.
pub fn prepare(register: &mut Register, name: &Bytes) -> Result<Vec<u8>, NoMemory>
    ensures rows { register.new.rows.entries ≡ register.old.rows.entries }
    ensures names { register.new.names.entries ≡ register.old.names.entries }
    ensures last { register.new.last ≡ register.old.last }
    ensures room_rows { OnOk result (0 < spare register.new.rows) }
    ensures room_names { OnOk result (0 < spare register.new.names) }
    ensures copy { IfOk result (λ key. key.items ≡ name.now) }
{
    rows::reserve(&mut register.rows)?;
    names::reserve(&mut register.names)?;
    let copy = name.copy()?;
    Ok(copy.into_vec())
}

/// A session comes, for which there is room. It takes no memory.
pub fn open(register: &mut Register, key: Vec<u8>, name: Bytes, kind: Kind, access: Access)
    requires sound { IsSound register.old }
    requires rows { 0 < spare register.old.rows }
    requires names { 0 < spare register.old.names }
    requires number { register.old.last < 2 ^ 32 - 1 }
    requires key { key.items ≡ name }
    requires free { number_named (meaning_of register.old) name ≡ None }
    ensures sound { IsSound register.new }
    ensures opened { meaning_of register.new ≡ opened (meaning_of register.old) name kind access }
{
    let number = register.last + 1;
    names::put(&mut register.names, key, SessionNo(number));
    rows::put(
        &mut register.rows,
        number,
        SessionRecord {
            name,
            kind,
            access,
            association: Association::NoTransaction,
        },
    );
    register.last = number;
}

/// A session goes. Where there is none with this number, all is as before.
pub fn close(register: &mut Register, session: SessionNo)
    requires { IsSound register.old }
    ensures sound { IsSound register.new }
    ensures closed { meaning_of register.new ≡ closed (meaning_of register.old) session }
{
    if let Some(record) = rows::take(&mut register.rows, session.0) {
        names::remove(&mut register.names, record.name.as_slice());
    }
}
