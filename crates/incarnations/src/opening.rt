// Sessions come and go.
ghost use Rattle.std.specs.Prelude.{◌≡◌, None, OnOk, OnErr};
ghost use Rattle.std.specs.FinMap.{get};
ghost use Rattle.recent_table.specs.Maps.{count};
ghost use Rattle.incarnations.specs.Meaning.{is_of, opened, closed};
ghost use Rattle.incarnations.specs.Stock.{IsSound, meaning_of};

use crate::names::SessionRecord;
use crate::stock::Stock;
use pss_base::{NoMemory, SessionNo};

/// A session comes, with no entry. `NoMemory`: the sessions are as before.
pub fn open(stock: &mut Stock, session: SessionNo) -> Result<(), NoMemory>
    requires sound { IsSound stock.old }
    requires free { get stock.old.sessions session ≡ None }
    ensures sound { IsSound stock.new }
    ensures ok { OnOk result (meaning_of stock.new ≡ opened (meaning_of stock.old) session) }
    ensures err { OnErr result (meaning_of stock.new ≡ meaning_of stock.old) }
{
    let col = stock.pool.add_col()?;
    match stock.pool.add_row() {
        Ok(row) => {
            let home = SessionRecord {
                col,
                row,
                last: 0,
                entries: 0,
                attached: 0,
            };
            match stock.sessions.add(session, home) {
                Ok(()) => Ok(()),
                Err(NoMemory) => {
                    stock.pool.remove_row(row);
                    stock.pool.remove_col(col);
                    Err(NoMemory)
                }
            }
        }
        Err(NoMemory) => {
            stock.pool.remove_col(col);
            Err(NoMemory)
        }
    }
}

/// A session without entries goes.
pub fn close(stock: &mut Stock, session: SessionNo)
    requires sound { IsSound stock.old }
    requires none { count (is_of session) (meaning_of stock.old).entries ≡ 0 }
    ensures sound { IsSound stock.new }
    ensures closed { meaning_of stock.new ≡ closed (meaning_of stock.old) session }
{
    match stock.sessions.get(session) {
        Some(home) => {
            stock.sessions.remove(session);
            stock.pool.remove_row(home.row);
            stock.pool.remove_col(home.col);
        }
        None => (),
    }
}
