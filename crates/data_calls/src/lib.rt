//! The commands of a script that read and change objects.
//!
//! A command is done in a session that acts for an owner. What its words ask has to be within the limits; then the owner
//! takes the step, the bodies that it outdates are left, the entries of the command stand on bodies, and the answer is
//! replied.
//!
//! Each command may also be replied `NOSESSION`, `NOTX`, where the session acts for nobody, or `BUSY` with another owner's
//! name. These and the other refusals leave all as it was; `NOTFOUND`, `GONE`, `NIL`, `DUPLICATE` and `TOOLARGE` answer a
//! step that was taken. After `NoMemory` nothing is said of the parts, which are not used again.
#![tactic(auto)]

mod acting;
mod asking;
mod changing;
mod copied;
mod counting;
mod finding;
mod finishing;
mod granting;
mod leaving;
mod limits;
mod looking;
mod making;
mod obtaining;
mod reading;
mod replies;
mod seating;
mod stepping;
mod telling;

pub use changing::{destroy, set};
pub use counting::{count, list};
pub use finding::{find, findref, pid, short};
pub use making::{create, make};
pub use reading::{exists, follow, get};
pub use telling::tell;
