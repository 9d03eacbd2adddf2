// The texts of pids and of short pids.
ghost use Rattle.std.specs.Prelude.{◌≡◌, ◌++◌, Some, OnOk, OnErr, IfSome};
ghost use Rattle.pss_base.specs.PidText.{pid_text, pid_of, short_pid_text, short_pid_of};

use crate::hexadecimal::{hex_number, write_hex};
use crate::{Bytes, NoMemory, Pid};

const HOME_DIGITS: usize = 8;

const SERIAL_DIGITS: usize = 16;

const PID_DIGITS: usize = 24;

fn pid_digits(home: u32, serial: u64) -> [u8; PID_DIGITS]
    ensures text { result ≡ pid_text (record { home = home; serial = serial }) }
    ensures reads { pid_of (pid_text (record { home = home; serial = serial })) ≡ Some (record { home = home; serial = serial }) }
{
    let mut digits = [0; PID_DIGITS];
    let (front, back) = digits.split_at_mut(HOME_DIGITS);
    write_hex(front, u64::from(home));
    write_hex(back, serial);
    digits
}

/// Adds the text of a pid: the home in 8 lower-case hexadecimal digits, then the serial in 16. It is
/// read as the same pid. `NoMemory`: the bytes are as before.
pub fn append_pid(out: &mut Bytes, pid: Pid) -> Result<(), NoMemory>
    ensures ok { OnOk result (out.new ≡ out.old ++ pid_text pid) }
    ensures err { OnErr result (out.new ≡ out.old) }
    ensures reads { pid_of (pid_text pid) ≡ Some pid }
{
    out.extend(&pid_digits(pid.home, pid.serial))
}

/// The pid of a text of 24 lower-case hexadecimal digits; none for any other text. It is written as
/// the same text.
pub fn read_pid(text: &[u8]) -> Option<Pid>
    ensures value { result ≡ pid_of text.now }
    ensures text { IfSome result (λ pid. text.now ≡ pid_text pid) }
{
    if text.len() != PID_DIGITS {
        return None;
    }
    let (home, serial) = text.split_at(HOME_DIGITS);
    Some(Pid {
        home: hex_number(home)? as u32,
        serial: hex_number(serial)?,
    })
}

/// Adds the text of a short pid: the serial in 16 lower-case hexadecimal digits. It is read as the
/// same serial. `NoMemory`: the bytes are as before.
pub fn append_short_pid(out: &mut Bytes, serial: u64) -> Result<(), NoMemory>
    ensures ok { OnOk result (out.new ≡ out.old ++ short_pid_text serial) }
    ensures err { OnErr result (out.new ≡ out.old) }
    ensures reads { short_pid_of (short_pid_text serial) ≡ Some serial }
{
    let mut digits = [0; SERIAL_DIGITS];
    write_hex(&mut digits, serial);
    out.extend(&digits)
}

/// The serial of a text of 16 lower-case hexadecimal digits; none for any other text. It is written
/// as the same text.
pub fn read_short_pid(text: &[u8]) -> Option<u64>
    ensures value { result ≡ short_pid_of text.now }
    ensures text { IfSome result (λ serial. text.now ≡ short_pid_text serial) }
{
    if text.len() != SERIAL_DIGITS {
        return None;
    }
    hex_number(text)
}
