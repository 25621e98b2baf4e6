//! Numbers in hexadecimal digits.

ghost use Rattle.std.specs.Prelude.{◌≡◌, ◌<◌};
ghost use Rattle.cp_model.specs.Report.{hex_digit};

/// The hexadecimal digit of a number from 0 to 15, in lower case.
pub fn hex(byte: u8) -> u8
    requires { byte < 16 }
    ensures { result ≡ hex_digit byte }
{
    if byte < 10 {
        b'0' + byte
    } else {
        b'a' - 10 + byte
    }
}
