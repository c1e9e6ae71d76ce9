// Writing into a buffer, which is the caller's, in C or not: each function has the offset that it writes from, and answers
// the one behind. A struct that holds buffer and offset would have to say at each call that it holds the same buffer.
ghost use Rattle.std.specs.Prelude.{◌≡◌, ◌+◌, ◌<◌, ◌≤◌, [], ◌∷◌, length, decimal};
ghost use Rattle.casefile.specs.Buffers.{overwritten};
ghost use Rattle.casefile.specs.Fields.{number_field, refusal_lines};

use itoa::Buffer;
use texts::Refusal;

// Writes bytes from `at` on, and answers the offset behind them.
pub(crate) fn put(out: &mut [u8], at: usize, bytes: &[u8]) -> usize
    requires { at + length bytes.now ≤ length out.old }
    ensures value { result ≡ at + length bytes.now }
    ensures after { out.new ≡ overwritten out.old at bytes.now }
{
    let end = at + bytes.len();
    out[at..end].copy_from_slice(bytes);
    end
}

// Writes one byte.
pub(crate) fn put_byte(out: &mut [u8], at: usize, byte: u8) -> usize
    requires { at < length out.old }
    ensures value { result ≡ at + 1 }
    ensures after { out.new ≡ overwritten out.old at (byte ∷ []) }
{
    put(out, at, &[byte])
}

// Writes a number in decimal digits, without leading zeros.
pub(crate) fn put_number(out: &mut [u8], at: usize, number: usize) -> usize
    requires { at + length (decimal number) ≤ length out.old }
    ensures value { result ≡ at + length (decimal number) }
    ensures after { out.new ≡ overwritten out.old at (decimal number) }
{
    put(out, at, Buffer::new().format(number).as_bytes())
}

// Writes a line of a sheet: a key, `=`, a number, and byte 10.
pub(crate) fn put_field(out: &mut [u8], at: usize, key: &[u8], number: usize) -> usize
    requires { at + length (number_field key.now number) ≤ length out.old }
    ensures value { result ≡ at + length (number_field key.now number) }
    ensures after { out.new ≡ overwritten out.old at (number_field key.now number) }
{
    let equals = put(out, at, key);
    let value = put_byte(out, equals, b'=');
    let end = put_number(out, value, number);
    put_byte(out, end, b'\n')
}

// Writes the four lines of a refusal.
pub(crate) fn put_refusal(out: &mut [u8], at: usize, line: usize, refusal: Refusal) -> usize
    requires { at + length (refusal_lines line refusal) ≤ length out.old }
    ensures value { result ≡ at + length (refusal_lines line refusal) }
    ensures after { out.new ≡ overwritten out.old at (refusal_lines line refusal) }
{
    let layer = put_field(out, at, b"refused", refusal.number);
    let number = put_field(out, layer, b"layer", refusal.layer.into());
    let place = put_field(out, number, b"line", line);
    put_field(out, place, b"place", refusal.place)
}
