// A form filled in: a text in which '%' stands for a number, '$' for eight hexadecimal digits of one and '~' for a text.
ghost use Rattle.std.specs.Prelude.{◌≡◌, ◌≤◌, length, get_or};
ghost use Rattle.telling.specs.Decimal.{decimal_of, eight_of};
ghost use Rattle.telling.specs.Forms.{piece_of, taken_by, filled_in, Says};
ghost use Rattle.telling.specs.CodePut.{PutAfter};

// Puts bytes after the first `at` of a line, and answers where they end. What has no room is left out.
fn put(out: &mut [u8], at: usize, bytes: &[u8]) -> usize
    requires { at ≤ length out.old }
    ensures { PutAfter bytes.now at out.old out.new result }
{
    let n = bytes.len().min(out.len() - at);
    out[at..at + n].copy_from_slice(&bytes[..n]);
    at + n
}

// Puts a number in decimal.
fn put_decimal(out: &mut [u8], at: usize, x: u64) -> usize
    requires { at ≤ length out.old }
    ensures { PutAfter (decimal_of x) at out.old out.new result }
{
    let mut digits = [0u8; 20];
    let n = io::decimal(x, &mut digits);
    put(out, at, &digits[..n])
}

// Puts the eight lowest hexadecimal digits of a number.
fn put_eight(out: &mut [u8], at: usize, x: u64) -> usize
    requires { at ≤ length out.old }
    ensures { PutAfter (eight_of x) at out.old out.new result }
{
    let mut digits = [0u8; 16];
    let n = io::hex(x % 0x1_0000_0000, 8, &mut digits);
    put(out, at, &digits[..n])
}

// Puts what a byte of a form stands for.
fn put_piece(out: &mut [u8], at: usize, mark: u8, x: u64, text: &[u8]) -> usize
    requires { at ≤ length out.old }
    ensures { PutAfter (piece_of text.now x mark) at out.old out.new result }
{
    match mark {
        b'%' => put_decimal(out, at, x),
        b'$' => put_eight(out, at, x),
        b'~' => put(out, at, text),
        _ => put(out, at, &[mark]),
    }
}

// How many numbers a byte of a form takes.
fn taken_by(mark: u8) -> usize
    ensures { (result ≡ taken_by mark) × (result ≤ 1) }
{
    match mark {
        b'%' => 1,
        b'$' => 1,
        _ => 0,
    }
}

// The number at a place; 0 where there are fewer.
fn number_at(numbers: &[u64], k: usize) -> u64
    ensures { result ≡ get_or numbers.now k 0 }
{
    numbers.get(k).copied().unwrap_or(0)
}

// Puts a form with its marks filled in at the front of `out`, and answers how long it is. What has no room is left out.
//
// Ruled out: the second number in the place of the first; a number raised by one.
pub fn fill_in(form: &[u8], numbers: &[u64], text: &[u8], out: &mut [u8]) -> usize
    ensures { Says (filled_in text.now numbers.now form.now) out.new result }
{
    let mut at = 0;
    let mut k = 0;
    for mark in form {
        at = put_piece(out, at, *mark, number_at(numbers, k), text);
        k += taken_by(*mark);
    }
    at
}
