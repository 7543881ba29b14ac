// Text put into a lent buffer byte by byte: it stands from 0 up to a count. What finds no room is left out, so that each function is total.
// Buffer and count stay two parameters: the buffer is the caller's, and there is no heap for a String.
// Every function here is proved, the crate assumes nothing of its own, and no public function has a `requires`.
#![tactic(auto)]

ghost use Rattle.std.specs.Prelude.{[], ◌∷◌};
ghost use Rattle.text.specs.Text.{text_of, Put};
ghost use Rattle.text.specs.Ascii.{decimal, column};
ghost use Rattle.text.specs.Columns.{blanks, lead_in, signed_in};

pub fn put_byte(text: &mut [u8], count: usize, byte: u8) -> usize
    ensures { Put (byte ∷ []) (text_of count text.old) (text_of result text.new) }
{
    if count < text.len() {
        text[count] = byte;
        return count + 1;
    }
    count
}

pub fn put_bytes(text: &mut [u8], count: usize, bytes: &[u8]) -> usize
    ensures { Put bytes.now (text_of count text.old) (text_of result text.new) }
{
    let mut n = count;
    for byte in bytes {
        n = put_byte(text, n, *byte);
    }
    n
}

// The digits of a tenth of x, and one more.
pub fn put_decimal(text: &mut [u8], count: usize, x: u32) -> usize
    ensures { Put (decimal x) (text_of count text.old) (text_of result text.new) }
{
    if x < 10 {
        return put_byte(text, count, b'0' + x as u8);
    }
    let front = put_decimal(text, count, x / 10);
    put_byte(text, front, b'0' + (x % 10) as u8)
}

// A blank and a number.
pub fn put_column(text: &mut [u8], count: usize, x: u32) -> usize
    ensures { Put (column x) (text_of count text.old) (text_of result text.new) }
{
    let n = put_byte(text, count, b' ');
    put_decimal(text, n, x)
}

// ---- in columns of a given width

fn put_blanks(text: &mut [u8], count: usize, w: u32) -> usize
    ensures { Put (blanks w) (text_of count text.old) (text_of result text.new) }
{
    let mut n = count;
    for _ in 0..w {
        n = put_byte(text, n, b' ');
    }
    n
}

// w columns left of the first digit.
fn put_lead(text: &mut [u8], count: usize, w: u32, minus: bool) -> usize
    ensures { Put (lead_in w minus) (text_of count text.old) (text_of result text.new) }
{
    if minus {
        if w == 0 {
            return count;
        }
        let n = put_blanks(text, count, w - 1);
        return put_byte(text, n, b'-');
    }
    put_blanks(text, count, w)
}

// n with its sign, to the right in w columns.
pub fn put_signed(text: &mut [u8], count: usize, w: u32, minus: bool, n: u64) -> usize
    ensures { Put (signed_in w minus n) (text_of count text.old) (text_of result text.new) }
{
    if w == 0 {
        return count;
    }
    if n < 10 {
        let lead = put_lead(text, count, w - 1, minus);
        return put_byte(text, lead, b'0' + n as u8);
    }
    let front = put_signed(text, count, w - 1, minus, n / 10);
    put_byte(text, front, b'0' + (n % 10) as u8)
}
