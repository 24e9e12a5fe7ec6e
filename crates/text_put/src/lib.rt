// Bytes, numbers and fields put at a place of a lent text, for the programs' lines. (The text and the place are lent apart: each
// method of a struct of both would owe besides that its text keeps its length and is still the same loan.)
#![tactic(auto)]

ghost use Rattle.std.specs.Prelude.{◌+◌, ◌≤◌, length, [], ◌++◌, ◌∷◌};
ghost use Rattle.model.specs.Listing.{digits_in, field, last_field};
ghost use Rattle.text_put.specs.Puts.{Put, field_by};

// Puts bytes at a place, and answers the place after them.
pub fn put(text: &mut [u8], at: usize, word: &[u8]) -> usize
    requires { at + length word.now ≤ length text.old }
    ensures { Put text.old at word.now text.new result }
{
    let end = at + word.len();
    text[at..end].copy_from_slice(word);
    end
}

// Puts one byte.
pub fn put_byte(text: &mut [u8], at: usize, b: u8) -> usize
    requires { at + 1 ≤ length text.old }
    ensures { Put text.old at (b ∷ []) text.new result }
{
    text[at] = b;
    at + 1
}

// Puts a number's digits.
// Printed by hand, since the contract fixes the bytes (`digits_in`).
pub fn put_number(text: &mut [u8], at: usize, n: u16) -> usize
    requires { at + length (digits_in 5 n) ≤ length text.old }
    ensures { Put text.old at (digits_in 5 n) text.new result }
{
    if n <= 9 {
        return put_byte(text, at, (48 + n) as u8);
    }
    let last = put_number(text, at, n / 10);
    put_byte(text, last, (48 + n % 10) as u8)
}

// Puts a number and the byte that ends its field: a space, or the line's end.
pub fn put_field(text: &mut [u8], at: usize, n: u16, end: u8) -> usize
    requires { at + length (field_by n end) ≤ length text.old }
    ensures { Put text.old at (field_by n end) text.new result }
{
    let last = put_number(text, at, n);
    put_byte(text, last, end)
}

// Puts a line of a word and two numbers at the start.
pub fn put_line(text: &mut [u8], word: &[u8], n: u16, m: u16) -> usize
    requires { length word.now + 12 ≤ length text.old }
    ensures { Put text.old 0 (word.now ++ field n (last_field m [])) text.new result }
{
    let first = put(text, 0, word);
    let last = put_field(text, first, n, b' ');
    put_field(text, last, m, b'\n')
}
