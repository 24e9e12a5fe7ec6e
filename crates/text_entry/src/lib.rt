// Putting lines of the text form: a record's line of a text or of a listing, and its fields. (The text and the place are two
// parameters, as in text_put.)
#![tactic(auto)]

ghost use Rattle.std.specs.Prelude.{◌+◌, ◌≤◌, length, replicate};
ghost use Rattle.model.specs.Records.{records};
ghost use Rattle.text_put.specs.Puts.{Put};
ghost use Rattle.text_form.specs.Lines.{client_bytes, entry};
ghost use Rattle.text_form.specs.Parts.{Whole, fields, numbered, visit_line};
ghost use Rattle.text_form.specs.Writing.{mark};

use text_form::{Line, Visit};

// Puts n spaces.
fn put_spaces(text: &mut [u8], at: usize, n: usize) -> usize
    requires { at + n ≤ length text.old }
    ensures { Put text.old at (replicate n 32) text.new result }
{
    let end = at + n;
    text[at..end].fill(b' ');
    end
}

// Puts the number that is shown before a line, and a space.
fn put_front(text: &mut [u8], at: usize, number: Option<u16>) -> usize
    requires { at + length (numbered number) ≤ length text.old }
    ensures { Put text.old at (numbered number) text.new result }
{
    match number {
        Some(n) => text_put::put_field(text, at, n, b' '),
        None => at,
    }
}

// Puts a client's number with the space before it, and nothing for 0.
fn put_client(text: &mut [u8], at: usize, client: u16) -> usize
    requires { at + length (client_bytes client) ≤ length text.old }
    ensures { Put text.old at (client_bytes client) text.new result }
{
    if client == 0 {
        return at;
    }
    let number = text_put::put_byte(text, at, b' ');
    text_put::put_number(text, number, client)
}

// Puts a line's kind, label, name and client.
fn put_fields(text: &mut [u8], at: usize, line: Line) -> usize
    requires { at + length (fields line) ≤ length text.old }
    ensures { Put text.old at (fields line) text.new result }
{
    let label = text_put::put(text, at, text_form::line_word(line.kind));
    let name = text_put::put_field(text, label, line.label as u16, b' ');
    let client = text_put::put_number(text, name, line.name as u16);
    put_client(text, client, line.client)
}

// Puts the mark of a hidden record.
fn put_mark(text: &mut [u8], at: usize, hidden: bool) -> usize
    requires { at + length (mark hidden) ≤ length text.old }
    ensures { Put text.old at (mark hidden) text.new result }
{
    if hidden {
        return text_put::put(text, at, b" hidden");
    }
    at
}

// Puts a line.
fn put_entry(text: &mut [u8], at: usize, number: Option<u16>, hidden: bool, line: Line) -> usize
    requires shallow { line.depth ≤ 1024 }
    requires fits { at + length (entry (numbered number) (mark hidden) line) ≤ length text.old }
    ensures { Put text.old at (entry (numbered number) (mark hidden) line) text.new result }
{
    let depth = line.depth;
    let first = put_spaces(text, at, 2 * depth);
    let word = put_front(text, first, number);
    let back = put_fields(text, word, line);
    let end = put_mark(text, back, hidden);
    text_put::put_byte(text, end, b'\n')
}

// Puts the line of a record that is visited. In a listing it is marked where the sheet hides it.
// `sheet` and `listed` are two parameters, since no clause can name an Option of a loan without a further definition.
pub fn put_visit(
    text: &mut [u8],
    at: usize,
    it: &[u8],
    sheet: &[u8],
    listed: bool,
    v: Visit,
) -> usize
    requires whole { Whole it.now }
    requires sheet { Whole sheet.now }
    requires shallow { v.depth ≤ 1024 }
    requires fits { at + length (visit_line listed (records it.now) (records sheet.now) v)
        ≤ length text.old }
    ensures { Put text.old at (visit_line listed (records it.now) (records sheet.now) v)
        text.new result }
{
    let number = v.number;
    let r = records::record_at(it, number);
    let s = records::record_at(sheet, number);
    let line = Line {
        depth: v.depth,
        kind: text_form::kind_of_record(r),
        label: r.label,
        name: r.name,
        client: r.client,
    };
    let shown = listed.then_some(number);
    put_entry(text, at, shown, listed & s.is_gone(), line)
}
