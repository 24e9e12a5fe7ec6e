// Writing the text form of an itinerary, and listing an itinerary with what the sheet hides marked. (`Whole` is a clause, of
// the itinerary and of the sheet, since a call leaves a sheet as bytes, and no type that carries it.)
#![tactic(auto)]

ghost use Rattle.std.specs.Prelude.{◌≡◌, ◌≤◌, length};
ghost use Rattle.text_put.specs.Puts.{over};
ghost use Rattle.text_form.specs.Parts.{Whole, Written, whole_text};
ghost use Rattle.text_form.specs.Writing.{list_after, list_answer, write_after, write_answer, written_as};

use model::Cause;
use text_form::WriteError;
use text_walk::Walk;

// How long the text of an itinerary is, line by line.
// A loop beside that of `fill`: this one puts each line into one line's room and sums the lengths, that one moves the place on.
fn measure(it: &[u8], sheet: &[u8], listed: bool) -> usize
    requires whole { Whole it.now }
    requires sheet { Whole sheet.now }
    ensures { result ≡ length (whole_text listed it.now sheet.now) }
{
    let mut line = [0u8; 2100];
    let mut used: usize = 0;
    for v in Walk::new(it) {
        used += text_entry::put_visit(&mut line, 0, it, sheet, listed, v);
    }
    used
}

// Writes the text of an itinerary, line by line.
fn fill(it: &[u8], sheet: &[u8], listed: bool, text: &mut [u8])
    requires whole { Whole it.now }
    requires sheet { Whole sheet.now }
    requires fits { length (whole_text listed it.now sheet.now) ≤ length text.old }
    ensures { text.new ≡ over (whole_text listed it.now sheet.now) text.old }
{
    let mut at: usize = 0;
    for v in Walk::new(it) {
        at = text_entry::put_visit(text, at, it, sheet, listed, v);
    }
}

// Writes the text where there is room for it.
fn write_by(it: &[u8], sheet: &[u8], listed: bool, text: &mut [u8]) -> Result<usize, WriteError>
    requires whole { Whole it.now }
    requires sheet { Whole sheet.now }
    ensures { Written (whole_text listed it.now sheet.now) text.old text.new (written_as result) }
{
    let n = measure(it, sheet, listed);
    if text.len() < n {
        return Err(WriteError::NoRoom(n));
    }
    fill(it, sheet, listed, text);
    Ok(n)
}

// Writes the text form of an itinerary after refusals 1 to 6; a text with no room for it stays as it was.
pub fn write_text(it: &[u8], text: &mut [u8]) -> Result<usize, WriteError>
    ensures answer { written_as result ≡ write_answer it.now text.old }
    ensures bytes { text.new ≡ write_after it.now text.old }
{
    calls::validate(it)?;
    write_by(it, it, false, text)
}

// Lists with a sheet of the itinerary's length to mark by.
fn list_with(
    it: &[u8],
    table: &[u8],
    sheet: &mut [u8],
    text: &mut [u8],
) -> Result<usize, WriteError>
    requires { length sheet.old ≡ length it.now }
    ensures answer { written_as result ≡ list_answer it.now table.now text.old }
    ensures bytes { text.new ≡ list_after it.now table.now text.old }
{
    calls::sheet(it, table, sheet)?;
    write_by(it, sheet, true, text)
}

// Lists an itinerary after refusals 1 to 6 and 8: the text form with each record's number, and with a mark on what the
// sheet hides. A text with no room for it stays as it was.
pub fn list_text(it: &[u8], table: &[u8], text: &mut [u8]) -> Result<usize, WriteError>
    ensures answer { written_as result ≡ list_answer it.now table.now text.old }
    ensures bytes { text.new ≡ list_after it.now table.now text.old }
{
    let n = it.len();
    if 8192 < n {
        return Err(WriteError::Refused(Cause::Length.into()));
    }
    let mut sheet = [0u8; 8192];
    list_with(it, table, &mut sheet[..n], text)
}
