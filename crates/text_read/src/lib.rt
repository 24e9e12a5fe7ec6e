// Reading the text form of an itinerary: its lines one after the other, and the records that they are.
#![tactic(auto)]

ghost use Rattle.std.specs.Prelude.{◌≡◌, ◌+◌, ◌*◌, ◌/◌, ◌≤◌, min, leb, get_or, length, set};
ghost use Rattle.records.specs.Written.{with_record};
ghost use Rattle.text_form.specs.Reading.{length_told, lines_answer, longest, read_after, read_answer, record_of, scan, scan_answer};
ghost use Rattle.text_form.specs.Parts.{Placeable, scanned};

use model::Rec;
use text_form::{Cause, Fault, Line};

// Writes the record of line k + 1, under its parent, and has it stand above the lines one step deeper.
#[tactic(auto, unfolding(text_form::specs::Reading::record_of))]
fn place(it: &mut [u8], above: &mut [u16], k: u16, line: Line)
    requires { Placeable it.old above.old k line.depth }
    ensures bytes { it.new ≡ with_record it.old (k + 1) (record_of line (get_or above.old line.depth 0)) }
    ensures above { above.new ≡ set above.old (line.depth + 1) (k + 1) }
{
    let depth = line.depth;
    let r = Rec {
        kind: text_form::kind_byte(line.kind),
        label: line.label,
        name: line.name,
        parent: above[depth],
        client: line.client,
    };
    records::put_record(it, k + 1, r);
    above[depth + 1] = k + 1;
}

// The records of the text's lines, as many as there is room for. The bytes after them stay.
// The loop goes by how many bytes each line takes, which a line's reading tells, so no `for` fits.
fn scan(text: &[u8], it: &mut [u8], room: u16) -> Result<u16, Fault>
    requires few { room ≤ 1024 }
    requires fits { 8 * room ≤ length it.old }
    ensures answer { result ≡ scan_answer (scan room text.now) }
    ensures bytes { it.new ≡ scanned (scan room text.now) it.old }
{
    let mut above = [0u16; 1025];
    let mut at: usize = 0;
    let mut k: u16 = 0;
    let mut deepest: usize = 0;
    while at < text.len() {
        let line = k + 1;
        if room <= k {
            let cause = Cause::TooMany;
            return Err(Fault { line, cause });
        }
        let got = text_line::read_line(&text[at..], deepest).map_err(|cause| Fault {
            line,
            cause,
        })?;
        place(it, &mut above, k, got.line);
        at = text.len() - got.left;
        deepest = got.line.depth + 1;
        k = line;
    }
    Ok(k)
}

// How many records bytes of a length have room for.
fn room_in(len: usize) -> u16
    ensures { result ≡ min 1024 (len / 8) }
{
    (len / 8).min(1024) as u16
}

// Reads into bytes of its own first, so that a fault leaves the itinerary as it was.
fn read_lines(text: &[u8], it: &mut [u8]) -> Result<u16, Fault>
    ensures answer { result ≡ lines_answer text.now it.old }
    ensures bytes { it.new ≡ read_after text.now it.old }
{
    let mut scratch = [0u8; 8192];
    let n = scan(text, &mut scratch, room_in(it.len()))?;
    let len = 8 * (n as usize);
    it[..len].copy_from_slice(&scratch[..len]);
    Ok(n)
}

// The answer, where a text longer than the longest has that for its fault.
fn length_told(len: usize, answer: Result<u16, Fault>) -> Result<u16, Fault>
    ensures { result ≡ length_told (leb len longest) answer }
{
    match answer {
        Err(fault) if 1065984 < len => Err(Fault {
            cause: Cause::TooLong,
            ..fault
        }),
        _ => answer,
    }
}

// Reads the text form: writes the records of its lines to the start of the itinerary's bytes, or leaves these as they
// were and names the lowest line at fault, counted from 1, and its cause.
pub fn read_text(text: &[u8], it: &mut [u8]) -> Result<u16, Fault>
    ensures answer { result ≡ read_answer text.now it.old }
    ensures bytes { it.new ≡ read_after text.now it.old }
{
    length_told(text.len(), read_lines(text, it))
}
