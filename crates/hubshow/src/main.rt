// Reads itinerary.bin and writes the text form of the itinerary. Where it is refused, or the file can't be read, it writes a
// question mark, which is no text form, and the cause on standard error.
#![tactic(auto)]

ghost use Rattle.std.specs.Prelude.{◌≡◌, ◌≤◌, length, option_map};
ghost use Rattle.hubshow.specs.Shown.{shown_file};
ghost use Rattle.text_put.specs.Puts.{over};

use text_form::WriteError;

// Room for the longest text of 1,024 lines. (The buffers are arrays: a Vec would bring an error of memory, which the program
// doesn't have.)
fn room() -> [u8; 1065984] {
    [0u8; 1065984]
}

// Fills the text with what the program writes, by the file's bytes if it could be read, and answers its length. There is always
// room for it: the equations hold of the arm without room only because it never comes to it.
fn show_text(err: &impl Print, it: Option<&[u8]>, text: &mut [u8]) -> usize
    requires { 1065984 ≤ length text.old }
    ensures length { result ≡ length (shown_file (option_map (λ s. s.now) it.entry)) }
    ensures bytes { text.new ≡ over (shown_file (option_map (λ s. s.now) it.entry)) text.old }
    ensures within { result ≤ length text.new }
{
    let Some(it) = it else {
        return text_put::put_byte(text, 0, b'?');
    };
    match text_write::write_text(it, text) {
        Ok(len) => len,
        Err(WriteError::Refused(r)) => {
            text_refusal::tell(err, b"hubshow", r);
            text_put::put_byte(text, 0, b'?')
        }
        Err(WriteError::NoRoom(_)) => 0,
    }
}

fn main(rt: HostRuntime) {
    let err = rt.stderr();
    let mut it = [0u8; 8193];
    let mut text = room();
    let len = files::read_most(&rt, &err, b"itinerary.bin", &mut it, 8192);
    let r = show_text(&err, len.map(|n| &it[..n]), &mut text);
    files::write(&rt, &err, &text[..r]);
}
