// Reads itinerary.txt, the text form of an itinerary, and writes the itinerary's bytes. It fails closed: where the text has
// a fault or can't be read it writes one byte, which is no itinerary, and one line on standard error: the lowest line at
// fault and the cause, or what the system says of the file.
#![tactic(auto)]

ghost use Rattle.std.specs.Prelude.{◌≡◌, ◌≤◌, length, option_map};
ghost use Rattle.hubtext.specs.Converts.{converted_file};
ghost use Rattle.text_put.specs.Puts.{over};
ghost use Rattle.text_form.specs.Reading.{no_itinerary};

// How many bytes are written where there is no itinerary: every call on an itinerary refuses a length that is no multiple of 8.
const NONE: usize = 1;

// Room for the longest text of 1,024 records, and one byte more, by which the reader tells that a text is longer. (The buffers
// are arrays: a Vec would bring an error of memory, which the program doesn't have.)
fn room() -> [u8; 1065985] {
    [0u8; 1065985]
}

// Puts what stands for an itinerary that can't be had, and answers its length.
fn put_none(it: &mut [u8]) -> usize
    requires { 1 ≤ length it.old }
    ensures length { result ≡ length no_itinerary }
    ensures bytes { it.new ≡ over no_itinerary it.old }
{
    it[0] = 0;
    NONE
}

// Fills the bytes with what the program writes, by its file's bytes if it can be read, and answers their number.
fn convert(err: &impl Print, text: Option<&[u8]>, it: &mut [u8; 8192]) -> usize
    ensures length { result ≡ length (converted_file (option_map (λ s. s.now) text.entry)) }
    ensures bytes { it.new ≡ over (converted_file (option_map (λ s. s.now) text.entry)) it.old }
    ensures within { result ≤ length it.new }
{
    let Some(text) = text else {
        return put_none(it);
    };
    match text_read::read_text(text, it) {
        Ok(k) => 8 * (k as usize),
        Err(fault) => {
            let _ = println!(err; "{fault}");
            put_none(it)
        }
    }
}

fn main(rt: HostRuntime) {
    let err = rt.stderr();
    let mut text = room();
    let mut it = [0u8; 8192];
    let len = files::read_most(&rt, &err, b"itinerary.txt", &mut text, 1065984);
    let r = convert(&err, len.map(|n| &text[..n]), &mut it);
    files::write(&rt, &err, &it[..r]);
}
