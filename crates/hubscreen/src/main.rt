// Screens itinerary.bin under policy.bin, runs script.bin, and writes the verdict, each step's answer and the end.
#![tactic(auto)]

ghost use Rattle.std.specs.Prelude.{◌≡◌, length};
ghost use Rattle.hubscreen.specs.Lent.{answers_for};

use files::Loaded;

// How many answers are lent: one for each step, and none where the script is too long, for the library to refuse it.
fn answers_for(l: Loaded) -> usize
    ensures { result ≡ answers_for l.more l.len }
{
    if l.more { 0 } else { l.len / 4 }
}

// Room for 1,024 lines of 15 bytes, line one and the last. (The buffers are arrays: a Vec would bring an error of memory,
// which the program doesn't have.)
fn room() -> [u8; 15408]
    ensures { 15408 ≡ length result }
{
    [0u8; 15408]
}

fn main(rt: HostRuntime) {
    let mut it = [0u8; 8193];
    let mut policy = [0u8; 65];
    let mut script = [0; 4096];
    let mut answers = [0; 1024];
    let mut text = room();
    let i = files::load_most(&rt, b"itinerary.bin", &mut it, 8192);
    let p = files::load_most(&rt, b"policy.bin", &mut policy, 64);
    let l = files::load(&rt, b"script.bin", &mut script);
    let z = l.len;
    let n = answers_for(l);
    let r = screen_text::screen_text(
        &mut it[..i],
        &policy[..p],
        &script[..z],
        &mut answers[..n],
        &mut text,
    );
    files::write(&rt, &rt.stderr(), &text[..r]);
}
