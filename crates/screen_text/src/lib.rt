// What hubscreen writes of what it lends: the screen by the library, and its listing put into a lent text.
#![tactic(auto)]

ghost use Rattle.std.specs.Prelude.{◌≡◌, length};
ghost use Rattle.listing.specs.Lines.{shown};
ghost use Rattle.model.specs.Calls.{screen_after, screen_answers};
ghost use Rattle.text_put.specs.Puts.{over};

// Screens what is lent and fills the text with what the program writes of it; answers how many bytes that is. The rest of
// the text stays as it was.
pub fn screen_text(
    it: &mut [u8],
    policy: &[u8],
    script: &[u8],
    answers: &mut [u8],
    text: &mut [u8; 15408],
) -> usize
    ensures length { result ≡ length (shown it.old policy.now script.now answers.old) }
    ensures text { text.new ≡ over (shown it.old policy.now script.now answers.old) text.old }
    ensures itinerary { it.new ≡ screen_after it.old policy.now script.now answers.old }
    ensures answers { answers.new ≡ screen_answers it.old policy.now script.now answers.old }
{
    match calls::screen(it, policy, script, answers) {
        Ok(s) => listing::put_screen(text, s, script, answers),
        Err(r) => listing::put_refused(text, r),
    }
}
