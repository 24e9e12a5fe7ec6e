// Reads itinerary.bin and policy.bin, makes the table, and lists the itinerary as a tree in which what the observer's
// sheet hides is marked. Where it is refused, or a file can't be read, nothing is written but the cause, on standard error.
#![tactic(auto)]

ghost use Rattle.std.specs.Prelude.{[], ◌≡◌, ◌≤◌, length};
ghost use Rattle.hublist.specs.Listed.{listed};
ghost use Rattle.model.specs.Calls.{make_after};
ghost use Rattle.model.specs.Records.{records};
ghost use Rattle.model.specs.Tables.{suspects};
ghost use Rattle.text_put.specs.Puts.{over};
ghost use Rattle.text_form.specs.Writing.{list_of, listable, text_or};

use model::Refusal;
use text_form::WriteError;

// Room for the longest listing of 1,024 lines. (The buffers are arrays: a Vec would bring an error of memory, which the
// program doesn't have.)
fn room() -> [u8; 1079296] {
    [0u8; 1079296]
}

// Tells a refusal, and answers how much of the text is written.
fn tell(err: &impl Print, r: Refusal) -> usize
    ensures { result ≡ 0 }
{
    text_refusal::tell(err, b"hublist", r);
    0
}

// Fills the text with the listing by a table, and answers its length. There is always room for it: the equations
// hold of the arm without room only because it never comes to it.
fn list(err: &impl Print, it: &[u8], table: &[u8], text: &mut [u8]) -> usize
    requires { 1079296 ≤ length text.old }
    ensures length { result ≡ length (text_or [] (listable it.now table.now) (list_of (records it.now) (suspects table.now))) }
    ensures bytes { text.new ≡ over (text_or [] (listable it.now table.now) (list_of (records it.now) (suspects table.now))) text.old }
{
    match text_write::list_text(it, table, text) {
        Ok(len) => len,
        Err(WriteError::Refused(r)) => tell(err, r),
        Err(WriteError::NoRoom(_)) => 0,
    }
}

// Fills the text with what the program writes by the table that it makes, and answers its length.
fn list_made(err: &impl Print, it: &[u8], policy: &[u8], table: &mut [u8], text: &mut [u8]) -> usize
    requires { 1079296 ≤ length text.old }
    ensures length { result ≡ length (listed it.now policy.now table.old) }
    ensures bytes { text.new ≡ over (listed it.now policy.now table.old) text.old }
    ensures table { table.new ≡ make_after it.now policy.now table.old }
    ensures within { result ≤ length text.new }
{
    match calls::make(it, policy, table) {
        Ok(_) => list(err, it, table, text),
        Err(r) => tell(err, r),
    }
}

fn main(rt: HostRuntime) {
    let err = rt.stderr();
    let mut it = [0u8; 8193];
    let mut policy = [0u8; 65];
    let mut table = [0u8; 1544];
    let mut text = room();
    let bench = files::read_most(&rt, &err, b"itinerary.bin", &mut it, 8192);
    let classes = files::read_most(&rt, &err, b"policy.bin", &mut policy, 64);
    let (Some(n), Some(p)) = (bench, classes) else {
        return;
    };
    let r = list_made(&err, &it[..n], &policy[..p], &mut table, &mut text);
    files::write(&rt, &err, &text[..r]);
}
