// Telling a refusal in words, on standard error, for the programs that write an itinerary as text or bytes: there a refusal
// never stands in what they write.
#![tactic(auto)]

use model::Refusal;

// Writes one line: the program, the refusal's number, its record where it has one, and the cause.
pub fn tell(err: &impl Print, program: &[u8], r: Refusal) {
    let Refusal { cause, record } = r;
    let number = cause.number();
    let _ = err.write_all(program);
    let _ = if record == 0 {
        println!(err; ": refused {number}: {cause}")
    } else {
        println!(err; ": refused {number} at record {record}: {cause}")
    };
}
