// What a call answers, as a stored case has it, and the tally of the calls that gave it: what decides a replay.
// Nothing here is a call of the product. (The format of the cases is in simulator/README.md.)
#![tactic(auto, unfolding(crate::specs::Comparing::without, crate::specs::Comparing::returned, crate::specs::Comparing::more, crate::specs::Comparing::counting))]

ghost use Rattle.std.specs.Prelude.{◌≡◌};
ghost use Rattle.replay_compare.specs.Comparing.{counting, more, returned, without};

// An answer: number, the record at which (0 for none), and values. (The number is a byte and no cause: any byte may stand
// there in a stored case.)
#[derive(Clone, Copy, PartialEq, Eq)]
pub struct Reply {
    pub number: u8,
    pub record: u16,
    pub values: [u32; 6],
}

impl Reply {
    // A refusal has no values.
    pub fn refused(number: u8, record: u16) -> Reply
        ensures { result ≡ without number «record» }
    {
        Reply {
            number,
            record,
            values: [0; 6],
        }
    }

    // A call that is done returns up to six values; the others are 0.
    pub fn done(values: [u32; 6]) -> Reply
        ensures { result ≡ returned values }
    {
        Reply {
            number: 0,
            record: 0,
            values,
        }
    }
}

// How many calls were made, and how many gave something else than the file says.
#[derive(Clone, Copy, Default)]
pub struct Tally {
    pub calls: u32,
    pub differ: u32,
}

impl Tally {
    // Counts one call more, which agreed or differs.
    pub fn count(&mut self, right: bool)
        ensures { self.new ≡ counting self.old right }
    {
        self.calls = one_more(self.calls);
        if !right {
            self.differ = one_more(self.differ);
        }
    }
}

// One more, up to a million.
fn one_more(n: u32) -> u32
    ensures { result ≡ more n }
{
    if n < 1000000 { n + 1 } else { n }
}
