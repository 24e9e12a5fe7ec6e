// The order in which the records of an itinerary are visited: depth first, the children of one parent by their numbers.
#![tactic(auto)]

ghost use Rattle.std.specs.Prelude.{◌≡◌, ◌+◌, ◌≤◌};
ghost use Rattle.std.specs.Iterator.{YieldsFirst, item_count};
ghost use Rattle.model.specs.Records.{records};
ghost use Rattle.text_form.specs.Parts.{Whole};
ghost use Rattle.text_form.specs.Writing.{child_over, next_from, walk};

use text_form::Visit;

// The lowest child of p with a number over after.
fn child_over(it: &[u8], p: u16, after: u16) -> Option<u16>
    requires { Whole it.now }
    ensures { result ≡ child_over (records it.now) p after }
{
    let n = (it.len() / 8) as u16;
    for j in after..n {
        let r = records::record_at(it, j + 1);
        if !r.is_gone() & (r.parent == p) {
            return Some(j + 1);
        }
    }
    None
}

// The record to visit after record p, whose children stand at depth d.
pub fn next_visit(it: &[u8], p: u16, d: usize) -> Option<Visit>
    requires { Whole it.now }
    ensures { result ≡ next_from (records it.now) d p 0 }
{
    let mut q = p;
    let mut after: u16 = 0;
    for above in (0..d).rev() {
        if let Some(number) = child_over(it, q, after) {
            return Some(Visit {
                number,
                depth: above + 1,
            });
        }
        let r = records::record_at(it, q);
        after = q;
        q = r.parent;
    }
    let number = child_over(it, q, after)?;
    Some(Visit { number, depth: 0 })
}

// A walk over the records that aren't gone, as far as it has come: how many visits may be left, the record visited last, and
// the depth of its children.
#[derive(Drop)]
pub struct Walk<'a> {
    it: &'a [u8],
    left: u16,
    number: u16,
    depth: usize,
    ghost whole: { Whole it.now },
    ghost shallow: { depth + left ≤ 1024 },
}

impl<'a> Walk<'a> {
    ghost use Rattle.text_walk.specs.Visits.{visits_left};

    // The walk over an itinerary.
    pub fn new(it: &'a [u8]) -> Walk<'a>
        requires { Whole it.now }
        ensures { visits_left result ≡ walk (records it.now) }
    {
        Walk {
            it,
            left: (it.len() / 8) as u16,
            number: 0,
            depth: 0,
        }
    }
}

impl<'a> Iterator for Walk<'a> {
    ghost use Rattle.text_walk.specs.Visits.{visits_left};

    type Item = Visit;

    ghost next_gives = { YieldsFirst visits_left };

    ghost remaining = { item_count visits_left };

    fn next(&mut self) -> Option<Visit> {
        if self.left == 0 {
            return None;
        }
        let v = next_visit(self.it, self.number, self.depth)?;
        self.left -= 1;
        self.number = v.number;
        self.depth = v.depth + 1;
        Some(v)
    }
}
