// Climbing for what stands above a record. A way goes up from it, up to 32 numbers at a time; what a view finds at a number
// (`View` of the model) is noted, so that no record is climbed from twice: a way ends below a number that has its note.
#![tactic(auto)]

ghost use Rattle.std.specs.Prelude.{◌≡◌, ◌*◌, ◌≤◌, ◌<◌, ℕ, IfSome, IfNone, Some, None, get_or, length};
ghost use Rattle.model.specs.Climbing.{View};
ghost use Rattle.model.specs.Records.{count, decode};
ghost use Rattle.model.specs.Refusals.{pass};
ghost use Rattle.model.specs.Validity.{validity};
ghost use Rattle.ways.specs.Ways.{Finding, Leads, Lost, Noted, Noting, Passable, Starts};

// What climbs look for: a view, in code.
pub trait Finds {
    type Found: Copy;

    ghost view: { Self → View Self.Found };

    // What record `number` makes of what is found above it. It reads of the record what it needs.
    fn make(&self, it: &[u8], number: u16, above: Self::Found) -> Self::Found
        requires some { 1 ≤ number }
        requires whole { 8 * number ≤ length it.now }
        requires labelled { (decode it.now number).kind ≡ 1 → (decode it.now number).label < 64 }
        ensures { result ≡ (view self.now).make number (decode it.now number) above };
}

// The numbers of a way, from the record it starts at upwards, how many there are, and the number above the last.
#[derive(Clone, Copy)]
pub struct Way {
    pub numbers: [u16; 32],
    pub len: usize,
    pub top: u16,
}

// The start of a way from record i: itself, and its parent above it.
pub fn start(it: &[u8], i: u16) -> Way
    requires inside { i ≤ count it.now }
    requires some { 1 ≤ i }
    ensures { Starts it.now i result }
{
    let mut numbers = [0u16; 32];
    numbers[0] = i;
    Way {
        numbers,
        len: 1,
        top: records::parent_of(it, i),
    }
}

// The rest of the way, up to below a number that has its note, or of 32 numbers. (It grows where it lies: a copy for each call
// of a climb is deeper in the stack. The number above is a local meanwhile: as a field it would be written and read again before
// each next number.)
pub fn extend<T>(it: &[u8], notes: &[Option<T>], way: &mut Way, i: u16)
    requires passable { Passable it.now notes.now }
    requires starts { Starts it.now i way.old }
    ensures { Leads it.now i way.new }
{
    let mut top = way.top;
    for k in 1..32 {
        if notes[top as usize].is_some() {
            break;
        }
        way.numbers[k] = top;
        top = records::parent_of(it, top);
        way.len = k + 1;
    }
    way.top = top;
}

// Notes what is found at the numbers of a way, from the last back to the first, which is i; and answers it for that. (It goes by
// their places, not by an iterator over a part of them: how much is noted is said of a place.)
fn note<V: Finds>(
    it: &[u8],
    view: &V,
    notes: &mut [Option<V::Found>],
    i: u16,
    w: &Way,
    above: V::Found,
) -> V::Found
    requires noting { Noting (V.view view.now) it.now notes.old }
    requires leads { Leads it.now i w.now }
    requires found { Finding (V.view view.now) it.now w.now.top above }
    ensures noted { Noted (V.view view.now) it.now notes.old notes.new }
    ensures here { get_or notes.new i None ≡ Some result }
{
    let mut found = above;
    for k in (0..w.len).rev() {
        let j = w.numbers[k];
        found = view.make(it, j, found);
        notes[j as usize] = Some(found);
    }
    found
}

// What is found at record i, if as many climbs as are left reach the environment. The climb ends below a number that has its
// note, the environment first of all, and notes what it finds for the records it passed. It goes up a way of several records
// a call: a call costs more than a record. (What it carries along is no struct: one that holds the loan of the notes would owe in
// each contract that it is the same loan.)
fn climb<V: Finds>(
    it: &[u8],
    view: &V,
    notes: &mut [Option<V::Found>],
    i: u16,
    left: usize,
) -> Option<V::Found>
    requires noting { Noting (V.view view.now) it.now notes.old }
    requires inside { i ≤ count it.now }
    requires some { 1 ≤ i }
    ensures noted { Noted (V.view view.now) it.now notes.old notes.new }
    ensures here { IfSome result (λ x. get_or notes.new i None ≡ Some x) }
    ensures lost { IfNone result (Lost it.now left i) }
{
    let mut w = start(it, i);
    extend(it, notes, &mut w, i);
    if let Some(above) = notes[w.top as usize] {
        return Some(note(it, view, notes, i, &w, above));
    }
    if left < w.len {
        return None;
    }
    let above = climb(it, view, notes, w.top, left - w.len)?;
    Some(note(it, view, notes, i, &w, above))
}

// Notes what is found at record i, by what is found at its parent; and answers it.
fn note_one<V: Finds>(
    it: &[u8],
    view: &V,
    notes: &mut [Option<V::Found>],
    i: u16,
    above: V::Found,
) -> V::Found
    requires noting { Noting (V.view view.now) it.now notes.old }
    requires inside { i ≤ count it.now }
    requires some { 1 ≤ i }
    requires found { Finding (V.view view.now) it.now (decode it.now i).parent above }
    ensures noted { Noted (V.view view.now) it.now notes.old notes.new }
    ensures here { get_or notes.new i None ≡ Some result }
{
    let found = view.make(it, i, above);
    notes[i as usize] = Some(found);
    found
}

// As `climb`. Where the parent has its note no call is made.
pub fn find<V: Finds>(
    it: &[u8],
    view: &V,
    notes: &mut [Option<V::Found>],
    i: u16,
    left: usize,
) -> Option<V::Found>
    requires noting { Noting (V.view view.now) it.now notes.old }
    requires inside { i ≤ count it.now }
    requires some { 1 ≤ i }
    ensures noted { Noted (V.view view.now) it.now notes.old notes.new }
    ensures here { IfSome result (λ x. get_or notes.new i None ≡ Some x) }
    ensures lost { IfNone result (Lost it.now left i) }
{
    let parent = records::parent_of(it, i);
    let Some(above) = notes[parent as usize] else {
        return climb(it, view, notes, i, left);
    };
    Some(note_one(it, view, notes, i, above))
}

// What is found at number j of a valid itinerary: its note, or by a climb.
fn known<V: Finds>(it: &[u8], view: &V, notes: &mut [Option<V::Found>], j: u16) -> V::Found
    requires valid { validity it.now ≡ pass }
    requires noting { Noting (V.view view.now) it.now notes.old }
    requires inside { j ≤ count it.now }
    ensures noted { Noted (V.view view.now) it.now notes.old notes.new }
    ensures here { get_or notes.new j None ≡ Some result }
{
    if let Some(found) = notes[j as usize] {
        return found;
    }
    climb(it, view, notes, j, it.len() / 8).unwrap()
}

// What is found at record i of a valid itinerary, where no climb is lost. (Only a climb's answer is asked whether it is one.)
pub fn found<V: Finds>(it: &[u8], view: &V, notes: &mut [Option<V::Found>], i: u16) -> V::Found
    requires valid { validity it.now ≡ pass }
    requires noting { Noting (V.view view.now) it.now notes.old }
    requires inside { i ≤ count it.now }
    requires some { 1 ≤ i }
    ensures noted { Noted (V.view view.now) it.now notes.old notes.new }
    ensures here { get_or notes.new i None ≡ Some result }
{
    let parent = records::parent_of(it, i);
    let above = known(it, view, notes, parent);
    note_one(it, view, notes, i, above)
}
