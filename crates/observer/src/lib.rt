// The observer's sheet.
#![tactic(auto)]

ghost use Rattle.std.specs.Prelude.{◌≡◌, ◌<◌, length};
ghost use Rattle.model.specs.Climbing.{hiding, is_suspect};
ghost use Rattle.model.specs.Observer.{sheet_of};
ghost use Rattle.model.specs.Refusals.{pass};
ghost use Rattle.model.specs.Tables.{suspects};
ghost use Rattle.model.specs.Validity.{validity};
ghost use Rattle.observer.specs.Labels.{labels, sheet_by};
ghost use Rattle.ways.specs.Ways.{Noting};

use model::Rec;
use records::Itinerary;
use tables::Table;
use ways::Finds;

// Whether a record is an ambient whose label is suspect. (No branch asks which kind it is: which comes next is hard to foretell.)
fn suspect(suspects: u64, r: Rec) -> bool
    requires { r.kind ≡ 1 → r.label < 64 }
    ensures { result ≡ is_suspect (labels suspects) r }
{
    r.is_ambient() & table_words::bit_of(suspects, (r.label % 64) as usize)
}

// What a set of suspect labels hides, for climbs.
#[derive(Clone, Copy)]
struct Hiding {
    suspects: u64,
}

impl Finds for Hiding {
    type Found = bool;

    ghost view = { λ v. hiding (labels v.suspects) };

    fn make(&self, it: &[u8], number: u16, above: bool) -> bool {
        suspect(self.suspects, records::record_in(it, number)) | above
    }
}

// Takes the hidden records off a sheet that is still the itinerary, with notes to climb by. (The bytes are lent as they are: that
// each is less than 256 is known of a lent slice, and not of the one in an `Itinerary`.)
fn hide(it: &[u8], suspects: u64, notes: &mut [Option<bool>], sheet: &mut [u8])
    requires valid { validity it.now ≡ pass }
    requires noting { Noting (hiding (labels suspects)) it.now notes.old }
    requires copied { sheet.old ≡ it.now }
    ensures { sheet.new ≡ sheet_by it.now (labels suspects) }
{
    let gone = records::gone();
    let view = Hiding { suspects };
    let n = it.len() / 8;
    for i in 0..n as u16 {
        if ways::found(it, &view, notes, i + 1) {
            records::put_record(sheet, i + 1, gone);
        }
    }
}

// Copies the itinerary to the sheet. (std's copy_from_slice would have the archive ask a C caller for memmove.)
fn copy(it: &[u8], sheet: &mut [u8])
    requires { length sheet.old ≡ length it.now }
    ensures { sheet.new ≡ it.now }
{
    for i in 0..it.len() {
        sheet[i] = it[i];
    }
}

// The suspect labels of a table, as a word.
fn suspects(table: &Table) -> u64
    ensures { labels result ≡ suspects table.now }
{
    let mut words = [0u64; 1];
    table_words::load(
        &table[table_words::BYTES * table_words::SUSPECTS..],
        &mut words,
    );
    words[0]
}

// Writes the sheet.
pub fn write_sheet(it: &Itinerary, table: &Table, sheet: &mut [u8])
    requires { length sheet.old ≡ length it.now }
    ensures { sheet.new ≡ sheet_of it.now table.now }
{
    let mut notes = [None; 1025];
    notes[0] = Some(false);
    copy(it.bytes, sheet);
    hide(it.bytes, suspects(table), &mut notes, sheet);
}
