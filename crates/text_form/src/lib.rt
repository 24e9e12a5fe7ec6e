// The text form of an itinerary: the answers of reading and writing it, and in specs/ what they are. (The functions are in
// the crates text_read and text_write and those that these stand on.)
#![tactic(auto)]

ghost use Rattle.std.specs.Prelude.{◌≡◌};
ghost use Rattle.text_form.specs.Lines.{ambient_kind, kind_at, kind_byte, kind_word, line_word, nested_kind};
ghost use Rattle.text_form.specs.declared.WriteError.TheVariants.{Refused};

use model::{Capability, Rec, Refusal};
use std::fmt;

// What stands on a line: an ambient, a capability, or a replication.
#[derive(Clone, Copy)]
pub enum Kind {
    Ambient,
    Acts(Capability),
    Replication,
}

impl Kind {
    // Whether it is an ambient.
    #[tactic(auto, unfolding(crate::specs::Lines::ambient_kind))]
    pub fn is_ambient(self) -> bool
        ensures { result ≡ ambient_kind self }
    {
        match self {
            Kind::Ambient => true,
            Kind::Acts(_) => false,
            Kind::Replication => false,
        }
    }

    // Whether it is an ambient or a capability.
    #[tactic(auto, unfolding(crate::specs::Lines::nested_kind))]
    pub fn is_nested(self) -> bool
        ensures { result ≡ nested_kind self }
    {
        matches!(self, Kind::Ambient | Kind::Acts(_))
    }
}

// A line of the text form: how far it is indented, and the record's kind, label, name and client. A record that is gone
// or of no kind has none here: none such is read, and a valid itinerary shows none.
#[derive(Clone, Copy)]
pub struct Line {
    pub depth: usize,
    pub kind: Option<Kind>,
    pub label: u8,
    pub name: u8,
    pub client: u16,
}

// The word of a kind, with the space after it.
#[tactic(auto, unfolding(crate::specs::Lines::kind_word, crate::specs::Lines::ambient_word, crate::specs::Lines::in_word, crate::specs::Lines::out_word, crate::specs::Lines::open_word, crate::specs::Lines::replication_word))]
pub fn kind_word(kind: Kind) -> &'static [u8]
    ensures { result.now ≡ kind_word kind }
{
    match kind {
        Kind::Ambient => b"ambient ",
        Kind::Acts(Capability::In) => b"in ",
        Kind::Acts(Capability::Out) => b"out ",
        Kind::Acts(Capability::Open) => b"open ",
        Kind::Replication => b"copier ",
    }
}

// The word in a line, none where the record has no kind.
#[tactic(auto, unfolding(crate::specs::Lines::line_word))]
pub fn line_word(kind: Option<Kind>) -> &'static [u8]
    ensures { result.now ≡ line_word kind }
{
    match kind {
        None => b"",
        Some(kind) => kind_word(kind),
    }
}

// The number of a kind in a record.
#[tactic(auto, unfolding(crate::specs::Lines::kind_byte, model::specs::Scripts::kind_of))]
pub fn kind_byte(kind: Option<Kind>) -> u8
    ensures { result ≡ kind_byte kind }
{
    match kind {
        None => 0,
        Some(Kind::Ambient) => 1,
        Some(Kind::Acts(Capability::In)) => 2,
        Some(Kind::Acts(Capability::Out)) => 3,
        Some(Kind::Acts(Capability::Open)) => 4,
        Some(Kind::Replication) => 5,
    }
}

// The kind of a record.
#[tactic(auto, unfolding(crate::specs::Lines::acting, crate::specs::Lines::kind_at, model::specs::Records::is_ambient, model::specs::Records::is_replication))]
pub fn kind_of_record(r: Rec) -> Option<Kind>
    ensures { result ≡ kind_at r.kind }
{
    if r.is_ambient() {
        return Some(Kind::Ambient);
    }
    if r.is_replication() {
        return Some(Kind::Replication);
    }
    r.capability().map(Kind::Acts)
}

// A decimal number and how many bytes it takes.
#[derive(Clone, Copy)]
pub struct Decimal {
    pub value: u16,
    pub width: usize,
}

// A line that was read, and how many bytes are left after it.
#[derive(Clone, Copy)]
pub struct LineRead {
    pub line: Line,
    pub left: usize,
}

// The cause of a fault. The first ten are in the order in which a line is looked at; the two about a client, the last of them first,
// come after the eighth.
#[derive(Clone, Copy, PartialEq, Eq)]
pub enum Cause {
    // More records than 1,024 or than the itinerary's bytes hold.
    TooMany,
    // The indentation is no multiple of two spaces.
    OddIndent,
    // Indented by more than one step below the line before.
    TooDeep,
    // The first word is none of ambient, in, out, open, copier with a space after it.
    UnknownKind,
    // No number stands where the label should.
    NoLabel,
    // The label is wrong for its kind: 1 to 63 on an ambient, 64 to 127 on a capability, 0 on a replication.
    WrongLabel,
    // No space and number stand after the label.
    NoName,
    // The name is over 63, or not 0 on a replication.
    WrongName,
    // Something stands after the name, or after the client where there is one.
    AfterName,
    // The text ends after the name or the client, with no end of the line.
    NoEnd,
    // The first line is indented.
    FirstIndented,
    // A carriage return stands there.
    CarriageReturn,
    // A tab stands there.
    Tab,
    // A byte order mark stands there.
    ByteOrderMark,
    // A number has a leading zero.
    LeadingZero,
    // A number has more than three digits.
    TooManyDigits,
    // The text is longer than any text of 1,024 records.
    TooLong,
    // The client after the name is 0, for which nothing is written.
    ZeroClient,
    // A space and no number stand after the name.
    NoClient,
}

impl fmt::Display for Cause {
    fn fmt<W: fmt::Write>(&self, f: &mut fmt::Formatter<W>) -> fmt::Result {
        f.write_str(match self {
            Cause::TooMany => "more than 1024 records",
            Cause::OddIndent => "indented by an odd number of spaces",
            Cause::TooDeep => "indented by more than two spaces below the line before",
            Cause::UnknownKind => "no word ambient, in, out, open or copier with a space after it",
            Cause::NoLabel => "no number for a label",
            Cause::WrongLabel =>
                "label wrong for its kind: 1 to 63 on an ambient, 64 to 127 on in, out and open, 0 on a copier",
            Cause::NoName => "no space and number for a name after the label",
            Cause::WrongName => "name over 63, or not 0 on a copier",
            Cause::AfterName => "something after the name or the client",
            Cause::NoEnd => "no end of line after the name or the client",
            Cause::FirstIndented => "the first line is indented",
            Cause::CarriageReturn =>
                "a carriage return (byte 13): a line ends with a line feed alone",
            Cause::Tab => "a tab (byte 9): only spaces indent a line and part its fields",
            Cause::ByteOrderMark => "a byte order mark (bytes 239 187 191)",
            Cause::LeadingZero => "a number with a leading zero",
            Cause::TooManyDigits => "a number with more than three digits",
            Cause::TooLong => "the text is longer than any text of 1024 records",
            Cause::ZeroClient => "client 0, for which nothing is written",
            Cause::NoClient => "no number for a client after the name and a space",
        })
    }
}

// The lowest line at fault, counted from 1, and the cause.
#[derive(Clone, Copy, PartialEq, Eq)]
pub struct Fault {
    pub line: u16,
    pub cause: Cause,
}

impl fmt::Display for Fault {
    fn fmt<W: fmt::Write>(&self, f: &mut fmt::Formatter<W>) -> fmt::Result {
        let Fault { line, cause } = *self;
        write!(f, "line {line}: {cause}")
    }
}

// A record met on a walk, and the depth it stands at.
#[derive(Clone, Copy)]
pub struct Visit {
    pub number: u16,
    pub depth: usize,
}

// Why a text isn't written: there is no room for it, but for so many bytes, or the itinerary is refused.
#[derive(Clone, Copy, PartialEq, Eq)]
pub enum WriteError {
    NoRoom(usize),
    Refused(Refusal),
}

impl From<Refusal> for WriteError {
    ghost from_gives = { λ r e. e ≡ Refused r };

    fn from(r: Refusal) -> WriteError {
        WriteError::Refused(r)
    }
}
