// The types that the contracts name. What they mean is in specs/.
#![tactic(auto, unfolding(crate::specs::Numbers::number_of, crate::specs::Numbers::unplaced, crate::specs::Records::is_ambient, crate::specs::Records::nested, crate::specs::Records::is_replication, crate::specs::Records::capability))]

ghost use Rattle.std.specs.Prelude.{◌≡◌, eqb};
ghost use Rattle.model.specs.Numbers.{number_of, unplaced};
ghost use Rattle.model.specs.Records.{capability, is_ambient, is_replication, nested};

use std::fmt;

// A record of an itinerary: an ambient, a capability, a replication, or gone. It is what the bytes say, before any check: a kind is the byte
// itself, and any byte may stand there.
#[derive(Clone, Copy, PartialEq, Eq)]
pub struct Rec {
    pub kind: u8,
    pub label: u8,
    pub name: u8,
    pub parent: u16,
    pub client: u16,
}

impl Rec {
    // Whether it is gone.
    pub fn is_gone(self) -> bool
        ensures { result ≡ eqb self.kind 0 }
    {
        self.kind == 0
    }

    // Whether it is an ambient.
    pub fn is_ambient(self) -> bool
        ensures { result ≡ is_ambient self }
    {
        self.kind == 1
    }

    // Whether it is an ambient or a capability.
    pub fn is_nested(self) -> bool
        ensures { result ≡ nested self }
    {
        (1 <= self.kind) & (self.kind <= 4)
    }

    // Whether it is a replication.
    pub fn is_replication(self) -> bool
        ensures { result ≡ is_replication self }
    {
        self.kind == 5
    }

    // Which capability it is, if one.
    pub fn capability(self) -> Option<Capability>
        ensures { result ≡ capability self.kind }
    {
        match self.kind {
            2 => Some(Capability::In),
            3 => Some(Capability::Out),
            4 => Some(Capability::Open),
            _ => None,
        }
    }
}

// What a capability does.
#[derive(Clone, Copy, PartialEq, Eq)]
pub enum Capability {
    In,
    Out,
    Open,
}

// How many in, out and open steps a script run did.
#[derive(Clone, Copy, PartialEq, Eq)]
pub struct Counts {
    pub ins: u16,
    pub outs: u16,
    pub opens: u16,
}

// The screen's finding about an itinerary, a policy and a table, with the lowest label that shows it.
#[derive(Clone, Copy, PartialEq, Eq)]
pub enum Verdict {
    Exposed(u8),
    Hinted(u8),
    Sealed,
}

// The cause of a refusal, by its number.
#[derive(Clone, Copy, PartialEq, Eq)]
pub enum Cause {
    Length = 1,
    Form = 2,
    Label = 3,
    Name = 4,
    Parent = 5,
    Climb = 6,
    Policy = 7,
    Table = 8,
    Holds = 9,
    Actor = 10,
    Active = 11,
    Partner = 12,
    Script = 13,
    Sheet = 14,
    List = 15,
    Set = 16,
    Replication = 17,
    Room = 18,
}

impl Cause {
    // The number that the formats and callers in other languages have for it.
    pub fn number(self) -> u8
        ensures { result ≡ number_of self }
    {
        self as u8
    }
}

impl fmt::Display for Cause {
    fn fmt<W: fmt::Write>(&self, f: &mut fmt::Formatter<W>) -> fmt::Result {
        f.write_str(match self {
            Cause::Length => "itinerary length no multiple of 8, or over 8,192",
            Cause::Form =>
                "kind over 5, byte 3 not 0, a client over 999, or a gone record not all 0",
            Cause::Label => "label wrong for its kind",
            Cause::Name => "name over 63, or not 0 on a copier",
            Cause::Parent => "parent over the record count, or a record of kind 0",
            Cause::Climb => "climbing doesn't reach 0",
            Cause::Policy => "policy not 64 bytes, a byte over 2, or byte 0 not 0",
            Cause::Table => "table not 1,544 bytes, bit 0 of a row of I set, or row 0 of H not 0",
            Cause::Holds => "table doesn't hold",
            Cause::Actor => "actor 0, over the count, or no capability",
            Cause::Active => "actor inactive, or in/out without an ambient as parent",
            Cause::Partner => "partner unfit for any cause",
            Cause::Script =>
                "script length no multiple of 4, over 4,096, or answers not one byte a step",
            Cause::Sheet => "sheet not of the itinerary's length",
            Cause::List => "list buffer shorter than the list",
            Cause::Set => "over 1,024 records together, or a buffer not of the joined length",
            Cause::Replication => "number 0, over the count, or no active copier",
            Cause::Room => "fewer gone records than records beneath the copier",
        })
    }
}

// A refusal: its cause, and the record it was found at, 0 where it is none's. (No Option: the formats and the C interface have 0.)
#[derive(Clone, Copy, PartialEq, Eq)]
pub struct Refusal {
    pub cause: Cause,
    pub record: u16,
}

impl From<Cause> for Refusal {
    ghost from_gives = { λ c r. r ≡ unplaced c };

    // A cause that is no record's.
    fn from(cause: Cause) -> Refusal {
        Refusal { cause, record: 0 }
    }
}

// What a climb finds above a record: the label of the nearest ambient and the number of the nearest boundary ambient, 0 for
// none. (No Options, as the formats and the C interface have it.)
#[derive(Clone, Copy, PartialEq, Eq)]
pub struct Above {
    pub label: u8,
    pub boundary: u16,
}

// How many pairs of actor and partner would be answered by 0, 10, 11 and 12.
#[derive(Clone, Copy, PartialEq, Eq)]
pub struct Tally {
    pub done: u32,
    pub no_capability: u32,
    pub inactive: u32,
    pub unfit: u32,
}

// What hubscreen shows of an itinerary: the verdict, the table's bits set, the steps done and the records not gone.
#[derive(Clone, Copy, PartialEq, Eq)]
pub struct Screen {
    pub verdict: Verdict,
    pub ones: u16,
    pub counts: Counts,
    pub records: u16,
}
