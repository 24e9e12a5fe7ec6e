// Reading a line of the text form: indentation, kind, label, name, client and end, or the cause of its fault.
#![tactic(auto)]

ghost use Rattle.std.specs.Prelude.{◌≡◌};
ghost use Rattle.text_form.specs.Reading.{client_read, ended, indent_cause, labelled, line_read, named, served, unworded, worded};

use model::Capability;
use text_form::{Cause, Decimal, Kind, Line, LineRead};

// The end of a line.
#[tactic(auto, unfolding(text_form::specs::Reading::ended, text_form::specs::Reading::demand))]
fn ended(line: Line, s: &[u8]) -> Result<LineRead, Cause>
    ensures { result ≡ ended line s.now }
{
    if s.is_empty() {
        return Err(Cause::NoEnd);
    }
    if s[0] != b'\n' {
        return Err(text_numeral::cause_at(Cause::AfterName, s));
    }
    Ok(LineRead {
        line,
        left: s.len() - 1,
    })
}

// The client after a name, with the space before it. A 0 that is written is a fault, so that each line has one text.
#[tactic(auto, unfolding(text_form::specs::Reading::client_read, text_form::specs::Reading::client_told, text_form::specs::Reading::demand))]
fn client(s: &[u8]) -> Result<Decimal, Cause>
    ensures { result ≡ client_read s.now }
{
    if text_numeral::byte_at(s, 0) != b' ' {
        return Ok(Decimal { value: 0, width: 0 });
    }
    let client = text_numeral::number(Cause::NoClient, &s[1..])?;
    if client.value == 0 {
        return Err(Cause::ZeroClient);
    }
    Ok(Decimal {
        width: client.width + 1,
        ..client
    })
}

// The client and the end of a line.
#[tactic(auto, unfolding(text_form::specs::Reading::served, text_form::specs::Reading::with_number))]
fn served(depth: usize, kind: Kind, label: u8, name: u8, s: &[u8]) -> Result<LineRead, Cause>
    ensures { result ≡ served depth kind label name s.now }
{
    let client = client(s)?;
    let line = Line {
        depth,
        kind: Some(kind),
        label,
        name,
        client: client.value,
    };
    ended(line, &s[client.width..])
}

// The name and what follows it.
#[tactic(auto, unfolding(text_form::specs::Reading::named, text_form::specs::Reading::demand, text_form::specs::Reading::with_number))]
fn named(depth: usize, kind: Kind, label: u8, s: &[u8]) -> Result<LineRead, Cause>
    ensures { result ≡ named depth kind label s.now }
{
    if text_numeral::byte_at(s, 0) != b' ' {
        return Err(text_numeral::cause_at(Cause::NoName, s));
    }
    let rest = &s[1..];
    let name = text_numeral::number(Cause::NoName, rest)?;
    if !record_checks::name_by(kind.is_nested(), name.value) {
        return Err(Cause::WrongName);
    }
    served(depth, kind, label, name.value as u8, &rest[name.width..])
}

// The label and what follows it.
#[tactic(auto, unfolding(text_form::specs::Reading::labelled, text_form::specs::Reading::demand, text_form::specs::Reading::with_number))]
fn labelled(depth: usize, kind: Kind, s: &[u8]) -> Result<LineRead, Cause>
    ensures { result ≡ labelled depth kind s.now }
{
    let label = text_numeral::number(Cause::NoLabel, s)?;
    if !record_checks::label_by(kind.is_nested(), kind.is_ambient(), label.value) {
        return Err(Cause::WrongLabel);
    }
    named(depth, kind, label.value as u8, &s[label.width..])
}

// No kind's word: the cause by where the visible bytes end.
#[tactic(auto, unfolding(text_form::specs::Reading::unworded))]
fn unworded(s: &[u8]) -> Result<LineRead, Cause>
    ensures { result ≡ unworded s.now }
{
    let n = text_numeral::shown(s);
    Err(text_numeral::cause_at(Cause::UnknownKind, &s[n..]))
}

// The kind and what follows it.
fn worded(depth: usize, s: &[u8]) -> Result<LineRead, Cause>
    ensures { result ≡ worded depth s.now }
{
    let kinds = [
        Kind::Ambient,
        Kind::Acts(Capability::In),
        Kind::Acts(Capability::Out),
        Kind::Acts(Capability::Open),
        Kind::Replication,
    ];
    for kind in kinds {
        if let Some(rest) = s.strip_prefix(text_form::kind_word(kind)) {
            return labelled(depth, kind, rest);
        }
    }
    unworded(s)
}

// The cause of a wrong indentation before s.
#[tactic(auto, unfolding(text_form::specs::Reading::indent_cause))]
fn indent_cause(given: Cause, deepest: usize, s: &[u8]) -> Cause
    ensures { result ≡ indent_cause given deepest s.now }
{
    if deepest == 0 {
        return text_numeral::cause_at(Cause::FirstIndented, s);
    }
    text_numeral::cause_at(given, s)
}

// The line that the bytes start with.
#[tactic(auto, unfolding(text_form::specs::Reading::line_read, text_form::specs::Reading::demand))]
pub fn read_line(s: &[u8], deepest: usize) -> Result<LineRead, Cause>
    ensures { result ≡ line_read deepest s.now }
{
    let n = text_numeral::spaces(s);
    let rest = &s[n..];
    if n % 2 != 0 {
        return Err(indent_cause(Cause::OddIndent, deepest, rest));
    }
    let depth = n / 2;
    if deepest < depth {
        return Err(indent_cause(Cause::TooDeep, deepest, rest));
    }
    worded(depth, rest)
}
