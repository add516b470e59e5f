//! The line of JSON about a file.

ghost use Rattle.std.specs.Prelude.{◌≡◌, ◌++◌, codes};
ghost use Rattle.hunk_base.specs.Text.{Puts};
ghost use Rattle.hunk_survey.specs.FindingJson.{digest_member, finding_json, finding_members, number_in, number_json, refused_members, truth};

use crate::digest::Digest;
use crate::finding::{Finding, begins_hunk_file};
use crate::finding_line::put_digest;
use hunk_json::write_name_json;
use hunk_tool::write_reason;
use hunk_words::{Fault, Reason, Sink, Text};

/// Writes the line about the file named `name` as a JSON object without spaces between its parts. Its
/// member `file` is the name, as a string if it is UTF-8 and otherwise as an array of bytes, and `kind`
/// is what the file is. It does not allocate.
pub fn write_finding_json<W: Sink>(text: &mut Text<'_, W>, name: &[u8], finding: Finding)
    ensures { Puts W.taken W.failed text.old text.new (finding_json name.now finding) }
{
    text.put(b"{\"file\":");
    write_name_json(text, name);
    write_members(text, finding);
    text.put(b"}");
    text.end_line();
}

/// Writes the members of the object behind the name.
fn write_members<W: Sink>(text: &mut Text<'_, W>, finding: Finding)
    ensures { Puts W.taken W.failed text.old text.new (finding_members finding) }
{
    match finding {
        Finding::Object { units, hunks } => write_object(text, units, hunks),
        Finding::Load { hunks, digest } => write_load(text, hunks, digest),
        Finding::Refused(fault) => write_refused(text, fault),
        Finding::Unread | Finding::Unopened | Finding::Directory | Finding::NotRegular => {
            text.put(b",\"kind\":\"unreadable\"");
        }
    }
}

/// Writes the members about an object file.
fn write_object<W: Sink>(text: &mut Text<'_, W>, units: u64, hunks: u64)
    ensures { Puts W.taken W.failed text.old text.new
        (finding_members (Finding.Object units hunks)) }
{
    text.put(b",\"kind\":\"object file\",\"units\":");
    text.put_decimal(units);
    text.put(b",\"hunks\":");
    text.put_decimal(hunks);
}

/// Writes the members about a load file.
fn write_load<W: Sink>(text: &mut Text<'_, W>, hunks: u64, digest: Option<Digest>)
    ensures { Puts W.taken W.failed text.old text.new
        (finding_members (Finding.Load hunks digest)) }
{
    text.put(b",\"kind\":\"load file\",\"hunks\":");
    text.put_decimal(hunks);
    write_digest(text, digest);
}

/// Writes the member with a digest, if there is one.
fn write_digest<W: Sink>(text: &mut Text<'_, W>, digest: Option<Digest>)
    ensures { Puts W.taken W.failed text.old text.new (digest_member digest) }
{
    if let Some(digest) = digest {
        text.put(b",\"sha256\":\"");
        put_digest(text, &digest);
        text.put(b"\"");
    }
}

/// Writes the members about a file that is refused.
fn write_refused<W: Sink>(text: &mut Text<'_, W>, fault: Fault)
    ensures { Puts W.taken W.failed text.old text.new (refused_members fault) }
{
    text.put(b",\"kind\":\"refused\",\"place\":");
    text.put_decimal(fault.place);
    text.put(b",\"reason\":\"");
    write_reason(text, fault.reason);
    text.put(b"\",\"number\":");
    write_number(text, number_in(fault.reason));
    text.put(b",\"hunk file\":");
    text.put(truth(begins_hunk_file(fault)));
}

/// Writes a number, or `null`.
fn write_number<W: Sink>(text: &mut Text<'_, W>, number: Option<u32>)
    ensures { Puts W.taken W.failed text.old text.new (number_json number) }
{
    match number {
        Some(number) => text.put_decimal(u64::from(number)),
        None => text.put(b"null"),
    }
}

/// The number that a reason tells: a type, a kind, a hunk or the offset of a site in bytes.
fn number_in(reason: Reason) -> Option<u32>
    ensures { result ≡ number_in reason }
{
    match reason {
        Reason::UnknownType(number)
        | Reason::MisplacedType(number)
        | Reason::UnsupportedBlock(number)
        | Reason::NoSuchHunk(number)
        | Reason::SiteOutside(number)
        | Reason::SiteOverlap(number) => Some(number),
        Reason::UnsupportedExt(number) | Reason::SymbolKind(number) => Some(u32::from(number)),
        Reason::PartialLongword
        | Reason::UnexpectedEnd
        | Reason::WrongStart
        | Reason::BothMemoryBits
        | Reason::ResidentNames
        | Reason::HunkTable
        | Reason::TooLarge
        | Reason::ContentTooLong
        | Reason::TrailingData => None,
    }
}

/// The word for a truth.
fn truth(holds: bool) -> &'static [u8]
    ensures { result.now ≡ truth holds }
{
    if holds { b"true" } else { b"false" }
}
