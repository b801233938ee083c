//! The text of an audit line.

ghost use Rattle.std.specs.Prelude.{◌≡◌, ◌+◌, ◌++◌, ◌∷◌, ◌≤◌, length, OnOk};
ghost use Rattle.space.specs.Place.{place_text};
ghost use Rattle.model.specs.Definitions.Text.{audit_line, origin_text, rights_text, status_text, letter};
ghost use Rattle.mapdb.specs.Held.{mapped_of};
ghost use Rattle.audit.specs.Room.{TakesAtMost};

use crate::backward::Backward;
use fpage::Rights;
pub use mapdb::Mapping as Line;
use space::Place;
use std::alloc::AllocError;

/// How many bytes most lines have at most.
pub const LINE: usize = 32;

/// How many bytes a line has at most.
pub const LONGEST: usize = 64;

/// Writes a letter, or a dash for one that is missing.
fn put_letter(text: &mut Backward, is_there: bool, byte: u8)
    requires { length text.old + 1 ≤ 64 }
    ensures text { text.new ≡ letter is_there byte ∷ text.old }
{
    text.byte(if is_there { byte } else { b'-' });
}

/// Writes rights as three letters.
fn put_rights(text: &mut Backward, rights: Rights)
    requires { length text.old + 3 ≤ 64 }
    ensures text { text.new ≡ rights_text rights ++ text.old }
{
    put_letter(text, rights.execute, b'x');
    put_letter(text, rights.write, b'w');
    put_letter(text, rights.read, b'r');
}

/// Writes a status as three capitals.
fn put_status(text: &mut Backward, status: Rights)
    requires { length text.old + 3 ≤ 64 }
    ensures text { text.new ≡ status_text status ++ text.old }
{
    put_letter(text, status.execute, b'X');
    put_letter(text, status.write, b'W');
    put_letter(text, status.read, b'R');
}

/// Writes the place of an origin, or a dash for a root.
fn put_origin(text: &mut Backward, origin: Option<Place>)
    requires { length text.old + 21 ≤ 64 }
    ensures text { text.new ≡ origin_text origin ++ text.old }
    ensures room { length text.new ≤ length text.old + 21 }
{
    match origin {
        None => text.byte(b'-'),
        Some(place) => put_place(text, place),
    }
}

/// Writes a place.
fn put_place(text: &mut Backward, place: Place)
    requires { length text.old + 21 ≤ 64 }
    ensures text { text.new ≡ place_text place ++ text.old }
    ensures room { length text.new ≤ length text.old + 21 }
{
    text.number(place.page);
    text.byte(b':');
    text.number(u32::from(place.space));
}

/// A mapping as it is written, with its line feed.
fn line_text(line: &Line) -> Backward
    ensures text { result ≡ audit_line (mapped_of line.now) }
    ensures room { length result ≤ 64 }
{
    let mut text = Backward::new();
    text.byte(b'\n');
    put_origin(&mut text, line.origin);
    text.byte(b',');
    put_status(&mut text, line.status);
    text.byte(b',');
    put_rights(&mut text, line.rights);
    text.byte(b',');
    text.number(line.frame);
    text.byte(b',');
    text.number(line.place.page);
    text.byte(b',');
    text.number(u32::from(line.place.space));
    text
}

/// Appends a mapping as it is written, with its line feed. A line has at most 64 bytes, and takes no memory where there is
/// room for them.
pub fn push_line(text: &mut Vec<u8>, line: &Line) -> Result<(), AllocError>
    ensures text { OnOk result (text.new.items ≡ text.old.items ++ audit_line (mapped_of line.now)) }
    ensures room { TakesAtMost 64 result text.old text.new }
{
    text.extend_from_slice(line_text(line).text())
}
