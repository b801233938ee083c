//! A check of audit lines.

ghost use Rattle.std.specs.Prelude.{◌≡◌, map, true, length, option_map};
ghost use Rattle.model.specs.Definitions.Lawful.{is_lawful, is_lawful_at, has_lawful_origin, ends, is_only_root};
ghost use Rattle.mapdb.specs.Held.{mapped_of};
ghost use Rattle.std.specs.FinMap.Entries.{is_sorted};
ghost use Rattle.space.specs.Place.{place_cmp};
ghost use Rattle.std.specs.List.{list_all};
ghost use Rattle.model.specs.Definitions.Holdings.{origin_at, at};

use crate::line::Line;
use space::Place;

/// Returns whether lines rise by place and are lawful: each origin has a line, with the same frame and at least the rights; each
/// chain of origins ends; a frame has at most one mapping without origin; no rights are empty.
///
/// It allocates nothing. Its time grows with the lines times the longest chain, and with the lines times the roots.
pub fn check(lines: &[Line]) -> bool
    ensures { result ≡ is_lawful (map mapped_of lines.now) }
{
    is_rising(lines) && are_lawful(lines)
}

/// Whether each place comes once, and they rise.
fn is_rising(lines: &[Line]) -> bool
    ensures { result ≡ is_sorted place_cmp (map mapped_of lines.now) }
{
    for i in 1..lines.len() {
        if lines[i - 1].place.cmp(&lines[i].place).is_ge() {
            return false;
        }
    }
    true
}

/// Whether each of these lines is lawful.
fn are_lawful(lines: &[Line]) -> bool
    requires { is_sorted place_cmp (map mapped_of lines.now) ≡ true }
    ensures { result ≡ list_all (is_lawful_at (map mapped_of lines.now)) (map mapped_of lines.now) }
{
    for line in lines {
        if !is_lawful_line(lines, line) {
            return false;
        }
    }
    true
}

/// Whether a line is lawful among these.
fn is_lawful_line(lines: &[Line], line: &Line) -> bool
    requires { is_sorted place_cmp (map mapped_of lines.now) ≡ true }
    ensures { result ≡ is_lawful_at (map mapped_of lines.now) (mapped_of line.now) }
{
    !line.rights.is_empty()
        && has_lawful_origin(lines, line)
        && ends(lines, line.origin)
        && is_only_root(lines, line)
}

/// Whether the origin of a line, where it has one, has a line with the same frame and at least the rights.
fn has_lawful_origin(lines: &[Line], line: &Line) -> bool
    requires { is_sorted place_cmp (map mapped_of lines.now) ≡ true }
    ensures { result ≡ has_lawful_origin (map mapped_of lines.now) (mapped_of line.now).1 line.now.origin }
{
    let Some(place) = line.origin else {
        return true;
    };
    let Some(origin) = line_at(lines, place) else {
        return false;
    };
    origin.frame == line.frame && line.rights.without(origin.rights).is_empty()
}

/// Whether a chain of origins ends.
fn ends(lines: &[Line], origin: Option<Place>) -> bool
    requires { is_sorted place_cmp (map mapped_of lines.now) ≡ true }
    ensures { result ≡ ends (length (map mapped_of lines.now)) (map mapped_of lines.now) origin }
{
    let mut origin = origin;
    for _ in 0..lines.len() {
        let Some(place) = origin else {
            return true;
        };
        origin = origin_at(lines, place);
    }
    origin.is_none()
}

/// The origin that the line of a place has.
fn origin_at(lines: &[Line], place: Place) -> Option<Place>
    requires { is_sorted place_cmp (map mapped_of lines.now) ≡ true }
    ensures { result ≡ origin_at (map mapped_of lines.now) place }
{
    let line = line_at(lines, place)?;
    line.origin
}

/// Whether no other line without origin has the frame of this line, if it has no origin.
fn is_only_root(lines: &[Line], line: &Line) -> bool
    ensures { result ≡ is_only_root (map mapped_of lines.now) (mapped_of line.now) }
{
    if line.origin.is_some() {
        return true;
    }
    for other in lines {
        if other.origin.is_none() && other.frame == line.frame && other.place != line.place {
            return false;
        }
    }
    true
}

/// The line of a place.
fn line_at(lines: &[Line], place: Place) -> Option<Line>
    requires { is_sorted place_cmp (map mapped_of lines.now) ≡ true }
    ensures { option_map (λ line. (mapped_of line).1) result ≡ at (map mapped_of lines.now) place }
{
    let Ok(i) = lines.binary_search_by_key(&place, |line| line.place) else {
        return None;
    };
    Some(lines[i])
}
