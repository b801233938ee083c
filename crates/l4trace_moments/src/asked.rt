//! Whether a trace has what is asked for.

use crate::error::ShowError;
use l4trace_drawings::{Moment, View};
use mapdb::Limits;
use space::Place;

/// Checks that there is a record, where one is named, among so many.
pub fn check_record(records: u64, at: Option<u64>) -> Result<(), ShowError> {
    match at {
        Some(number) if number > records => Err(ShowError::NoRecord { number, records }),
        _ => Ok(()),
    }
}

/// Checks that there are the record, the frame and the space that a view names.
pub fn check_view(moment: &Moment, view: &View) -> Result<(), ShowError> {
    check_record(moment.records, view.at)?;
    check_frame(&moment.limits, view.frame)?;
    check_space(&moment.limits, view.space)
}

/// Checks that there is a page.
pub fn check_page(limits: &Limits, place: Place) -> Result<(), ShowError> {
    check_space(limits, Some(u32::from(place.space)))?;
    let pages = 1u32 << (limits.bits.clamp(18, 32) - 12);
    let number = place.page;
    if number >= pages {
        return Err(ShowError::NoPage { number, pages });
    }
    Ok(())
}

/// Checks that there is a space, where one is named.
fn check_space(limits: &Limits, space: Option<u32>) -> Result<(), ShowError> {
    let spaces = limits.spaces;
    match space {
        Some(number) if number >= spaces => Err(ShowError::NoSpace { number, spaces }),
        _ => Ok(()),
    }
}

/// Checks that there is a frame, where one is named.
fn check_frame(limits: &Limits, frame: Option<u32>) -> Result<(), ShowError> {
    let frames = limits.frames;
    match frame {
        Some(number) if number >= frames => Err(ShowError::NoFrame { number, frames }),
        _ => Ok(()),
    }
}
