//! What a C program holds of a database.

ghost use Rattle.std.specs.Prelude.{◌≡◌, Option, Some, None, option_map};
ghost use Rattle.c_handle.specs.Held.{boxed_value};
ghost use Rattle.c_handle.specs.declared.kept.Kept.{Kept};

use crate::kept::Kept;
use crate::raw_box::RawBox;
use std::alloc::Global;
use std::marker::Model;
use std::ptr::null_mut;

/// A database, or nothing. To C it is one pointer, which is null where there is nothing.
#[repr(C)]
pub struct Handle {
    at: *mut u8,
    pub ghost kept: { Option Kept },
}

impl Model for Handle {
    ghost use Rattle.c_handle.specs.Owned.{owned_at};
    ghost use Rattle.c_handle.specs.contracts.kept.Kept.{the_row};

    ghost also_owns = { λ h. owned_at the_row h.at h.kept };
}

impl Handle {
    /// A handle that holds nothing.
    pub fn empty() -> Self
        ensures { result.kept ≡ None }
    {
        Handle { at: null_mut() }
    }

    /// A handle that holds a database, which comes as its pointer.
    pub fn holding(whole: RawBox<Kept, Global>) -> Self
        ensures { result.kept ≡ Some whole.value }
    {
        let RawBox { at, alloc: _ } = whole;
        Handle { at: at as *mut u8 }
    }

    /// The database as its pointer, if the handle holds one.
    pub fn into_raw_box(self, alloc: Global) -> Option<RawBox<Kept, Global>>
        ensures { option_map boxed_value result ≡ self.kept }
    {
        let Handle { at } = self;
        if at.is_null() {
            None
        } else {
            Some(RawBox {
                at: at as *mut Kept,
                alloc,
            })
        }
    }
}
