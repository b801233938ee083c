//! The mapping database for programs in C: `include/l4map.h` says what each function does.
#![tactic(auto)]

mod exports;

pub use exports::{
    l4map_access, l4map_below, l4map_changes, l4map_clear, l4map_entry, l4map_free, l4map_mappings,
    l4map_new, l4map_note_changes, l4map_origin, l4map_send, l4map_space_mappings, l4map_unmap,
    l4map_version,
};
