//! Words, pairs and reply words that were worked out by hand.

use crate::assertions::assert_equal;
use fpage::{
    Access, Control, Fpage, FpageError, Item, ItemKind, Pairing, Rights, pair, with_status,
};
use std::test::Fail;

/// The bits of a space of 64 pages.
const SPACE_BITS: u32 = 18;

const READ_ONLY: Rights = Rights {
    read: true,
    write: false,
    execute: false,
};

const READ_WRITE: Rights = Rights {
    read: true,
    write: true,
    execute: false,
};

const READ_EXECUTE: Rights = Rights {
    read: true,
    write: false,
    execute: true,
};

#[test]
fn combines_rights_as_sets(rt: HostRuntime) {
    let all = Rights::all();
    let none = Rights::none();
    for (found, expected, name) in [
        (READ_WRITE.meet(READ_EXECUTE), READ_ONLY, "meet"),
        (READ_WRITE.join(READ_EXECUTE), all, "join"),
        (READ_WRITE.without(READ_WRITE), none, "without all"),
        (Rights::of_bits(0xfd), READ_EXECUTE, "of bits"),
    ] {
        assert_equal(&rt, found, expected, name);
    }
    assert_equal(&rt, all.without(READ_ONLY).number(), 3, "number");
    for (found, expected, name) in [
        (none.is_empty(), true, "none"),
        (READ_ONLY.is_empty(), false, "one"),
        (READ_EXECUTE.holds(Access::Read), true, "read"),
        (READ_EXECUTE.holds(Access::Write), false, "write"),
        (READ_EXECUTE.holds(Access::Execute), true, "execute"),
    ] {
        assert_equal(&rt, found, expected, name);
    }
}

#[test]
fn reads_the_pages_and_rights_of_a_word(rt: HostRuntime) -> Result<(), Fail> {
    // Bit 3 is ignored, and so are the rights of a nilpage.
    let cases = [
        (0x50c6, 5, 6, READ_WRITE),
        (0x50ce, 5, 6, READ_WRITE),
        (0x40e7, 4, 8, Rights::all()),
        (0xd7, 0, 2, Rights::all()),
        (0x117, 0, 32, Rights::all()),
        (0x3f0c4, 63, 64, READ_ONLY),
        (0x10, 0, 64, Rights::none()),
        (0x17, 0, 64, Rights::all()),
        (0, 0, 0, Rights::none()),
        (0xf, 0, 0, Rights::all()),
    ];
    for (word, start, end, rights) in cases {
        let fpage = Fpage::read(word, SPACE_BITS)?;
        let pages = fpage.pages();
        assert_equal(&rt, (pages.start, pages.end), (start, end), word);
        assert_equal(&rt, fpage.rights(), rights, word);
        assert_equal(&rt, fpage.is_nil(), start == end, word);
    }
    let pages = Fpage::read(0x17, 24)?.pages();
    assert_equal(&rt, (pages.start, pages.end), (0, 4096), "all pages");
    Ok(())
}

#[test]
fn refuses_a_word_for_its_first_fault(rt: HostRuntime) {
    let cases = [
        (0xa7, FpageError::BadSize),
        (0x20, FpageError::BadSize),
        (0x4b0, FpageError::BadSize),
        (0x400, FpageError::BadSize),
        (0x410, FpageError::BadSize),
        (0x10d7, FpageError::Misaligned),
        (0x50c, FpageError::Misaligned),
        (0x410d7, FpageError::Misaligned),
        (0x400c7, FpageError::OutOfSpace),
        (0x137, FpageError::OutOfSpace),
        (0x3f7, FpageError::OutOfSpace),
    ];
    for (word, error) in cases {
        assert_equal(&rt, Fpage::read(word, SPACE_BITS), Err(error), word);
    }
}

#[test]
fn reads_the_kind_and_the_send_base_of_an_item(rt: HostRuntime) -> Result<(), Fail> {
    // Bit 0 and bits 4 to 9 of the first word are ignored.
    let cases = [
        (0x9008, ItemKind::Map, 9),
        (0xa, ItemKind::Grant, 0),
        (0x9009, ItemKind::Map, 9),
        (0x93f8, ItemKind::Map, 9),
        (0x9ffb, ItemKind::Grant, 9),
    ];
    for (first, kind, base) in cases {
        let item = Item::read(first, 0x40e7, SPACE_BITS)?;
        let pages = item.sent.pages();
        assert_equal(&rt, item.kind, kind, first);
        assert_equal(
            &rt,
            (item.base, pages.start, pages.end),
            (base, 4, 8),
            first,
        );
    }
    Ok(())
}

#[test]
fn refuses_the_first_word_of_an_item_before_the_second(rt: HostRuntime) {
    let cases = [
        (0x6, 0xc7, FpageError::NotAnItem),
        (0xc, 0xc7, FpageError::NotAnItem),
        (0x0, 0xa7, FpageError::NotAnItem),
        (0x8, 0xa7, FpageError::BadSize),
        (0x8, 0x10d7, FpageError::Misaligned),
        (0xa, 0x400c7, FpageError::OutOfSpace),
    ];
    for (first, second, error) in cases {
        assert_equal(
            &rt,
            Item::read(first, second, SPACE_BITS),
            Err(error),
            second,
        );
    }
}

#[test]
fn pairs_what_the_send_base_picks_of_the_larger_fpage(rt: HostRuntime) -> Result<(), Fail> {
    // The window, the two words of the item, and the first source page, the first target page and the number of pairs.
    let cases = [
        // Of one size: the send base plays no part.
        (0x80c0, 0x9008, 0x50c7, 5, 8, 1),
        (0x10, 0x9008, 0x17, 0, 0, 64),
        // Into a larger window.
        (0x10, 0x9008, 0x50c7, 5, 9, 1),
        (0x10, 0x8, 0x117, 0, 0, 32),
        (0x10, 0x9008, 0xd7, 0, 8, 2),
        (0x40e0, 0xb008, 0xd7, 0, 6, 2),
        (0x10, 0x64008, 0x50c7, 5, 36, 1),
        // Cut to a smaller window.
        (0x80c0, 0x2008, 0x40e7, 6, 8, 1),
        (0x80c0, 0x900a, 0x17, 9, 8, 1),
        (0x80d0, 0x7008, 0x40e7, 6, 8, 2),
        (0x80d0, 0x64008, 0x17, 36, 8, 2),
    ];
    for (window_word, first, second, source, target, count) in cases {
        let item = Item::read(first, second, SPACE_BITS)?;
        let window = Fpage::read(window_word, SPACE_BITS)?;
        assert!(rt; !window.is_nil());
        let pairing = Pairing {
            source,
            target,
            count,
        };
        assert_equal(&rt, pair(&item, &window), pairing, second);
    }
    Ok(())
}

#[test]
fn pairs_no_page_of_a_nilpage(rt: HostRuntime) -> Result<(), Fail> {
    for (window_word, second) in [(0x10, 0x0), (0x80c0, 0x7)] {
        let item = Item::read(0x9008, second, SPACE_BITS)?;
        let window = Fpage::read(window_word, SPACE_BITS)?;
        assert!(rt; !window.is_nil());
        assert_equal(&rt, pair(&item, &window).count, 0, second);
    }
    Ok(())
}

#[test]
fn reads_a_control_word_of_up_to_64_words(rt: HostRuntime) -> Result<(), Fail> {
    let cases = [
        (0x0, false, 1),
        (0x40, true, 1),
        (0x1, false, 2),
        (0x3f, false, 64),
        (0x7f, true, 64),
    ];
    for (word, flush, words) in cases {
        let control = Control::read(word, words)?;
        assert_equal(
            &rt,
            (control.is_flush(), control.words()),
            (flush, words),
            word,
        );
    }
    Ok(())
}

#[test]
fn refuses_a_control_word_above_its_fields_or_of_another_count(rt: HostRuntime) {
    let cases = [
        (0x80, 1),
        (0x80000040, 1),
        (0x0, 0),
        (0x0, 2),
        (0x1, 1),
        (0x3f, 63),
        (0x3f, 65),
        (0x40, 65),
    ];
    for (word, words) in cases {
        let refused = Err(FpageError::BadControl);
        assert_equal(&rt, Control::read(word, words), refused, word);
    }
}

#[test]
fn replaces_only_the_rights_of_a_word_by_the_status(rt: HostRuntime) {
    let cases = [
        (0x50c2, Rights::none(), 0x50c0),
        (0x10, READ_WRITE, 0x16),
        (0x50c0, READ_EXECUTE, 0x50c5),
        (0xc2, READ_WRITE, 0xc6),
        (0xf, Rights::none(), 0x8),
        (0xffffffff, READ_ONLY, 0xfffffffc),
    ];
    for (word, status, reply) in cases {
        assert_equal(&rt, with_status(word, status), reply, word);
    }
}

#[test]
fn tells_each_refusal_by_its_name(rt: HostRuntime) -> Result<(), Fail> {
    let cases = [
        (FpageError::BadSize, "BadSize"),
        (FpageError::Misaligned, "Misaligned"),
        (FpageError::OutOfSpace, "OutOfSpace"),
        (FpageError::NotAnItem, "NotAnItem"),
        (FpageError::BadControl, "BadControl"),
    ];
    for (error, name) in cases {
        let text = format!(in rt.alloc(); "{error}")?;
        assert_equal(&rt, text.as_str(), name, "a refusal");
    }
    Ok(())
}
