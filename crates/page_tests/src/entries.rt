//! The entry words of the profile's table, and shards at the least and at the largest limits.

ghost use Rattle.std.specs.Prelude.{◌<◌, IfOk, IsFalse};
ghost use Rattle.space.specs.Directory.{AreLimits, pages_of};
ghost use Rattle.space.specs.Shards.{IsPlace, is_taken};

use crate::assertions::assert_equal;
use fpage::Rights;
use space::{Entry, NoMemory, Place, Shards, pack, unpack};
use std::alloc::Global;
use std::ops::Range;
use std::process::Abort;
use std::test::Fail;

#[test]
fn packs_and_unpacks_each_word_of_the_table(rt: HostRuntime) {
    // The frame, the numbers of the rights and of the status, and the word.
    let rows: [(u16, u32, u32, u64); 4] = [
        (5, 6, 0, 0x0000_0001_0000_0506),
        (5, 6, 6, 0x0000_0001_0000_0536),
        (4095, 7, 7, 0x0000_0001_000f_ff3f),
        (0, 4, 0, 0x0000_0001_0000_0004),
    ];
    for (frame, rights, status, word) in rows {
        let entry = Some(Entry {
            frame: u32::from(frame),
            rights: Rights::of_bits(rights),
            status: Rights::of_bits(status),
        });
        let packed = pack(entry);
        assert_equal(&rt, packed, word, "packed");
        assert_equal(&rt, unpack(packed), entry, word);
    }
    let absent = pack(None);
    assert_equal(&rt, absent, 0, "absent");
    assert_equal(&rt, unpack(absent), None, "absent");
}

/// Makes the shard of one place, sets the place, and lets its word change while the words are away; another place of
/// another shard stays absent.
fn goes_round(
    rt: &(impl AllocGlobal + Abort),
    spaces: u32,
    bits: u32,
    place: Place,
    other: Place,
) -> Result<(), Fail>
    requires limits { AreLimits spaces bits }
    requires place_space { place.space < spaces }
    requires place_page { place.page < pages_of bits }
    requires other_space { other.space < spaces }
    requires other_page { other.page < pages_of bits }
{
    let all = Rights::all();
    let unseen = Entry {
        frame: 5,
        rights: all,
        status: Rights::none(),
    };
    let mut shards = Shards::new(rt.alloc(), spaces, bits)?;
    let told = (shards.get(place), shards.has(place), shards.words());
    assert_equal(rt, told, (None, false, 0), "at first");
    shards.set(place, None);
    assert_equal(rt, shards.has(place), false, "nothing is taken away");
    shards.make_one(place)?;
    let told = (shards.get(place), shards.has(place), shards.words());
    assert_equal(rt, told, (None, true, 64), "made");
    shards.set(place, Some(unseen));
    let told = (shards.get(place), shards.get(other));
    assert_equal(rt, told, (Some(unseen), None), "one is held");
    assert_equal(rt, shards.has(other), false, "the other's shard");

    let index = shards.index(place);
    let mut words = shards.take_words();
    assert_equal(rt, words.len(), 64, "words");
    assert_equal(rt, words[index], 0x1_0000_0507, "its word");
    words[index] = 0x1_0000_053f;
    shards.put_words(words);

    let seen = Entry {
        status: all,
        ..unseen
    };
    let told = (shards.get(place), shards.get(other));
    assert_equal(rt, told, (Some(seen), None), "one is seen");
    shards.set(place, None);
    assert_equal(rt, shards.get(place), None, "at last");
    Ok(())
}

#[test]
fn keeps_entries_at_the_least_limits(rt: HostRuntime) -> Result<(), Fail> {
    let first = Place { space: 0, page: 0 };
    let last = Place { space: 1, page: 63 };
    goes_round(&rt, 2, 18, first, last)?;
    goes_round(&rt, 2, 18, last, first)
}

#[test]
fn keeps_entries_at_the_largest_limits(rt: HostRuntime) -> Result<(), Fail> {
    let first = Place { space: 0, page: 64 };
    let last = Place {
        space: 511,
        page: 1_048_575,
    };
    goes_round(&rt, 512, 32, last, first)?;
    goes_round(&rt, 512, 32, first, last)
}

/// How many bits the spaces of the tests of several shards have.
const BITS: u32 = 32;

#[test]
fn shards_stand_in_the_order_in_which_they_were_made(rt: HostRuntime) -> Result<(), Fail> {
    let last = Place {
        space: 511,
        page: 1_048_575,
    };
    let first = Place { space: 0, page: 64 };
    let mut shards = Shards::new(rt.alloc(), 512, BITS)?;
    shards.make(&[last, first, last])?;
    // The last page of the first shard, in a space whose words are turned by 511 lines of eight: 7 beyond whole shards.
    assert_equal(&rt, shards.words(), 128, "words");
    expect_index(&rt, &shards, last, Some(55));
    expect_index(&rt, &shards, first, Some(64));
    expect_index(&rt, &shards, Place { space: 0, page: 63 }, None);
    // Nothing moves when more are made.
    shards.make(&[Place { space: 0, page: 0 }, first])?;
    assert_equal(&rt, shards.words(), 192, "words");
    expect_index(&rt, &shards, last, Some(55));
    expect_index(&rt, &shards, first, Some(64));
    expect_index(&rt, &shards, Place { space: 0, page: 63 }, Some(191));
    Ok(())
}

/// Looks at the index of a place, if its shard is there.
fn expect_index(rt: &impl Abort, shards: &Shards, place: Place, index: Option<usize>)
    requires { IsPlace shards.now place }
{
    let found = if shards.has(place) {
        Some(shards.index(place))
    } else {
        None
    };
    assert_equal(rt, found, index, "index");
}

#[test]
fn the_next_shard_is_found_from_any_page(rt: HostRuntime) -> Result<(), Fail> {
    // Pages, ends, and the first page from there on, before the end, whose shard is there; the end where none is.
    let rows = [
        (0, 1_048_576, 70_016),
        (70_015, 1_048_576, 70_016),
        (70_016, 1_048_576, 70_016),
        (70_079, 1_048_576, 70_079),
        (70_080, 1_048_576, 1_048_512),
        (1_048_575, 1_048_576, 1_048_575),
        (0, 70_016, 70_016),
        (0, 70_020, 70_016),
        (5, 69_999, 69_999),
        (70_017, 70_018, 70_017),
    ];
    let shards = two_shards_of_space_1(rt.alloc())?;
    for (page, end, found) in rows {
        assert_equal(&rt, next_from(&shards, 1, page, end), found, "space 1");
    }
    // In a space without shards that is the end.
    assert_equal(
        &rt,
        next_from(&shards, 0, 7, 1_048_576),
        1_048_576,
        "space 0",
    );
    assert_equal(
        &rt,
        next_from(&shards, 2, 64, 1_048_576),
        1_048_576,
        "space 2",
    );
    Ok(())
}

#[test]
fn shards_of_one_leaf_of_one_branch_and_of_two_are_found(rt: HostRuntime) -> Result<(), Fail> {
    // Pages, and the first page from there on whose shard is there.
    let rows = [
        (0, 192),
        (256, 320),
        (384, 2_560),
        (2_624, 19_200),
        (19_264, 1_048_576),
    ];
    let shards = four_shards_of_space_1(rt.alloc())?;
    for (page, found) in rows {
        assert_equal(&rt, next_from(&shards, 1, page, 1_048_576), found, page);
    }
    Ok(())
}

#[test]
fn each_shard_is_found_whatever_is_made_after_it(rt: HostRuntime) -> Result<(), Fail> {
    // Pages of a shard each, in the order in which they are set.
    let pages = [
        // Two shards of one run of 16, one of another run of the same 256, and more of both.
        200, 330, 2_570, 470, 2_650, 6_401,
        // Four shards of one run of 16 before one of another.
        19_210, 19_270, 19_455, 18_560, 32_767,
        // Two runs of 16 with one shard each, and the last two shards.
        38_400, 44_800, 1_048_575, 1_048_450,
    ];
    // Pages of other shards, in the same leaves and at the same places in other leaves.
    let absent = [
        5, 260, 1_224, 1_354, 16_584, 18_186, 20_234, 45_056, 1_047_551, 1_032_191,
    ];
    let mut shards = Shards::new(rt.alloc(), 3, BITS)?;
    for page in pages {
        hold_itself(&mut shards, page)?;
        // The pages up to this one are held, and those behind it are not.
        let mut is_set = true;
        for other in pages {
            let held = (is_set, if is_set { Some(other) } else { None });
            assert_equal(&rt, held_at(&shards, other), held, other);
            is_set &= other != page;
        }
        for other in absent {
            assert_equal(&rt, held_at(&shards, other), (false, None), other);
        }
    }
    Ok(())
}

/// Makes the shard of a page of space 1, and has the page hold the frame of its own number, if there is such a page.
fn hold_itself(shards: &mut Shards, page: u32) -> Result<(), NoMemory>
    requires { IsFalse (is_taken shards.old) }
    ensures { IsFalse (is_taken shards.new) }
{
    let place = Place { space: 1, page };
    if 1 < shards.spaces() && shards.bits() == BITS && page < 1 << (BITS - 12) {
        shards.make(&[place])?;
        if shards.has(place) {
            let entry = Entry {
                frame: page,
                rights: Rights::all(),
                status: Rights::none(),
            };
            shards.set(place, Some(entry));
        }
    }
    Ok(())
}

/// Whether the shard of a page of space 1 is there, and the frame that the page holds, if there is such a page.
fn held_at(shards: &Shards, page: u32) -> (bool, Option<u32>)
    requires { IsFalse (is_taken shards.now) }
{
    let place = Place { space: 1, page };
    if 1 >= shards.spaces() || page >= 1 << (shards.bits() - 12) {
        return (false, None);
    }
    (
        shards.has(place),
        shards.get(place).map(|entry| entry.frame),
    )
}

/// Three spaces, of which the second has four shards: two of one leaf, one of another leaf of the same branch, and one
/// of another branch.
fn four_shards_of_space_1(alloc: Global) -> Result<Shards, NoMemory>
    ensures { IfOk result (λ shards. IsFalse (is_taken shards)) }
{
    let mut shards = Shards::new(alloc, 3, BITS)?;
    shards.make(&[
        Place {
            space: 1,
            page: 19_200,
        },
        Place {
            space: 1,
            page: 320,
        },
        Place {
            space: 1,
            page: 2_560,
        },
        Place {
            space: 1,
            page: 192,
        },
    ])?;
    Ok(shards)
}

/// Three spaces, of which the second has the shards of its pages 70,017 and 1,048,575, and the third that of page 5.
fn two_shards_of_space_1(alloc: Global) -> Result<Shards, NoMemory>
    ensures { IfOk result (λ shards. IsFalse (is_taken shards)) }
{
    let mut shards = Shards::new(alloc, 3, BITS)?;
    shards.make(&[
        Place {
            space: 1,
            page: 70_017,
        },
        Place {
            space: 1,
            page: 1_048_575,
        },
        Place { space: 2, page: 5 },
    ])?;
    Ok(shards)
}

/// The first page of a space, from one on and before an end, whose shard is there and not dead, if there are such pages.
fn next_from(shards: &Shards, space: u16, page: u32, end: u32) -> u32 {
    if u32::from(space) >= shards.spaces() || page >= end || end > 1 << (shards.bits() - 12) {
        return 0;
    }
    shards.first_from(Place { space, page }, end)
}

#[test]
fn the_next_run_is_found_from_any_page(rt: HostRuntime) -> Result<(), Fail> {
    // Pages, ends, and the next run of held pages from there on and before the end.
    let rows = [
        (0, 1_048_576, 70_017..70_018),
        (70_018, 1_048_576, 70_020..70_023),
        (70_021, 1_048_576, 70_021..70_023),
        (70_021, 70_022, 70_021..70_022),
        // What is held beyond a shard is another run.
        (70_030, 1_048_576, 70_079..70_080),
        (70_080, 1_048_576, 1_048_575..1_048_576),
        (0, 70_017, 70_017..70_017),
        (70_018, 70_020, 70_020..70_020),
    ];
    let mut shards = two_shards_of_space_1(rt.alloc())?;
    for page in [70_017, 70_020, 70_021, 70_022, 70_079, 1_048_575] {
        hold(&mut shards, page);
    }
    for (page, end, run) in rows {
        assert_equal(&rt, next_run(&shards, page, end), run, page);
    }
    Ok(())
}

/// Has a page of space 1 hold something, if its shard is there.
fn hold(shards: &mut Shards, page: u32)
    requires { IsFalse (is_taken shards.old) }
    ensures { IsFalse (is_taken shards.new) }
{
    let place = Place { space: 1, page };
    if 1 < shards.spaces() && page < 1 << (shards.bits() - 12) && shards.has(place) {
        let entry = Entry {
            frame: 7,
            rights: Rights::all(),
            status: Rights::none(),
        };
        shards.set(place, Some(entry));
    }
}

/// The next run of held pages of space 1 from a page on and before an end, if there are such pages.
fn next_run(shards: &Shards, page: u32, end: u32) -> Range<u32>
    requires { IsFalse (is_taken shards.now) }
{
    if 1 >= shards.spaces() || page >= end || end > 1 << (shards.bits() - 12) {
        return 0..0;
    }
    shards.next_run(Place { space: 1, page }, end).pages
}

#[test]
fn a_shard_that_holds_nothing_is_passed_over_once_it_is_swept(rt: HostRuntime) -> Result<(), Fail> {
    let end = 1 << (BITS - 12);
    // Pages from which the first shard is searched for, and its first page: four are there, and two of them hold a page.
    let before = [
        (0, 192),
        (256, 320),
        (384, 2_560),
        (2_624, 19_200),
        (19_264, end),
    ];
    let after = [
        (0, 320),
        (256, 320),
        (384, 19_200),
        (2_624, 19_200),
        (19_264, end),
    ];
    // And once the one of page 2,560 holds a page again.
    let again = [
        (0, 320),
        (256, 320),
        (384, 2_560),
        (2_624, 19_200),
        (19_264, end),
    ];
    let mut shards = four_shards_of_space_1(rt.alloc())?;
    hold(&mut shards, 321);
    hold(&mut shards, 19_263);
    for (page, first) in before {
        assert_equal(&rt, next_from(&shards, 1, page, end), first, page);
    }
    // Of the shard of page 19,263 some pages alone are asked for.
    sweep(&mut shards, 0, 19_210);
    for (page, first) in after {
        assert_equal(&rt, next_from(&shards, 1, page, end), first, page);
    }
    hold(&mut shards, 2_561);
    for (page, first) in again {
        assert_equal(&rt, next_from(&shards, 1, page, end), first, page);
    }
    assert_equal(&rt, next_run(&shards, 322, end), 2_561..2_562, "held again");
    // While the words are away they may change, so no shard stays passed over.
    let words = shards.take_words();
    shards.put_words(words);
    assert_equal(&rt, next_from(&shards, 1, 0, end), 192, "put back");
    Ok(())
}

/// Sweeps pages of space 1, if there are such pages.
fn sweep(shards: &mut Shards, page: u32, end: u32)
    requires { IsFalse (is_taken shards.old) }
    ensures { IsFalse (is_taken shards.new) }
{
    if 1 < shards.spaces() && page < end && end <= 1 << (shards.bits() - 12) {
        shards.sweep(Place { space: 1, page }, end);
    }
}

/// How many pages `keeps_a_million_entries_over_512_spaces` holds.
const MILLION: u32 = 1_000_000;

/// The places one after another, each in the next space.
fn nth_place(n: u32) -> Place
    ensures space { result.space < 512 }
    ensures page { result.page < pages_of 24 }
{
    Place {
        space: (n % 512) as u16,
        page: n / 512 % 4096,
    }
}

#[test]
fn keeps_a_million_entries_over_512_spaces(rt: HostRuntime) -> Result<(), Fail> {
    let mut shards = Shards::new(rt.alloc(), 512, 24)?;
    for n in 0..MILLION {
        let entry = Entry {
            frame: n,
            rights: Rights::all(),
            status: Rights::none(),
        };
        let place = nth_place(n);
        shards.make_one(place)?;
        shards.set(place, Some(entry));
    }
    let mut frames = 0u64;
    for n in 0..MILLION {
        if let Some(entry) = shards.get(nth_place(n)) {
            frames = frames.wrapping_add(u64::from(entry.frame));
        }
    }
    // 0 + 1 + .. + 999,999
    assert_equal(&rt, frames, 499_999_500_000, "the sum of all frames");
    Ok(())
}
