// The writers on spaces of every kind, and the way there and back.
use crate::again::read_again;
use crate::compare::first_difference;
use fields::spot::Pair;
use files::pair::read;
use refusals::TooShort;
use std::alloc::Global;
use std::process::Abort;
use std::test::Fail;
use tables::reserve::Reserve;
use tables::tables::Tables;
use writer::encode::write;

static VENUE: &[u8] =
    b"\x01\x00\x02V\x01\x10\x00\x0b\x00\x01\x01lane    \x10\x00\x0b\x00\x02\x02lift    \x7f\x00\x00";

static SHOW: &[u8] =
    b"\x01\x00\x02S\x01 \x00\x02\x00\x02!\x00\x05\x01\x01\x00\x00\x01!\x00\x04\x00\x01\x00\x01 \x00\x02\x00\x02!\x00\x05\x01\x03\x01\x00\x01!\x00\x04\x00\x00\x00\x01\x7f\x00\x00";

fn example(heap: Global) -> Result<Tables, Fail> {
    let pair = Pair {
        venue: VENUE,
        show: SHOW,
    };
    match read(Reserve::take(heap)?, pair) {
        Ok(tables) => Ok(tables),
        Err(_) => Err(Fail::new("the example is refused")),
    }
}

// Before the call the space was all 0xaa.
fn check_space(rt: &impl Abort, written: Result<usize, TooShort>, file: &[u8], space: &[u8]) {
    let short = space.len() < file.len();
    match written {
        Ok(length) => assert!(rt; !short && length == file.len()),
        Err(e) => assert!(rt; short && e.needed == file.len()),
    }
    for (i, byte) in space.iter().enumerate() {
        let expected = if short {
            0xaa
        } else {
            file.get(i).copied().unwrap_or(0xaa)
        };
        assert_eq!(rt; *byte, expected);
    }
}

#[test]
fn writes_into_any_space(rt: HostRuntime) -> Result<(), Fail> {
    let heap = rt.alloc();
    let tables = example(heap)?;
    for size in [0usize, 35, 36, 37] {
        let mut space = vec![in heap; 0xaau8; size]?;
        let written = write(&tables.venue, space.as_mut_slice());
        check_space(&rt, written, VENUE, space.as_slice());
    }
    for size in [0usize, 47, 48, 49] {
        let mut space = vec![in heap; 0xaau8; size]?;
        let written = write(&tables.show, space.as_mut_slice());
        check_space(&rt, written, SHOW, space.as_slice());
    }
    Ok(())
}

#[test]
fn reads_what_it_wrote(rt: HostRuntime) -> Result<(), Fail> {
    let heap = rt.alloc();
    let tables = example(heap)?;
    let mut venue = vec![in heap; 0u8; 36]?;
    let mut show = vec![in heap; 0u8; 48]?;
    match read_again(
        Reserve::take(heap)?,
        &tables,
        venue.as_mut_slice(),
        show.as_mut_slice(),
    ) {
        Ok(again) => assert_eq!(rt; again.positions().len(), 4),
        Err(_) => return Err(Fail::new("a space is too short")),
    }
    assert_eq!(rt; first_difference(venue.as_slice(), VENUE), None);
    assert_eq!(rt; first_difference(show.as_slice(), SHOW), None);
    Ok(())
}

#[test]
fn finds_the_first_difference(rt: HostRuntime) {
    assert_eq!(rt; first_difference(b"lane", b"lane"), None);
    assert_eq!(rt; first_difference(b"lane", b"line"), Some(1));
    assert_eq!(rt; first_difference(b"lane", b"lanes"), Some(4));
    assert_eq!(rt; first_difference(b"", b"x"), Some(0));
}
