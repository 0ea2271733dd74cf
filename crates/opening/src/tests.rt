// The figures of worked pairs, and the sheets on rows of every kind.
use crate::open;
use fields::spot::Pair;
use figures::claim::Claim;
use figures::stage::Stage;
use refusals::Refusal;
use std::alloc::Global;
use std::process::Abort;
use std::test::Fail;
use tables::reserve::Reserve;

// Lane (capacity 1, order 1) and lift (capacity 2, order 2); two routes, lane then lift and lift then lane.
static VENUE: &[u8] =
    b"\x01\x00\x02V\x01\x10\x00\x0b\x00\x01\x01lane    \x10\x00\x0b\x00\x02\x02lift    \x7f\x00\x00";

static SHOW: &[u8] =
    b"\x01\x00\x02S\x01 \x00\x02\x00\x02!\x00\x05\x01\x01\x00\x00\x01!\x00\x04\x00\x01\x00\x01 \x00\x02\x00\x02!\x00\x05\x01\x03\x01\x00\x01!\x00\x04\x00\x00\x00\x01\x7f\x00\x00";

// One unit each of orders 3, 1 and 5, held in turn.
static FALLING_VENUE: &[u8] =
    b"\x01\x00\x02V\x01\x10\x00\x0b\x00\x01\x03a       \x10\x00\x0b\x00\x01\x01b       \x10\x00\x0b\x00\x01\x05c       \x7f\x00\x00";

static FALLING_SHOW: &[u8] =
    b"\x01\x00\x02S\x01 \x00\x02\x00\x03!\x00\x05\x01\x01\x00\x00\x01!\x00\x05\x01\x02\x01\x00\x01!\x00\x04\x00\x02\x00\x01\x7f\x00\x00";

// Capacities 4, 4, 2 and orders 2, 3, 1; two routes, each with a choice of ways.
static CHOICE_VENUE: &[u8] =
    b"\x01\x00\x02V\x01\x10\x00\x0b\x00\x04\x02r1      \x10\x00\x0b\x00\x04\x03r2      \x10\x00\x0b\x00\x02\x01r3      \x7f\x00\x00";

static CHOICE_SHOW: &[u8] =
    b"\x01\x00\x02S\x01 \x00\x02\x00\x05!\x00\x05\x01\x01\x00\x00\x02!\x00\x06\x02\x03\x02\x00\x00\x03!\x00\x08\x01\x04\x00\x00\x01\x02\x00\x01!\x00\x05\x01\x04\x00\x00\x04!\x00\x04\x00\x01\x00\x01 \x00\x02\x00\x04!\x00\x05\x01\x06\x01\x00\x01!\x00\x06\x02\x07\x08\x01\x00\x03!\x00\x04\x00\x00\x00\x01!\x00\x07\x00\x01\x00\x01\x02\x00\x01\x7f\x00\x00";

fn stage_of(heap: Global, venue: &[u8], show: &[u8]) -> Result<Stage, Fail> {
    match open(Reserve::take(heap)?, Pair { venue, show }) {
        Ok(stage) => Ok(stage),
        Err(_) => Err(Fail::new("the pair is refused")),
    }
}

fn number_of(answer: Result<(), Refusal>) -> u8 {
    match answer {
        Ok(_) => 0,
        Err(refusal) => u8::from(refusal),
    }
}

// The length sheet has these lengths, and leaves the entries behind them.
fn check_lengths(rt: &impl Abort, stage: &Stage, lengths: &[u16]) {
    let mut row = [7777u16; 10];
    assert_eq!(rt; number_of(stage.length_sheet(&mut row)), 0);
    for (p, length) in row.iter().enumerate() {
        assert_eq!(rt; *length, lengths.get(p).copied().unwrap_or(7777));
    }
}

// The claim sheet of a resource has these amounts, set by these positions, and leaves the entries behind them.
fn check_claims(rt: &impl Abort, stage: &Stage, resource: usize, amounts: &[u16], setters: &[u16]) {
    let mut row = [Claim {
        amount: 7777,
        position: 8888,
    }; 10];
    assert_eq!(rt; number_of(stage.claim_sheet(resource, &mut row)), 0);
    for (p, claim) in row.iter().enumerate() {
        assert_eq!(rt; claim.amount, amounts.get(p).copied().unwrap_or(7777));
        assert_eq!(rt; claim.position, setters.get(p).copied().unwrap_or(8888));
    }
}

#[test]
fn lane_and_lift(rt: HostRuntime) -> Result<(), Fail> {
    let stage = stage_of(rt.alloc(), VENUE, SHOW)?;
    check_lengths(&rt, &stage, &[2, 1, 2, 1]);
    check_claims(&rt, &stage, 0, &[1, 0, 0, 1], &[0, 1, 2, 3]);
    check_claims(&rt, &stage, 1, &[1, 1, 1, 0], &[1, 1, 2, 3]);
    Ok(())
}

#[test]
fn orders_three_one_five(rt: HostRuntime) -> Result<(), Fail> {
    let stage = stage_of(rt.alloc(), FALLING_VENUE, FALLING_SHOW)?;
    check_lengths(&rt, &stage, &[3, 2, 1]);
    check_claims(&rt, &stage, 0, &[1, 0, 0], &[0, 1, 2]);
    check_claims(&rt, &stage, 1, &[0, 1, 0], &[0, 1, 2]);
    check_claims(&rt, &stage, 2, &[1, 1, 1], &[2, 2, 2]);
    Ok(())
}

#[test]
fn choice_of_ways(rt: HostRuntime) -> Result<(), Fail> {
    let stage = stage_of(rt.alloc(), CHOICE_VENUE, CHOICE_SHOW)?;
    check_lengths(&rt, &stage, &[4, 3, 2, 2, 1, 3, 2, 1, 1]);
    check_claims(
        &rt,
        &stage,
        0,
        &[4, 4, 1, 4, 0, 0, 0, 1, 0],
        &[3, 3, 2, 3, 4, 5, 6, 7, 8],
    );
    check_claims(
        &rt,
        &stage,
        1,
        &[1, 1, 1, 1, 1, 3, 3, 0, 1],
        &[4, 4, 4, 4, 4, 6, 6, 7, 8],
    );
    check_claims(
        &rt,
        &stage,
        2,
        &[0, 0, 1, 0, 0, 0, 0, 0, 1],
        &[0, 1, 2, 3, 4, 5, 6, 7, 8],
    );
    Ok(())
}

// A row of 3 is shorter than the show of 4 positions; the resource is asked for first.
#[test]
fn refusals_leave_the_row(rt: HostRuntime) -> Result<(), Fail> {
    let stage = stage_of(rt.alloc(), VENUE, SHOW)?;
    let mut lengths = [7777u16; 3];
    assert_eq!(rt; number_of(stage.length_sheet(&mut lengths)), 12);
    for length in lengths.iter() {
        assert_eq!(rt; *length, 7777);
    }
    let mut claims = [Claim {
        amount: 7777,
        position: 8888,
    }; 3];
    assert_eq!(rt; number_of(stage.claim_sheet(2, &mut claims)), 11);
    assert_eq!(rt; number_of(stage.claim_sheet(1, &mut claims)), 12);
    for claim in claims.iter() {
        assert!(rt; claim.amount == 7777 && claim.position == 8888);
    }
    Ok(())
}

#[test]
fn what_is_no_position(rt: HostRuntime) -> Result<(), Fail> {
    let stage = stage_of(rt.alloc(), VENUE, SHOW)?;
    assert_eq!(rt; stage.length(4), 1);
    assert_eq!(rt; stage.lowest(4), 256);
    assert_eq!(rt; stage.claim(0, 65535).amount, 0);
    assert_eq!(rt; stage.claim(2, 0).amount, 0);
    Ok(())
}
