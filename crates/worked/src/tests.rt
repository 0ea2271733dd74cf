// The rules asked about placings of worked pairs.
use fields::spot::Pair;
use figures::stage::Stage;
use home_order::HomeOrderRule;
use opening::open;
use rules::either::EitherRule;
use rules::ordered::OrderedRule;
use rules::placing::OFF;
use rules::room::RoomRule;
use rules::rule::{AdmissionRule, ClearingRule};
use solo::SoloRule;
use std::alloc::Global;
use std::process::Abort;
use std::test::Fail;
use tables::reserve::Reserve;

// Lane (order 1) and lift (capacity 2, order 2); two routes, lane then lift and lift then lane.
static ONE_LANE: &[u8] =
    b"\x01\x00\x02V\x01\x10\x00\x0b\x00\x01\x01lane    \x10\x00\x0b\x00\x02\x02lift    \x7f\x00\x00";

static TWO_LANES: &[u8] =
    b"\x01\x00\x02V\x01\x10\x00\x0b\x00\x02\x01lane    \x10\x00\x0b\x00\x02\x02lift    \x7f\x00\x00";

static LANE_LIFT: &[u8] =
    b"\x01\x00\x02S\x01 \x00\x02\x00\x02!\x00\x05\x01\x01\x00\x00\x01!\x00\x04\x00\x01\x00\x01 \x00\x02\x00\x02!\x00\x05\x01\x03\x01\x00\x01!\x00\x04\x00\x00\x00\x01\x7f\x00\x00";

// One unit each of orders 1, 3 and 5; two routes, a then c then b, and b then a.
static THREE: &[u8] =
    b"\x01\x00\x02V\x01\x10\x00\x0b\x00\x01\x01a       \x10\x00\x0b\x00\x01\x03b       \x10\x00\x0b\x00\x01\x05c       \x7f\x00\x00";

static CROSSED: &[u8] =
    b"\x01\x00\x02S\x01 \x00\x02\x00\x03!\x00\x05\x01\x01\x00\x00\x01!\x00\x05\x01\x02\x02\x00\x01!\x00\x04\x00\x01\x00\x01 \x00\x02\x00\x02!\x00\x05\x01\x04\x01\x00\x01!\x00\x04\x00\x00\x00\x01\x7f\x00\x00";

fn stage_of(heap: Global, venue: &[u8], show: &[u8]) -> Result<Stage, Fail> {
    match open(Reserve::take(heap)?, Pair { venue, show }) {
        Ok(stage) => Ok(stage),
        Err(_) => Err(Fail::new("the pair is refused")),
    }
}

// The first pieces at these positions, the others off.
fn placed(positions: &[u16]) -> [u16; 64] {
    let mut placing = [OFF; 64];
    for (piece, position) in placing.iter_mut().zip(positions.iter()) {
        *piece = *position;
    }
    placing
}

// The rule's answer for a list, from a space that was in use.
fn check_admits<R: AdmissionRule>(
    rt: &impl Abort,
    rule: &R,
    stage: &Stage,
    list: &[u16],
    allowed: bool,
) {
    let mut space = [9u16; 64];
    assert_eq!(rt; rule.allows(stage, list, &mut space), allowed);
    assert_eq!(rt; space, [0u16; 64]);
}

fn check_names<R: ClearingRule>(
    rt: &impl Abort,
    rule: &R,
    stage: &Stage,
    list: &[u16],
    named: Option<u8>,
) {
    let mut space = [9u16; 64];
    assert_eq!(rt; rule.name(stage, list, &mut space), named);
    assert_eq!(rt; space, [0u16; 64]);
}

// What the room rule, the ordered rule, the home-order rule and the rule for one piece answer.
fn check_allowed(rt: &impl Abort, stage: &Stage, list: &[u16], answers: [bool; 4]) {
    check_admits(rt, &RoomRule, stage, list, answers[0]);
    check_admits(rt, &OrderedRule, stage, list, answers[1]);
    check_admits(rt, &HomeOrderRule, stage, list, answers[2]);
    check_admits(rt, &SoloRule, stage, list, answers[3]);
    let either = EitherRule {
        first: OrderedRule,
        second: HomeOrderRule,
    };
    check_admits(rt, &either, stage, list, answers[1] || answers[2]);
}

// Whom the ordered rule, the home-order rule, either of them and the rule for one piece name.
fn check_named(rt: &impl Abort, stage: &Stage, list: &[u16], names: [Option<u8>; 4]) {
    check_names(rt, &OrderedRule, stage, list, names[0]);
    check_names(rt, &HomeOrderRule, stage, list, names[1]);
    let either = EitherRule {
        first: OrderedRule,
        second: HomeOrderRule,
    };
    check_names(rt, &either, stage, list, names[2]);
    check_names(rt, &SoloRule, stage, list, names[3]);
}

#[test]
fn lane_and_lift(rt: HostRuntime) -> Result<(), Fail> {
    let stage = stage_of(rt.alloc(), ONE_LANE, LANE_LIFT)?;
    check_allowed(&rt, &stage, &placed(&[]), [true, true, true, true]);
    check_named(&rt, &stage, &placed(&[]), [None, None, None, None]);
    check_allowed(&rt, &stage, &placed(&[0, 2]), [true, true, true, false]);
    check_named(
        &rt,
        &stage,
        &placed(&[0, 2]),
        [Some(0), Some(0), Some(0), None],
    );
    check_allowed(
        &rt,
        &stage,
        &placed(&[0, 2, 2]),
        [true, false, false, false],
    );
    check_named(&rt, &stage, &placed(&[0, 2, 2]), [None, None, None, None]);
    check_allowed(&rt, &stage, &placed(&[0, 3]), [false, false, false, false]);
    check_allowed(&rt, &stage, &placed(&[OFF, 1]), [true, true, true, true]);
    check_named(
        &rt,
        &stage,
        &placed(&[OFF, 1]),
        [Some(1), Some(1), Some(1), Some(1)],
    );
    Ok(())
}

// Equal lowest orders: the lower number. A piece that can not go first: the next that can.
#[test]
fn names_on_a_tie_and_in_the_way(rt: HostRuntime) -> Result<(), Fail> {
    let stage = stage_of(rt.alloc(), ONE_LANE, LANE_LIFT)?;
    check_named(
        &rt,
        &stage,
        &placed(&[OFF, 2, 1]),
        [Some(1), Some(1), Some(1), None],
    );
    check_named(
        &rt,
        &stage,
        &placed(&[2, 0]),
        [Some(1), Some(1), Some(1), None],
    );
    Ok(())
}

#[test]
fn two_lanes(rt: HostRuntime) -> Result<(), Fail> {
    let stage = stage_of(rt.alloc(), TWO_LANES, LANE_LIFT)?;
    check_allowed(&rt, &stage, &placed(&[0, 2, 2]), [true, false, true, false]);
    check_named(
        &rt,
        &stage,
        &placed(&[0, 2, 2]),
        [None, Some(1), Some(1), None],
    );
    Ok(())
}

#[test]
fn crossed_routes(rt: HostRuntime) -> Result<(), Fail> {
    let stage = stage_of(rt.alloc(), THREE, CROSSED)?;
    check_allowed(&rt, &stage, &placed(&[0, 3]), [true, true, false, false]);
    check_named(
        &rt,
        &stage,
        &placed(&[0, 3]),
        [Some(0), None, Some(0), None],
    );
    Ok(())
}

// A list of another length, and numbers that are no position.
#[test]
fn malformed_lists(rt: HostRuntime) -> Result<(), Fail> {
    let stage = stage_of(rt.alloc(), ONE_LANE, LANE_LIFT)?;
    for list in [
        &[OFF; 63] as &[u16],
        &[OFF; 65],
        &[],
        &placed(&[4]),
        &placed(&[OFF, 65534]),
    ] {
        check_allowed(&rt, &stage, list, [false, false, false, false]);
        check_named(&rt, &stage, list, [None, None, None, None]);
    }
    Ok(())
}
