// Whole evenings: answers, pieces on and distances home.
use crate::evening::evening;
use crate::step::Step;
use fields::spot::Pair;
use history::calls::{Answer, Call, Granted};
use home_order::HomeOrderRule;
use rules::either::EitherRule;
use rules::ordered::OrderedRule;
use rules::rule::ClearingRule;
use solo::SoloRule;
use std::alloc::Global;
use std::process::Abort;
use std::test::Fail;
use tables::reserve::Reserve;

// Lane (capacity 1, order 1) and lift (capacity 2, order 2); two routes, lane then lift and lift then lane.
static EXAMPLE: Pair<'static> = Pair {
    venue: b"\x01\x00\x02V\x01\x10\x00\x0b\x00\x01\x01lane    \x10\x00\x0b\x00\x02\x02lift    \x7f\x00\x00",
    show: b"\x01\x00\x02S\x01 \x00\x02\x00\x02!\x00\x05\x01\x01\x00\x00\x01!\x00\x04\x00\x01\x00\x01 \x00\x02\x00\x02!\x00\x05\x01\x03\x01\x00\x01!\x00\x04\x00\x00\x00\x01\x7f\x00\x00",
};

// Room for 64 at one position.
static WIDE: Pair<'static> = Pair {
    venue: b"\x01\x00\x02V\x01\x10\x00\x0b\x00@\x01crew    \x7f\x00\x00",
    show: b"\x01\x00\x02S\x01 \x00\x02\x00\x01!\x00\x04\x00\x00\x00\x01\x7f\x00\x00",
};

// Two lanes; a route that goes from one lane on to a choice of both lanes, named first, or none.
static CHOICE: Pair<'static> = Pair {
    venue: b"\x01\x00\x02V\x01\x10\x00\x0b\x00\x02\x01lane    \x7f\x00\x00",
    show: b"\x01\x00\x02S\x01 \x00\x02\x00\x03!\x00\x06\x02\x02\x01\x00\x00\x01!\x00\x01\x00!\x00\x04\x00\x00\x00\x02\x7f\x00\x00",
};

const NOT_YET: Step = Step {
    call: Call::Clear,
    answer: Ok(Granted::Moved),
    pieces: 999,
    distance: 999,
};

// 0 for what is granted, else the refusal's number.
fn number_of(answer: Answer) -> u8 {
    match answer {
        Ok(_) => 0,
        Err(refusal) => u8::from(refusal),
    }
}

fn check_evening<R: ClearingRule + Drop>(
    rt: &impl Abort,
    heap: Global,
    pair: Pair<'_>,
    rule: R,
    calls: &[Call],
    answers: &[u8],
    distances: &[u16],
) -> Result<(), Fail> {
    let mut steps = [NOT_YET; 16];
    for (step, call) in steps.iter_mut().zip(calls.iter()) {
        step.call = *call;
    }
    if evening(Reserve::take(heap)?, pair, rule, &mut steps).is_err() {
        return Err(Fail::new("the pair is refused"));
    }
    for (n, step) in steps.iter().take(calls.len()).enumerate() {
        assert_eq!(rt;
            number_of(step.answer),
            answers.get(n).copied().unwrap_or(99)
        );
        assert_eq!(rt; step.distance, distances.get(n).copied().unwrap_or(99));
    }
    Ok(())
}

// Two pieces start, a third finds no room, and the stage is cleared between.
#[test]
fn the_shipped_run(rt: HostRuntime) -> Result<(), Fail> {
    check_evening(
        &rt,
        rt.alloc(),
        EXAMPLE,
        OrderedRule,
        &[
            Call::Start(0, 0),
            Call::Start(1, 1),
            Call::Start(2, 1),
            Call::Move(1, 3),
            Call::Clear,
            Call::Start(2, 1),
            Call::Clear,
            Call::Start(2, 1),
            Call::Leave(0),
            Call::Clear,
            Call::Clear,
            Call::Clear,
            Call::Clear,
            Call::Clear,
        ],
        &[0, 0, 8, 8, 0, 8, 0, 0, 4, 0, 0, 0, 0, 7],
        &[2, 4, 4, 4, 3, 3, 2, 4, 4, 3, 2, 1, 0, 0],
    )
}

// Every refusal of every call; 64 and 65,536 are no pieces, 63 is one.
#[test]
fn every_refusal(rt: HostRuntime) -> Result<(), Fail> {
    check_evening(
        &rt,
        rt.alloc(),
        EXAMPLE,
        OrderedRule,
        &[
            Call::Clear,
            Call::Start(64, 0),
            Call::Start(65536, 9),
            Call::Start(63, 2),
            Call::Start(63, 0),
            Call::Start(63, 1),
            Call::Move(64, 1),
            Call::Move(0, 1),
            Call::Move(63, 2),
            Call::Move(63, 65537),
            Call::Leave(64),
            Call::Leave(0),
            Call::Leave(63),
            Call::Move(63, 1),
            Call::Leave(63),
            Call::Clear,
        ],
        &[7, 1, 1, 2, 0, 3, 1, 4, 5, 5, 1, 4, 6, 0, 0, 7],
        &[0, 0, 0, 0, 2, 2, 2, 2, 2, 2, 2, 2, 2, 1, 0, 0],
    )
}

// The distance goes by the position that is named first, also where a piece goes the other way.
#[test]
fn a_choice_of_ways(rt: HostRuntime) -> Result<(), Fail> {
    check_evening(
        &rt,
        rt.alloc(),
        CHOICE,
        OrderedRule,
        &[
            Call::Start(0, 0),
            Call::Start(1, 0),
            Call::Move(0, 1),
            Call::Start(1, 0),
            Call::Move(1, 2),
            Call::Leave(0),
            Call::Clear,
            Call::Clear,
        ],
        &[0, 8, 0, 0, 0, 0, 0, 7],
        &[2, 2, 1, 3, 2, 1, 0, 0],
    )
}

// Every rule clears what it has let on, in as many calls as the distance home.
#[test]
fn every_rule(rt: HostRuntime) -> Result<(), Fail> {
    let calls = [
        Call::Start(0, 0),
        Call::Start(1, 1),
        Call::Clear,
        Call::Clear,
        Call::Clear,
        Call::Clear,
        Call::Clear,
    ];
    let answers = [0, 0, 0, 0, 0, 0, 7];
    let distances = [2, 4, 3, 2, 1, 0, 0];
    let heap = rt.alloc();
    let pair = EXAMPLE;
    check_evening(&rt, heap, pair, OrderedRule, &calls, &answers, &distances)?;
    check_evening(&rt, heap, pair, HomeOrderRule, &calls, &answers, &distances)?;
    let either = EitherRule {
        first: SoloRule,
        second: OrderedRule,
    };
    check_evening(&rt, heap, pair, either, &calls, &answers, &distances)?;
    check_evening(
        &rt,
        heap,
        pair,
        SoloRule,
        &calls,
        &[0, 8, 0, 0, 7, 7, 7],
        &[2, 2, 1, 0, 0, 0, 0],
    )
}

// 64 pieces start and are cleared.
#[test]
fn a_full_stage(rt: HostRuntime) -> Result<(), Fail> {
    let mut steps = [NOT_YET; 130];
    for (step, piece) in steps.iter_mut().zip(0..65u32) {
        step.call = Call::Start(piece, 0);
    }
    if evening(Reserve::take(rt.alloc())?, WIDE, OrderedRule, &mut steps).is_err() {
        return Err(Fail::new("the pair is refused"));
    }
    assert_eq!(rt; steps[63].pieces, 64);
    assert_eq!(rt; steps[63].distance, 64);
    assert_eq!(rt; number_of(steps[64].answer), 1);
    assert_eq!(rt; number_of(steps[127].answer), 0);
    assert_eq!(rt; steps[127].pieces, 1);
    assert_eq!(rt; number_of(steps[128].answer), 0);
    assert_eq!(rt; steps[128].pieces, 0);
    assert_eq!(rt; number_of(steps[129].answer), 7);
    Ok(())
}
