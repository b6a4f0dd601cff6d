// Updates of behaviours, and what stays of those that are refused; what steps give.
use crate::steps::acts;
use bhv_file::{Shape, Spec};
use bhv_kinds::Kind;

// A behaviour that keeps its station where it is first stepped.
#[tactic(auto, using(bhv_kinds::proofs::KindExamples::station_valid))]
pub(crate) fn station() -> Kind {
    Kind::make(Spec {
        weight: 100_000,
        shape: Shape::StationKeep {
            station_pt: None,
            center_activate: true,
            inner_radius: 4000,
            outer_radius: 15_000,
            outer_speed: 1200,
        },
    })
}

// Each pair is good or none is taken, and the relations are judged behind the last of them.
const UPDATES: &str = "no 100000 inner_radius=15
yes 100000 inner_radius=20 # outer_radius=30
yes 100000 inner_radius=29
no 100000 center_activate=false
yes 7900 PWT = 7.9
no 7900 pwt=8#outer_speed=fast
no 7900 pwt=8#
yes 9000 center_activate=false#point=1,2#pwt=9";

#[test]
fn updates(rt: HostRuntime) {
    acts(&rt, rt.alloc(), station(), UPDATES);
}

// A behaviour of each type, with the parameters that it has by itself if only one is given.
#[tactic(auto, using(bhv_kinds::proofs::KindExamples::course_valid))]
fn course() -> Kind {
    Kind::make(Spec {
        weight: 100_000,
        shape: Shape::Heading {
            heading: 0,
            peakwidth: 90_000,
            basewidth: 90_000,
            summitdelta: 25_000,
        },
    })
}

#[tactic(auto, using(bhv_kinds::proofs::KindExamples::speed_valid))]
fn speed() -> Kind {
    Kind::make(Spec {
        weight: 100_000,
        shape: Shape::Speed {
            speed: 0,
            peakwidth: 1_000,
            basewidth: 1_000,
            summitdelta: 25_000,
        },
    })
}

#[tactic(auto, using(bhv_kinds::proofs::KindExamples::depth_valid))]
fn depth() -> Kind {
    Kind::make(Spec {
        weight: 100_000,
        shape: Shape::Depth {
            depth: 0,
            peakwidth: 10_000,
            basewidth: 10_000,
            summitdelta: 25_000,
        },
    })
}

#[tactic(auto, using(bhv_kinds::proofs::KindExamples::limit_valid))]
fn limit() -> Kind {
    Kind::make(Spec {
        weight: 100_000,
        shape: Shape::MaxDepth {
            max_depth: 0,
            basewidth: 20_000,
        },
    })
}

#[tactic(auto, using(bhv_kinds::proofs::KindExamples::timer_valid))]
fn timer() -> Kind {
    Kind::make(Spec {
        weight: 100_000,
        shape: Shape::Timer,
    })
}

#[tactic(auto, using(bhv_kinds::proofs::KindExamples::region_valid))]
fn region() -> Kind {
    Kind::make(Spec {
        weight: 100_000,
        shape: Shape::OpRegion {
            polygon: None,
            max_depth: None,
            max_time: None,
        },
    })
}

const COURSE: &str = "yes 100000 heading=90
gives - - course 75000 100000 75000 75000";

const SPEED: &str = "yes 100000 speed=1
gives - - speed 75000 75000 100000 75000";

const DEPTH: &str = "yes 100000 depth=10
gives - - depth 75000 75000 75000 100000";

const LIMIT: &str = "yes 100000 max_depth=9.9
gives - - depth 100000 100000 100000 50000";

const TIMER: &str = "yes 7000 pwt=7
gives - - none";

// A constant course, speed and depth, a greatest depth, and a timer, which gives nothing.
#[test]
fn steady_steps(rt: HostRuntime) {
    let alloc = rt.alloc();
    acts(&rt, alloc, course(), COURSE);
    acts(&rt, alloc, speed(), SPEED);
    acts(&rt, alloc, depth(), DEPTH);
    acts(&rt, alloc, limit(), LIMIT);
    acts(&rt, alloc, timer(), TIMER);
}

// Ten by ten, twenty deep, for five seconds from the first step on: the first fault of several is told.
const REGION: &str = "yes 100000 polygon=0,0:0,10:10,10:10,0#max_depth=20#max_time=5
at - - 21000 60000 NoPosition
at 10000 5000 20000 64999 none
at - - 21000 65000 NoPosition
at 10001 5000 21000 65000 OutsidePolygon
at 10000 5000 20001 65000 TooDeep
at 10000 5000 20000 65000 TooLate";

#[test]
fn region_faults(rt: HostRuntime) {
    acts(&rt, rt.alloc(), region(), REGION);
}
