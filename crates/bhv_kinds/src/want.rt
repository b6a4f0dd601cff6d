// What a behaviour wants, before a function is built of it.
use bhv_file::BhvFault;
use ivp_build::Peak;

/// What a behaviour wants in a step, by the few numbers that its function is made of: a peak on one axis, a greatest depth, to
/// go on a course in whole degrees at a speed, or to stay. All but the degrees are in thousandths.
#[derive(Clone, Copy)]
pub enum Want {
    OnCourse(Peak),
    OnSpeed(Peak),
    OnDepth(Peak),
    AtMostDeep { limit: i64, basewidth: i64 },
    Travel { degree: u16, speed: u64 },
    Stay,
}

/// What a step aims at: a want or none, whether the behaviour is done, and a fault or none.
#[derive(Clone, Copy)]
pub struct Aim {
    pub want: Option<Want>,
    pub done: bool,
    pub fault: Option<BhvFault>,
}
