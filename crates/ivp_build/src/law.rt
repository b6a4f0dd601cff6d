// What the functions that are built here are worth at a point, for those who stand on them.
ghost use Rattle.ivp_build.specs.Places.{NearIsNearest};
ghost use Rattle.ivp_build.specs.Sums.{TopsLeaveRoom};
ghost use Rattle.ivp_build.specs.Worths.{ShapesAreWorth};

/// What holds of the pieces of each shape over every domain: at each point the value of the one piece there is the shape's
/// utility. It does nothing.
pub fn worth_law()
    ensures { ShapesAreWorth }
{}

/// What holds of the nearest place of every axis: no place is nearer, and each one before it is farther. It does nothing.
pub fn near_law()
    ensures { NearIsNearest }
{}

/// What holds of the greatest values of two functions: if they are together at most 100,000, there is room for the sum of
/// the functions. It does nothing.
pub fn room_law()
    ensures { TopsLeaveRoom }
{}
