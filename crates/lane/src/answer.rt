// What a function answers that is given a lane's index: its value, or that the vector has no such lane.

// The index is not below the number of lanes; a shuffle has an index that is not below 32.
#[derive(Clone, Copy, Debug, PartialEq, Eq)]
pub struct NoSuchLane;
