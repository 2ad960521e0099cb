// All lanes: the loop that the operations of all shapes share, and what goes by words of several lanes.
pub(crate) mod choosing;
pub(crate) mod counting;
pub(crate) mod each;
pub(crate) mod lanewise;
pub(crate) mod narrowing;
pub(crate) mod pairing;
pub(crate) mod signs;
pub(crate) mod single;
pub(crate) mod testing;
pub(crate) mod widening;
