//! What holds of all loads, for the proofs of callers. Each function changes nothing.

ghost use Rattle.exh_load.specs.OneMap.{LoadsAreOneMaps, NewMapsAreNone};

/// Where the maps of a file's wards are together one map, so are those that a load leaves in them: that
/// of the map machine over all pairs in order, those that it answers Full left out; and what is printed
/// of the lines is what it answers. Those of a new file are together the empty map.
pub fn loads_are_one_maps()
    ensures one { LoadsAreOneMaps }
    ensures new { NewMapsAreNone }
{}
