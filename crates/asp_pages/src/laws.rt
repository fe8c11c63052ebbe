//! Laws of regions.
ghost use Rattle.asp_pages.specs.Laws.{RegionsPart, RegionsAreCounted, RegionsAreOnBase};

/// The regions part the sets that come after a set, or all sets, and the sets of each come before those of the next; there
/// are as many as the count says, and the atoms of each ascend and are the base's.
pub fn regions_part_the_sets()
    ensures parts { RegionsPart }
    ensures counted { RegionsAreCounted }
    ensures on_base { RegionsAreOnBase }
{}
