//! What a work's lists make of a policy map, over the definitions alone.
ghost use Rattle.pol_kept_map.specs.Laws.{ListsLead};

/// Where a policy map has the table of a work, the list from that work to the next one makes it have the next one's table,
/// and no other entries.
pub fn lists_lead_from_map_to_map()
    ensures { ListsLead }
{}
