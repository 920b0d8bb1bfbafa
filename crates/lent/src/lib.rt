// What a call is lent, as one value each: the eight slices of a map, and the four lists of an answer. An edit that leaves some of them borrows those to read.
#![tactic(auto)]

ghost use Rattle.std.specs.Prelude.{◌≡◌};
ghost use Rattle.lent.specs.Lent.{map_tables, view_tables, SeenAs};

// A map in lent memory, for reading.
#[derive(Clone, Copy)]
pub struct MapView<'a> {
    pub lanes: &'a [u64],
    pub boundaries: &'a [u64],
    pub roads: &'a [u64],
    pub junctions: &'a [u64],
    pub rules: &'a [u64],
    pub stop_lines: &'a [u64],
    pub crosswalks: &'a [u64],
    pub coordinates: &'a [f64],
}

// A map in lent memory.
#[derive(Drop)]
pub struct Map<'a> {
    pub lanes: &'a mut [u64],
    pub boundaries: &'a mut [u64],
    pub roads: &'a mut [u64],
    pub junctions: &'a mut [u64],
    pub rules: &'a mut [u64],
    pub stop_lines: &'a mut [u64],
    pub crosswalks: &'a mut [u64],
    pub coordinates: &'a mut [f64],
}

impl<'a> Map<'a> {
    pub fn view(&self) -> MapView<'_>
        ensures { view_tables result ≡ map_tables self.now }
    {
        MapView {
            lanes: self.lanes,
            boundaries: self.boundaries,
            roads: self.roads,
            junctions: self.junctions,
            rules: self.rules,
            stop_lines: self.stop_lines,
            crosswalks: self.crosswalks,
            coordinates: self.coordinates,
        }
    }
}

// Those of its slices that have lines, and the coordinates.
#[derive(Drop)]
pub struct Lines<'a> {
    pub lanes: &'a mut [u64],
    pub boundaries: &'a mut [u64],
    pub stop_lines: &'a mut [u64],
    pub crosswalks: &'a mut [u64],
    pub coordinates: &'a mut [f64],
}

// The lists that an accepted call fills.
#[derive(Drop)]
pub struct Lists<'a> {
    pub created: &'a mut [u64],
    pub modified: &'a mut [u64],
    pub deleted: &'a mut [u64],
    pub warnings: &'a mut [u64],
}

// The same, for reading.
#[derive(Clone, Copy)]
pub struct ListsView<'a> {
    pub created: &'a [u64],
    pub modified: &'a [u64],
    pub deleted: &'a [u64],
    pub warnings: &'a [u64],
}

impl<'a> Lists<'a> {
    pub fn view(&self) -> ListsView<'_>
        ensures { SeenAs self.now result }
    {
        ListsView {
            created: self.created,
            modified: self.modified,
            deleted: self.deleted,
            warnings: self.warnings,
        }
    }
}

// A map whose links and neighbors change: the lanes alone are written.
#[derive(Drop)]
pub struct RelinkMap<'a> {
    pub lanes: &'a mut [u64],
    pub boundaries: &'a [u64],
    pub roads: &'a [u64],
    pub junctions: &'a [u64],
    pub rules: &'a [u64],
    pub stop_lines: &'a [u64],
    pub crosswalks: &'a [u64],
    pub coordinates: &'a [f64],
}

// The lists of such a change, which creates and deletes nothing.
#[derive(Drop)]
pub struct RelinkLists<'a> {
    pub created: &'a [u64],
    pub modified: &'a mut [u64],
    pub deleted: &'a [u64],
    pub warnings: &'a mut [u64],
}

// A map that a lane is taken from: no line but those of boundaries is touched, and no coordinate.
#[derive(Drop)]
pub struct RemovalMap<'a> {
    pub lanes: &'a mut [u64],
    pub boundaries: &'a mut [u64],
    pub roads: &'a mut [u64],
    pub junctions: &'a mut [u64],
    pub rules: &'a mut [u64],
    pub stop_lines: &'a [u64],
    pub crosswalks: &'a [u64],
    pub coordinates: &'a [f64],
}

// The lists of a removal, which creates nothing.
#[derive(Drop)]
pub struct RemovalLists<'a> {
    pub created: &'a [u64],
    pub modified: &'a mut [u64],
    pub deleted: &'a mut [u64],
    pub warnings: &'a mut [u64],
}
