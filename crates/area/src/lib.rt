// The second map area of a job: tested, filled with the map's slices as they came, and the way back.
#![tactic(auto)]

ghost use Rattle.std.specs.Prelude.{◌≡◌, true, ◌≤◌, length, take};
ghost use Rattle.lent.specs.Lent.{map_tables, view_tables, SameSlices};
ghost use Rattle.area.specs.Area.{area_fits, copied, put_back};

use lent::{Map, MapView};
use lists::both;

// Whether each slice of the area is as long as the map's.
pub fn fits(map: MapView, old: MapView) -> bool
    ensures { result ≡ area_fits (view_tables map.entry) (view_tables old.entry) }
{
    let large = both(
        both(
            map.lanes.len() <= old.lanes.len(),
            map.boundaries.len() <= old.boundaries.len(),
        ),
        map.roads.len() <= old.roads.len(),
    );
    let middle = both(
        both(large, map.junctions.len() <= old.junctions.len()),
        map.rules.len() <= old.rules.len(),
    );
    both(
        both(
            both(middle, map.stop_lines.len() <= old.stop_lines.len()),
            map.crosswalks.len() <= old.crosswalks.len(),
        ),
        map.coordinates.len() <= old.coordinates.len(),
    )
}

// The map's slices at the front of the area.
pub fn keep_copy(map: MapView, old: &mut Map)
    requires { area_fits (view_tables map) (map_tables old.old) ≡ true }
    ensures made { map_tables old.new ≡ copied (view_tables map.entry) (map_tables old.old) }
    ensures same { SameSlices old.old old.new }
{
    let lanes = &mut *old.lanes;
    let boundaries = &mut *old.boundaries;
    let roads = &mut *old.roads;
    let junctions = &mut *old.junctions;
    let rules = &mut *old.rules;
    let stop_lines = &mut *old.stop_lines;
    let crosswalks = &mut *old.crosswalks;
    let coordinates = &mut *old.coordinates;
    slots::copy(map.lanes, lanes, 0);
    slots::copy(map.boundaries, boundaries, 0);
    slots::copy(map.roads, roads, 0);
    slots::copy(map.junctions, junctions, 0);
    slots::copy(map.rules, rules, 0);
    slots::copy(map.stop_lines, stop_lines, 0);
    slots::copy(map.crosswalks, crosswalks, 0);
    layout::copy(map.coordinates, 0, map.coordinates.len(), coordinates, 0);
}

// A slice filled from the front of another.
fn fill(from: &[u64], to: &mut [u64])
    requires { length to.old ≤ length from.now }
    ensures { to.new ≡ take (length to.old) from.now }
{
    let n = to.len();
    slots::copy(&from[..n], to, 0);
}

// The map's slices as the front of the area has them.
pub fn put_back(old: MapView, map: &mut Map)
    requires { area_fits (map_tables map.old) (view_tables old) ≡ true }
    ensures made { map_tables map.new ≡ put_back (map_tables map.old) (view_tables old.entry) }
    ensures same { SameSlices map.old map.new }
{
    let lanes = &mut *map.lanes;
    let boundaries = &mut *map.boundaries;
    let roads = &mut *map.roads;
    let junctions = &mut *map.junctions;
    let rules = &mut *map.rules;
    let stop_lines = &mut *map.stop_lines;
    let crosswalks = &mut *map.crosswalks;
    let coordinates = &mut *map.coordinates;
    fill(old.lanes, lanes);
    fill(old.boundaries, boundaries);
    fill(old.roads, roads);
    fill(old.junctions, junctions);
    fill(old.rules, rules);
    fill(old.stop_lines, stop_lines);
    fill(old.crosswalks, crosswalks);
    let n = coordinates.len();
    layout::copy(old.coordinates, 0, n, coordinates, 0);
}

// The front of the area, as long as the map's slices.
pub fn front<'a>(map: MapView, area: MapView<'a>) -> MapView<'a>
    requires { area_fits (view_tables map) (view_tables area) ≡ true }
    ensures { view_tables result ≡ put_back (view_tables map.entry) (view_tables area.entry) }
{
    MapView {
        lanes: &area.lanes[..map.lanes.len()],
        boundaries: &area.boundaries[..map.boundaries.len()],
        roads: &area.roads[..map.roads.len()],
        junctions: &area.junctions[..map.junctions.len()],
        rules: &area.rules[..map.rules.len()],
        stop_lines: &area.stop_lines[..map.stop_lines.len()],
        crosswalks: &area.crosswalks[..map.crosswalks.len()],
        coordinates: &area.coordinates[..map.coordinates.len()],
    }
}
