// ops.rs: a command on a map that is known to be sound, one arm for each edit.
#![tactic(auto)]

ghost use Rattle.std.specs.Prelude.{◌≡◌, true};
ghost use Rattle.step.specs.Step.{given};
ghost use Rattle.tables.specs.Formed.{sound_tables};
ghost use Rattle.report.specs.Report.{counter_behind};
ghost use Rattle.rules.specs.Ops as O;
ghost use Rattle.step.specs.Step as S;
ghost use Rattle.lent.specs.Lent.{map_tables, SameSlices, SameLists};
ghost use Rattle.dispatch.specs.Relinks.{command_of};

use entities::{Command, Neighbor, Side, Tolerance};
use lent::{Lists, Map, RelinkLists, RelinkMap, RemovalLists, RemovalMap};
use report::Answer;

// The commands that write lanes alone.
#[derive(Clone, Copy)]
pub enum Relink {
    Connect {
        from: u64,
        to: u64,
    },
    Disconnect {
        from: u64,
        to: u64,
    },
    SetNeighbor {
        lane: u64,
        side: Side,
        neighbor: Option<Neighbor>,
    },
}

// One of them, with the rest of the map lent to read.
fn edit_links(
    counter: u64,
    tolerance: Tolerance,
    map: &mut Map,
    edit: Relink,
    lists: &mut Lists,
) -> Answer
    requires { sound_tables counter (map_tables map.old) ≡ true }
    ensures made { S.ended (given counter map.new lists.new) result ≡ S.step tolerance (command_of edit) (given counter map.old lists.old) }
    ensures same { SameSlices map.old map.new }
    ensures same_lists { SameLists lists.old lists.new }
{
    let mut map = RelinkMap {
        lanes: &mut *map.lanes,
        boundaries: &mut *map.boundaries,
        roads: &mut *map.roads,
        junctions: &mut *map.junctions,
        rules: &mut *map.rules,
        stop_lines: &mut *map.stop_lines,
        crosswalks: &mut *map.crosswalks,
        coordinates: &mut *map.coordinates,
    };
    let mut lists = RelinkLists {
        created: &mut *lists.created,
        modified: &mut *lists.modified,
        deleted: &mut *lists.deleted,
        warnings: &mut *lists.warnings,
    };
    match edit {
        Relink::Connect { from, to } => {
            edit::connect(counter, tolerance, &mut map, from, to, &mut lists)
        }
        Relink::Disconnect { from, to } => {
            edit::disconnect(counter, tolerance, &mut map, from, to, &mut lists)
        }
        Relink::SetNeighbor {
            lane,
            side,
            neighbor,
        } => edit::set_neighbor(
            counter, tolerance, &mut map, lane, side, neighbor, &mut lists,
        ),
    }
}

// A removal, with the lines that it leaves lent to read.
fn remove(counter: u64, tolerance: Tolerance, map: &mut Map, lane: u64, lists: &mut Lists) -> Answer
    requires { sound_tables counter (map_tables map.old) ≡ true }
    ensures made { S.ended (given counter map.new lists.new) result ≡ S.step tolerance (O.RemoveLane lane) (given counter map.old lists.old) }
    ensures same { SameSlices map.old map.new }
    ensures same_lists { SameLists lists.old lists.new }
{
    let mut map = RemovalMap {
        lanes: &mut *map.lanes,
        boundaries: &mut *map.boundaries,
        roads: &mut *map.roads,
        junctions: &mut *map.junctions,
        rules: &mut *map.rules,
        stop_lines: &mut *map.stop_lines,
        crosswalks: &mut *map.crosswalks,
        coordinates: &mut *map.coordinates,
    };
    let mut lists = RemovalLists {
        created: &mut *lists.created,
        modified: &mut *lists.modified,
        deleted: &mut *lists.deleted,
        warnings: &mut *lists.warnings,
    };
    edit_lane::remove_lane(counter, tolerance, &mut map, lane, &mut lists)
}

// A command on a sound map.
pub fn dispatch(
    counter: u64,
    tolerance: Tolerance,
    map: &mut Map,
    command: Command,
    lists: &mut Lists,
) -> Answer
    requires { sound_tables counter (map_tables map.old) ≡ true }
    ensures made { S.ended (given (counter_behind counter result) map.new lists.new) result ≡ S.step tolerance command (given counter map.old lists.old) }
    ensures same { SameSlices map.old map.new }
    ensures same_lists { SameLists lists.old lists.new }
{
    match command {
        Command::SplitLane {
            lane,
            at,
            include_neighbors,
        } => edit_split::split_lane(counter, tolerance, map, lane, at, include_neighbors, lists),
        Command::MergeLanes { first, second } => {
            edit_merge::merge_lanes(counter, tolerance, map, first, second, lists)
        }
        Command::ConnectLanes { from, to } => {
            let edit = Relink::Connect { from, to };
            edit_links(counter, tolerance, map, edit, lists)
        }
        Command::DisconnectLanes { from, to } => {
            let edit = Relink::Disconnect { from, to };
            edit_links(counter, tolerance, map, edit, lists)
        }
        Command::SetNeighbor {
            lane,
            side,
            neighbor,
        } => {
            let edit = Relink::SetNeighbor {
                lane,
                side,
                neighbor,
            };
            edit_links(counter, tolerance, map, edit, lists)
        }
        Command::RemoveLane { lane } => remove(counter, tolerance, map, lane, lists),
    }
}
