// The layout of lent memory: a table's word 0 is its count, then come rows of a fixed length. The names are those of the columns of specs/View.antt.
#![tactic(auto)]

// The most rows of a table.
pub const LANES: u64 = 1024;

pub const BOUNDARIES: u64 = 4096;

pub const ROADS: u64 = 256;

pub const JUNCTIONS: u64 = 256;

pub const RULES: u64 = 512;

pub const STOP_LINES: u64 = 512;

pub const CROSSWALKS: u64 = 128;

// Words of a row.
pub const LANE: usize = 52;

pub const BOUNDARY: usize = 5;

pub const ROAD: usize = 68;

pub const JUNCTION: usize = 69;

pub const RULE: usize = 330;

pub const STOP_LINE: usize = 4;

pub const CROSSWALK: usize = 7;

// Columns of a lane.
pub const LANE_ID: usize = 0;

pub const LANE_KIND: usize = 1;

pub const LANE_LEFT: usize = 2;

pub const LANE_LEFT_REVERSED: usize = 3;

pub const LANE_RIGHT: usize = 4;

pub const LANE_RIGHT_REVERSED: usize = 5;

pub const LANE_CENTERLINE: usize = 6;

pub const LANE_CENTERLINE_START: usize = 7;

pub const LANE_CENTERLINE_SIZE: usize = 8;

pub const LANE_SPEED: usize = 9;

pub const LANE_ONE_WAY: usize = 11;

pub const LANE_TURN: usize = 12;

pub const LANE_ATTRIBUTES: usize = 13;

pub const LEFT_SLOT: usize = 14;

pub const LEFT_LANE: usize = 15;

pub const RIGHT_SLOT: usize = 16;

pub const RIGHT_LANE: usize = 17;

pub const PREDECESSORS: usize = 18;

pub const SUCCESSORS: usize = 35;

pub const FIRST_PREDECESSOR: usize = 19;

pub const FIRST_SUCCESSOR: usize = 36;

// Columns of a boundary.
pub const BOUNDARY_ID: usize = 0;

pub const BOUNDARY_KIND: usize = 1;

pub const BOUNDARY_START: usize = 2;

pub const BOUNDARY_SIZE: usize = 3;

pub const BOUNDARY_ATTRIBUTES: usize = 4;

// Columns of a road.
pub const ROAD_ID: usize = 0;

pub const ROAD_NAME: usize = 1;

pub const ROAD_ATTRIBUTES: usize = 2;

pub const ROAD_LANES: usize = 3;

pub const ROAD_FIRST_LANE: usize = 4;

// Columns of a junction.
pub const JUNCTION_ID: usize = 0;

pub const JUNCTION_NAME: usize = 1;

pub const JUNCTION_OUTLINE: usize = 2;

pub const JUNCTION_ATTRIBUTES: usize = 3;

pub const JUNCTION_LANES: usize = 4;

pub const JUNCTION_FIRST_LANE: usize = 5;

// Columns of a rule.
pub const RULE_ID: usize = 0;

pub const RULE_KIND: usize = 1;

pub const RULE_CONTENT: usize = 2;

pub const RULE_ATTRIBUTES: usize = 3;

pub const RULE_CROSSWALK: usize = 4;

pub const RULE_LANES: usize = 5;

pub const RULE_CONTROLLED: usize = 70;

pub const RULE_STOP_LINES: usize = 135;

pub const RULE_PRIORITY: usize = 200;

pub const RULE_YIELDING: usize = 265;

// Columns of a stop line.
pub const STOP_LINE_ID: usize = 0;

pub const STOP_LINE_START: usize = 1;

pub const STOP_LINE_SIZE: usize = 2;

pub const STOP_LINE_ATTRIBUTES: usize = 3;

// Columns of a crosswalk.
pub const CROSSWALK_ID: usize = 0;

pub const CROSSWALK_LEFT_START: usize = 1;

pub const CROSSWALK_LEFT_SIZE: usize = 2;

pub const CROSSWALK_RIGHT_START: usize = 3;

pub const CROSSWALK_RIGHT_SIZE: usize = 4;

pub const CROSSWALK_OUTLINE: usize = 5;

pub const CROSSWALK_ATTRIBUTES: usize = 6;

// Kinds of rules: up to a traffic sign they have signals or sign data.
pub const TRAFFIC_SIGN: u64 = 1;

pub const STOP_LINE_RULE: u64 = 2;

pub const RIGHT_OF_WAY: u64 = 3;

pub const CROSSWALK_RULE: u64 = 4;

pub const OTHER: u64 = 5;

// Marks of a neighbour's slot.
pub const NONE: u64 = 0;

pub const SAME: u64 = 1;

pub const OPPOSITE: u64 = 2;

// Floats of a point.
pub const POINT: usize = 3;
