// id.rs, entities.rs, topology.rs, diagnostics.rs: the types that go by value. The records of a map (lane, boundary, road ..) lie in
// lent memory; their definitions are in specs/Records.antt.
#![tactic(auto)]

ghost use Rattle.std.specs.Prelude.{◌≡◌, Some};
ghost use Rattle.entities.specs.Types as T;

// ---- entities.rs

// Left or right, along the direction of travel.
#[derive(Clone, Copy, PartialEq, Eq)]
pub enum Side {
    Left,
    Right,
}

impl Side {
    pub fn opposite(self) -> Side
        ensures { result ≡ T.opposite self }
    {
        match self {
            Side::Left => Side::Right,
            Side::Right => Side::Left,
        }
    }
}

// A lane's reference to one of its boundaries; reversed where the lane runs against it.
#[derive(Clone, Copy)]
pub struct BoundaryRef {
    pub boundary: u64,
    pub reversed: bool,
}

impl BoundaryRef {
    pub fn forward(boundary: u64) -> Self
        ensures { result ≡ T.forward boundary }
    {
        Self {
            boundary,
            reversed: false,
        }
    }
}

// ---- topology.rs

#[derive(Clone, Copy, PartialEq, Eq)]
pub enum NeighborDirection {
    Same,
    Opposite,
}

#[derive(Clone, Copy, PartialEq, Eq)]
pub struct Neighbor {
    pub lane: u64,
    pub direction: NeighborDirection,
}

impl Neighbor {
    pub fn same(lane: u64) -> Self
        ensures { result ≡ T.same lane }
    {
        Self {
            lane,
            direction: NeighborDirection::Same,
        }
    }

    pub fn opposite(lane: u64) -> Self
        ensures { result ≡ T.opposing lane }
    {
        Self {
            lane,
            direction: NeighborDirection::Opposite,
        }
    }
}

// On which side of the neighbour the lane stands, whose neighbour on `side` it is.
pub fn reciprocal_side(side: Side, direction: NeighborDirection) -> Side
    ensures { result ≡ T.reciprocal_side side direction }
{
    match direction {
        NeighborDirection::Same => side.opposite(),
        NeighborDirection::Opposite => side,
    }
}

// ---- edit/split.rs

// Where to split a lane, along its centreline.
#[derive(Clone, Copy)]
pub enum SplitAt {
    Fraction(f64),
    Station(f64),
}

// ---- ops.rs

// An edit as data: the six commands.
#[derive(Clone, Copy)]
pub enum Command {
    SplitLane {
        lane: u64,
        at: SplitAt,
        include_neighbors: bool,
    },
    MergeLanes {
        first: u64,
        second: u64,
    },
    ConnectLanes {
        from: u64,
        to: u64,
    },
    DisconnectLanes {
        from: u64,
        to: u64,
    },
    SetNeighbor {
        lane: u64,
        side: Side,
        neighbor: Option<Neighbor>,
    },
    RemoveLane {
        lane: u64,
    },
}

// ---- edit/mod.rs

// The three distances that decide an edit, in metres.
#[derive(Clone, Copy)]
pub struct Tolerance {
    pub piece: f64,
    pub gap: f64,
    pub join: f64,
}

impl Tolerance {
    // The least length of a piece that a split leaves.
    pub const MIN_PIECE_LENGTH: f64 = 0.1;
    // Linked lanes further apart than this are warned of.
    pub const GAP_TOLERANCE: f64 = 0.1;
    // A line joined to another drops its first point where the ends are nearer than this.
    pub const JOINING_DISTANCE: f64 = 1e-6;
    // A boundary crosses a split where more than this lies on either side.
    pub const CROSSING_MARGIN: f64 = 1e-6;

    // The numbers of document 01.
    pub fn preset() -> Self
        ensures { result ≡ T.preset }
    {
        Self {
            piece: Self::MIN_PIECE_LENGTH,
            gap: Self::GAP_TOLERANCE,
            join: Self::JOINING_DISTANCE,
        }
    }
}

// ---- id.rs

// The counter of ids: the next to be allocated; 0 counts as 1. A host keeps one beside its tables.
#[repr(C)]
#[derive(Clone, Copy)]
pub struct Counter {
    pub next: u64,
}

#[derive(Clone, Copy)]
pub enum EntityKind {
    Lane,
    Boundary,
    Road,
    Junction,
    StopLine,
    TrafficSignal,
    Crosswalk,
    RegulatoryElement,
}

// The kind's place in document 01's order.
impl From<EntityKind> for u64 {
    ghost from_gives = { λ kind number. number ≡ T.kind_number kind };

    fn from(kind: EntityKind) -> u64 {
        match kind {
            EntityKind::Lane => 0,
            EntityKind::Boundary => 1,
            EntityKind::Road => 2,
            EntityKind::Junction => 3,
            EntityKind::StopLine => 4,
            EntityKind::TrafficSignal => 5,
            EntityKind::Crosswalk => 6,
            EntityKind::RegulatoryElement => 7,
        }
    }
}

// A kind and an id.
#[derive(Clone, Copy)]
pub struct EntityRef {
    pub kind: EntityKind,
    pub id: u64,
}

// ---- diagnostics.rs

#[derive(Clone, Copy)]
pub enum Severity {
    Info,
    Warning,
    Error,
}

impl From<Severity> for u64 {
    ghost from_gives = { λ severity number. number ≡ T.severity_number severity };

    fn from(severity: Severity) -> u64 {
        match severity {
            Severity::Info => 0,
            Severity::Warning => 1,
            Severity::Error => 2,
        }
    }
}

// The codes that the six edits raise.
#[derive(Clone, Copy)]
pub enum IssueCode {
    NoOp,
    GeometricGap,
    BoundaryUnshared,
    NeighborDropped,
    OrphanRule,
    AttributeConflict,
}

// The code's place in the module `codes` of diagnostics.rs, from 0.
impl From<IssueCode> for u64 {
    ghost from_gives = { λ code number. number ≡ T.code_number code };

    fn from(code: IssueCode) -> u64 {
        match code {
            IssueCode::NoOp => 1,
            IssueCode::GeometricGap => 2,
            IssueCode::BoundaryUnshared => 3,
            IssueCode::NeighborDropped => 4,
            IssueCode::OrphanRule => 5,
            IssueCode::AttributeConflict => 8,
        }
    }
}

// ---- refusals, by document 01's numbers 1 to 11

#[derive(Clone, Copy)]
pub enum Refusal {
    LaneAbsent(u64),
    FractionOutside,
    PositionOutside(u64),
    OwnPartner(u64),
    NotMergeable(u64),
    BoundaryAbsent(u64),
    NoUsableLine(u64),
    NotCrossing(u64),
    Unsound,
    NoRoom,
    NoIds,
}

impl From<Refusal> for u64 {
    ghost from_gives = { λ refusal number. number ≡ T.refusal_number refusal };

    fn from(refusal: Refusal) -> u64 {
        match refusal {
            Refusal::LaneAbsent(_) => 1,
            Refusal::FractionOutside => 2,
            Refusal::PositionOutside(_) => 3,
            Refusal::OwnPartner(_) => 4,
            Refusal::NotMergeable(_) => 5,
            Refusal::BoundaryAbsent(_) => 6,
            Refusal::NoUsableLine(_) => 7,
            Refusal::NotCrossing(_) => 8,
            Refusal::Unsound => 9,
            Refusal::NoRoom => 10,
            Refusal::NoIds => 11,
        }
    }
}

impl Refusal {
    // The entity that a refusal names.
    pub fn entity(self) -> Option<EntityRef>
        ensures { result ≡ T.refusal_entity self }
    {
        match self {
            Refusal::LaneAbsent(l) => named(EntityKind::Lane, l),
            Refusal::FractionOutside => None,
            Refusal::PositionOutside(l) => named(EntityKind::Lane, l),
            Refusal::OwnPartner(l) => named(EntityKind::Lane, l),
            Refusal::NotMergeable(l) => named(EntityKind::Lane, l),
            Refusal::BoundaryAbsent(b) => named(EntityKind::Boundary, b),
            Refusal::NoUsableLine(l) => named(EntityKind::Lane, l),
            Refusal::NotCrossing(b) => named(EntityKind::Boundary, b),
            Refusal::Unsound => None,
            Refusal::NoRoom => None,
            Refusal::NoIds => None,
        }
    }
}

fn named(kind: EntityKind, id: u64) -> Option<EntityRef>
    ensures { result ≡ Some (record { kind = kind; id = id }) }
{
    Some(EntityRef { kind, id })
}
