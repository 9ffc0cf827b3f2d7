//! The sections that are read.
ghost use Rattle.std.specs.Prelude.{◌≡◌, List, [], ◌∷◌};
ghost use Rattle.vrplib_model.specs.Sections.{section_name, section_of, sections};

/// A section that is read (TSPLIB 95, VRPLIB, and the sections of this solver); any other is passed over.
#[derive(Clone, Copy, Debug, PartialEq, Eq, Hash)]
pub enum Section {
    /// `NODE_COORD_SECTION`: the coordinates of each node.
    NodeCoord,
    /// `DEMAND_SECTION`: what is delivered to each node.
    Demand,
    /// `BACKHAUL_SECTION`: what is picked up at each node.
    Backhaul,
    /// `TIME_WINDOW_SECTION`: when service at each node may begin.
    TimeWindow,
    /// `SERVICE_TIME_SECTION`: how long service takes at each node.
    ServiceTime,
    /// `RELEASE_TIME_SECTION`: when the goods of each node are at the depot.
    ReleaseTime,
    /// `PRIZE_SECTION`: what leaving each node out costs.
    Prize,
    /// `EDGE_WEIGHT_SECTION`: the legs, as numbers.
    EdgeWeight,
    /// `DEPOT_SECTION`: the nodes of the depots.
    Depot,
    /// `MUTUALLY_EXCLUSIVE_GROUP_SECTION`: groups of nodes of which one is visited.
    Group,
    /// `PROFILE_SECTION`: factors of distance and duration.
    Profile,
    /// `VEHICLE_TYPES_SECTION`: the vehicle types.
    VehicleTypes,
}

/// The sections that are read.
const SECTIONS: [Section; 12] = [
    Section::NodeCoord,
    Section::Demand,
    Section::Backhaul,
    Section::TimeWindow,
    Section::ServiceTime,
    Section::ReleaseTime,
    Section::Prize,
    Section::EdgeWeight,
    Section::Depot,
    Section::Group,
    Section::Profile,
    Section::VehicleTypes,
];

impl Section {
    /// The spelling in the file.
    fn name(self) -> &'static [u8]
        ensures { result.now ≡ section_name self }
    {
        match self {
            Section::NodeCoord => b"NODE_COORD_SECTION",
            Section::Demand => b"DEMAND_SECTION",
            Section::Backhaul => b"BACKHAUL_SECTION",
            Section::TimeWindow => b"TIME_WINDOW_SECTION",
            Section::ServiceTime => b"SERVICE_TIME_SECTION",
            Section::ReleaseTime => b"RELEASE_TIME_SECTION",
            Section::Prize => b"PRIZE_SECTION",
            Section::EdgeWeight => b"EDGE_WEIGHT_SECTION",
            Section::Depot => b"DEPOT_SECTION",
            Section::Group => b"MUTUALLY_EXCLUSIVE_GROUP_SECTION",
            Section::Profile => b"PROFILE_SECTION",
            Section::VehicleTypes => b"VEHICLE_TYPES_SECTION",
        }
    }

    /// The section that a key spells.
    #[tactic(auto, unfolding(crate::specs::Sections::section_of))]
    pub fn of_key(key: &[u8]) -> Option<Section>
        ensures { result ≡ section_of key.now }
    {
        SECTIONS
            .iter()
            .copied()
            .find(|section| section.name() == key)
    }
}
