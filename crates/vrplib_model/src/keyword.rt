//! The keywords that are read.
ghost use Rattle.std.specs.Prelude.{◌≡◌};
ghost use Rattle.vrplib_model.specs.Keywords.{is_distance, is_of_vehicles, keyword_name, keyword_of};

/// A keyword that is read (TSPLIB 95, VRPLIB); any other is passed over.
#[derive(Clone, Copy, Debug, PartialEq, Eq)]
pub enum Keyword {
    /// `DIMENSION`: the number of nodes.
    Dimension,
    /// `EDGE_WEIGHT_TYPE`: where the legs come from.
    EdgeWeightType,
    /// `EDGE_WEIGHT_FORMAT`: how legs in the text are laid out.
    EdgeWeightFormat,
    /// `CAPACITY`: what a vehicle carries.
    Capacity,
    /// `VEHICLES`: how many vehicles there are.
    Vehicles,
    /// `SERVICE_TIME`: how long service takes at each client.
    ServiceTime,
    /// `MAX_DURATION`: the longest route in time.
    MaxDuration,
    /// `MAX_DISTANCE`: the longest route in distance.
    MaxDistance,
}

/// The keywords that are read.
const KEYWORDS: [Keyword; 8] = [
    Keyword::Dimension,
    Keyword::EdgeWeightType,
    Keyword::EdgeWeightFormat,
    Keyword::Capacity,
    Keyword::Vehicles,
    Keyword::ServiceTime,
    Keyword::MaxDuration,
    Keyword::MaxDistance,
];

impl Keyword {
    /// The spelling in the file.
    fn name(self) -> &'static [u8]
        ensures { result.now ≡ keyword_name self }
    {
        match self {
            Keyword::Dimension => b"DIMENSION",
            Keyword::EdgeWeightType => b"EDGE_WEIGHT_TYPE",
            Keyword::EdgeWeightFormat => b"EDGE_WEIGHT_FORMAT",
            Keyword::Capacity => b"CAPACITY",
            Keyword::Vehicles => b"VEHICLES",
            Keyword::ServiceTime => b"SERVICE_TIME",
            Keyword::MaxDuration => b"MAX_DURATION",
            Keyword::MaxDistance => b"MAX_DISTANCE",
        }
    }

    /// The keyword that a key spells.
    #[tactic(auto, unfolding(crate::specs::Keywords::keyword_of))]
    pub fn of_key(key: &[u8]) -> Option<Keyword>
        ensures { result ≡ keyword_of key.now }
    {
        KEYWORDS
            .iter()
            .copied()
            .find(|keyword| keyword.name() == key)
    }
}

/// Whether the key is `DISTANCE`, a limit that doesn't say whether it holds services.
pub fn is_distance(key: &[u8]) -> bool
    ensures { result ≡ is_distance key.now }
{
    key == b"DISTANCE".as_slice()
}

/// Whether the key is one of vehicles that isn't read, and would change the problem.
#[tactic(auto, unfolding(crate::specs::Keywords::is_of_vehicles))]
pub fn is_of_vehicles(key: &[u8]) -> bool
    ensures { result ≡ is_of_vehicles key.now }
{
    key.starts_with(b"VEHICLES_")
}
