//! The rules of the instance text.
ghost use Rattle.std.specs.Prelude.{◌≡◌};
ghost use Rattle.vrplib_model.specs.RuleNames.{key_name, rule_name, rule_number};

/// A keyword or section that a text must have, and lacks.
#[derive(Clone, Copy, Debug, PartialEq, Eq)]
pub enum Key {
    Dimension,
    EdgeWeightType,
    EdgeWeightFormat,
    NodeCoordSection,
    EdgeWeightSection,
}

/// A rule of the instance text (TSPLIB 95, VRPLIB), in the order in which a line is tested.
#[derive(Clone, Copy, Debug, PartialEq, Eq)]
pub enum Rule {
    /// A line has a zero byte.
    NotText,
    /// A line belongs to no section and is no keyword.
    NoKeyword,
    /// A keyword or section comes again.
    Repeated,
    /// A keyword or section is missing.
    Missing(Key),
    /// A token is no number, or not one of the right kind.
    BadNumber,
    /// A section has too few or too many rows, or a row too few or too many tokens.
    RowCount,
    /// A node does not exist, or comes again.
    BadNode,
    /// A keyword, section or value is not supported.
    Unsupported,
    /// A number is out of its limit.
    Limit,
    /// The depots are not the first nodes, or one of them has a demand or prize.
    BadDepot,
    /// A window ends before it begins.
    EmptyWindow,
    /// A vehicle type is wrong.
    BadVehicle,
    /// A group is wrong.
    BadGroup,
}

impl Key {
    /// The spelling in the file.
    pub fn name(&self) -> &'static str
        ensures { result.now ≡ key_name self.now }
    {
        match self {
            Key::Dimension => "DIMENSION",
            Key::EdgeWeightType => "EDGE_WEIGHT_TYPE",
            Key::EdgeWeightFormat => "EDGE_WEIGHT_FORMAT",
            Key::NodeCoordSection => "NODE_COORD_SECTION",
            Key::EdgeWeightSection => "EDGE_WEIGHT_SECTION",
        }
    }
}

impl Rule {
    /// The rule's number, from 1, by which programs print a refusal.
    pub fn number(&self) -> u32
        ensures { result ≡ rule_number self.now }
    {
        match self {
            Rule::NotText => 1,
            Rule::NoKeyword => 2,
            Rule::Repeated => 3,
            Rule::Missing(_) => 4,
            Rule::BadNumber => 5,
            Rule::RowCount => 6,
            Rule::BadNode => 7,
            Rule::Unsupported => 8,
            Rule::Limit => 9,
            Rule::BadDepot => 10,
            Rule::EmptyWindow => 11,
            Rule::BadVehicle => 12,
            Rule::BadGroup => 13,
        }
    }

    /// The rule's name, by which programs print a refusal; that of [`Rule::Missing`] does not say what is missing, which
    /// [`Key::name`] does.
    pub fn name(&self) -> &'static str
        ensures { result.now ≡ rule_name self.now }
    {
        match self {
            Rule::NotText => "NotText",
            Rule::NoKeyword => "NoKeyword",
            Rule::Repeated => "Repeated",
            Rule::Missing(_) => "Missing",
            Rule::BadNumber => "BadNumber",
            Rule::RowCount => "RowCount",
            Rule::BadNode => "BadNode",
            Rule::Unsupported => "Unsupported",
            Rule::Limit => "Limit",
            Rule::BadDepot => "BadDepot",
            Rule::EmptyWindow => "EmptyWindow",
            Rule::BadVehicle => "BadVehicle",
            Rule::BadGroup => "BadGroup",
        }
    }
}
