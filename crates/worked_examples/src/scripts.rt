//! Lines that several examples have, and what they write.

pub const HEAD: &str = r#"{"terra":1,"depth":0,"reach":0}"#;

pub const SHOT: &str = r#"{"do":"shot"}"#;

pub const STATS: &str = r#"{"do":"stats"}"#;

/// Fills the one point in the middle of the world.
pub const MIDDLE: &str = r#"{"do":"box","mode":"fill","lo":[8,8,8],"hi":[8,8,8]}"#;

/// The shot of a world before any event.
pub const EMPTY_SHOT: &str = "\
o shot_1
# events 0
";

/// The line of stats of a world without a mesh: one leaf.
pub const NO_MESH: &str = "# stats leaves 1 triangles 0 keys 0\n";

/// The shot of a world whose one solid point is the middle: an octahedron of half a cell.
pub const MIDDLE_SHOT: &str = "\
o shot_1
# events 1
g b0_0_0_0
v 8.00000000 8.00000000 7.50000000
v 8.00000000 7.50000000 8.00000000
v 7.50000000 8.00000000 8.00000000
v 8.50000000 8.00000000 8.00000000
v 8.00000000 8.50000000 8.00000000
v 8.00000000 8.00000000 8.50000000
f 1 2 3
f 1 4 2
f 1 3 5
f 1 5 4
f 2 6 3
f 2 4 6
f 3 6 5
f 4 5 6
";
