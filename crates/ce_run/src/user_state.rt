//! What a user has between two commands.
use ce_cube::SerialCrew;
use ce_host::Host;

/// What a user has between commands.
#[derive(Drop)]
pub(crate) enum UserState {
    /// The user holds no cube.
    HomeHost(Host),
    /// The user holds a cube, with this crew.
    CubeCrew(SerialCrew),
}
