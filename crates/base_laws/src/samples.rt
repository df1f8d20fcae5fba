ghost use Rattle.hs_base.specs.Missions.{IsMission};
ghost use Rattle.base_laws.specs.Samples.{smallest, camera};

/// The smallest mission is a mission.
pub fn the_smallest_mission_is_one()
    ensures { IsMission smallest }
{}

/// The camera mission is a mission.
pub fn the_camera_mission_is_one()
    ensures { IsMission camera }
{}
