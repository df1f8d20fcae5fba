// The laws at two small missions.
ghost use Rattle.std.specs.Prelude.{◌≡◌};
ghost use Rattle.hs_texts.specs.MissionText.{MissionText};
ghost use Rattle.hs_texts.specs.CanonicalText.{canonical};
ghost use Rattle.text_laws.specs.Samples.{smallest_pieces, smallest, camera_pieces, camera, camera_text};

/// The pieces of two small missions spell them.
pub fn the_samples_are_spelled()
    ensures smallest { MissionText smallest_pieces smallest }
    ensures camera { MissionText camera_pieces camera }
{}

/// The camera's mission is printed line by line.
pub fn the_camera_is_printed()
    ensures { canonical camera ≡ camera_text }
{}
