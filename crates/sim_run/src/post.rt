use device_script::Runner;
use hs_base::PointId;

/// What a run keeps of a timeline: the end of its current token, and the script that its device
/// runs, if it runs one.
#[derive(Drop)]
pub struct Post {
    pub end: PointId,
    pub script: Option<Runner>,
}
